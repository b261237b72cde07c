// The geometry and the logical numbers of an image.
ghost use Rattle.std.specs.Prelude.{◌≡◌, ◌≤◌, IfSome, IfNone, length};
ghost use Rattle.vol_layout.specs.declared.geometry.Geometry.{Geometry};
ghost use Rattle.vol_layout.specs.Fields.{HasField};
ghost use Rattle.vol_layout.specs.Ranges.{HasKind};
ghost use Rattle.image_view.specs.Blocks.{IsVolumeOf, image_of};
ghost use Rattle.image_view.specs.Images.{block_at};
ghost use Rattle.image_view.specs.Numbers.{field, logical};

use crate::slow::journals::edit_in;
use vol_base::Block;
use vol_layout::{Field, Geometry, Kind};

/// The geometry of the volume that the image holds; `None` where block 0 spells none, or the image is
/// too short for it.
pub fn geometry(image: &[Block]) -> Option<Geometry>
    ensures volume { IfSome result (λ geometry. IsVolumeOf geometry (image_of image.now)) }
    ensures none { IfNone result ((geometry : Geometry) → IsVolumeOf geometry (image_of image.now) → ⊥) }
{
    let found = Geometry::read(image.first()?).ok()?;
    if found.total() <= image.len() as u64 {
        Some(found)
    } else {
        None
    }
}

/// The number that counts for a field: that of the standing edit of the field, or that in its table.
pub fn logical(image: &[Block], geometry: &Geometry, what: &Field) -> u32
    requires volume { IsVolumeOf geometry.now (image_of image.now) }
    requires what { HasField geometry.now what.now }
    ensures { result ≡ logical geometry.now (image_of image.now) what.now }
{
    for host in 0..geometry.hosts {
        if let Some(number) = edit_in(block(image, geometry, Kind::Journal(host)), what) {
            return number;
        }
    }
    in_table(image, geometry, what)
}

// The number in the field's table.
fn in_table(image: &[Block], geometry: &Geometry, what: &Field) -> u32
    requires volume { IsVolumeOf geometry.now (image_of image.now) }
    requires what { HasField geometry.now what.now }
    ensures { result ≡ field geometry.now (image_of image.now) what.now }
{
    let table = block(image, geometry, Kind::Table(geometry.table_of(what)));
    match what.entry() {
        None => table.u32_at(12),
        Some(entry) => table.u32_at(64 + 4 * entry as usize),
    }
}

/// The block of a kind.
pub fn block<'a>(image: &'a [Block], geometry: &Geometry, kind: Kind) -> &'a Block
    requires volume { IsVolumeOf geometry.now (image_of image.now) }
    requires kind { HasKind geometry.now kind }
    ensures { result.now.0 ≡ block_at geometry.now (image_of image.now) kind }
{
    &image[geometry.place(kind) as usize]
}
