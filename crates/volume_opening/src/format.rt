// Formatting a blank device.
ghost use Rattle.std.specs.Prelude.{◌≡◌, ◌≢◌, ◌≤◌, ◌⊎◌, Contains, IfSome, OnErr, OnOk};
ghost use Rattle.vol_base.specs.Faults.{Rose};
ghost use Rattle.vol_layout.specs.Ranges.{IsGeometry};
ghost use Rattle.vol_layout.specs.Regions.{total};
ghost use Rattle.image_view.specs.Formatted.{IsFormatted};
ghost use Rattle.image_view.specs.Images.{IsBlank};
ghost use Rattle.shared_disk.specs.Prefixes.{EachImage};
ghost use Rattle.volume_opening.specs.Blanked.{Blanked};
ghost use Rattle.shared_disk.specs.State.{with_told};
ghost use Rattle.volume_opening.specs.Openings.{WasBlank};

use shared_disk::{Device, DiskNo};
use vol_base::Key;
use vol_layout::{Geometry, Kind};

/// Writes the blank blocks of a volume in the order of their places, and its superblock last. Until then
/// the device stays blank.
pub fn format<D: Device>(disk: &mut D, key: Key, geometry: &Geometry) -> Result<(), DiskNo>
    requires key { Contains (D.state disk.old).keys key.0 }
    requires geometry { IsGeometry geometry.now }
    requires long { total geometry.now ≤ (D.state disk.old).blocks }
    requires blank { WasBlank (D.state disk.old).told }
    ensures formatted { OnOk result (IfSome (D.state disk.new).told (λ told. IsFormatted geometry.now told.image)) }
    ensures images { OnOk result (EachImage (λ image. IsBlank image ⊎ IsFormatted geometry.now image) (D.state disk.old).told (D.state disk.new).told) }
    ensures unformatted { OnErr result (EachImage IsBlank (D.state disk.old).told (D.state disk.new).told) }
    ensures only { D.state disk.new ≡ with_told (D.state disk.new).told (D.state disk.old) }
    ensures fenced { result ≢ Err DiskNo.Fenced }
    ensures no_keys { result ≢ Err DiskNo.NoKeys }
    ensures failed { result ≡ Err DiskNo.Failed → Rose (D.faults disk.old) (D.faults disk.new) }
    ensures later { D.faults disk.old ≤ D.faults disk.new }
{
    let behind_tables = geometry.place(Kind::Log(0, 0));
    let end = geometry.total();
    let further_tables = u64::from(geometry.files) * u64::from(geometry.tables - 1);
    write_blanks(disk, key, geometry, 1, behind_tables)?;
    write_blanks(disk, key, geometry, end - further_tables, end)?;
    disk.write(key, 0, &geometry.write())
}

// Writes the blank blocks of the places from one on to before another.
fn write_blanks<D: Device>(
    disk: &mut D,
    key: Key,
    geometry: &Geometry,
    from: u64,
    to: u64,
) -> Result<(), DiskNo>
    requires key { Contains (D.state disk.old).keys key.0 }
    requires geometry { IsGeometry geometry.now }
    requires behind { 1 ≤ from }
    requires order { from ≤ to }
    requires inside { to ≤ (D.state disk.old).blocks }
    requires blank { WasBlank (D.state disk.old).told }
    ensures done { OnOk result (Blanked geometry.now from to (D.state disk.old) (D.state disk.new)) }
    ensures images { EachImage IsBlank (D.state disk.old).told (D.state disk.new).told }
    ensures only { D.state disk.new ≡ with_told (D.state disk.new).told (D.state disk.old) }
    ensures fenced { result ≢ Err DiskNo.Fenced }
    ensures no_keys { result ≢ Err DiskNo.NoKeys }
    ensures failed { result ≡ Err DiskNo.Failed → Rose (D.faults disk.old) (D.faults disk.new) }
    ensures later { D.faults disk.old ≤ D.faults disk.new }
{
    for place in from..to {
        disk.write(key, place, &geometry.blank(place))?;
    }
    Ok(())
}
