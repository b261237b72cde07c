// Opening a device for a workload.
ghost use Rattle.std.specs.Prelude.{◌≡◌, ◌≢◌, ◌↔◌, ◌≤◌, Contains, IfErr, IfSome, IsTrue, None, OnOk};
ghost use Rattle.vol_base.specs.Faults.{Rose};
ghost use Rattle.vol_layout.specs.Ranges.{IsGeometry};
ghost use Rattle.vol_layout.specs.Regions.{total};
ghost use Rattle.image_view.specs.Images.{first_block};
ghost use Rattle.shared_disk.specs.Calls.{last_counter};
ghost use Rattle.shared_disk.specs.Prefixes.{EachImage};
ghost use Rattle.volume_opening.specs.Found.{IsFound, found_geometry};
ghost use Rattle.volume_opening.specs.Misfits.{misfit_with};
ghost use Rattle.shared_disk.specs.State.{with_told};
ghost use Rattle.volume_opening.specs.Openings.{IsOnTheWay, IsOpened, IsVisited, WasBlank};
ghost use Rattle.volume_opening.specs.Refusals.{IsLeft, IsRefused, KeepsContent};

use crate::block_zero::{Found, read_block_zero};
use crate::format::format;
use crate::misfit::find_misfit;
use crate::open_no::OpenNo;
use crate::volume::{judge, list_faults};
use shared_disk::Device;
use std::alloc::Global;
use vol_base::Key;
use vol_layout::Geometry;

/// Opens a device for a workload of this geometry: a blank device becomes an empty volume, and any other
/// one has to be a valid volume of this geometry, which stays as it is. It registers a key for host 0,
/// and fences it at its end unless a call of the device failed. docs/FORMATS.md, "Opening", has the order
/// of the calls.
pub fn open<D: Device>(alloc: Global, disk: &mut D, geometry: &Geometry) -> Result<(), OpenNo>
    requires { IsGeometry geometry.now }
    ensures opened { OnOk result (IsOpened geometry.now (D.state disk.old) (D.state disk.new)) }
    ensures long { OnOk result (total geometry.now ≤ (D.state disk.old).blocks) }
    ensures refused { IfErr result (IsRefused geometry.now (D.state disk.old) (D.state disk.new)) }
    ensures no_keys { (result ≡ Err OpenNo.NoKeys) ↔ ((D.state disk.old).counter ≡ last_counter) }
    ensures failed { result ≡ Err OpenNo.Failed → Rose (D.faults disk.old) (D.faults disk.new) }
    ensures later { D.faults disk.old ≤ D.faults disk.new }

    ensures images { EachImage (IsOnTheWay geometry.now (D.state disk.old).told) (D.state disk.old).told (D.state disk.new).told }
    ensures used { (WasBlank (D.state disk.old).told → ⊥) → (D.state disk.new).told ≡ (D.state disk.old).told }
    ensures visited { OnOk result (IsVisited (D.state disk.old) (D.state disk.new)) }
    ensures left { IfErr result (IsLeft (D.state disk.old) (D.state disk.new)) }
    ensures blocks { (D.state disk.new).blocks ≡ (D.state disk.old).blocks }
{
    let key = match disk.register(0) {
        Ok(key) => key,
        Err(refusal) => return Err(OpenNo::from(refusal)),
    };
    let opened = open_under(alloc, disk, key, geometry);
    if is_failure(&opened) {
        return opened;
    }
    match disk.fence(key, key) {
        Ok(()) => opened,
        Err(_) => Err(OpenNo::Failed),
    }
}

fn is_failure(opened: &Result<(), OpenNo>) -> bool
    ensures { IsTrue result ↔ (opened.now ≡ Err OpenNo.Failed) }
{
    matches!(opened, Err(OpenNo::Failed))
}

// The opening under a registered key.
fn open_under<D: Device>(
    alloc: Global,
    disk: &mut D,
    key: Key,
    geometry: &Geometry,
) -> Result<(), OpenNo>
    requires key { Contains (D.state disk.old).keys key.0 }
    requires geometry { IsGeometry geometry.now }
    ensures opened { OnOk result (IsOpened geometry.now (D.state disk.old) (D.state disk.new)) }
    ensures long { OnOk result (total geometry.now ≤ (D.state disk.old).blocks) }
    ensures refused { IfErr result (IsRefused geometry.now (D.state disk.old) (D.state disk.new)) }
    ensures kept { IfErr result (KeepsContent (D.state disk.old).told (D.state disk.new).told) }
    ensures no_keys { result ≢ Err OpenNo.NoKeys }
    ensures failed { result ≡ Err OpenNo.Failed → Rose (D.faults disk.old) (D.faults disk.new) }
    ensures later { D.faults disk.old ≤ D.faults disk.new }
    ensures images { EachImage (IsOnTheWay geometry.now (D.state disk.old).told) (D.state disk.old).told (D.state disk.new).told }
    ensures used { (WasBlank (D.state disk.old).told → ⊥) → (D.state disk.new).told ≡ (D.state disk.old).told }
    ensures only { D.state disk.new ≡ with_told (D.state disk.new).told (D.state disk.old) }
{
    let block_zero = match read_block_zero(disk, key) {
        Ok(found) => found,
        Err(_) => return Err(OpenNo::Failed),
    };
    match find_misfit(geometry, &block_zero, disk.blocks()) {
        Some((given, found)) => Err(OpenNo::Geometry { given, found }),
        None => open_fitting(alloc, disk, key, geometry, &block_zero),
    }
}

// The opening of a device on which the geometry fits.
fn open_fitting<D: Device>(
    alloc: Global,
    disk: &mut D,
    key: Key,
    geometry: &Geometry,
    block_zero: &Found,
) -> Result<(), OpenNo>
    requires key { Contains (D.state disk.old).keys key.0 }
    requires geometry { IsGeometry geometry.now }
    requires found { IfSome (D.state disk.old).told (λ told. IsFound (first_block told.image) block_zero.now) }
    requires fits { misfit_with geometry.now (D.state disk.old).blocks (found_geometry block_zero.now) ≡ None }
    ensures opened { OnOk result (IsOpened geometry.now (D.state disk.old) (D.state disk.new)) }
    ensures refused { IfErr result (IsRefused geometry.now (D.state disk.old) (D.state disk.new)) }
    ensures kept { IfErr result (KeepsContent (D.state disk.old).told (D.state disk.new).told) }
    ensures no_keys { result ≢ Err OpenNo.NoKeys }
    ensures failed { result ≡ Err OpenNo.Failed → Rose (D.faults disk.old) (D.faults disk.new) }
    ensures later { D.faults disk.old ≤ D.faults disk.new }
    ensures images { EachImage (IsOnTheWay geometry.now (D.state disk.old).told) (D.state disk.old).told (D.state disk.new).told }
    ensures used { (WasBlank (D.state disk.old).told → ⊥) → (D.state disk.new).told ≡ (D.state disk.old).told }
    ensures only { D.state disk.new ≡ with_told (D.state disk.new).told (D.state disk.old) }
{
    match block_zero {
        Found::Blank => match format(disk, key, geometry) {
            Ok(()) => Ok(()),
            Err(refusal) => Err(OpenNo::from(refusal)),
        },
        Found::Volume(_) | Found::Other => {
            judge(list_faults(alloc, disk, key, geometry, block_zero))
        }
    }
}
