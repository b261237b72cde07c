// The faults of a device that is not blank.
ghost use Rattle.std.specs.Prelude.{◌≡◌, ◌≢◌, ◌∷◌, ◌≤◌, [], Contains, IfErr, IfOk, IfSome, IsOkAnd, None, OnErr, OnOk};
ghost use Rattle.vol_base.specs.Faults.{Rose};
ghost use Rattle.vol_layout.specs.Ranges.{IsGeometry};
ghost use Rattle.image_view.specs.Images.{first_block};
ghost use Rattle.volume_faults.specs.Faults.{AreFaults};
ghost use Rattle.volume_opening.specs.Found.{IsFound, found_geometry};
ghost use Rattle.volume_opening.specs.Misfits.{misfit_with};
ghost use Rattle.volume_opening.specs.Openings.{WasBlank};
ghost use Rattle.volume_opening.specs.Refusals.{IfFaults, IfGeometry};

use crate::block_zero::Found;
use crate::open_no::OpenNo;
use shared_disk::Device;
use std::alloc::Global;
use vol_base::Key;
use vol_layout::Geometry;
use volume_check::{CheckNo, check_tables};
use volume_faults::{Fault, FaultKind};

/// The faults of a volume on which the geometry fits.
pub fn list_faults<D: Device>(
    alloc: Global,
    disk: &mut D,
    key: Key,
    geometry: &Geometry,
    block_zero: &Found,
) -> Result<Vec<Fault>, CheckNo>
    requires key { Contains (D.state disk.old).keys key.0 }
    requires geometry { IsGeometry geometry.now }
    requires found { IfSome (D.state disk.old).told (λ told. IsFound (first_block told.image) block_zero.now) }
    requires not_blank { block_zero.now ≢ Found.Blank }
    requires fits { misfit_with geometry.now (D.state disk.old).blocks (found_geometry block_zero.now) ≡ None }
    ensures faults { IfOk result (λ faults. IfSome (D.state disk.old).told (λ told. AreFaults (D.state disk.old).counter told.image faults.items)) }
    ensures same { D.state disk.new ≡ D.state disk.old }
    ensures not_blank { result ≢ Err CheckNo.Blank }
    ensures keys { result ≢ Err CheckNo.NoKeys }
    ensures failed { result ≡ Err CheckNo.Failed → Rose (D.faults disk.old) (D.faults disk.new) }
    ensures later { D.faults disk.old ≤ D.faults disk.new }
{
    match block_zero {
        Found::Volume(_) => check_tables(alloc, disk, key, geometry),
        Found::Blank | Found::Other => superblock_fault(alloc),
    }
}

/// The device is opened where no fault is listed.
pub fn judge(found: Result<Vec<Fault>, CheckNo>) -> Result<(), OpenNo>
    requires not_blank { found ≢ Err CheckNo.Blank }
    requires keys { found ≢ Err CheckNo.NoKeys }
    ensures faultless { OnOk result (IsOkAnd found (λ faults. faults.items ≡ [])) }
    ensures faults { IfErr result (λ no. IfFaults no (λ listed. IsOkAnd found (λ faults. (faults.items ≡ listed) × (listed ≢ [])))) }
    ensures failed { result ≡ Err OpenNo.Failed → found ≡ Err CheckNo.Failed }
    ensures fits { IfErr result (λ no. IfGeometry no (λ _ _. ⊥)) }
    ensures no_keys { result ≢ Err OpenNo.NoKeys }
{
    match found {
        Ok(faults) => {
            if faults.is_empty() {
                Ok(())
            } else {
                Err(OpenNo::Faults(faults))
            }
        }
        Err(CheckNo::NoMemory) => Err(OpenNo::NoMemory),
        Err(_) => Err(OpenNo::Failed),
    }
}

// Block 0 is no superblock.
fn superblock_fault(alloc: Global) -> Result<Vec<Fault>, CheckNo>
    ensures fault { IfOk result (λ faults. faults.items ≡ record { place = 0; kind = FaultKind.Superblock } ∷ []) }
    ensures memory { OnErr result (result ≡ Err CheckNo.NoMemory) }
{
    let mut faults = Vec::new(alloc);
    match faults.push(Fault {
        place: 0,
        kind: FaultKind::Superblock,
    }) {
        Ok(()) => Ok(faults),
        Err(_) => Err(CheckNo::NoMemory),
    }
}
