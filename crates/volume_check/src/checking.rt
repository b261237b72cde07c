// The check of a device.
ghost use Rattle.std.specs.Prelude.{◌≡◌, ◌≢◌, ◌↔◌, ◌-◌, ◌^◌, ◌≤◌, [], ◌∷◌, Contains, IfOk, IfSome, OnErr, OnOk};
ghost use Rattle.vol_base.specs.Faults.{Rose};
ghost use Rattle.vol_layout.specs.Ranges.{IsGeometry};
ghost use Rattle.vol_layout.specs.Regions.{total};
ghost use Rattle.vol_layout.specs.Superblock.{SpellsGeometry};
ghost use Rattle.image_view.specs.Images.{IsBlank, first_block};
ghost use Rattle.image_view.specs.Valid.{IsVolume};
ghost use Rattle.volume_faults.specs.Faults.{AreFaults, AreTableFaults};
ghost use Rattle.shared_disk.specs.Calls.{last_counter};
ghost use Rattle.shared_disk.specs.Visits.{IsVisiting, after_visit};

use crate::metadata::{Metadata, ReadNo};
use crate::stages::table_faults;
use crate::visits;
use shared_disk::{Device, DiskNo};
use std::alloc::Global;
use thiserror::Error;
use vol_base::{Key, NoMemory};
use vol_layout::Geometry;
use volume_faults::{Fault, FaultKind};

/// Why a check lists no faults.
#[derive(Clone, Copy, Debug, PartialEq, Eq, Error)]
pub enum CheckNo {
    /// Block 0 is all zeros.
    #[error("Blank")]
    Blank,
    /// A call of the device failed.
    #[error("Failed")]
    Failed,
    /// The device's counter is at its end, so it gives no key.
    #[error("NoKeys")]
    NoKeys,
    /// There was no memory for the check.
    #[error("NoMemory")]
    NoMemory,
}

/// All faults of the first stage that has any, in the order of their places and entries; none exactly
/// where the volume is valid. It registers a key for host 0 and fences it at its end. A device of no
/// block has the one fault that block 0 is no superblock.
pub fn check<D: Device>(alloc: Global, disk: &mut D) -> Result<Vec<Fault>, CheckNo>
    ensures faults { IfOk result (λ faults. IfSome (D.state disk.new).told (λ told. AreFaults (D.state disk.new).counter told.image faults.items)) }
    ensures valid { IfOk result (λ faults. IfSome (D.state disk.new).told (λ told. (faults.items ≡ []) ↔ IsVolume (D.state disk.new).counter told.image)) }
    ensures blank { result ≡ Err CheckNo.Blank → IfSome (D.state disk.new).told (λ told. IsBlank told.image) }
    ensures not_blank { OnOk result (IfSome (D.state disk.new).told (λ told. IsBlank told.image → ⊥)) }

    ensures told { (D.state disk.new).told ≡ (D.state disk.old).told }
    ensures visiting { IsVisiting (D.state disk.old) (D.state disk.new) }
    ensures blocks { (D.state disk.new).blocks ≡ (D.state disk.old).blocks }
    ensures done { OnOk result (D.state disk.new ≡ after_visit (D.state disk.old)) }
    ensures left { result ≡ Err CheckNo.Blank → D.state disk.new ≡ after_visit (D.state disk.old) }

    ensures no_keys { (result ≡ Err CheckNo.NoKeys) ↔ ((D.state disk.old).counter ≡ last_counter) }
    ensures failed { result ≡ Err CheckNo.Failed → Rose (D.faults disk.old) (D.faults disk.new) }
    ensures later { D.faults disk.old ≤ D.faults disk.new }
{
    let key = match disk.register(0) {
        Ok(key) => key,
        Err(DiskNo::NoKeys) => return Err(CheckNo::NoKeys),
        Err(DiskNo::NoMemory) => return Err(CheckNo::NoMemory),
        Err(_) => return Err(CheckNo::Failed),
    };
    let found = check_under(alloc, disk, key);
    match visits::end(disk, key) {
        Ok(()) => found,
        Err(_) => Err(CheckNo::Failed),
    }
}

/// The part of a check behind block 0: the faults of the slots, journals, locks and tables of a volume
/// of this geometry. It registers and fences nothing, and answers no refusal but `Failed` and
/// `NoMemory`.
pub fn check_tables<D: Device>(
    alloc: Global,
    disk: &mut D,
    key: Key,
    geometry: &Geometry,
) -> Result<Vec<Fault>, CheckNo>
    requires key { Contains (D.state disk.old).keys key.0 }
    requires geometry { IsGeometry geometry.now }
    requires long { total geometry.now ≤ (D.state disk.old).blocks }
    requires superblock { IfSome (D.state disk.old).told (λ told. SpellsGeometry (first_block told.image) geometry.now) }
    ensures faults { IfOk result (λ faults. IfSome (D.state disk.old).told (λ told. AreTableFaults geometry.now (D.state disk.old).counter told.image faults.items)) }
    ensures same { D.state disk.new ≡ D.state disk.old }
    ensures not_blank { result ≢ Err CheckNo.Blank }
    ensures keys { result ≢ Err CheckNo.NoKeys }
    ensures failed { result ≡ Err CheckNo.Failed → Rose (D.faults disk.old) (D.faults disk.new) }
    ensures later { D.faults disk.old ≤ D.faults disk.new }
{
    let metadata = match Metadata::read(alloc, disk, key, geometry) {
        Ok(metadata) => metadata,
        Err(ReadNo::Failed) => return Err(CheckNo::Failed),
        Err(ReadNo::NoMemory) => return Err(CheckNo::NoMemory),
    };
    match table_faults(alloc, &metadata) {
        Ok(faults) => Ok(faults),
        Err(NoMemory) => Err(CheckNo::NoMemory),
    }
}

// The check under a registered key.
fn check_under<D: Device>(alloc: Global, disk: &mut D, key: Key) -> Result<Vec<Fault>, CheckNo>
    requires key { Contains (D.state disk.old).keys key.0 }
    ensures faults { IfOk result (λ faults. IfSome (D.state disk.old).told (λ told. AreFaults (D.state disk.old).counter told.image faults.items)) }
    ensures blank { result ≡ Err CheckNo.Blank → IfSome (D.state disk.old).told (λ told. IsBlank told.image) }
    ensures not_blank { OnOk result (IfSome (D.state disk.old).told (λ told. IsBlank told.image → ⊥)) }
    ensures same { D.state disk.new ≡ D.state disk.old }
    ensures keys { result ≢ Err CheckNo.NoKeys }
    ensures failed { result ≡ Err CheckNo.Failed → Rose (D.faults disk.old) (D.faults disk.new) }
    ensures later { D.faults disk.old ≤ D.faults disk.new }
{
    if disk.blocks() == 0 {
        return alone(alloc, FaultKind::Superblock);
    }
    let block = match disk.read(key, 0) {
        Ok(block) => block,
        Err(_) => return Err(CheckNo::Failed),
    };
    if block.is_zeros() {
        return Err(CheckNo::Blank);
    }
    let geometry = match Geometry::read(&block) {
        Ok(geometry) => geometry,
        Err(_) => return alone(alloc, FaultKind::Superblock),
    };
    let (need, found) = (geometry.total(), disk.blocks());
    if found < need {
        return alone(alloc, FaultKind::Size(need, found));
    }
    check_tables(alloc, disk, key, &geometry)
}

// The one fault of the first stage.
fn alone(alloc: Global, kind: FaultKind) -> Result<Vec<Fault>, CheckNo>
    ensures fault { IfOk result (λ faults. faults.items ≡ record { place = 0; kind = kind } ∷ []) }
    ensures memory { OnErr result (result ≡ Err CheckNo.NoMemory) }
{
    let mut faults = Vec::new(alloc);
    match faults.push(Fault { place: 0, kind }) {
        Ok(()) => Ok(faults),
        Err(_) => Err(CheckNo::NoMemory),
    }
}
