// How much of a volume is used.
ghost use Rattle.std.specs.Prelude.{◌≡◌, ◌≢◌, ◌↔◌, ◌-◌, ◌^◌, ◌≤◌, ℕ, Contains, IfOk, IfSome, IsNone, IsTrue, OnOk};
ghost use Rattle.vol_base.specs.Faults.{Rose};
ghost use Rattle.vol_layout.specs.Superblock.{SpellsGeometry};
ghost use Rattle.image_view.specs.Images.{first_block};
ghost use Rattle.image_view.specs.Usages.{usage_in, usage_of};
ghost use Rattle.volume_check.specs.Metadatas.{Passes};
ghost use Rattle.volume_faults.specs.ReadPlaces.{IsCheckedPlace, IsReadPlace};
ghost use Rattle.volume_faults.specs.Readable.{IsReadableVolume};
ghost use Rattle.shared_disk.specs.Calls.{last_counter};
ghost use Rattle.shared_disk.specs.Visits.{IsVisiting, after_visit};

use crate::metadata::{Metadata, ReadNo};
use crate::stages::misspelled;
use crate::usages::usage;
use crate::visits;
use image_view::{SurveyNo, Usage};
use shared_disk::{Device, DiskNo};
use std::alloc::Global;
use vol_base::{Key, NoMemory};
use vol_layout::Geometry;

/// How many data blocks of a volume are used, and how many mappings it has. A volume that the device tells
/// has to be readable: its superblock, slots, journals, locks and tables are spellings in range. The survey
/// registers a key for host 0 and fences it at its end. Block 0 has to be that of the expected geometry,
/// where one is expected. `Bad` names the first block that is not of its kind when it is read, which never
/// comes where the device tells its image.
pub fn survey<D: Device>(
    alloc: Global,
    disk: &mut D,
    expected: Option<Geometry>,
) -> Result<Usage, SurveyNo>
    requires readable { IfSome (D.state disk.old).told (λ told. IsReadableVolume (D.state disk.old).counter told.image) }
    requires expected { IfSome expected (λ known. IfSome (D.state disk.old).told (λ told. SpellsGeometry (first_block told.image) known)) }
    ensures usage { IfOk result (λ usage. IfSome (D.state disk.new).told (λ told. usage ≡ usage_of told.image)) }
    ensures bad { (place : ℕ) → result ≡ Err (SurveyNo.Bad place) → IsNone (D.state disk.old).told }
    ensures place { (place : ℕ) → result ≡ Err (SurveyNo.Bad place) → IsReadPlace expected (D.state disk.old).blocks place }

    ensures told { (D.state disk.new).told ≡ (D.state disk.old).told }
    ensures visiting { IsVisiting (D.state disk.old) (D.state disk.new) }
    ensures blocks { (D.state disk.new).blocks ≡ (D.state disk.old).blocks }
    ensures done { OnOk result (D.state disk.new ≡ after_visit (D.state disk.old)) }
    ensures left { (place : ℕ) → result ≡ Err (SurveyNo.Bad place) → D.state disk.new ≡ after_visit (D.state disk.old) }

    ensures no_keys { (result ≡ Err SurveyNo.NoKeys) ↔ ((D.state disk.old).counter ≡ last_counter) }
    ensures failed { result ≡ Err SurveyNo.Failed → Rose (D.faults disk.old) (D.faults disk.new) }
    ensures later { D.faults disk.old ≤ D.faults disk.new }
{
    let key = match disk.register(0) {
        Ok(key) => key,
        Err(DiskNo::NoKeys) => return Err(SurveyNo::NoKeys),
        Err(DiskNo::NoMemory) => return Err(SurveyNo::NoMemory),
        Err(_) => return Err(SurveyNo::Failed),
    };
    let found = survey_under(alloc, disk, key, expected);
    match visits::end(disk, key) {
        Ok(()) => found,
        Err(_) => Err(SurveyNo::Failed),
    }
}

// The survey under a registered key.
fn survey_under<D: Device>(
    alloc: Global,
    disk: &mut D,
    key: Key,
    expected: Option<Geometry>,
) -> Result<Usage, SurveyNo>
    requires key { Contains (D.state disk.old).keys key.0 }
    requires readable { IfSome (D.state disk.old).told (λ told. IsReadableVolume (D.state disk.old).counter told.image) }
    requires expected { IfSome expected (λ known. IfSome (D.state disk.old).told (λ told. SpellsGeometry (first_block told.image) known)) }
    ensures usage { IfOk result (λ usage. IfSome (D.state disk.old).told (λ told. usage ≡ usage_of told.image)) }
    ensures bad { (place : ℕ) → result ≡ Err (SurveyNo.Bad place) → IsNone (D.state disk.old).told }
    ensures place { (place : ℕ) → result ≡ Err (SurveyNo.Bad place) → IsReadPlace expected (D.state disk.old).blocks place }
    ensures same { D.state disk.new ≡ D.state disk.old }
    ensures keys { result ≢ Err SurveyNo.NoKeys }
    ensures failed { result ≡ Err SurveyNo.Failed → Rose (D.faults disk.old) (D.faults disk.new) }
    ensures later { D.faults disk.old ≤ D.faults disk.new }
{
    if disk.blocks() == 0 {
        return Err(SurveyNo::Bad(0));
    }
    let block = match disk.read(key, 0) {
        Ok(block) => block,
        Err(_) => return Err(SurveyNo::Failed),
    };
    let geometry = match Geometry::read(&block) {
        Ok(geometry) => geometry,
        Err(_) => return Err(SurveyNo::Bad(0)),
    };
    if !is_expected(&geometry, expected) {
        return Err(SurveyNo::Bad(0));
    }
    if disk.blocks() < geometry.total() {
        return Err(SurveyNo::Bad(0));
    }
    let metadata = match Metadata::read(alloc, disk, key, &geometry) {
        Ok(metadata) => metadata,
        Err(ReadNo::Failed) => return Err(SurveyNo::Failed),
        Err(ReadNo::NoMemory) => return Err(SurveyNo::NoMemory),
    };
    surveyed(alloc, &metadata)
}

// Whether no geometry is expected, or this one.
fn is_expected(geometry: &Geometry, expected: Option<Geometry>) -> bool
    ensures { IsTrue result ↔ IfSome expected (λ known. known ≡ geometry.now) }
{
    match expected {
        Some(known) => known == *geometry,
        None => true,
    }
}

// The usage of what was read, or the first block that is not of its kind.
fn surveyed(alloc: Global, metadata: &Metadata) -> Result<Usage, SurveyNo>
    ensures usage { IfOk result (λ usage. usage ≡ usage_in metadata.now.geometry metadata.now.image) }
    ensures bad { (place : ℕ) → result ≡ Err (SurveyNo.Bad place) → Passes 2 metadata.now → ⊥ }
    ensures place { (place : ℕ) → result ≡ Err (SurveyNo.Bad place) → IsCheckedPlace metadata.now.geometry place }
    ensures failed { result ≢ Err SurveyNo.Failed }
    ensures keys { result ≢ Err SurveyNo.NoKeys }
{
    let misspelled = match misspelled(alloc, metadata) {
        Ok(faults) => faults,
        Err(NoMemory) => return Err(SurveyNo::NoMemory),
    };
    if let Some(fault) = misspelled.first() {
        return Err(SurveyNo::Bad(fault.place));
    }
    match usage(alloc, metadata) {
        Ok(usage) => Ok(usage),
        Err(NoMemory) => Err(SurveyNo::NoMemory),
    }
}
