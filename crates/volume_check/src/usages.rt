// How much of a volume is used.
ghost use Rattle.std.specs.Prelude.{◌≡◌, ◌≤◌, ◌<◌, IfOk, sum_by};
ghost use Rattle.std.specs.List.{range_with_len};
ghost use Rattle.vol_layout.specs.Ranges.{arena_slots, limit};
ghost use Rattle.image_view.specs.Mappings.{reference_fields};
ghost use Rattle.image_view.specs.Numbers.{logical};
ghost use Rattle.image_view.specs.laws.UseLaws.{names_one};
ghost use Rattle.image_view.specs.Usages.{usage_in, used_numbers};
ghost use Rattle.volume_check.specs.Counts.{AreStanding};
ghost use Rattle.volume_check.specs.Metadatas.{Passes};

use crate::fields::MARK;
use crate::metadata::Metadata;
use crate::standing::{logical, standing};
use image_view::Usage;
use std::alloc::Global;
use vol_base::{FileNo, NoMemory};
use vol_layout::{Edit, Field};

/// How many data blocks are used, and how many mappings there are.
pub fn usage(alloc: Global, metadata: &Metadata) -> Result<Usage, NoMemory>
    requires { Passes 2 metadata.now }
    ensures { IfOk result (λ usage. usage ≡ usage_in metadata.now.geometry metadata.now.image) }
{
    let edits = standing(alloc, metadata)?;
    Ok(Usage {
        used: used(metadata, edits.as_slice()),
        mapped: mapped(metadata, edits.as_slice()),
    })
}

// How many data numbers have a count that is not 0.
fn used(metadata: &Metadata, standing: &[Edit]) -> u32
    requires passed { Passes 2 metadata.now }
    requires standing { AreStanding metadata.now standing.now }
    ensures { result ≡ used_numbers metadata.now.geometry metadata.now.image }
{
    let mut used = 0;
    for number in 0..metadata.geometry().data_blocks() {
        used += u32::from(logical(metadata, standing, &Field::Count(number)) > 0);
    }
    used
}

// How many pointers and slots name a data block.
fn mapped(metadata: &Metadata, standing: &[Edit]) -> u32
    requires passed { Passes 2 metadata.now }
    requires standing { AreStanding metadata.now standing.now }
    ensures { result ≡ sum_by (λ x. names_one (logical metadata.now.geometry metadata.now.image x)) (reference_fields metadata.now.geometry) }
{
    let mut mapped = 0;
    for file in 0..metadata.geometry().files {
        mapped += mapped_by_file(metadata, standing, file);
    }
    mapped + mapped_by_slots(metadata, standing)
}

fn mapped_by_file(metadata: &Metadata, standing: &[Edit], file: FileNo) -> u32
    requires passed { Passes 2 metadata.now }
    requires standing { AreStanding metadata.now standing.now }
    requires file { file < metadata.now.geometry.files }
    ensures mapped { result ≡ sum_by (λ i. names_one (logical metadata.now.geometry metadata.now.image (Field.Pointer file i))) (range_with_len 0 (limit metadata.now.geometry)) }
    ensures bounded { result ≤ 16128 }
{
    let mut mapped = 0;
    for index in 0..metadata.geometry().limit() {
        mapped += names_one(logical(metadata, standing, &Field::Pointer(file, index)));
    }
    mapped
}

fn mapped_by_slots(metadata: &Metadata, standing: &[Edit]) -> u32
    requires passed { Passes 2 metadata.now }
    requires standing { AreStanding metadata.now standing.now }
    ensures mapped { result ≡ sum_by (λ s. names_one (logical metadata.now.geometry metadata.now.image (Field.Slot s))) (range_with_len 0 (arena_slots metadata.now.geometry)) }
    ensures bounded { result ≤ 16128 }
{
    let mut mapped = 0;
    for slot in 0..metadata.geometry().arena_slots() {
        mapped += names_one(logical(metadata, standing, &Field::Slot(slot)));
    }
    mapped
}

// 1 where a pointer or slot names a data block, and else 0.
fn names_one(number: u32) -> u32
    ensures names { result ≡ names_one number }
    ensures bounded { result ≤ 1 }
{
    if number % MARK == 0 { 0 } else { 1 }
}
