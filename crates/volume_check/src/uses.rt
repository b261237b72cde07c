// How often each data number is mapped.
ghost use Rattle.std.specs.Prelude.{◌≡◌, ◌+◌, ◌%◌, ◌^◌, ◌<◌, ◌≤◌, ℕ, IfOk, length, slice_index};
ghost use Rattle.vol_layout.specs.Ranges.{data_blocks};
ghost use Rattle.image_view.specs.Balances.{share};
ghost use Rattle.volume_check.specs.Counts.{AreStanding, AreUses, Grew, named_by_file, named_by_slots};
ghost use Rattle.volume_check.specs.Metadatas.{Passes};

use crate::fields::MARK;
use crate::metadata::Metadata;
use crate::standing::logical;
use std::alloc::Global;
use vol_base::{FileNo, NoMemory};
use vol_layout::{Edit, Field};

/// How often each data number is mapped, counted in one pass over all pointers and slots.
pub fn uses(alloc: Global, metadata: &Metadata, standing: &[Edit]) -> Result<Vec<u32>, NoMemory>
    requires passed { Passes 2 metadata.now }
    requires standing { AreStanding metadata.now standing.now }
    ensures { IfOk result (λ uses. AreUses metadata.now uses.items) }
{
    let geometry = metadata.geometry();
    let mut uses = vec![in alloc; 0; geometry.data_blocks() as usize]?;
    for file in 0..geometry.files {
        count_pointers(metadata, standing, file, &mut uses);
    }
    count_slots(metadata, standing, &mut uses);
    Ok(uses)
}

fn count_pointers(metadata: &Metadata, standing: &[Edit], file: FileNo, uses: &mut Vec<u32>)
    requires passed { Passes 2 metadata.now }
    requires standing { AreStanding metadata.now standing.now }
    requires file { file < metadata.now.geometry.files }
    requires long { length uses.old.items ≡ data_blocks metadata.now.geometry }
    requires room { (d : ℕ) → slice_index uses.old.items d + 16128 < 2 ^ 32 }
    ensures { Grew (named_by_file metadata.now file) uses.old.items uses.new.items }
{
    for index in 0..metadata.geometry().limit() {
        let pointer = logical(metadata, standing, &Field::Pointer(file, index));
        count(pointer, uses);
    }
}

fn count_slots(metadata: &Metadata, standing: &[Edit], uses: &mut Vec<u32>)
    requires passed { Passes 2 metadata.now }
    requires standing { AreStanding metadata.now standing.now }
    requires long { length uses.old.items ≡ data_blocks metadata.now.geometry }
    requires room { (d : ℕ) → slice_index uses.old.items d + 16128 < 2 ^ 32 }
    ensures { Grew (named_by_slots metadata.now) uses.old.items uses.new.items }
{
    for slot in 0..metadata.geometry().arena_slots() {
        count(logical(metadata, standing, &Field::Slot(slot)), uses);
    }
}

// Counts the data block that a pointer or slot names, if it names one.
fn count(number: u32, uses: &mut Vec<u32>)
    requires names { number % 2 ^ 31 ≤ length uses.old.items }
    requires room { (d : ℕ) → slice_index uses.old.items d + 1 < 2 ^ 32 }
    ensures { Grew (share number) uses.old.items uses.new.items }
{
    let name = number % MARK;
    if name != 0 {
        uses[name as usize - 1] += 1;
    }
}
