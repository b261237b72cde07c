// The edits that stand in a journal block.
ghost use Rattle.std.specs.Prelude.{◌≡◌, ◌%◌, ◌+◌, ◌<◌, ◌^◌, length};
ghost use Rattle.vol_base.specs.Bytes.{u32_at};
ghost use Rattle.vol_layout.specs.Edits.{same_field};
ghost use Rattle.vol_layout.specs.Journal.{edit_at, edits_of};
ghost use Rattle.image_view.specs.Found.{found};

use vol_base::Block;
use vol_layout::Field;

/// The number that the journal block's first edit of the field gives it, or `None` where no edit is of
/// the field.
pub fn edit_in(journal: &Block, field: &Field) -> Option<u32>
    ensures { result ≡ found (edits_of journal.now.0) field.now }
{
    let count = journal.u32_at(8);
    for k in 0..count {
        let at = 64 + 16 * k as usize;
        if is_of(journal, at, field) {
            return Some(number(journal, at + 12));
        }
    }
    None
}

// Whether the edit at a byte is of the field. A kind that is no tag reads as a count.
#[tactic(auto, using(crate::proofs::SlowLaws::from_numbers))]
fn is_of(journal: &Block, at: usize, field: &Field) -> bool
    requires journal { length journal.now.0 ≡ 4096 }
    requires aligned { at % 4 ≡ 0 }
    requires small { at < 2 ^ 40 }
    ensures { result ≡ same_field (edit_at journal.now.0 at).field field.now }
{
    let tag = number(journal, at);
    let first = number(journal, at + 4);
    let second = number(journal, at + 8);
    match *field {
        Field::Head(file) => tag == 0 && first == u32::from(file),
        Field::Pointer(file, index) => tag == 1 && first == u32::from(file) && second == index,
        Field::Slot(slot) => tag == 2 && first == slot,
        Field::Count(data) => tag > 2 && first == data,
    }
}

// The number at a byte of the block; past its end everything is 0.
fn number(block: &Block, at: usize) -> u32
    requires block { length block.now.0 ≡ 4096 }
    requires aligned { at % 4 ≡ 0 }
    ensures { result ≡ u32_at block.now.0 at }
{
    if at < 4096 { block.u32_at(at) } else { 0 }
}
