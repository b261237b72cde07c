// Whether a block is a table.
ghost use Rattle.std.specs.Prelude.{◌≡◌, ◌<◌, ◌↔◌, ℕ, IsTrue, length};
ghost use Rattle.vol_base.specs.Packing.{IsPacking};
ghost use Rattle.image_view.specs.Spelled.{IsTable, MayHaveWord};
ghost use Rattle.vol_layout.specs.Ranges.{HasTable, IsGeometry, per_table};
ghost use Rattle.volume_faults.specs.TableFields.{HasEntries, HasHead, entry_field};
ghost use Rattle.volume_faults.specs.Sites.{HasNumbers};

use vol_base::{Block, Packed};
use vol_layout::{Field, Geometry, PER_TABLE, Table};

/// Whether the block spells the table, with numbers that may stand there.
pub fn is_table(geometry: &Geometry, table: Table, block: &Block) -> bool
    requires geometry { IsGeometry geometry.now }
    requires table { HasTable geometry.now table }
    ensures { IsTrue result ↔ (IsTable table block.now.0 × HasNumbers geometry.now table block.now.0) }
{
    is_spelled(table, block) && has_numbers(geometry, table, block)
}

// Whether the block is the one spelling of the table that it reads as.
fn is_spelled(table: Table, block: &Block) -> bool
    ensures { IsTrue result ↔ IsTable table block.now.0 }
{
    match Packed::<4>::of(*block, table.magic()) {
        None => false,
        Some(packed) => may_be(table, &packed) && packed.into_block().same(block),
    }
}

// Whether the table may have these entries and this word.
#[tactic(auto, unfolding(vol_layout::specs::Ranges::per_table))]
fn may_be(table: Table, packed: &Packed<4>) -> bool
    ensures may { IsTrue result ↔ ((length packed.now.entries ≡ per_table) × MayHaveWord table packed.now.word) }
    ensures packing { IsPacking 4 packed.now }
{
    packed.count() == PER_TABLE && may_have_word(table, packed.word())
}

// Whether the table may have this word.
fn may_have_word(table: Table, word: u32) -> bool
    ensures { IsTrue result ↔ MayHaveWord table word }
{
    match table {
        Table::File(_) => true,
        Table::More(_, _) | Table::Group(_) | Table::Part(_) => word == 0,
    }
}

// Whether the numbers of all fields of the table may stand there.
fn has_numbers(geometry: &Geometry, table: Table, block: &Block) -> bool
    requires geometry { IsGeometry geometry.now }
    requires table { HasTable geometry.now table }
    ensures { IsTrue result ↔ HasNumbers geometry.now table block.now.0 }
{
    has_head(geometry, table, block) && has_entries(geometry, table, block)
}

// Whether the head of a file may stand there.
fn has_head(geometry: &Geometry, table: Table, block: &Block) -> bool
    requires { IsGeometry geometry.now }
    ensures { IsTrue result ↔ HasHead geometry.now table block.now.0 }
{
    match table {
        Table::File(file) => geometry.allows(&Field::Head(file), block.u32_at(12)),
        Table::More(_, _) | Table::Group(_) | Table::Part(_) => true,
    }
}

// Whether the numbers of all entries may stand there.
#[tactic(auto, unfolding(vol_layout::specs::Ranges::per_table))]
fn has_entries(geometry: &Geometry, table: Table, block: &Block) -> bool
    requires { IsGeometry geometry.now }
    ensures { IsTrue result ↔ HasEntries geometry.now table block.now.0 }
{
    for entry in 0..PER_TABLE {
        let number = block.u32_at(64 + 4 * entry as usize);
        if !geometry.allows(&entry_field(table, entry), number) {
            return false;
        }
    }
    true
}

// The field that stands at an entry.
#[tactic(auto, unfolding(vol_layout::specs::Ranges::per_table))]
fn entry_field(table: Table, entry: u32) -> Field
    requires { entry < per_table }
    ensures { result ≡ entry_field table entry }
{
    match table {
        Table::File(file) => Field::Pointer(file, entry),
        Table::More(file, more) => Field::Pointer(file, PER_TABLE * u32::from(more) + entry),
        Table::Group(group) => Field::Count(PER_TABLE * u32::from(group) + entry),
        Table::Part(part) => Field::Slot(PER_TABLE * u32::from(part) + entry),
    }
}
