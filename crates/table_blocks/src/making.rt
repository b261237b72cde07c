// The edits of a record made in a table.
ghost use Rattle.std.specs.Prelude.{◌≡◌, length};
ghost use Rattle.vol_layout.specs.Ranges.{per_table};
ghost use Rattle.table_blocks.specs.Made.{made, stands_in};

use crate::fields::set_number;
use journal_block::Record;
use vol_base::Packed;
use vol_layout::{Field, PER_TABLE, Table};

/// Makes all edits of a record that are of this table, and leaves the others. Of two edits of one field the
/// first would count. It takes no memory.
pub fn make(entry: &Record, which: Table, table: &mut Packed<4>)
    requires { length table.old.entries ≡ per_table }
    ensures made { table.new ≡ made which entry.now.edits table.old }
    ensures long { length table.new.entries ≡ per_table }
{
    for k in (0..entry.count()).rev() {
        let edit = entry.get(k);
        if stands_in(&edit.field, which) {
            set_number(table, &edit.field, edit.number);
        }
    }
}

// Whether the field stands in this table block, on whatever volume.
#[tactic(auto, unfolding(vol_layout::specs::Ranges::per_table))]
fn stands_in(what: &Field, which: Table) -> bool
    ensures { result ≡ stands_in what.now which }
{
    match *what {
        Field::Head(file) => match which {
            Table::File(owner) => file == owner,
            _ => false,
        },
        Field::Pointer(file, index) => match which {
            Table::File(owner) => file == owner && index / PER_TABLE == 0,
            Table::More(owner, more) => {
                file == owner && 0 < more && index / PER_TABLE == u32::from(more)
            }
            _ => false,
        },
        Field::Slot(slot) => match which {
            Table::Part(part) => slot / PER_TABLE == u32::from(part),
            _ => false,
        },
        Field::Count(number) => match which {
            Table::Group(group) => number / PER_TABLE == u32::from(group),
            _ => false,
        },
    }
}
