// The numbers of fields in the packing of their table.
ghost use Rattle.std.specs.Prelude.{◌≡◌, length};
ghost use Rattle.vol_layout.specs.Ranges.{per_table};
ghost use Rattle.table_blocks.specs.Tables.{number_in, with_number};

use vol_base::Packed;
use vol_layout::Field;

/// The number of a field in its table. It takes no memory.
pub fn number(table: &Packed<4>, what: &Field) -> u32
    requires { length table.now.entries ≡ per_table }
    ensures { result ≡ number_in table.now what.now }
{
    match what.entry() {
        None => table.word(),
        Some(entry) => table.number(entry),
    }
}

/// Changes the number of a field in its table. It takes no memory.
pub fn set_number(table: &mut Packed<4>, what: &Field, number: u32)
    requires { length table.old.entries ≡ per_table }
    ensures number { table.new ≡ with_number table.old what.now number }
    ensures long { length table.new.entries ≡ per_table }
{
    match what.entry() {
        None => table.set_word(number),
        Some(entry) => table.set_number(entry, number),
    }
}
