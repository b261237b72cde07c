// A record of four edits, made in the tables of two files, two groups and a part.
use crate::volumes::geometry_of;
use journal_block::Record;
use std::test::Fail;
use table_blocks::{block_of, make, number, set_number, table_in};
use vol_base::Key;
use vol_layout::{Edit, Field, Kind};

// The number of each field before the record is made.
const BEFORE: u32 = 5;

// Edits of file 0's first table block, of its further one, and of group 1.
fn four_edits() -> Option<Record> {
    let mut entry = Record::new(Key(1), edit(Field::Head(0), 4));
    entry.add(edit(Field::Pointer(0, 1), 6))?;
    entry.add(edit(Field::Count(1009), 7))?;
    entry.add(edit(Field::Pointer(0, 1010), 9))?;
    Some(entry)
}

fn edit(field: Field, number: u32) -> Edit {
    Edit { field, number }
}

// The number of a field after the record was made in the field's table, as the table's block reads.
fn number_after(entry: &Record, what: &Field) -> Option<u32> {
    let geometry = geometry_of([1, 2, 2, 1, 1, 1, 2]);
    if !geometry.is_in_range() || !geometry.has_field(what) {
        return None;
    }
    let which = geometry.table_of(what);
    let blank = geometry.blank(geometry.place(Kind::Table(which)));
    let mut table = table_in(&geometry, which, blank)?;
    set_number(&mut table, what, BEFORE);
    make(entry, which, &mut table);
    let again = table_in(&geometry, which, block_of(&table))?;
    Some(number(&again, what))
}

#[test]
fn a_record_is_made_in_its_tables_alone(rt: HostRuntime) -> Result<(), Fail> {
    let Some(entry) = four_edits() else {
        return Err("no record".into());
    };
    let numbers = [
        (Field::Head(0), 4),
        (Field::Pointer(0, 1), 6),
        (Field::Pointer(0, 2), BEFORE),
        (Field::Pointer(0, 1009), BEFORE),
        (Field::Pointer(0, 1010), 9),
        (Field::Head(1), BEFORE),
        (Field::Pointer(1, 1), BEFORE),
        (Field::Count(1), BEFORE),
        (Field::Count(1009), 7),
        (Field::Slot(1), BEFORE),
    ];
    for (field, number) in numbers {
        assert_eq!(rt; number_after(&entry, &field), Some(number));
    }
    Ok(())
}
