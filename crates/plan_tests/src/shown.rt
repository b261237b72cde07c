// The text of what a block of a volume is, and of what it says.
ghost use Rattle.vol_layout.specs.Ranges.{IsGeometry};

use journal_block::{Record, read_journal};
use slot_lock_blocks::{LockWord, Readers, Slot, read_lock, read_slot};
use std::alloc::AllocError;
use vol_base::{Block, Packed, number_block};
use vol_layout::{Edit, Field, Geometry, Kind, Resource, Table};

/// The name of a block: that of its resource is the name of a lock, and a table of a file has the number of its block behind a point.
pub fn write_place(text: &mut String, kind: Option<Kind>) -> Result<(), AllocError> {
    match kind {
        Some(Kind::Slot(host)) => write!(text, "slot {host}"),
        Some(Kind::Journal(host)) => write!(text, "journal {host}"),
        Some(Kind::Lock(Resource::File(file))) => write!(text, "file {file}"),
        Some(Kind::Lock(Resource::Part(part))) => write!(text, "part {part}"),
        Some(Kind::Lock(Resource::Group(group))) => write!(text, "group {group}"),
        Some(Kind::Table(Table::File(file))) => write!(text, "table {file}.0"),
        Some(Kind::Table(Table::More(file, more))) => write!(text, "table {file}.{more}"),
        Some(Kind::Table(Table::Group(group))) => write!(text, "counts {group}"),
        Some(Kind::Table(Table::Part(part))) => write!(text, "arena {part}"),
        Some(Kind::Number(number)) => write!(text, "data {number}"),
        _ => text.push_str("another block"),
    }
}

/// What a block at a place says: ` ?` where it is no spelling of its kind.
pub fn write_content(
    text: &mut String,
    geometry: &Geometry,
    place: u64,
    block: &Block,
) -> Result<(), AllocError>
    requires { IsGeometry geometry.now }
{
    match geometry.kind(place) {
        Some(Kind::Slot(_)) => write_slot(text, read_slot(block)),
        Some(Kind::Journal(_)) => write_journal(text, read_journal(block, geometry)),
        Some(Kind::Lock(_)) => write_lock(text, read_lock(block)),
        Some(Kind::Table(table)) => write_table(text, Packed::of(*block, table.magic())),
        _ => write_data(text, block),
    }
}

fn write_slot(text: &mut String, slot: Option<Slot>) -> Result<(), AllocError> {
    match slot {
        Some(Slot::Free) => text.push_str(" free"),
        Some(Slot::Live { key, beat }) => {
            let shown = key.0;
            write!(text, " live {shown} {beat}")
        }
        Some(Slot::Recovering { key, by }) => {
            let shown = key.0;
            let other = by.0;
            write!(text, " recovering {shown} {other}")
        }
        None => text.push_str(" ?"),
    }
}

fn write_lock(text: &mut String, word: Option<LockWord>) -> Result<(), AllocError> {
    match word {
        Some(word) => write_word(text, &word),
        None => text.push_str(" ?"),
    }
}

fn write_word(text: &mut String, word: &LockWord) -> Result<(), AllocError> {
    match word {
        LockWord::Free => text.push_str(" free"),
        LockWord::Held(key) => {
            let shown = key.0;
            write!(text, " held {shown}")
        }
        LockWord::Read(readers) => write_readers(text, readers),
    }
}

fn write_readers(text: &mut String, readers: &Readers) -> Result<(), AllocError> {
    text.push_str(" read")?;
    for host in 0..16 {
        if let Some(key) = readers.get(host) {
            let shown = key.0;
            write!(text, " {shown}")?;
        }
    }
    Ok(())
}

fn write_journal(text: &mut String, entry: Option<Option<Record>>) -> Result<(), AllocError> {
    match entry {
        Some(Some(record)) => write_record(text, &record),
        Some(None) => text.push_str(" empty"),
        None => text.push_str(" ?"),
    }
}

fn write_record(text: &mut String, record: &Record) -> Result<(), AllocError> {
    let key = record.key().0;
    write!(text, " {key}")?;
    for k in 0..record.count() {
        write_edit(text, &record.get(k))?;
    }
    Ok(())
}

fn write_edit(text: &mut String, edit: &Edit) -> Result<(), AllocError> {
    let number = edit.number;
    match edit.field {
        Field::Head(file) => write!(text, ", head {file} = {number}"),
        Field::Pointer(file, index) => write!(text, ", pointer {file} {index} = {number}"),
        Field::Slot(slot) => write!(text, ", slot {slot} = {number}"),
        Field::Count(data) => write!(text, ", count {data} = {number}"),
    }
}

// The word of a table, and its numbers that are not 0: a run of entries with one number is one item.
fn write_table(text: &mut String, table: Option<Packed<4>>) -> Result<(), AllocError> {
    match table {
        Some(table) => write_numbers(text, &table),
        None => text.push_str(" ?"),
    }
}

fn write_numbers(text: &mut String, table: &Packed<4>) -> Result<(), AllocError> {
    let word = table.word();
    write!(text, " {word}")?;
    let mut first = 0;
    for entry in 0..table.count() {
        if entry == 0 || table.number(entry - 1) != table.number(entry) {
            first = entry;
        }
        if entry + 1 == table.count() || table.number(entry + 1) != table.number(entry) {
            write_run(text, first, entry, table.number(entry))?;
        }
    }
    Ok(())
}

fn write_run(text: &mut String, first: u32, last: u32, number: u32) -> Result<(), AllocError> {
    if number == 0 {
        Ok(())
    } else if first == last {
        write!(text, ", {first} = {number}")
    } else {
        write!(text, ", {first} to {last} = {number}")
    }
}

// The number of a number block.
fn write_data(text: &mut String, block: &Block) -> Result<(), AllocError> {
    let number = block.u64_at(0);
    if number_block(number).same(block) {
        write!(text, " {number}")
    } else {
        text.push_str(" ?")
    }
}
