// The fourth stage: each count is how often its data number is mapped, and what is mapped more than once
// has the mark.
ghost use Rattle.std.specs.Prelude.{◌≡◌, ◌≢◌, ◌-◌, ◌<◌, ◌↔◌, IsTrue, OnOk, length, slice_index};
ghost use Rattle.vol_layout.specs.Ranges.{HasKind, HasTable};
ghost use Rattle.image_view.specs.Pointers.{IsUnmarked};
ghost use Rattle.volume_check.specs.Counts.{AreStanding, AreUses, file_table};
ghost use Rattle.volume_check.specs.Metadatas.{AddsStage, Passes};
ghost use Rattle.volume_check.specs.SitesAt.{AddsAt};

use crate::adding::add_where;
use crate::fields::MARK;
use crate::metadata::Metadata;
use crate::standing::{logical, standing};
use crate::uses::uses;
use std::alloc::Global;
use vol_base::{FileNo, NoMemory};
use vol_layout::{Edit, Field, Kind, PER_TABLE, Table};
use volume_faults::{Fault, FaultKind};

/// Adds the faults of counts and of pointers without the mark, in the order of their places.
pub fn add_miscounted(
    alloc: Global,
    metadata: &Metadata,
    faults: &mut Vec<Fault>,
) -> Result<(), NoMemory>
    requires { Passes 2 metadata.now }
    ensures { OnOk result (AddsStage 4 metadata.now faults.old.items faults.new.items) }
{
    let geometry = metadata.geometry();
    let edits = standing(alloc, metadata)?;
    let mapped = uses(alloc, metadata, edits.as_slice())?;
    for place in 0..geometry.total() {
        let kind = geometry.kind(place).unwrap();
        add_at(metadata, edits.as_slice(), mapped.as_slice(), kind, faults)?;
    }
    Ok(())
}

// Adds the faults at a block of this kind.
fn add_at(
    metadata: &Metadata,
    standing: &[Edit],
    uses: &[u32],
    kind: Kind,
    faults: &mut Vec<Fault>,
) -> Result<(), NoMemory>
    requires passed { Passes 2 metadata.now }
    requires standing { AreStanding metadata.now standing.now }
    requires uses { AreUses metadata.now uses.now }
    requires kind { HasKind metadata.now.geometry kind }
    ensures { OnOk result (AddsAt 4 metadata.now kind faults.old.items faults.new.items) }
{
    match kind {
        Kind::Table(table) => add_at_table(metadata, standing, uses, table, faults),
        _ => Ok(()),
    }
}

fn add_at_table(
    metadata: &Metadata,
    standing: &[Edit],
    uses: &[u32],
    table: Table,
    faults: &mut Vec<Fault>,
) -> Result<(), NoMemory>
    requires passed { Passes 2 metadata.now }
    requires standing { AreStanding metadata.now standing.now }
    requires uses { AreUses metadata.now uses.now }
    requires table { HasTable metadata.now.geometry table }
    ensures { OnOk result (AddsAt 4 metadata.now (Kind.Table table) faults.old.items faults.new.items) }
{
    match table {
        Table::File(file) => add_of_marks(metadata, standing, uses, file, 0, faults),
        Table::Group(group) => add_of_counts(metadata, standing, uses, group, faults),
        Table::Part(_) => Ok(()),
        Table::More(file, block) => add_of_marks(metadata, standing, uses, file, block, faults),
    }
}

// Adds the faults of the counts in a group table.
fn add_of_counts(
    metadata: &Metadata,
    standing: &[Edit],
    uses: &[u32],
    group: u8,
    faults: &mut Vec<Fault>,
) -> Result<(), NoMemory>
    requires passed { Passes 2 metadata.now }
    requires standing { AreStanding metadata.now standing.now }
    requires uses { AreUses metadata.now uses.now }
    requires group { group < metadata.now.geometry.groups }
    ensures { OnOk result (AddsAt 4 metadata.now (Kind.Table (Table.Group group)) faults.old.items faults.new.items) }
{
    let place = metadata.geometry().place(Kind::Table(Table::Group(group)));
    let first = PER_TABLE * u32::from(group);
    for number in first..first + PER_TABLE {
        let found = logical(metadata, standing, &Field::Count(number));
        let counted = uses[number as usize];
        let kind = FaultKind::Count {
            number,
            found,
            counted,
        };
        add_where(found != counted, Fault { place, kind }, faults)?;
    }
    Ok(())
}

// Adds the faults of the pointers in a file's table block, by its number from 0.
fn add_of_marks(
    metadata: &Metadata,
    standing: &[Edit],
    uses: &[u32],
    file: FileNo,
    table: u8,
    faults: &mut Vec<Fault>,
) -> Result<(), NoMemory>
    requires passed { Passes 2 metadata.now }
    requires standing { AreStanding metadata.now standing.now }
    requires uses { AreUses metadata.now uses.now }
    requires table { HasTable metadata.now.geometry (file_table file table) }
    ensures { OnOk result (AddsAt 4 metadata.now (Kind.Table (file_table file table)) faults.old.items faults.new.items) }
{
    let first = PER_TABLE * u32::from(table);
    let place = metadata
        .geometry()
        .place(Kind::Table(block_of(file, table)));
    for index in first..first + PER_TABLE {
        let pointer = logical(metadata, standing, &Field::Pointer(file, index));
        let kind = FaultKind::Mark(index);
        add_where(lacks_mark(pointer, uses), Fault { place, kind }, faults)?;
    }
    Ok(())
}

// A file's table block, by its number from 0.
fn block_of(file: FileNo, table: u8) -> Table
    ensures { result ≡ file_table file table }
{
    if table == 0 {
        Table::File(file)
    } else {
        Table::More(file, table)
    }
}

// Whether a pointer has no mark, and its data block is not mapped once.
fn lacks_mark(pointer: u32, uses: &[u32]) -> bool
    requires { IsUnmarked pointer → pointer - 1 < length uses.now }
    ensures { IsTrue result ↔ IsUnmarked pointer × (slice_index uses.now (pointer - 1) ≢ 1) }
{
    if pointer == 0 || pointer >= MARK {
        return false;
    }
    uses[pointer as usize - 1] != 1
}
