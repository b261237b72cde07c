// The commits of file commands: each builds its record and writes it, in one call of the device.
ghost use Rattle.std.specs.Prelude.{◌≡◌, ◌≢◌, ◌<◌, ◌∷◌, ◌++◌, ◌-◌, ◌≤◌, ℕ, [], IfErr, IfOk, None, Some, false, length, true};
ghost use Rattle.call_effects.specs.Drops.{dropped};
ghost use Rattle.call_effects.specs.Fresh.{counts_filled, filled};
ghost use Rattle.call_effects.specs.Heads.{headed};
ghost use Rattle.file_plans.specs.Bases.{IsCached};
ghost use Rattle.file_plans.specs.Commits.{HasCommitted, AreLong, IsOld, IsPut, MayCommit, filled_tables, left_by, left_of, pointer_before};
ghost use Rattle.file_plans.specs.Says.{HasBlock};
ghost use Rattle.file_plans.specs.Sights.{IsSight};
ghost use Rattle.file_plans.specs.declared.call.FileCall.{FileCall};
ghost use Rattle.file_plans.specs.declared.sight.Sight.{Sight};
ghost use Rattle.held_cache.specs.Kept.{IsFileTable, kept_at};
ghost use Rattle.host_facts.specs.Facts.Fact.{FreshIs, RecordIs};
ghost use Rattle.host_facts.specs.Knows.{Knows};
ghost use Rattle.host_facts.specs.Others.{Others};
ghost use Rattle.image_view.specs.Balances.{edit};
ghost use Rattle.lock_store.specs.Memories.{holds};
ghost use Rattle.lock_store.specs.Views.{host_at, key_at};
ghost use Rattle.plain_files.specs.Calls.{file_no};
ghost use Rattle.plan_parts.specs.Cuts.{IsCut};
ghost use Rattle.plan_parts.specs.KeptTables.{IsKept};
ghost use Rattle.table_blocks.specs.Tables.{number_in};
ghost use Rattle.vol_base.specs.declared.block.Block.{Block};
ghost use Rattle.vol_base.specs.declared.plain.PlainReply.{PlainReply};
ghost use Rattle.vol_layout.specs.declared.kind.Resource.{Resource};
ghost use Rattle.vol_layout.specs.Edits.{touches};
ghost use Rattle.vol_layout.specs.Fields.{table_of};
ghost use Rattle.vol_layout.specs.Ranges.{per_table};

use crate::call::file_no;
use crate::old::Old;
use held_cache::HeldCache;
use journal_block::Record;
use lock_store::StepNo;
use meta_world::MetaWorld;
use plan_parts::{Applying, Kept, Kepts, commit};
use shared_disk::Device;
use table_blocks::number;
use vol_base::{DataNo, FileNo, HostNo, Packed, PlainCall};
use vol_layout::{Edit, Field, Table};

/// Commits the head of the file: it comes to be, goes, or gets another length.
pub fn commit_head<D: Device>(
    world: &mut MetaWorld<D>,
    cache: &HeldCache,
    host: HostNo,
    call: &PlainCall,
    number: u32,
) -> Result<Applying, StepNo>
    requires host { host < world.old.locks.geometry.hosts }
    requires file { file_no call.now < world.old.locks.geometry.files }
    requires cached { IsCached world.old cache.now host }
    requires held { holds (host_at world.old.locks host) (Resource.File (file_no call.now)) ≡ true }
    requires empty { Knows world.old host (RecordIs []) }
    requires sight { IsSight world.old.locks.geometry (kept_at cache.now host) (FileCall.Plain call.now) (Sight.Heads number) }
    ensures went { IfOk result (HasCommitted host world.old world.new (FileCall.Plain call.now) (Some PlainReply.Done) (headed (file_no call.now) number)) }
    ensures cut { IfErr result (IsCut host world.old world.new) }
    ensures others { Others host world.old world.new }
{
    let _geometry = world.locks().geometry();
    let file = file_no(call);
    let head = Edit {
        field: Field::Head(file),
        number,
    };
    let entry = first(world, host, head);
    let left = Kepts::new(Some(kept(cache, host, Table::File(file))), None, None, None);
    put(world, host, entry, left)
}

/// Commits a punch: the pointer at the index, which names this data block, becomes a hole. `group` is the table of its count.
pub fn commit_drop<D: Device>(
    world: &mut MetaWorld<D>,
    cache: &HeldCache,
    host: HostNo,
    file: FileNo,
    index: u32,
    number: DataNo,
    group: Kept,
) -> Result<Applying, StepNo>
    requires host { host < world.old.locks.geometry.hosts }
    requires file { file < world.old.locks.geometry.files }
    requires cached { IsCached world.old cache.now host }
    requires held { holds (host_at world.old.locks host) (Resource.File file) ≡ true }
    requires empty { Knows world.old host (RecordIs []) }
    requires sight { IsSight world.old.locks.geometry (kept_at cache.now host) (FileCall.Plain (PlainCall.Punch file index)) (Sight.Drops number) }
    requires group { IsKept world.old host group }
    requires which { group.which ≡ table_of (Field.Count number) }
    ensures went { IfOk result (HasCommitted host world.old world.new (FileCall.Plain (PlainCall.Punch file index)) (Some PlainReply.Done) (dropped file index number (number_in group.table (Field.Count number)))) }
    ensures cut { IfErr result (IsCut host world.old world.new) }
    ensures others { Others host world.old world.new }
{
    let field = Field::Pointer(file, index);
    let hole = Edit { field, number: 0 };
    let mut entry = first(world, host, hole);
    add(&mut entry, lowered(&group.table, number, 1));
    let which = world.locks().geometry().table_of(&field);
    let left = Kepts::new(Some(kept(cache, host, which)), Some(group), None, None);
    put(world, host, entry, left)
}

/// Commits a fresh write: the pointer at the index comes to name this free data block. `group` is the table of its count.
pub fn commit_fill<D: Device>(
    world: &mut MetaWorld<D>,
    cache: &HeldCache,
    host: HostNo,
    file: FileNo,
    index: u32,
    number: DataNo,
    group: Kept,
    old: Old,
) -> Result<Applying, StepNo>
    requires host { host < world.old.locks.geometry.hosts }
    requires file { file < world.old.locks.geometry.files }
    requires cached { IsCached world.old cache.now host }
    requires held { holds (host_at world.old.locks host) (Resource.File file) ≡ true }
    requires empty { Knows world.old host (RecordIs []) }
    requires block { HasBlock world.old.locks.geometry (kept_at cache.now host) file index (pointer_before old) }
    requires group { IsKept world.old host group }
    requires which { group.which ≡ table_of (Field.Count number) }
    requires free { number_in group.table (Field.Count number) ≡ 0 }
    requires left { IsOld world.old host group old }
    ensures went { (block : Block) → Knows world.old host (FreshIs number block.0) → IfOk result (HasCommitted host world.old world.new (FileCall.Plain (PlainCall.Write file index block)) (Some PlainReply.Done) (filled file index number (left_of number group old))) }
    ensures cut { IfErr result (IsCut host world.old world.new) }
    ensures others { Others host world.old world.new }
{
    let which = world
        .locks()
        .geometry()
        .table_of(&Field::Pointer(file, index));
    let pointer = Edit {
        field: Field::Pointer(file, index),
        number: number + 1,
    };
    let mut entry = first(world, host, pointer);
    add_moved(&mut entry, number, &group, &old);
    let left = tables(kept(cache, host, which), number, group, old);
    put(world, host, entry, left)
}

// The tables of a fresh write, the groups in the order of their counts.
fn tables(pointers: Kept, found: DataNo, group: Kept, old: Old) -> Kepts
    ensures { result ≡ filled_tables pointers found group old }
{
    match old {
        Old::Other(number, other) => {
            if number < found {
                Kepts::new(Some(pointers), Some(other), Some(group), None)
            } else {
                Kepts::new(Some(pointers), Some(group), Some(other), None)
            }
        }
        Old::Hole | Old::Same(_) => Kepts::new(Some(pointers), Some(group), None, None),
    }
}

// Adds the counts of a fresh write: that of the found block rises from 0, and that of the block that is left falls.
fn add_moved(entry: &mut Record, found: DataNo, group: &Kept, old: &Old)
    requires room { length entry.old.edits ≤ 6 }
    requires other { (d : ℕ) → touches entry.old.edits (Field.Count d) ≡ false }
    requires long { length group.now.table.entries ≡ per_table }
    requires longs { AreLong old.now }
    ensures { entry.new ≡ record entry.old { edits = entry.old.edits ++ counts_filled found (left_of found group.now old.now) } }
{
    match old {
        Old::Hole => add(entry, raised(found)),
        Old::Same(left) => add_both(entry, found, *left, &group.table),
        Old::Other(left, other) => add_both(entry, found, *left, &other.table),
    }
}

// Adds the counts of the found block and of the one that is left, the lower number first.
fn add_both(entry: &mut Record, found: DataNo, left: DataNo, table: &Packed<4>)
    requires room { length entry.old.edits ≤ 6 }
    requires other { (d : ℕ) → touches entry.old.edits (Field.Count d) ≡ false }
    requires long { length table.now.entries ≡ per_table }
    ensures { entry.new ≡ record entry.old { edits = entry.old.edits ++ counts_filled found (left_by found left (number_in table.now (Field.Count left))) } }
{
    if left == found {
        add(entry, raised(found));
    } else if left < found {
        add(entry, lowered(table, left, 1));
        add(entry, raised(found));
    } else {
        add(entry, raised(found));
        add(entry, lowered(table, left, 1));
    }
}

fn raised(number: DataNo) -> Edit
    ensures { result ≡ edit (Field.Count number) 1 }
{
    Edit {
        field: Field::Count(number),
        number: 1,
    }
}

// The count of a data block, less so many; a count that is not as many becomes 0.
pub fn lowered(table: &Packed<4>, block: DataNo, by: u32) -> Edit
    requires { length table.now.entries ≡ per_table }
    ensures { result ≡ edit (Field.Count block) (number_in table.now (Field.Count block) - by) }
{
    let field = Field::Count(block);
    let count = number(table, &field);
    Edit {
        field,
        number: count.saturating_sub(by),
    }
}

// A record of one edit, under the host's key.
pub fn first<D: Device>(world: &MetaWorld<D>, host: HostNo, edit: Edit) -> Record
    requires host { host < world.now.locks.geometry.hosts }
    requires empty { Knows world.now host (RecordIs []) }
    ensures { result ≡ record { key = key_at world.now.locks host; edits = edit ∷ [] } }
{
    let _geometry = world.locks().geometry();
    Record::new(world.locks().key_of(host).unwrap(), edit)
}

// Adds an edit that there is room for.
pub fn add(entry: &mut Record, edit: Edit)
    requires room { length entry.old.edits < 8 }
    requires other { touches entry.old.edits edit.field ≡ false }
    ensures { entry.new ≡ record entry.old { edits = entry.old.edits ++ edit ∷ [] } }
{
    entry.add(edit).unwrap();
}

// The table of a file that is kept.
pub fn kept(cache: &HeldCache, host: HostNo, which: Table) -> Kept
    requires host { host < cache.now.volume.hosts }
    requires table { IsFileTable cache.now.volume which }
    requires kept { kept_at cache.now host which ≢ None }
    ensures which { result.which ≡ which }
    ensures table { kept_at cache.now host which ≡ Some result.table }
{
    Kept {
        which,
        table: copy(cache.get(host, which).unwrap()),
    }
}

fn copy(table: &Packed<4>) -> Packed<4>
    ensures { result ≡ table.now }
{
    table.clone().unwrap()
}

// Writes the record; its tables are then left to write.
pub fn put<D: Device>(
    world: &mut MetaWorld<D>,
    host: HostNo,
    entry: Record,
    left: Kepts,
) -> Result<Applying, StepNo>
    requires host { host < world.old.locks.geometry.hosts }
    requires may { MayCommit world.old host entry left }
    ensures went { IfOk result (IsPut host world.old world.new entry left) }
    ensures cut { IfErr result (IsCut host world.old world.new) }
    ensures others { Others host world.old world.new }
{
    match commit(world, host, &entry, &left) {
        Ok(()) => Ok(Applying { entry, left }),
        Err(why) => Err(why),
    }
}
