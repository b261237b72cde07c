// A dead host's record, made again: its journal is read, each of its tables read and written, and its journal cleared.
ghost use Rattle.std.specs.Prelude.{◌≡◌, ◌<◌, ◌≤◌, ◌↔◌, ℕ, IfErr, IfOk, IfSome, IsTrue, Some, length, slice_get};
ghost use Rattle.host_facts.specs.Others.{Others};
ghost use Rattle.recover_plan.specs.Replaying.{HasClaim, IsAllReplayed, IsDueAt, IsNextEdit, IsReplaying, IsNamedBefore};
ghost use Rattle.recover_plan.specs.Replays.{IsCutAt, Went};
ghost use Rattle.recover_plan.specs.Stages.{behind_journal, behind_write};
ghost use Rattle.table_blocks.specs.Made.{made};
ghost use Rattle.vol_layout.specs.declared.field.Edit.{Edit};
ghost use Rattle.vol_layout.specs.Edits.{AreEdits};
ghost use Rattle.vol_layout.specs.Fields.{table_of};
ghost use Rattle.vol_layout.specs.Ranges.{HasTable, IsGeometry, per_table};

use crate::replay::{Going, Replay};
use journal_block::Record;
use lock_store::StepNo;
use meta_world::MetaWorld;
use shared_disk::Device;
use table_blocks::make;
use vol_base::{HostNo, Key, Packed};
use vol_layout::{Geometry, Table};

/// Reads the journal of a host whose slot is claimed.
pub(crate) fn journal<D: Device>(
    world: &mut MetaWorld<D>,
    host: HostNo,
    of: HostNo,
    dead: Key,
) -> Result<Going, StepNo>
    requires claimed { HasClaim world.old host of dead.0 }
    ensures went { IfOk result (Went host of world.old world.new (Replay.Journal dead)) }
    ensures cut { IfErr result (IsCutAt host of world.old world.new (Replay.Journal dead)) }
    ensures others { Others host world.old world.new }
{
    let _geometry = world.locks().geometry();
    match world.replay_journal(host, of) {
        Ok(entry) => Ok(Going::More(behind_journal(dead, entry))),
        Err(why) => Err(why),
    }
}

/// Reads the table of an edit.
pub(crate) fn read<D: Device>(
    world: &mut MetaWorld<D>,
    host: HostNo,
    of: HostNo,
    dead: Key,
    entry: Record,
    k: u32,
) -> Result<Going, StepNo>
    requires replaying { IsReplaying world.old host of dead.0 entry.edits k }
    ensures went { IfOk result (Went host of world.old world.new (Replay.Read dead entry k)) }
    ensures cut { IfErr result (IsCutAt host of world.old world.new (Replay.Read dead entry k)) }
    ensures others { Others host world.old world.new }
{
    let which = table_at(world.locks().geometry(), &entry, k);
    match world.replay_read(host, which) {
        Ok(table) => Ok(Going::More(with_edits(dead, entry, k, which, table))),
        Err(why) => Err(why),
    }
}

/// Writes the table of an edit with all edits of the record.
pub(crate) fn write<D: Device>(
    world: &mut MetaWorld<D>,
    host: HostNo,
    of: HostNo,
    dead: Key,
    entry: Record,
    k: u32,
    kept: &Packed<4>,
) -> Result<Going, StepNo>
    requires replaying { IsReplaying world.old host of dead.0 entry.edits k }
    requires due { IsDueAt world.old host of entry.edits k kept.now }
    ensures went { IfOk result (Went host of world.old world.new (Replay.Write dead entry k kept.now)) }
    ensures cut { IfErr result (IsCutAt host of world.old world.new (Replay.Write dead entry k kept.now)) }
    ensures others { Others host world.old world.new }
{
    let which = table_at(world.locks().geometry(), &entry, k);
    let next = next_edit(world.locks().geometry(), &entry, k);
    match world.replay_write(host, of, which, kept) {
        Ok(()) => Ok(Going::More(behind_write(dead, entry, next))),
        Err(why) => Err(why),
    }
}

/// Clears the journal, once each edit is written.
pub(crate) fn clear<D: Device>(
    world: &mut MetaWorld<D>,
    host: HostNo,
    of: HostNo,
    dead: Key,
) -> Result<Going, StepNo>
    requires replayed { IsAllReplayed world.old host of dead.0 }
    ensures went { IfOk result (Went host of world.old world.new (Replay.Clear dead)) }
    ensures cut { IfErr result (IsCutAt host of world.old world.new (Replay.Clear dead)) }
    ensures others { Others host world.old world.new }
{
    let _geometry = world.locks().geometry();
    match world.replay_clear(host, of) {
        Ok(()) => Ok(Going::More(Replay::Sweep(dead, 0))),
        Err(why) => Err(why),
    }
}

// What comes next once the journal was read.
fn behind_journal(dead: Key, entry: Option<Record>) -> Replay
    ensures next { result ≡ behind_journal dead entry }
    ensures some { IfSome entry (λ r. 1 ≤ length r.edits) }
{
    match entry {
        Some(entry) => {
            let _count = entry.count();
            Replay::Read(dead, entry, 0)
        }
        None => Replay::Sweep(dead, 0),
    }
}

// The table that was read, with all edits of the record, is to be written.
fn with_edits(dead: Key, entry: Record, k: u32, which: Table, table: Packed<4>) -> Replay
    requires { length table.entries ≡ per_table }
    ensures { result ≡ Replay.Write dead entry k (made which entry.edits table) }
{
    let mut kept = table;
    make(&entry, which, &mut kept);
    Replay::Write(dead, entry, k, kept)
}

// What comes next once a table was written.
fn behind_write(dead: Key, entry: Record, next: u32) -> Replay
    ensures { result ≡ behind_write dead entry next }
{
    if next < entry.count() {
        Replay::Read(dead, entry, next)
    } else {
        Replay::Clear(dead)
    }
}

// The first edit behind this one whose table no earlier edit names; the number of edits where there is none.
fn next_edit(geometry: &Geometry, entry: &Record, k: u32) -> u32
    requires range { IsGeometry geometry.now }
    requires edits { AreEdits geometry.now entry.now.edits }
    requires more { k < length entry.now.edits }
    ensures { IsNextEdit entry.now.edits k result }
{
    for next in k + 1..entry.count() {
        if !is_named_before(geometry, entry, next) {
            return next;
        }
    }
    entry.count()
}

// Whether an earlier edit is of the same table.
fn is_named_before(geometry: &Geometry, entry: &Record, k: u32) -> bool
    requires range { IsGeometry geometry.now }
    requires edits { AreEdits geometry.now entry.now.edits }
    requires more { k < length entry.now.edits }
    ensures yes { IsTrue result → IsNamedBefore entry.now.edits k }
    ensures no { IsNamedBefore entry.now.edits k → IsTrue result }
{
    let which = table_at(geometry, entry, k);
    for i in 0..k {
        if are_same(table_at(geometry, entry, i), which) {
            return true;
        }
    }
    false
}

fn are_same(one: Table, other: Table) -> bool
    ensures { IsTrue result ↔ (one ≡ other) }
{
    one == other
}

// The table of an edit.
fn table_at(geometry: &Geometry, entry: &Record, k: u32) -> Table
    requires range { IsGeometry geometry.now }
    requires edits { AreEdits geometry.now entry.now.edits }
    requires more { k < length entry.now.edits }
    ensures table { (e : Edit) → slice_get entry.now.edits k ≡ Some e → result ≡ table_of e.field }
    ensures has { HasTable geometry.now result }
{
    let edit = entry.get(k);
    geometry.table_of(&edit.field)
}
