// The commit of a purge: pointers at or past the file's end become holes.
ghost use Rattle.std.specs.Prelude.{◌≡◌, ◌<◌, ◌≤◌, ◌++◌, ℕ, [], All, IfErr, IfOk, IfSome, None, false, length, slice_get, take, true};
ghost use Rattle.std.specs.Option.{option_to_list};
ghost use Rattle.call_effects.specs.Purges.{counted, emptied, purged};
ghost use Rattle.file_plans.specs.Bases.{IsCached};
ghost use Rattle.file_plans.specs.Calls.{file_of};
ghost use Rattle.file_plans.specs.Commits.{HasCommitted, LeavesPurge, bound_behind, counts_of, indexes_of, lowered_in, lowest_from};
ghost use Rattle.file_plans.specs.Says.{AreAscending};
ghost use Rattle.file_plans.specs.Sights.{IsSight};
ghost use Rattle.file_plans.specs.declared.remains.Remain.{Remain};
ghost use Rattle.file_plans.specs.declared.sight.Sight.{Sight};
ghost use Rattle.held_cache.specs.Kept.{kept_at};
ghost use Rattle.host_facts.specs.Facts.Fact.{RecordIs};
ghost use Rattle.host_facts.specs.Knows.{Knows};
ghost use Rattle.host_facts.specs.Others.{Others};
ghost use Rattle.image_view.specs.Balances.{edit};
ghost use Rattle.lock_store.specs.Memories.{holds};
ghost use Rattle.lock_store.specs.Views.{host_at};
ghost use Rattle.plan_parts.specs.Cuts.{IsCut};
ghost use Rattle.plan_parts.specs.KeptTables.{IsKept};
ghost use Rattle.vol_layout.specs.declared.kind.Resource.{Resource};
ghost use Rattle.vol_layout.specs.Edits.{touches};
ghost use Rattle.vol_layout.specs.Fields.{table_of};
ghost use Rattle.vol_layout.specs.Ranges.{per_table};

use crate::call::FileCall;
use crate::commits::{add, first, kept, lowered, put};
use crate::remains::Remains;
use held_cache::HeldCache;
use journal_block::Record;
use lock_store::StepNo;
use meta_world::MetaWorld;
use plan_parts::{Applying, Kept, Kepts};
use shared_disk::Device;
use vol_base::{DataNo, FileNo, HostNo, Packed};
use vol_layout::{Edit, Field};

/// Commits a purge: the remains become holes. `group` is the table of the counts of their data blocks.
pub fn commit_purge<D: Device>(
    world: &mut MetaWorld<D>,
    cache: &HeldCache,
    host: HostNo,
    call: &FileCall,
    remains: &Remains,
    group: Kept,
) -> Result<Applying, StepNo>
    requires host { host < world.old.locks.geometry.hosts }
    requires file { file_of call.now < world.old.locks.geometry.files }
    requires cached { IsCached world.old cache.now host }
    requires held { holds (host_at world.old.locks host) (Resource.File (file_of call.now)) ≡ true }
    requires empty { Knows world.old host (RecordIs []) }
    requires sight { IsSight world.old.locks.geometry (kept_at cache.now host) call.now (Sight.Purges remains.now) }
    requires group { IsKept world.old host group }
    requires which { IfSome (slice_get remains.now 0) (λ r. group.which ≡ table_of (Field.Count r.number)) }
    ensures went { IfOk result (HasCommitted host world.old world.new call.now None (purged (file_of call.now) (indexes_of remains.now) (counts_of group.table remains.now))) }
    ensures left { IfOk result (λ a. LeavesPurge (kept_at cache.now host) (file_of call.now) remains.now group a.left) }
    ensures cut { IfErr result (IsCut host world.old world.new) }
    ensures others { Others host world.old world.new }
{
    let file = call.file();
    let start = remains.get(0);
    let pointer = Field::Pointer(file, start.index);
    let which = world.locks().geometry().table_of(&pointer);
    let mut entry = first(world, host, hole(file, start.index));
    add_holes(&mut entry, file, remains);
    add_counts(&mut entry, remains, &group.table);
    let left = Kepts::new(Some(kept(cache, host, which)), Some(group), None, None);
    put(world, host, entry, left)
}

fn hole(file: FileNo, index: u32) -> Edit
    ensures { result ≡ edit (Field.Pointer file index) 0 }
{
    Edit {
        field: Field::Pointer(file, index),
        number: 0,
    }
}

// Adds the remains behind the first one.
fn add_holes(entry: &mut Record, file: FileNo, remains: &Remains)
    requires first { entry.old.edits ≡ emptied file (indexes_of (take 1 remains.now)) }
    requires ascending { AreAscending remains.now }
    ensures { entry.new ≡ record entry.old { edits = emptied file (indexes_of remains.now) } }
{
    for k in 1..remains.count() {
        add(entry, hole(file, remains.get(k).index));
    }
}

// Adds the counts of the data blocks that the remains name, ascending.
fn add_counts(entry: &mut Record, remains: &Remains, table: &Packed<4>)
    requires room { length entry.old.edits ≤ 4 }
    requires other { (d : ℕ) → touches entry.old.edits (Field.Count d) ≡ false }
    requires long { length table.now.entries ≡ per_table }
    requires small { All (λ (r : Remain). r.number < 65536) remains.now }
    ensures { entry.new ≡ record entry.old { edits = entry.old.edits ++ counted (counts_of table.now remains.now) } }
{
    let mut from = 0;
    for _left in (0..remains.count()).rev() {
        from = add_count(entry, remains, table, from);
    }
}

// Adds the count of the lowest data block from a bound upwards, and gives the bound behind it.
fn add_count(entry: &mut Record, remains: &Remains, table: &Packed<4>, from: DataNo) -> DataNo
    requires room { length entry.old.edits < 8 }
    requires other { (d : ℕ) → from ≤ d → touches entry.old.edits (Field.Count d) ≡ false }
    requires long { length table.now.entries ≡ per_table }
    requires small { All (λ (r : Remain). r.number < 65536) remains.now }
    ensures entry { entry.new ≡ record entry.old { edits = entry.old.edits ++ counted (lowered_in table.now remains.now (option_to_list (lowest_from from remains.now))) } }
    ensures bound { result ≡ bound_behind from (lowest_from from remains.now) }
{
    match remains.lowest(from) {
        None => from,
        Some(number) => {
            add(entry, lowered(table, number, remains.named(number)));
            number + 1
        }
    }
}
