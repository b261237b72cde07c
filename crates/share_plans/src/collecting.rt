// The steps of a collection, one device call each.
ghost use Rattle.std.specs.Prelude.{◌≡◌, ◌≢◌, ◌<◌, [], IfErr, IfOk, length};
ghost use Rattle.host_facts.specs.Others.{Others};
ghost use Rattle.plan_parts.specs.Cuts.{IsCut};
ghost use Rattle.share_plans.specs.Gatherings.{At, answer_of, behind_group, behind_list, edited_table};
ghost use Rattle.share_plans.specs.Spents.{current, emptying_of};
ghost use Rattle.share_plans.specs.GatheringSteps.{Went};
ghost use Rattle.share_plans.specs.declared.collection.Gathering.{Gathering};
ghost use Rattle.vol_layout.specs.Ranges.{per_table};

use crate::collection::{Collection, Emptying, Gathered, Gathering};
use crate::spending::{emptying, named_groups};
use journal_block::Record;
use lock_store::StepNo;
use meta_world::MetaWorld;
use plan_parts::{Applied, Applying, Kept, Kepts, commit, fetch};
use shared_disk::Device;
use table_blocks::make;
use vol_base::{Answer, Key, Packed};
use vol_layout::{Resource, Table};

/// The part is locked.
pub fn locks_part<D: Device>(
    core: &mut Collection,
    world: &mut MetaWorld<D>,
) -> Result<Gathered, StepNo>
    requires stands { At world.old core.old Gathering.LocksPart }
    ensures went { IfOk result (Went world.old world.new core.old core.new Gathering.LocksPart) }
    ensures cut { IfErr result (IsCut core.old.host world.old world.new) }
    ensures others { Others core.old.host world.old world.new }
{
    let _geometry = world.locks().geometry();
    let came = core.taken.take(world, core.host, Resource::Part(core.part));
    let _geometry = world.locks().geometry();
    match came {
        Ok(busy) => match busy {
            None => Ok(Gathered::More(Gathering::ReadsPart)),
            Some(key) => Ok(Gathered::Answered(Answer::Busy(key))),
        },
        Err(why) => Err(why),
    }
}

/// Its table is read, which names the groups that are visited.
pub fn reads_part<D: Device>(
    core: &mut Collection,
    world: &mut MetaWorld<D>,
) -> Result<Gathered, StepNo>
    requires stands { At world.old core.old Gathering.ReadsPart }
    ensures went { IfOk result (Went world.old world.new core.old core.new Gathering.ReadsPart) }
    ensures cut { IfErr result (IsCut core.old.host world.old world.new) }
    ensures others { Others core.old.host world.old world.new }
{
    let _geometry = world.locks().geometry();
    let came = fetch(world, core.host, Table::Part(core.part));
    let groups = world.locks().geometry().groups;
    match came {
        Ok(part) => {
            core.groups = named_groups(&part.table, groups);
            Ok(Gathered::More(behind_list(core, part)))
        }
        Err(why) => Err(why),
    }
}

// What comes next, by the groups that are left.
fn behind_list(core: &Collection, part: Kept) -> Gathering
    ensures { result ≡ behind_list core.now.groups part }
{
    if core.groups.is_empty() {
        Gathering::FreesPart(None)
    } else {
        Gathering::LocksGroup(part)
    }
}

/// The first group that is left is locked.
pub fn locks_group<D: Device>(
    core: &mut Collection,
    world: &mut MetaWorld<D>,
    part: Kept,
) -> Result<Gathered, StepNo>
    requires stands { At world.old core.old (Gathering.LocksGroup part) }
    ensures went { IfOk result (Went world.old world.new core.old core.new (Gathering.LocksGroup part)) }
    ensures cut { IfErr result (IsCut core.old.host world.old world.new) }
    ensures others { Others core.old.host world.old world.new }
{
    let group = core.groups.first();
    let _geometry = world.locks().geometry();
    let came = core.taken.take(world, core.host, Resource::Group(group));
    let _geometry = world.locks().geometry();
    match came {
        Ok(busy) => match busy {
            None => Ok(Gathered::More(Gathering::ReadsGroup(part))),
            Some(key) => Ok(Gathered::More(Gathering::FreesPart(Some(key)))),
        },
        Err(why) => Err(why),
    }
}

/// Its table is read.
pub fn reads_group<D: Device>(
    core: &Collection,
    world: &mut MetaWorld<D>,
    part: Kept,
) -> Result<Gathered, StepNo>
    requires stands { At world.old core.now (Gathering.ReadsGroup part) }
    ensures went { IfOk result (Went world.old world.new core.now core.now (Gathering.ReadsGroup part)) }
    ensures cut { IfErr result (IsCut core.now.host world.old world.new) }
    ensures others { Others core.now.host world.old world.new }
{
    let _geometry = world.locks().geometry();
    let key = world.locks().key_of(core.host).unwrap();
    let came = fetch(world, core.host, Table::Group(core.groups.first()));
    let _geometry = world.locks().geometry();
    match came {
        Ok(group) => Ok(Gathered::More(behind_group(core, key, part, group))),
        Err(why) => Err(why),
    }
}

// What comes next, by the slots of the part that are to be emptied for the group.
fn behind_group(core: &Collection, key: Key, part: Kept, group: Kept) -> Gathering
    requires part { core.now.part < 16 }
    requires group { current core.now.groups < 64 }
    requires some { core.now.groups ≢ [] }
    requires long { length part.table.entries ≡ per_table }
    requires long_too { length group.table.entries ≡ per_table }
    ensures { result ≡ behind_group (emptying_of key.0 core.now.part part.table (current core.now.groups) group.table) part group }
{
    let first = core.groups.first();
    match emptying(key, core.part, &part.table, first, &group.table) {
        Some(emptying) => Gathering::Commits(emptying, part, group),
        None => Gathering::FreesGroup(part),
    }
}

/// The record is written by which the slots are emptied.
// LLVM takes a minute for `steps` where this stands inside it.
#[inline(never)]
pub fn commits<D: Device>(
    core: &mut Collection,
    world: &mut MetaWorld<D>,
    emptying: Emptying,
    part: Kept,
    group: Kept,
) -> Result<Gathered, StepNo>
    requires stands { At world.old core.old (Gathering.Commits emptying part group) }
    ensures went { IfOk result (Went world.old world.new core.old core.new (Gathering.Commits emptying part group)) }
    ensures cut { IfErr result (IsCut core.old.host world.old world.new) }
    ensures others { Others core.old.host world.old world.new }
{
    let _geometry = world.locks().geometry();
    let Emptying { entry, slots } = emptying;
    let part_behind = edited(&entry, &part);
    let group_behind = edited(&entry, &group);
    let left = Kepts::new(Some(part), Some(group), None, None);
    let came = commit(world, core.host, &entry, &left);
    let _geometry = world.locks().geometry();
    match came {
        Ok(()) => {
            core.count += slots;
            let applying = Applying { entry, left };
            Ok(Gathered::More(Gathering::Applies(applying, part_behind, group_behind)))
        }
        Err(why) => Err(why),
    }
}

// A table as it is once the record is written.
fn edited(entry: &Record, kept: &Kept) -> Kept
    requires { length kept.now.table.entries ≡ per_table }
    ensures { result ≡ edited_table entry.now.edits kept.now }
{
    let mut table = copy(&kept.table);
    make(entry, kept.which, &mut table);
    Kept {
        which: kept.which,
        table,
    }
}

fn copy(table: &Packed<4>) -> Packed<4>
    ensures { result ≡ table.now }
{
    table.clone().unwrap()
}

/// The record goes into its tables. Behind it more slots are looked for.
pub fn applies<D: Device>(
    core: &Collection,
    world: &mut MetaWorld<D>,
    applying: Applying,
    part: Kept,
    group: Kept,
) -> Result<Gathered, StepNo>
    requires stands { At world.old core.now (Gathering.Applies applying part group) }
    ensures went { IfOk result (Went world.old world.new core.now core.now (Gathering.Applies applying part group)) }
    ensures cut { IfErr result (IsCut core.now.host world.old world.new) }
    ensures others { Others core.now.host world.old world.new }
{
    let _geometry = world.locks().geometry();
    let key = world.locks().key_of(core.host).unwrap();
    let mut left = applying;
    match left.next(world, core.host) {
        Ok(Applied::Wrote(_)) => Ok(Gathered::More(Gathering::Applies(left, part, group))),
        Ok(Applied::Finished) => Ok(Gathered::More(behind_group(core, key, part, group))),
        Err(why) => Err(why),
    }
}

/// The group's lock is freed, and the group leaves the list.
pub fn frees_group<D: Device>(
    core: &mut Collection,
    world: &mut MetaWorld<D>,
    part: Kept,
) -> Result<Gathered, StepNo>
    requires stands { At world.old core.old (Gathering.FreesGroup part) }
    ensures went { IfOk result (Went world.old world.new core.old core.new (Gathering.FreesGroup part)) }
    ensures cut { IfErr result (IsCut core.old.host world.old world.new) }
    ensures others { Others core.old.host world.old world.new }
{
    let _geometry = world.locks().geometry();
    let came = core.taken.free_last(world, core.host);
    let _geometry = world.locks().geometry();
    match came {
        Ok(_freed) => {
            let _visited = core.groups.take_first();
            Ok(Gathered::More(behind_list(core, part)))
        }
        Err(why) => Err(why),
    }
}

/// The part's lock is freed, and the collection answered.
pub fn frees_part<D: Device>(
    core: &mut Collection,
    world: &mut MetaWorld<D>,
    busy: Option<Key>,
) -> Result<Gathered, StepNo>
    requires stands { At world.old core.old (Gathering.FreesPart busy) }
    ensures went { IfOk result (Went world.old world.new core.old core.new (Gathering.FreesPart busy)) }
    ensures cut { IfErr result (IsCut core.old.host world.old world.new) }
    ensures others { Others core.old.host world.old world.new }
{
    let _geometry = world.locks().geometry();
    let came = core.taken.free_last(world, core.host);
    let _geometry = world.locks().geometry();
    match came {
        Ok(_freed) => Ok(Gathered::Answered(answer(busy, core.count))),
        Err(why) => Err(why),
    }
}

// The answer once the part is free.
fn answer(busy: Option<Key>, count: u32) -> Answer
    ensures { result ≡ answer_of busy count }
{
    match busy {
        None => Answer::Collected(count),
        Some(key) => Answer::Busy(key),
    }
}
