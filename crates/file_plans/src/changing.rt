// The stages by which pointers become holes, or the head of a file changes: the group of the data blocks that are left is locked, its table
// read, and the record written.
ghost use Rattle.std.specs.Prelude.{◌≡◌, IfErr, IfOk};
ghost use Rattle.file_plans.specs.Sights.{IsSight};
ghost use Rattle.file_plans.specs.Stands.{At, first_of_change};
ghost use Rattle.file_plans.specs.Went.{IsCutAt, Went};
ghost use Rattle.file_plans.specs.Turns.{IsSooner};
ghost use Rattle.file_plans.specs.declared.sight.Sight.{Sight};
ghost use Rattle.file_plans.specs.declared.stage.Change.{Change};
ghost use Rattle.file_plans.specs.declared.stage.Stage.{Stage};
ghost use Rattle.held_cache.specs.Kept.{kept_at};
ghost use Rattle.host_facts.specs.Others.{Others};

use crate::commits::{commit_drop, commit_head};
use crate::ending::{comes, made, places, stands};
use crate::purging::commit_purge;
use crate::remains::Remains;
use crate::stage::{Change, Stage};
use crate::state::Core;
use held_cache::HeldCache;
use lock_store::StepNo;
use meta_world::MetaWorld;
use plan_parts::{Kept, Outcome, fetch};
use shared_disk::Device;
use vol_base::{DataNo, Next, Step};
use vol_layout::Field;

/// The group of the data blocks is locked.
pub fn locks<D: Device>(
    core: &mut Core,
    world: &mut MetaWorld<D>,
    cache: &HeldCache,
    change: Change,
) -> Result<(Step, Stage), StepNo>
    requires stands { At world.old cache.now core.old (Stage.Locks change) }
    ensures went { IfOk result (λ r. Went world.old world.new cache.now core.old core.new (Stage.Locks change) r.0 r.1) }
    ensures sooner { IfOk result (λ r. IsSooner world.old cache.now core.old (Stage.Locks change) world.new cache.now core.new r.0.next r.1) }
    ensures cut { IfErr result (IsCutAt world.old world.new core.old (Stage.Locks change)) }
    ensures others { Others core.old.host world.old world.new }
{
    let number = first_of(&change);
    let what = world.locks().geometry().resource_of(&Field::Count(number));
    let came = core.taken.take(world, core.host, what);
    let _geometry = world.locks().geometry();
    match came {
        Ok(busy) => match busy {
            None => Ok((made(None, Next::More), Stage::Fetches(change))),
            Some(key) => Ok(comes(core, Outcome::Busy(key))),
        },
        Err(why) => Err(why),
    }
}

/// Its table is read.
pub fn fetches<D: Device>(
    core: &mut Core,
    world: &mut MetaWorld<D>,
    cache: &HeldCache,
    change: Change,
) -> Result<(Step, Stage), StepNo>
    requires stands { At world.old cache.now core.old (Stage.Fetches change) }
    ensures went { IfOk result (λ r. Went world.old world.new cache.now core.old core.new (Stage.Fetches change) r.0 r.1) }
    ensures sooner { IfOk result (λ r. IsSooner world.old cache.now core.old (Stage.Fetches change) world.new cache.now core.new r.0.next r.1) }
    ensures cut { IfErr result (IsCutAt world.old world.new core.old (Stage.Fetches change)) }
    ensures others { Others core.old.host world.old world.new }
{
    let number = first_of(&change);
    let which = world.locks().geometry().table_of(&Field::Count(number));
    let came = fetch(world, core.host, which);
    let _geometry = world.locks().geometry();
    match came {
        Ok(kept) => Ok((made(None, Next::More), Stage::Changes(change, kept))),
        Err(why) => Err(why),
    }
}

/// The record of the change is written.
pub fn changes<D: Device>(
    core: &mut Core,
    world: &mut MetaWorld<D>,
    cache: &HeldCache,
    change: Change,
    group: Kept,
) -> Result<(Step, Stage), StepNo>
    requires stands { At world.old cache.now core.old (Stage.Changes change group) }
    ensures went { IfOk result (λ r. Went world.old world.new cache.now core.old core.new (Stage.Changes change group) r.0 r.1) }
    ensures sooner { IfOk result (λ r. IsSooner world.old cache.now core.old (Stage.Changes change group) world.new cache.now core.new r.0.next r.1) }
    ensures cut { IfErr result (IsCutAt world.old world.new core.old (Stage.Changes change group)) }
    ensures others { Others core.old.host world.old world.new }
{
    match change {
        Change::Drop(number) => drops(core, world, cache, number, group),
        Change::Purge(remains) => purges(core, world, cache, remains, group),
    }
}

// The record of a punch is written, by which the call has its place.
fn drops<D: Device>(
    core: &mut Core,
    world: &mut MetaWorld<D>,
    cache: &HeldCache,
    number: DataNo,
    group: Kept,
) -> Result<(Step, Stage), StepNo>
    requires stands { At world.old cache.now core.old (Stage.Changes (Change.Drop number) group) }
    ensures went { IfOk result (λ r. Went world.old world.new cache.now core.old core.new (Stage.Changes (Change.Drop number) group) r.0 r.1) }
    ensures sooner { IfOk result (λ r. IsSooner world.old cache.now core.old (Stage.Changes (Change.Drop number) group) world.new cache.now core.new r.0.next r.1) }
    ensures cut { IfErr result (IsCutAt world.old world.new core.old (Stage.Changes (Change.Drop number) group)) }
    ensures others { Others core.old.host world.old world.new }
{
    let _geometry = world.locks().geometry();
    let file = core.call.file();
    let index = core.call.index();
    let came = commit_drop(world, cache, core.host, file, index, number, group);
    let _geometry = world.locks().geometry();
    match came {
        Ok(applying) => Ok(places(core, applying)),
        Err(why) => Err(why),
    }
}

// The record of a purge is written, which is the place of no call: the plan looks again once it has gone into the tables.
fn purges<D: Device>(
    core: &mut Core,
    world: &mut MetaWorld<D>,
    cache: &HeldCache,
    remains: Remains,
    group: Kept,
) -> Result<(Step, Stage), StepNo>
    requires stands { At world.old cache.now core.old (Stage.Changes (Change.Purge remains) group) }
    ensures went { IfOk result (λ r. Went world.old world.new cache.now core.old core.new (Stage.Changes (Change.Purge remains) group) r.0 r.1) }
    ensures sooner { IfOk result (λ r. IsSooner world.old cache.now core.old (Stage.Changes (Change.Purge remains) group) world.new cache.now core.new r.0.next r.1) }
    ensures cut { IfErr result (IsCutAt world.old world.new core.old (Stage.Changes (Change.Purge remains) group)) }
    ensures others { Others core.old.host world.old world.new }
{
    let _geometry = world.locks().geometry();
    let came = commit_purge(world, cache, core.host, &core.call, &remains, group);
    let _geometry = world.locks().geometry();
    match came {
        Ok(applying) => Ok(stands(None, applying)),
        Err(why) => Err(why),
    }
}

// A data block of the change: its group is the one that is locked.
fn first_of(change: &Change) -> DataNo
    ensures { result ≡ first_of_change change.now }
{
    match change {
        Change::Drop(number) => *number,
        Change::Purge(remains) => {
            let _count = remains.count();
            remains.get(0).number
        }
    }
}

/// The record of the file's head is written, by which the call has its place.
pub fn heads<D: Device>(
    core: &mut Core,
    world: &mut MetaWorld<D>,
    cache: &HeldCache,
    number: u32,
) -> Result<(Step, Stage), StepNo>
    requires stands { At world.old cache.now core.old Stage.Sees }
    requires sight { IsSight world.old.locks.geometry (kept_at cache.now core.old.host) core.old.call (Sight.Heads number) }
    ensures went { IfOk result (λ r. Went world.old world.new cache.now core.old core.new Stage.Sees r.0 r.1) }
    ensures sooner { IfOk result (λ r. IsSooner world.old cache.now core.old Stage.Sees world.new cache.now core.new r.0.next r.1) }
    ensures cut { IfErr result (IsCutAt world.old world.new core.old Stage.Sees) }
    ensures others { Others core.old.host world.old world.new }
{
    let _geometry = world.locks().geometry();
    let call = core.call.plain().unwrap();
    let came = commit_head(world, cache, core.host, call, number);
    let _geometry = world.locks().geometry();
    match came {
        Ok(applying) => Ok(places(core, applying)),
        Err(why) => Err(why),
    }
}
