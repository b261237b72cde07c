// The stages of a fresh write: a free data block is searched, the group of the shared block that it replaces is locked and read; then the
// block and its record are written.
ghost use Rattle.std.specs.Prelude.{◌≡◌, ◌↔◌, IfErr, IfOk, IsTrue, true};
ghost use Rattle.file_plans.specs.Calls.{is_write};
ghost use Rattle.file_plans.specs.Stands.{At};
ghost use Rattle.file_plans.specs.Went.{IsCutAt, Went};
ghost use Rattle.file_plans.specs.Turns.{IsSooner};
ghost use Rattle.file_plans.specs.Writes.{behind_found, behind_other, has_count, kept_shared, puts_for};
ghost use Rattle.file_plans.specs.declared.call.FileCall.{FileCall};
ghost use Rattle.file_plans.specs.declared.stage.Stage.{Stage};
ghost use Rattle.host_facts.specs.Others.{Others};
ghost use Rattle.vol_base.specs.declared.plain.PlainCall.{PlainCall};

use crate::call::FileCall;
use crate::commits::commit_fill;
use crate::ending::{comes, made, places};
use crate::old::Old;
use crate::stage::{Fresh, Stage};
use crate::state::Core;
use held_cache::HeldCache;
use lock_store::StepNo;
use meta_world::MetaWorld;
use plan_parts::{Kept, Outcome, Search, Searching, fetch};
use shared_disk::Device;
use vol_base::{Block, DataNo, FileNo, Next, PlainCall, Step};
use vol_layout::{Field, PER_TABLE, Table};

/// One step of the search for a free data block.
pub fn searches<D: Device>(
    core: &mut Core,
    world: &mut MetaWorld<D>,
    cache: &HeldCache,
    old: Option<DataNo>,
    shared: Option<Kept>,
    search: Search,
) -> Result<(Step, Stage), StepNo>
    requires stands { At world.old cache.now core.old (Stage.Searches old shared search) }
    ensures went { IfOk result (λ r. Went world.old world.new cache.now core.old core.new (Stage.Searches old shared search) r.0 r.1) }
    ensures sooner { IfOk result (λ r. IsSooner world.old cache.now core.old (Stage.Searches old shared search) world.new cache.now core.new r.0.next r.1) }
    ensures cut { IfErr result (IsCutAt world.old world.new core.old (Stage.Searches old shared search)) }
    ensures others { Others core.old.host world.old world.new }
{
    let _geometry = world.locks().geometry();
    let came = search.next(world, core.host, &mut core.taken);
    let _geometry = world.locks().geometry();
    match came {
        Ok(Searching::More(next)) => Ok((
            made(None, Next::More),
            Stage::Searches(old, shared, next),
        )),
        Ok(Searching::Next(next, kept)) => Ok((
            made(None, Next::More),
            Stage::Searches(old, kept_shared(old, shared, kept), next),
        )),
        Ok(Searching::Found(number, group)) => Ok((
            made(None, Next::More),
            behind_found(old, shared, number, group),
        )),
        Ok(Searching::Busy(key)) => Ok(comes(core, Outcome::Busy(key))),
        Ok(Searching::Full) => Ok(comes(core, Outcome::Full)),
        Err(why) => Err(why),
    }
}

/// The group of the shared block is locked.
pub fn locks_shared<D: Device>(
    core: &mut Core,
    world: &mut MetaWorld<D>,
    cache: &HeldCache,
    old: DataNo,
    number: DataNo,
    group: Kept,
) -> Result<(Step, Stage), StepNo>
    requires stands { At world.old cache.now core.old (Stage.LocksShared old number group) }
    ensures went { IfOk result (λ r. Went world.old world.new cache.now core.old core.new (Stage.LocksShared old number group) r.0 r.1) }
    ensures sooner { IfOk result (λ r. IsSooner world.old cache.now core.old (Stage.LocksShared old number group) world.new cache.now core.new r.0.next r.1) }
    ensures cut { IfErr result (IsCutAt world.old world.new core.old (Stage.LocksShared old number group)) }
    ensures others { Others core.old.host world.old world.new }
{
    let what = world.locks().geometry().resource_of(&Field::Count(old));
    let came = core.taken.take(world, core.host, what);
    let _geometry = world.locks().geometry();
    match came {
        Ok(busy) => match busy {
            None => Ok((
                made(None, Next::More),
                Stage::FetchesShared(old, number, group),
            )),
            Some(key) => Ok(comes(core, Outcome::Busy(key))),
        },
        Err(why) => Err(why),
    }
}

/// Its table is read.
pub fn fetches_shared<D: Device>(
    core: &mut Core,
    world: &mut MetaWorld<D>,
    cache: &HeldCache,
    old: DataNo,
    number: DataNo,
    group: Kept,
) -> Result<(Step, Stage), StepNo>
    requires stands { At world.old cache.now core.old (Stage.FetchesShared old number group) }
    ensures went { IfOk result (λ r. Went world.old world.new cache.now core.old core.new (Stage.FetchesShared old number group) r.0 r.1) }
    ensures sooner { IfOk result (λ r. IsSooner world.old cache.now core.old (Stage.FetchesShared old number group) world.new cache.now core.new r.0.next r.1) }
    ensures cut { IfErr result (IsCutAt world.old world.new core.old (Stage.FetchesShared old number group)) }
    ensures others { Others core.old.host world.old world.new }
{
    let which = world.locks().geometry().table_of(&Field::Count(old));
    let came = fetch(world, core.host, which);
    let _geometry = world.locks().geometry();
    match came {
        Ok(kept) => {
            let left = Old::Other(old, kept);
            Ok((
                made(None, Next::More),
                Stage::Puts(Fresh {
                    number,
                    group,
                    left,
                }),
            ))
        }
        Err(why) => Err(why),
    }
}

/// The free block is written.
pub fn puts<D: Device>(
    core: &mut Core,
    world: &mut MetaWorld<D>,
    cache: &HeldCache,
    fresh: Fresh,
) -> Result<(Step, Stage), StepNo>
    requires stands { At world.old cache.now core.old (Stage.Puts fresh) }
    ensures went { IfOk result (λ r. Went world.old world.new cache.now core.old core.new (Stage.Puts fresh) r.0 r.1) }
    ensures sooner { IfOk result (λ r. IsSooner world.old cache.now core.old (Stage.Puts fresh) world.new cache.now core.new r.0.next r.1) }
    ensures cut { IfErr result (IsCutAt world.old world.new core.old (Stage.Puts fresh)) }
    ensures others { Others core.old.host world.old world.new }
{
    let _geometry = world.locks().geometry();
    let (_, _, block) = written(&core.call);
    let done = world.write_fresh(core.host, fresh.number, block);
    let _geometry = world.locks().geometry();
    match done {
        Ok(()) => Ok((made(None, Next::More), Stage::Fills(fresh))),
        Err(why) => Err(why),
    }
}

/// The record of the fresh block is written, by which the call has its place.
pub fn fills<D: Device>(
    core: &mut Core,
    world: &mut MetaWorld<D>,
    cache: &HeldCache,
    fresh: Fresh,
) -> Result<(Step, Stage), StepNo>
    requires stands { At world.old cache.now core.old (Stage.Fills fresh) }
    ensures went { IfOk result (λ r. Went world.old world.new cache.now core.old core.new (Stage.Fills fresh) r.0 r.1) }
    ensures sooner { IfOk result (λ r. IsSooner world.old cache.now core.old (Stage.Fills fresh) world.new cache.now core.new r.0.next r.1) }
    ensures cut { IfErr result (IsCutAt world.old world.new core.old (Stage.Fills fresh)) }
    ensures others { Others core.old.host world.old world.new }
{
    let _geometry = world.locks().geometry();
    let (file, index, _) = written(&core.call);
    let came = commit_fill(
        world,
        cache,
        core.host,
        file,
        index,
        fresh.number,
        fresh.group,
        fresh.left,
    );
    let _geometry = world.locks().geometry();
    match came {
        Ok(applying) => Ok(places(core, applying)),
        Err(why) => Err(why),
    }
}

// The file, the index and the block of a write.
fn written(call: &FileCall) -> (FileNo, u32, &Block)
    requires { is_write call.now ≡ true }
    ensures { call.now ≡ FileCall.Plain (PlainCall.Write result.0 result.1 result.2.now) }
{
    match call {
        FileCall::Plain(PlainCall::Write(file, index, block)) => (*file, *index, block),
        _ => unreachable!(),
    }
}

// The table of the shared block's group that is kept, with one more that was counted.
fn kept_shared(old: Option<DataNo>, shared: Option<Kept>, kept: Kept) -> Option<Kept>
    ensures { result ≡ kept_shared old shared kept }
{
    match old {
        Some(number) => {
            if has_count(kept.which, number) {
                Some(kept)
            } else {
                shared
            }
        }
        None => shared,
    }
}

// What comes behind a found block. LLVM takes minutes for `searches` where this stands inside it: each way moves whole tables.
#[inline(never)]
fn behind_found(old: Option<DataNo>, shared: Option<Kept>, number: DataNo, group: Kept) -> Stage
    ensures { result ≡ behind_found old shared number group }
{
    match old {
        None => puts_for(number, group, Old::Hole),
        Some(left) => {
            if has_count(group.which, left) {
                puts_for(number, group, Old::Same(left))
            } else {
                behind_other(shared, left, number, group)
            }
        }
    }
}

fn behind_other(shared: Option<Kept>, old: DataNo, number: DataNo, group: Kept) -> Stage
    ensures { result ≡ behind_other shared old number group }
{
    match shared {
        None => Stage::LocksShared(old, number, group),
        Some(kept) => puts_for(number, group, Old::Other(old, kept)),
    }
}

#[inline(never)]
fn puts_for(number: DataNo, group: Kept, left: Old) -> Stage
    ensures { result ≡ puts_for number group left }
{
    Stage::Puts(Fresh {
        number,
        group,
        left,
    })
}

// Whether a table has the count of a data block.
#[tactic(auto, unfolding(vol_layout::specs::Ranges::per_table))]
fn has_count(which: Table, number: DataNo) -> bool
    ensures { result ≡ has_count which number }
{
    match which {
        Table::Group(group) => number / PER_TABLE == u32::from(group),
        Table::File(_) | Table::More(_, _) | Table::Part(_) => false,
    }
}
