// The steps of a plan, at most one device call each.
ghost use Rattle.std.specs.Prelude.{◌≡◌, ◌+◌, ◌≤◌, IfErr, IfOk};
ghost use Rattle.hint_blocks.specs.HintLists.{hint_block};
ghost use Rattle.host_facts.specs.Others.{Others};
ghost use Rattle.plan_parts.specs.Cuts.{IsCut};
ghost use Rattle.serve_plan.specs.Plans.{PlanStands};
ghost use Rattle.serve_plan.specs.Requests.{IsAnswered, empty_requests, total};
ghost use Rattle.serve_plan.specs.Steps.{Went};
ghost use Rattle.vol_layout.specs.Ranges.{IsGeometry};

use crate::files::next_held;
use crate::plan::{Come, Doing, Serving};
use crate::requests::{behind_file, behind_read, count, goes_on};
use hint_blocks::{Hints, Request};
use lock_store::StepNo;
use meta_world::MetaWorld;
use share_plans::{SharePlan, Shared};
use shared_disk::Device;
use vol_base::{Answer, Block, FileNo, HostNo, ServeCounts};
use vol_layout::{Geometry, Kind};

/// The block of requests of the first held file is read; where none is held, the command is answered.
pub(crate) fn begins<D: Device>(
    world: &mut MetaWorld<D>,
    host: HostNo,
    counts: ServeCounts,
) -> Result<Come, StepNo>
    requires stands { PlanStands world.old host counts Doing.Begins }
    ensures went { IfOk result (Went host world.old world.new counts counts Doing.Begins) }
    ensures cut { IfErr result (IsCut host world.old world.new) }
    ensures others { Others host world.old world.new }
{
    let _geometry = world.locks().geometry();
    match next_held(world, host, 0) {
        Some(file) => reads(world, host, counts, file),
        None => Ok(Come::Uncalled(Answer::Served(counts))),
    }
}

/// The block of requests of a held file is read.
pub(crate) fn reads<D: Device>(
    world: &mut MetaWorld<D>,
    host: HostNo,
    counts: ServeCounts,
    file: FileNo,
) -> Result<Come, StepNo>
    requires stands { PlanStands world.old host counts (Doing.Reads file) }
    ensures went { IfOk result (Went host world.old world.new counts counts (Doing.Reads file)) }
    ensures cut { IfErr result (IsCut host world.old world.new) }
    ensures others { Others host world.old world.new }
{
    let geometry = *world.locks().geometry();
    let read = world.read_hint(host, geometry.place(Kind::Request(file)));
    let _geometry = world.locks().geometry();
    match read {
        Ok(block) => {
            let next = next_held(world, host, file + 1);
            Ok(behind_read(host, &geometry, file, block, next, counts))
        }
        Err(why) => Err(why),
    }
}

/// One step of the share of a request.
pub(crate) fn shares<D: Device>(
    world: &mut MetaWorld<D>,
    host: HostNo,
    counts: &mut ServeCounts,
    serving: Serving,
    share: SharePlan,
) -> Result<Come, StepNo>
    requires stands { PlanStands world.old host counts.old (Doing.Shares serving share) }
    ensures went { IfOk result (Went host world.old world.new counts.old counts.new (Doing.Shares serving share)) }
    ensures cut { IfErr result (IsCut host world.old world.new) }
    ensures others { Others host world.old world.new }
{
    let _geometry = world.locks().geometry();
    let mut share = share;
    let came = share.next(world);
    let _geometry = world.locks().geometry();
    match came {
        Ok(answer) => Ok(behind_share(host, counts, serving, share, answer)),
        Err(why) => Err(why),
    }
}

// What comes behind a step of a share.
fn behind_share(
    host: HostNo,
    counts: &mut ServeCounts,
    serving: Serving,
    share: SharePlan,
    answer: Option<Shared>,
) -> Come
    requires few { total counts.old ≤ 8064 }
    requires room { serving.done ≤ 8064 }
    ensures { IsAnswered host serving share answer counts.old counts.new result }
{
    match answer {
        None => Come::More(Doing::Shares(serving, share)),
        Some(Shared::Busy(key)) => Come::Answered(Answer::Busy(key)),
        Some(answer) => {
            count(counts, answer);
            goes_on(host, with_one(serving))
        }
    }
}

// One more request was handled.
fn with_one(serving: Serving) -> Serving
    requires { serving.done ≤ 8064 }
    ensures { result ≡ record serving { done = serving.done + 1 } }
{
    let mut serving = serving;
    serving.done += 1;
    serving
}

/// The block of requests is made empty, where it is still the one that was read.
pub(crate) fn empties<D: Device>(
    world: &mut MetaWorld<D>,
    host: HostNo,
    counts: ServeCounts,
    file: FileNo,
    block: Block,
) -> Result<Come, StepNo>
    requires stands { PlanStands world.old host counts (Doing.Empties file block) }
    ensures went { IfOk result (Went host world.old world.new counts counts (Doing.Empties file block)) }
    ensures cut { IfErr result (IsCut host world.old world.new) }
    ensures others { Others host world.old world.new }
{
    let geometry = *world.locks().geometry();
    let empty = no_requests(&geometry);
    let swapped = world.swap_hint(host, geometry.place(Kind::Request(file)), &block, &empty);
    let _geometry = world.locks().geometry();
    match swapped {
        Ok(_swapped) => {
            let next = next_held(world, host, file + 1);
            Ok(behind_file(next, counts))
        }
        Err(why) => Err(why),
    }
}

// The block of requests that has none.
fn no_requests(geometry: &Geometry) -> Block
    requires { IsGeometry geometry.now }
    ensures { result.0 ≡ empty_requests }
{
    let none: Hints<Request> = Hints::empty(geometry);
    none.into_block()
}
