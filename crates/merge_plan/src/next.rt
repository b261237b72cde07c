// The command `merge`, step by step.
ghost use Rattle.std.specs.Prelude.{◌≡◌, IfErr, IfOk, None, true};
ghost use Rattle.host_facts.specs.Others.{Others};
ghost use Rattle.merge_plan.specs.Plans.{IsAsking, IsCalling, IsUnasked, PlanStands, supplied};
ghost use Rattle.merge_plan.specs.Steps.{HasStepped, Went, later_of, step_of};
ghost use Rattle.merge_plan.specs.declared.plan.Doing.{Doing};
ghost use Rattle.plan_parts.specs.Cuts.{IsCut, IsUntouched};

use crate::deciding::decides;
use crate::entries::{acts, looks};
use crate::logs::{begins, empties, reads as reads_log};
use crate::plan::{Come, Doing, MergePlan};
use crate::room::MergeRoom;
use crate::shards::{reads as reads_shard, swaps};
use lock_store::StepNo;
use meta_world::MetaWorld;
use plan_parts::cut_step;
use shared_disk::Device;
use std::mem;
use vol_base::{Digest, HostNo, Next, NoMemory, Step};

impl MergePlan {
    /// The plan by which a host merges its logs into the index. No device call is made.
    pub fn new(host: HostNo) -> MergePlan
        ensures host { result.host ≡ host }
        ensures doing { result.doing ≡ Doing.Begins }
    {
        MergePlan {
            host,
            doing: Doing::Begins,
        }
    }

    /// One step. Where there was no memory for it nothing was done, and the plan is at its end.
    pub fn next<D: Device>(
        &mut self,
        world: &mut MetaWorld<D>,
        room: &mut MergeRoom,
    ) -> Result<Step, NoMemory>
        requires stands { PlanStands world.old self.old.host room.old self.old.doing }
        requires unasked { IsUnasked self.old.doing }
        ensures step { IfOk result (HasStepped self.old.host world.old world.new room.old room.new self.old.doing self.new.doing) }
        ensures none { IfErr result (λ e. IsUntouched self.old.host world.old world.new) }
        ensures others { Others self.old.host world.old world.new }
        ensures host { self.new.host ≡ self.old.host }
    {
        let _geometry = world.locks().geometry();
        let doing = mem::replace(&mut self.doing, Doing::Ended);
        match steps(world, self.host, room, doing) {
            Ok(come) => Ok(self.comes(come)),
            Err(why) => match cut_step(why) {
                Ok(step) => Ok(step),
                Err(no) => Err(no),
            },
        }
    }

    /// The digest of the block that is waited for.
    pub fn supply(&mut self, digest: Digest)
        requires { IsAsking self.old.doing }
        ensures { self.new ≡ record self.old { doing = supplied digest self.old.doing } }
    {
        if let Doing::Asks(shelf, _) = self.doing {
            self.doing = Doing::Decides(shelf, digest);
        }
    }

    // The step that says what was done.
    fn comes(&mut self, come: Come) -> Step
        ensures step { result ≡ step_of come }
        ensures later { self.new.doing ≡ later_of come }
        ensures host { self.new.host ≡ self.old.host }
    {
        match come {
            Come::More(doing) => {
                self.doing = doing;
                step(Next::More)
            }
            Come::Answered(answer) => {
                self.doing = Doing::Ended;
                step(Next::Answered(answer))
            }
        }
    }
}

fn step(next: Next) -> Step
    ensures { result ≡ record { placed = None; called = true; next = next } }
{
    Step {
        placed: None,
        called: true,
        next,
    }
}

// One step at this stage. An entry that is decided by a digest makes its first call at once.
fn steps<D: Device>(
    world: &mut MetaWorld<D>,
    host: HostNo,
    room: &mut MergeRoom,
    doing: Doing,
) -> Result<Come, StepNo>
    requires stands { PlanStands world.old host room.old doing }
    requires unasked { IsUnasked doing }
    ensures went { IfOk result (Went host world.old world.new room.old room.new doing) }
    ensures cut { IfErr result (IsCut host world.old world.new) }
    ensures others { Others host world.old world.new }
{
    match doing {
        Doing::Decides(shelf, digest) => {
            let _geometry = world.locks().geometry();
            let next = decides(world, host, room, shelf, Some(digest));
            calls(world, host, room, next)
        }
        doing => calls(world, host, room, doing),
    }
}

// One device call at this stage.
fn calls<D: Device>(
    world: &mut MetaWorld<D>,
    host: HostNo,
    room: &mut MergeRoom,
    doing: Doing,
) -> Result<Come, StepNo>
    requires stands { PlanStands world.old host room.old doing }
    requires calls { IsCalling doing }
    ensures went { IfOk result (Went host world.old world.new room.old room.new doing) }
    ensures cut { IfErr result (IsCut host world.old world.new) }
    ensures others { Others host world.old world.new }
{
    match doing {
        Doing::Begins => begins(world, host, room),
        Doing::ReadsLog(log) => reads_log(world, host, room, log),
        Doing::ReadsShard(shelf, k) => reads_shard(world, host, room, shelf, k),
        Doing::Looks(shelf, look) => looks(world, host, room, shelf, look),
        Doing::Acts(shelf, plan) => acts(world, host, room, shelf, plan),
        Doing::Swaps(shelf, k) => swaps(world, host, room, shelf, k),
        Doing::EmptiesLog(log) => empties(world, host, room, log),
        Doing::Asks(_, _) | Doing::Decides(_, _) | Doing::Ended => Err(StepNo::NoMemory),
    }
}
