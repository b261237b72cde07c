// A collection as a plan.
ghost use Rattle.std.specs.Prelude.{◌≡◌, ◌≤◌, IfErr, IfOk, [], None, true};
ghost use Rattle.host_facts.specs.Others.{Others};
ghost use Rattle.plan_parts.specs.Cuts.{IsCut, IsUntouched};
ghost use Rattle.share_plans.specs.Gatherings.{At, left};
ghost use Rattle.share_plans.specs.GatheringSteps.{HasStepped, Went, next_of, stage_of};
ghost use Rattle.share_plans.specs.declared.collection.Gathering.{Gathering};

use crate::collecting::{
    applies, commits, frees_group, frees_part, locks_group, locks_part, reads_group, reads_part,
};
use crate::collection::{Collection, Gathered, Gathering};
use crate::groups::Groups;
use lock_store::StepNo;
use meta_world::MetaWorld;
use plan_parts::{Taken, cut_step};
use shared_disk::Device;
use std::mem;
use vol_base::{HostNo, Next, NoMemory, Step};

/// The command `collect`, cut at each device call: every slot of a part is emptied whose data block nothing else names, and the block is free.
#[derive(Drop)]
pub struct CollectPlan {
    pub core: Collection,
    pub stage: Gathering,
}

impl CollectPlan {
    /// The plan by which the slots of a part are collected. No device call is made; at most 4,227 steps come.
    #[tactic(auto, unfolding(vol_layout::specs::Ranges::per_table))]
    pub fn new(host: HostNo, part: u8) -> CollectPlan
        ensures core { result.core ≡ record { host = host; part = part; taken = []; groups = []; count = 0 } }
        ensures stage { result.stage ≡ Gathering.LocksPart }
        ensures few { left result.core result.stage ≤ 4227 }
    {
        CollectPlan {
            core: Collection {
                host,
                part,
                taken: Taken::new(),
                groups: Groups::new(),
                count: 0,
            },
            stage: Gathering::LocksPart,
        }
    }

    /// One step, which makes one device call. Where there was no memory for it nothing was done, and the plan is at its end.
    pub fn next<D: Device>(&mut self, world: &mut MetaWorld<D>) -> Result<Step, NoMemory>
        requires stands { At world.old self.old.core self.old.stage }
        ensures step { IfOk result (HasStepped world.old world.new self.old.core self.new.core self.old.stage self.new.stage) }
        ensures none { IfErr result (λ e. IsUntouched self.old.core.host world.old world.new) }
        ensures others { Others self.old.core.host world.old world.new }
    {
        let _geometry = world.locks().geometry();
        let stage = mem::replace(&mut self.stage, Gathering::Over);
        match steps(&mut self.core, world, stage) {
            Ok(came) => Ok(self.comes(came)),
            Err(why) => match cut_step(why) {
                Ok(step) => Ok(step),
                Err(no) => Err(no),
            },
        }
    }

    // The step by which this comes next.
    fn comes(&mut self, came: Gathered) -> Step
        ensures step { result ≡ record { placed = None; called = true; next = next_of came } }
        ensures core { self.new.core ≡ self.old.core }
        ensures stage { self.new.stage ≡ stage_of came }
    {
        let next = match came {
            Gathered::More(stage) => {
                self.stage = stage;
                Next::More
            }
            Gathered::Answered(answer) => {
                self.stage = Gathering::Over;
                Next::Answered(answer)
            }
        };
        Step {
            placed: None,
            called: true,
            next,
        }
    }
}

// One step at this stage.
fn steps<D: Device>(
    core: &mut Collection,
    world: &mut MetaWorld<D>,
    stage: Gathering,
) -> Result<Gathered, StepNo>
    requires stands { At world.old core.old stage }
    ensures went { IfOk result (Went world.old world.new core.old core.new stage) }
    ensures cut { IfErr result (IsCut core.old.host world.old world.new) }
    ensures others { Others core.old.host world.old world.new }
{
    match stage {
        Gathering::LocksPart => locks_part(core, world),
        Gathering::ReadsPart => reads_part(core, world),
        Gathering::LocksGroup(part) => locks_group(core, world, part),
        Gathering::ReadsGroup(part) => reads_group(core, world, part),
        Gathering::Commits(emptying, part, group) => commits(core, world, emptying, part, group),
        Gathering::Applies(applying, part, group) => applies(core, world, applying, part, group),
        Gathering::FreesGroup(part) => frees_group(core, world, part),
        Gathering::FreesPart(busy) => frees_part(core, world, busy),
        Gathering::Over => Err(StepNo::NoMemory),
    }
}
