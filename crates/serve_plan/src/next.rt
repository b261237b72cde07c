// The command `serve`, step by step.
ghost use Rattle.std.specs.Prelude.{◌≡◌, IfErr, IfOk};
ghost use Rattle.host_facts.specs.Others.{Others};
ghost use Rattle.plan_parts.specs.Cuts.{IsCut, IsUntouched};
ghost use Rattle.serve_plan.specs.Plans.{PlanStands};
ghost use Rattle.serve_plan.specs.Steps.{HasStepped, Went, later_of, step_of};

use crate::plan::{Come, Doing, ServePlan};
use crate::serving::{begins, empties, reads, shares};
use lock_store::StepNo;
use meta_world::MetaWorld;
use plan_parts::cut_step;
use shared_disk::Device;
use std::mem;
use vol_base::{HostNo, Next, NoMemory, ServeCounts, Step};

impl ServePlan {
    /// The plan by which a host serves the requests of the files that it holds for writing. No device call is made.
    pub fn new(host: HostNo) -> ServePlan
        ensures host { result.host ≡ host }
        ensures counts { result.counts ≡ record { linked = 0; already = 0; differs = 0; gone = 0 } }
        ensures doing { result.doing ≡ Doing.Begins }
    {
        ServePlan {
            host,
            counts: ServeCounts {
                linked: 0,
                already: 0,
                differs: 0,
                gone: 0,
            },
            doing: Doing::Begins,
        }
    }

    /// One step. Where there was no memory for it nothing was done, and the plan is at its end.
    pub fn next<D: Device>(&mut self, world: &mut MetaWorld<D>) -> Result<Step, NoMemory>
        requires stands { PlanStands world.old self.old.host self.old.counts self.old.doing }
        ensures step { IfOk result (HasStepped self.old.host world.old world.new self.old.counts self.new.counts self.old.doing self.new.doing) }
        ensures none { IfErr result (λ e. IsUntouched self.old.host world.old world.new) }
        ensures others { Others self.old.host world.old world.new }
        ensures host { self.new.host ≡ self.old.host }
    {
        let _geometry = world.locks().geometry();
        let doing = mem::replace(&mut self.doing, Doing::Ended);
        match steps(world, self.host, &mut self.counts, doing) {
            Ok(come) => Ok(self.comes(come)),
            Err(why) => match cut_step(why) {
                Ok(step) => Ok(step),
                Err(no) => Err(no),
            },
        }
    }

    // The step that says what was done.
    fn comes(&mut self, come: Come) -> Step
        ensures step { result ≡ step_of come }
        ensures later { self.new.doing ≡ later_of come }
        ensures host { self.new.host ≡ self.old.host }
        ensures counts { self.new.counts ≡ self.old.counts }
    {
        match come {
            Come::More(doing) => {
                self.doing = doing;
                step(true, Next::More)
            }
            Come::Answered(answer) => {
                self.doing = Doing::Ended;
                step(true, Next::Answered(answer))
            }
            Come::Uncalled(answer) => {
                self.doing = Doing::Ended;
                step(false, Next::Answered(answer))
            }
        }
    }
}

fn step(called: bool, next: Next) -> Step
    ensures { result ≡ record { placed = None; called = called; next = next } }
{
    Step {
        placed: None,
        called,
        next,
    }
}

// One step at this stage.
fn steps<D: Device>(
    world: &mut MetaWorld<D>,
    host: HostNo,
    counts: &mut ServeCounts,
    doing: Doing,
) -> Result<Come, StepNo>
    requires stands { PlanStands world.old host counts.old doing }
    ensures went { IfOk result (Went host world.old world.new counts.old counts.new doing) }
    ensures cut { IfErr result (IsCut host world.old world.new) }
    ensures others { Others host world.old world.new }
{
    match doing {
        Doing::Begins => begins(world, host, *counts),
        Doing::Reads(file) => reads(world, host, *counts, file),
        Doing::Shares(serving, share) => shares(world, host, counts, serving, share),
        Doing::Empties(file, block) => empties(world, host, *counts, file, block),
        Doing::Ended => Err(StepNo::NoMemory),
    }
}
