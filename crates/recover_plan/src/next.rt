// The steps of a plan, one device call each.
ghost use Rattle.std.specs.Prelude.{◌≡◌, ◌≤◌, IfErr, IfOk};
ghost use Rattle.host_facts.specs.Others.{Others};
ghost use Rattle.plan_parts.specs.Cuts.{IsCutBy, IsUntouched};
ghost use Rattle.recover_plan.specs.Nexts.{HasStepped, IsOfPlan, MayStop, first_of};
ghost use Rattle.recover_plan.specs.Plans.{Agrees, Came, PlanStands, command_of, later_of, step_of};
ghost use Rattle.watch.specs.Looks.{nothing};

use crate::join::{enter, over, register, retake};
use crate::leave::{fence_own, unlocks};
use crate::looks::{beats, looks};
use crate::plan::{Come, Doing, RecoverPlan};
use crate::recover::{begin, free, recovers};
use lock_store::StepNo;
use meta_world::MetaWorld;
use shared_disk::Device;
use std::mem;
use vol_base::{Answer, Command, CutBy, HostNo, Next, NoMemory, Step};
use watch::Watch;

impl RecoverPlan {
    /// The plan of a `join`, a `leave`, a `beat`, or a `look` at or `recover` of another host. No device call is made.
    pub fn new(host: HostNo, command: Command) -> RecoverPlan
        requires on { IsOfPlan host command }
        ensures host { result.host ≡ host }
        ensures doing { result.doing ≡ first_of command }
    {
        let doing = first(command);
        RecoverPlan { host, doing }
    }

    /// One step, which makes one device call, but for a `recover` of a host that may be alive. Where there was no memory for it
    /// nothing was done, and the plan is at its end.
    pub fn next<D: Device>(
        &mut self,
        world: &mut MetaWorld<D>,
        watch: &mut Watch,
    ) -> Result<Step, NoMemory>
        requires stands { PlanStands world.old self.old.host watch.old self.old.doing }
        ensures step { IfOk result (HasStepped self.old.host world.old world.new watch.old watch.new self.old.doing self.new.doing) }
        ensures none { IfErr result (λ e. IsUntouched self.old.host world.old world.new) }
        ensures later { IfErr result (λ e. world.old.locks.disk.faults ≤ world.new.locks.disk.faults) }
        ensures others { Others self.old.host world.old world.new }
        ensures host { self.new.host ≡ self.old.host }
    {
        let doing = mem::replace(&mut self.doing, Doing::Ended);
        match go(world, watch, self.host, doing) {
            Ok(come) => Ok(self.stepped(come)),
            Err(no) => Err(no),
        }
    }

    // The step that says what was done.
    fn stepped(&mut self, come: Come) -> Step
        ensures step { result ≡ step_of come }
        ensures later { self.new.doing ≡ later_of come }
        ensures host { self.new.host ≡ self.old.host }
    {
        match come {
            Come::More(doing) => {
                self.doing = doing;
                step(true, Next::More)
            }
            Come::Answered(answer) => {
                self.doing = Doing::Ended;
                step(true, Next::Answered(answer))
            }
            Come::Uncalled(answer) => {
                self.doing = Doing::Ended;
                step(false, Next::Answered(answer))
            }
        }
    }
}

fn step(called: bool, next: Next) -> Step
    ensures { result ≡ record { placed = None; called = called; next = next } }
{
    Step {
        placed: None,
        called,
        next,
    }
}

// What a command does first.
fn first(command: Command) -> Doing
    ensures { result ≡ first_of command }
{
    match command {
        Command::Join => Doing::Register,
        Command::Leave => Doing::Unlock,
        Command::Beat => Doing::Beat,
        Command::Look(of) => Doing::Look(of),
        Command::Recover(of) => Doing::Begin(of),
        _ => Doing::Ended,
    }
}

// One step; a call that was refused cuts the command, but where there was no memory for it.
fn go<D: Device>(
    world: &mut MetaWorld<D>,
    watch: &mut Watch,
    host: HostNo,
    doing: Doing,
) -> Result<Come, NoMemory>
    requires stands { PlanStands world.old host watch.old doing }
    ensures came { IfOk result (Came host world.old world.new watch.old watch.new doing) }
    ensures none { IfErr result (λ e. IsUntouched host world.old world.new) }
    ensures later { IfErr result (λ e. world.old.locks.disk.faults ≤ world.new.locks.disk.faults) }
    ensures others { Others host world.old world.new }
{
    let _geometry = world.locks().geometry();
    match call(world, watch, host, doing) {
        Ok(come) => Ok(come),
        Err(StepNo::NoMemory) => Err(NoMemory),
        Err(StepNo::Fenced) => Ok(cut(watch, CutBy::Fenced)),
        Err(StepNo::Failed) => Ok(cut(watch, CutBy::Fault)),
        Err(StepNo::Bad(place)) => Ok(cut(watch, CutBy::Bad(place))),
    }
}

fn cut(watch: &mut Watch, by: CutBy) -> Come
    ensures come { result ≡ Come.Answered (Answer.Cut by) }
    ensures watch { watch.new ≡ nothing }
{
    *watch = Watch::new();
    Come::Answered(Answer::Cut(by))
}

// The call of a step.
fn call<D: Device>(
    world: &mut MetaWorld<D>,
    watch: &mut Watch,
    host: HostNo,
    doing: Doing,
) -> Result<Come, StepNo>
    requires stands { PlanStands world.old host watch.old doing }
    ensures came { IfOk result (Came host world.old world.new watch.old watch.new doing) }
    ensures cut { IfErr result (λ why. IsCutBy (command_of doing) host world.old world.new why (Agrees host world.old watch.old doing)) }
    ensures stop { IfErr result (MayStop watch.old doing) }
    ensures others { Others host world.old world.new }
{
    match doing {
        Doing::Register => register(world, watch, host),
        Doing::Enter => enter(world, watch, host, false),
        Doing::EnterAgain => enter(world, watch, host, true),
        Doing::Over(stage) => over(world, watch, host, stage),
        Doing::Retake(dead) => retake(world, watch, host, dead),
        Doing::Unlock => unlocks(world, watch, host),
        Doing::Fence => fence_own(world, watch, host),
        Doing::Beat => beats(world, watch, host),
        Doing::Look(of) => looks(world, watch, host, of),
        Doing::Begin(of) => begin(world, watch, host, of),
        Doing::First(of, stage) => recovers(world, watch, host, of, false, stage),
        Doing::Again(of, stage) => recovers(world, watch, host, of, true, stage),
        Doing::Free(of, dead) => free(world, watch, host, of, dead),
        Doing::Ended => Err(StepNo::NoMemory),
    }
}
