// The steps of a plan, at most one device call each.
ghost use Rattle.std.specs.Prelude.{◌≡◌, ◌+◌, ◌<◌, [], IfErr, IfOk, length};
ghost use Rattle.hint_plans.specs.Nexts.{HasStepped, IsOfPlan, MaySupply, first_of, pending_behind, supplied};
ghost use Rattle.hint_plans.specs.Plans.{HasCome, IsAsking, IsCutAt, MayStop, PlanStands, command_of, later_of, step_of};
ghost use Rattle.host_facts.specs.Others.{Others};
ghost use Rattle.plan_parts.specs.Cuts.{IsUntouched};
ghost use Rattle.vol_layout.specs.Ranges.{IsGeometry};

use crate::logging::{reads_log, writes_log};
use crate::plan::{Come, Doing, HintPlan, Scribble};
use crate::scan::Scan;
use crate::scanning::{begins, hints_block, holds_file, reads_block, reads_head, reads_table};
use crate::scribbling::{asks, puts};
use hint_blocks::{Hints, LogEntry};
use lock_store::StepNo;
use meta_world::MetaWorld;
use shared_disk::Device;
use std::mem;
use vol_base::{Answer, Command, CutBy, Digest, HostNo, Next, NoMemory, Step};
use vol_layout::Geometry;

impl HintPlan {
    /// The plan of a `scribble`, a `log` or a `scan`. No device call is made.
    pub fn new(host: HostNo, command: &Command) -> HintPlan
        requires { IsOfPlan command.now }
        ensures host { result.host ≡ host }
        ensures doing { result.doing ≡ first_of command.now }
    {
        let doing = match *command {
            Command::Scribble(place, number, seen) => Doing::Asks(Scribble {
                place,
                number,
                seen,
            }),
            Command::Log => Doing::ReadsLog(0),
            Command::Scan(file, index) => Doing::BeginsScan(file, index),
            _ => Doing::Ended,
        };
        HintPlan { host, doing }
    }

    /// The digest of the block that is waited for was handed in; a `scan` makes a pending hint of it.
    pub fn supply(&mut self, digest: Digest, pending: &mut Hints<LogEntry>)
        requires asks { IsAsking self.old.doing }
        requires may { MaySupply pending.old.geometry self.old.doing }
        ensures host { self.new.host ≡ self.old.host }
        ensures doing { self.new.doing ≡ supplied digest self.old.doing }
        ensures pending { pending.new ≡ pending_behind digest self.old.doing pending.old }
    {
        let doing = mem::replace(&mut self.doing, Doing::Ended);
        self.doing = handed(doing, digest, pending);
    }

    /// One step. Where there was no memory for it nothing was done, and the plan is at its end.
    pub fn next<D: Device>(
        &mut self,
        world: &mut MetaWorld<D>,
        pending: &mut Hints<LogEntry>,
    ) -> Result<Step, NoMemory>
        requires stands { PlanStands world.old self.old.host pending.old self.old.doing }
        ensures step { IfOk result (HasStepped self.old.host world.old world.new pending.old pending.new self.old.doing self.new.doing) }
        ensures none { IfErr result (λ e. IsUntouched self.old.host world.old world.new) }
        ensures others { Others self.old.host world.old world.new }
        ensures host { self.new.host ≡ self.old.host }
    {
        let doing = mem::replace(&mut self.doing, Doing::Ended);
        match go(world, pending, self.host, doing) {
            Ok(come) => Ok(self.stepped(come)),
            Err(no) => Err(no),
        }
    }

    // The step that says what was done.
    fn stepped(&mut self, come: Come) -> Step
        ensures step { result ≡ step_of come }
        ensures later { self.new.doing ≡ later_of come }
        ensures host { self.new.host ≡ self.old.host }
    {
        match come {
            Come::More(doing) => {
                self.doing = doing;
                step(true, Next::More)
            }
            Come::Answered(answer) => {
                self.doing = Doing::Ended;
                step(true, Next::Answered(answer))
            }
            Come::Uncalled(answer) => {
                self.doing = Doing::Ended;
                step(false, Next::Answered(answer))
            }
            Come::Works(doing, block) => {
                self.doing = doing;
                step(false, Next::Work(block))
            }
        }
    }
}

// What is done with a digest.
fn handed(doing: Doing, digest: Digest, pending: &mut Hints<LogEntry>) -> Doing
    requires { MaySupply pending.old.geometry doing }
    ensures doing { result ≡ supplied digest doing }
    ensures pending { pending.new ≡ pending_behind digest doing pending.old }
{
    match doing {
        Doing::Asks(scribble) => Doing::Puts(scribble, digest),
        Doing::AsksBlock(scan, _) => {
            hints_block(&scan, digest, pending);
            Doing::ReadsBlock(with_one(scan))
        }
        other => other,
    }
}

// One more digest was handed in.
fn with_one(scan: Scan) -> Scan
    requires { scan.done < length scan.found }
    ensures { result ≡ record scan { done = scan.done + 1 } }
{
    let count = scan.found.count();
    prove!(scan.done < count);
    let mut scan = scan;
    scan.done += 1;
    scan
}

fn step(called: bool, next: Next) -> Step
    ensures { result ≡ record { placed = None; called = called; next = next } }
{
    Step {
        placed: None,
        called,
        next,
    }
}

// One step; a call that was refused cuts the command, but where there was no memory for it.
fn go<D: Device>(
    world: &mut MetaWorld<D>,
    pending: &mut Hints<LogEntry>,
    host: HostNo,
    doing: Doing,
) -> Result<Come, NoMemory>
    requires stands { PlanStands world.old host pending.old doing }
    ensures came { IfOk result (HasCome host world.old world.new pending.old pending.new doing) }
    ensures none { IfErr result (λ e. IsUntouched host world.old world.new) }
    ensures others { Others host world.old world.new }
{
    let geometry = *world.locks().geometry();
    match call(world, pending, host, doing) {
        Ok(come) => Ok(come),
        Err(StepNo::NoMemory) => Err(NoMemory),
        Err(StepNo::Fenced) => Ok(cut(pending, &geometry, CutBy::Fenced)),
        Err(StepNo::Failed) => Ok(cut(pending, &geometry, CutBy::Fault)),
        Err(StepNo::Bad(place)) => Ok(cut(pending, &geometry, CutBy::Bad(place))),
    }
}

// A host that was cut has no pending hints.
fn cut(pending: &mut Hints<LogEntry>, geometry: &Geometry, by: CutBy) -> Come
    requires { IsGeometry geometry.now }
    ensures come { result ≡ Come.Answered (Answer.Cut by) }
    ensures none { pending.new ≡ record { geometry = geometry.now; entries = [] } }
{
    *pending = Hints::empty(geometry);
    Come::Answered(Answer::Cut(by))
}

// The call of a step.
fn call<D: Device>(
    world: &mut MetaWorld<D>,
    pending: &mut Hints<LogEntry>,
    host: HostNo,
    doing: Doing,
) -> Result<Come, StepNo>
    requires stands { PlanStands world.old host pending.old doing }
    ensures came { IfOk result (HasCome host world.old world.new pending.old pending.new doing) }
    ensures cut { IfErr result (IsCutAt host world.old world.new pending.old.entries doing) }
    ensures stop { IfErr result (λ why. MayStop pending.old.entries doing) }
    ensures others { Others host world.old world.new }
{
    match doing {
        Doing::Asks(scribble) => Ok(asks(world, pending, host, scribble)),
        Doing::Puts(scribble, digest) => puts(world, pending, host, scribble, digest),
        Doing::ReadsLog(log) => reads_log(world, pending, host, log),
        Doing::WritesLog(log) => writes_log(world, pending, host, log),
        Doing::BeginsScan(file, index) => begins(world, pending, host, file, index),
        Doing::HoldsFile(file, index, taking) => {
            holds_file(world, pending, host, file, index, taking)
        }
        Doing::ReadsHead(file, index) => reads_head(world, pending, host, file, index),
        Doing::ReadsTable(scan) => reads_table(world, pending, host, scan),
        Doing::ReadsBlock(scan) => reads_block(world, pending, host, scan),
        Doing::AsksBlock(scan, block) => Ok(Come::Works(Doing::AsksBlock(scan, block), block)),
        Doing::Ended => Err(StepNo::NoMemory),
    }
}
