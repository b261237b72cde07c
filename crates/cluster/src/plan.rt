// The plan of a command under way.
ghost use Rattle.std.specs.Prelude.{◌≡◌, ◌<◌, IfErr, IfOk, None};
ghost use Rattle.cluster.specs.PlanTurns.{IsSooner};
ghost use Rattle.cluster.specs.Asking.{plan_asks};
ghost use Rattle.cluster.specs.Hands.{IsAsking, IsSuppliedIn, MayTake};
ghost use Rattle.cluster.specs.Plans.{ForgetsBehind, ForgetsFor, HasStepped, IsBegun, IsOf, IsPlanned, PlanAt, PlanNoted};
ghost use Rattle.hint_plans.specs.Nexts.{IsOfPlan};
ghost use Rattle.hint_plans.specs.Plans as hints;
ghost use Rattle.host_runs.specs.Notes.{Notes};
ghost use Rattle.file_plans.specs.Calls.{Runs};
ghost use Rattle.recover_plan.specs.Plans.{command_of};
ghost use Rattle.file_plans.specs.Went.{LeavesOthers};
ghost use Rattle.host_facts.specs.Others.{Others};
ghost use Rattle.plan_parts.specs.Cuts.{IsUntouched};

use crate::carried::Carried;
use file_plans::FilePlan;
use held_cache::HeldCache;
use hint_plans::HintPlan;
use merge_plan::MergePlan;
use meta_world::MetaWorld;
use recover_plan::RecoverPlan;
use serve_plan::ServePlan;
use share_plans::CollectPlan;
use shared_disk::Device;
use vol_base::{Answer, Command, Digest, HostNo, Next, NoMemory, Step, plain_call};

/// A command under way. Each sort of plan has one arm here, in `of` and in `next`.
#[derive(Drop)]
pub enum Plan {
    /// A command on a file, or the closing of one.
    Files(FilePlan),
    /// A command on slots.
    Slots(RecoverPlan),
    /// The collection of a part's slots.
    Collects(CollectPlan),
    /// A command on hints.
    Hints(HintPlan),
    /// The serving of requests.
    Serves(ServePlan),
    /// The merge of a host's own logs into the index.
    Merges(MergePlan),
}

impl Plan {
    /// The plan of a command at its beginning.
    pub fn of(host: HostNo, command: &Command) -> Plan
        requires { IsPlanned host command.now }
        ensures { IsBegun host command.now result }
    {
        match command {
            Command::Close(file) => Plan::Files(FilePlan::close_file(host, *file)),
            Command::Collect(part) => collects(host, *part),
            Command::Log | Command::Scan(_, _) | Command::Scribble(_, _, _) => hints(host, command),
            Command::Serve => serves(host),
            Command::Merge => merges(host),
            _ => match plain_call(command) {
                Some(call) => Plan::Files(FilePlan::new(host, &call)),
                None => Plan::Slots(RecoverPlan::new(host, *command)),
            },
        }
    }

    /// Hands in the digest of the block that the plan waits for.
    pub fn hand_in(&mut self, digest: Digest, carried: &mut Carried)
        requires asks { IsAsking self.old }
        requires may { MayTake carried.old.pending.geometry self.old }
        ensures { IsSuppliedIn digest carried.old carried.new self.old self.new }
    {
        match self {
            Plan::Files(plan) => {
                plan.supply(digest);
                carried.digest = Some(digest);
            }
            Plan::Hints(plan) => plan.supply(digest, &mut carried.pending),
            Plan::Merges(plan) => plan.supply(digest),
            Plan::Slots(_) | Plan::Collects(_) | Plan::Serves(_) => {}
        }
    }

    /// One step of the plan, which runs this command of this host: at most one device call. Where there was no memory for it nothing
    /// was done, and the plan is at its end.
    pub fn next<D: Device>(
        &mut self,
        host: HostNo,
        command: &Command,
        world: &mut MetaWorld<D>,
        cache: &mut HeldCache,
        carried: &mut Carried,
    ) -> Result<Step, NoMemory>
        requires of { IsOf host command.now self.old }
        requires at { PlanAt world.old cache.old host carried.old self.old }
        requires noted { (n : Notes) × PlanNoted command.now world.old host carried.old self.old n }
        requires unasked { plan_asks world.old.locks.geometry self.old ≡ None }
        ensures stepped { IfOk result (HasStepped command.now host world.old world.new cache.new carried.old carried.new self.old self.new) }
        ensures sooner { IfOk result (λ step. IsSooner world.old cache.old carried.old self.old world.new cache.new carried.new self.new step.next) }
        ensures none { IfErr result (λ e. IsUntouched host world.old world.new) }
        ensures others { Others host world.old world.new }
        ensures leaves { LeavesOthers host cache.old cache.new }
    {
        match self {
            Plan::Files(plan) => step_on_file(plan, command, world, cache, carried),
            Plan::Slots(plan) => step_on_slots(plan, command, world, cache, carried),
            Plan::Collects(plan) => step_of_collection(plan, command, world, cache, carried),
            Plan::Hints(plan) => step_on_hints(plan, command, world, cache, carried),
            Plan::Serves(plan) => step_of_serve(plan, command, world, cache, carried),
            Plan::Merges(plan) => step_of_merge(plan, command, world, cache, carried),
        }
    }
}

// The beginning of each larger plan stands in a function of its own: a function pays at its entry for all plans that it has room for.
fn collects(host: HostNo, part: u8) -> Plan
    ensures { IsBegun host (Command.Collect part) result }
{
    Plan::Collects(CollectPlan::new(host, part))
}

fn hints(host: HostNo, command: &Command) -> Plan
    requires { IsOfPlan command.now }
    ensures { IsBegun host command.now result }
{
    Plan::Hints(HintPlan::new(host, command))
}

fn serves(host: HostNo) -> Plan
    ensures { IsBegun host Command.Serve result }
{
    Plan::Serves(ServePlan::new(host))
}

fn merges(host: HostNo) -> Plan
    ensures { IsBegun host Command.Merge result }
{
    Plan::Merges(MergePlan::new(host))
}

// A step on a file. A host that is cut remembers no slot.
fn step_on_file<D: Device>(
    plan: &mut FilePlan,
    command: &Command,
    world: &mut MetaWorld<D>,
    cache: &mut HeldCache,
    carried: &mut Carried,
) -> Result<Step, NoMemory>
    requires runs { Runs command.now plan.old.core.call }
    requires at { PlanAt world.old cache.old plan.old.core.host carried.old (Plan.Files plan.old) }
    requires noted { (n : Notes) × PlanNoted command.now world.old plan.old.core.host carried.old (Plan.Files plan.old) n }
    ensures stepped { IfOk result (HasStepped command.now plan.old.core.host world.old world.new cache.new carried.old carried.new (Plan.Files plan.old) (Plan.Files plan.new)) }
    ensures sooner { IfOk result (λ step. IsSooner world.old cache.old carried.old (Plan.Files plan.old) world.new cache.new carried.new (Plan.Files plan.new) step.next) }
    ensures none { IfErr result (λ e. IsUntouched plan.old.core.host world.old world.new) }
    ensures others { Others plan.old.core.host world.old world.new }
    ensures leaves { LeavesOthers plan.old.core.host cache.old cache.new }
{
    let geometry = *world.locks().geometry();
    match plan.next(world, cache) {
        Ok(step) => {
            carried.note(command, &step.next, &geometry);
            carried.forget_slots(&step.next);
            Ok(step)
        }
        Err(no) => Err(no),
    }
}

// A step on slots.
fn step_on_slots<D: Device>(
    plan: &mut RecoverPlan,
    command: &Command,
    world: &mut MetaWorld<D>,
    cache: &mut HeldCache,
    carried: &mut Carried,
) -> Result<Step, NoMemory>
    requires of { command_of plan.old.doing ≡ command.now }
    requires at { PlanAt world.old cache.old plan.old.host carried.old (Plan.Slots plan.old) }
    requires noted { (n : Notes) × PlanNoted command.now world.old plan.old.host carried.old (Plan.Slots plan.old) n }
    ensures stepped { IfOk result (HasStepped command.now plan.old.host world.old world.new cache.new carried.old carried.new (Plan.Slots plan.old) (Plan.Slots plan.new)) }
    ensures sooner { IfOk result (λ step. IsSooner world.old cache.old carried.old (Plan.Slots plan.old) world.new cache.new carried.new (Plan.Slots plan.new) step.next) }
    ensures none { IfErr result (λ e. IsUntouched plan.old.host world.old world.new) }
    ensures others { Others plan.old.host world.old world.new }
    ensures leaves { LeavesOthers plan.old.host cache.old cache.new }
{
    let geometry = *world.locks().geometry();
    let host = plan.host;
    forget_for(command, host, cache);
    match plan.next(world, &mut carried.watch) {
        Ok(step) => {
            forget_behind(&step.next, host, cache);
            carried.note(command, &step.next, &geometry);
            Ok(step)
        }
        Err(no) => Err(no),
    }
}

// A step of a collection.
fn step_of_collection<D: Device>(
    plan: &mut CollectPlan,
    command: &Command,
    world: &mut MetaWorld<D>,
    cache: &mut HeldCache,
    carried: &mut Carried,
) -> Result<Step, NoMemory>
    requires of { Command.Collect plan.old.core.part ≡ command.now }
    requires at { PlanAt world.old cache.old plan.old.core.host carried.old (Plan.Collects plan.old) }
    requires noted { (n : Notes) × PlanNoted command.now world.old plan.old.core.host carried.old (Plan.Collects plan.old) n }
    ensures stepped { IfOk result (HasStepped command.now plan.old.core.host world.old world.new cache.new carried.old carried.new (Plan.Collects plan.old) (Plan.Collects plan.new)) }
    ensures sooner { IfOk result (λ step. IsSooner world.old cache.old carried.old (Plan.Collects plan.old) world.new cache.new carried.new (Plan.Collects plan.new) step.next) }
    ensures none { IfErr result (λ e. IsUntouched plan.old.core.host world.old world.new) }
    ensures others { Others plan.old.core.host world.old world.new }
    ensures leaves { LeavesOthers plan.old.core.host cache.old cache.new }
{
    let geometry = *world.locks().geometry();
    let host = plan.core.host;
    match plan.next(world) {
        Ok(step) => {
            forget_behind(&step.next, host, cache);
            carried.note(command, &step.next, &geometry);
            carried.forget_slots(&step.next);
            Ok(step)
        }
        Err(no) => Err(no),
    }
}

// A step on hints, which says itself which of them are pending.
fn step_on_hints<D: Device>(
    plan: &mut HintPlan,
    command: &Command,
    world: &mut MetaWorld<D>,
    cache: &mut HeldCache,
    carried: &mut Carried,
) -> Result<Step, NoMemory>
    requires of { hints.command_of plan.old.doing ≡ command.now }
    requires at { PlanAt world.old cache.old plan.old.host carried.old (Plan.Hints plan.old) }
    requires noted { (n : Notes) × PlanNoted command.now world.old plan.old.host carried.old (Plan.Hints plan.old) n }
    requires unasked { plan_asks world.old.locks.geometry (Plan.Hints plan.old) ≡ None }
    ensures stepped { IfOk result (HasStepped command.now plan.old.host world.old world.new cache.new carried.old carried.new (Plan.Hints plan.old) (Plan.Hints plan.new)) }
    ensures sooner { IfOk result (λ step. IsSooner world.old cache.old carried.old (Plan.Hints plan.old) world.new cache.new carried.new (Plan.Hints plan.new) step.next) }
    ensures none { IfErr result (λ e. IsUntouched plan.old.host world.old world.new) }
    ensures others { Others plan.old.host world.old world.new }
    ensures leaves { LeavesOthers plan.old.host cache.old cache.new }
{
    let _command = command;
    let _geometry = world.locks().geometry();
    let host = plan.host;
    match plan.next(world, &mut carried.pending) {
        Ok(step) => {
            let _later = world.locks().geometry();
            forget_behind(&step.next, host, cache);
            carried.forget_slots(&step.next);
            Ok(step)
        }
        Err(no) => Err(no),
    }
}

// A step of a serve.
fn step_of_serve<D: Device>(
    plan: &mut ServePlan,
    command: &Command,
    world: &mut MetaWorld<D>,
    cache: &mut HeldCache,
    carried: &mut Carried,
) -> Result<Step, NoMemory>
    requires of { Command.Serve ≡ command.now }
    requires at { PlanAt world.old cache.old plan.old.host carried.old (Plan.Serves plan.old) }
    requires noted { (n : Notes) × PlanNoted command.now world.old plan.old.host carried.old (Plan.Serves plan.old) n }
    ensures stepped { IfOk result (HasStepped command.now plan.old.host world.old world.new cache.new carried.old carried.new (Plan.Serves plan.old) (Plan.Serves plan.new)) }
    ensures sooner { IfOk result (λ step. IsSooner world.old cache.old carried.old (Plan.Serves plan.old) world.new cache.new carried.new (Plan.Serves plan.new) step.next) }
    ensures none { IfErr result (λ e. IsUntouched plan.old.host world.old world.new) }
    ensures others { Others plan.old.host world.old world.new }
    ensures leaves { LeavesOthers plan.old.host cache.old cache.new }
{
    let geometry = *world.locks().geometry();
    let host = plan.host;
    forget_for(command, host, cache);
    match plan.next(world) {
        Ok(step) => {
            forget_behind(&step.next, host, cache);
            carried.note(command, &step.next, &geometry);
            carried.forget_slots(&step.next);
            Ok(step)
        }
        Err(no) => Err(no),
    }
}

// A step of a merge, which reads into the room of its host.
fn step_of_merge<D: Device>(
    plan: &mut MergePlan,
    command: &Command,
    world: &mut MetaWorld<D>,
    cache: &mut HeldCache,
    carried: &mut Carried,
) -> Result<Step, NoMemory>
    requires of { Command.Merge ≡ command.now }
    requires at { PlanAt world.old cache.old plan.old.host carried.old (Plan.Merges plan.old) }
    requires noted { (n : Notes) × PlanNoted command.now world.old plan.old.host carried.old (Plan.Merges plan.old) n }
    requires unasked { plan_asks world.old.locks.geometry (Plan.Merges plan.old) ≡ None }
    ensures stepped { IfOk result (HasStepped command.now plan.old.host world.old world.new cache.new carried.old carried.new (Plan.Merges plan.old) (Plan.Merges plan.new)) }
    ensures sooner { IfOk result (λ step. IsSooner world.old cache.old carried.old (Plan.Merges plan.old) world.new cache.new carried.new (Plan.Merges plan.new) step.next) }
    ensures none { IfErr result (λ e. IsUntouched plan.old.host world.old world.new) }
    ensures others { Others plan.old.host world.old world.new }
    ensures leaves { LeavesOthers plan.old.host cache.old cache.new }
{
    let geometry = *world.locks().geometry();
    let host = plan.host;
    forget_for(command, host, cache);
    match plan.next(world, &mut carried.room) {
        Ok(step) => {
            forget_behind(&step.next, host, cache);
            carried.note(command, &step.next, &geometry);
            carried.forget_slots(&step.next);
            Ok(step)
        }
        Err(no) => Err(no),
    }
}

// A host that joins, leaves or shares blocks keeps no table: one that leaves gives up its files one by one, and a share changes the tables of its
// file beside what is kept.
fn forget_for(command: &Command, host: HostNo, cache: &mut HeldCache)
    requires { host < cache.old.volume.hosts }
    ensures { ForgetsFor command.now host cache.old cache.new }
{
    match command {
        Command::Beat | Command::Look(_) | Command::Recover(_) => {}
        _ => cache.forget_host(host),
    }
}

// Nor does a host that was cut.
fn forget_behind(next: &Next, host: HostNo, cache: &mut HeldCache)
    requires { host < cache.old.volume.hosts }
    ensures { ForgetsBehind next.now host cache.old cache.new }
{
    if let Next::Answered(Answer::Cut(_)) = next {
        cache.forget_host(host);
    }
}
