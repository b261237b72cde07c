// A command on a file as a plan: its steps, one device call each.
ghost use Rattle.std.specs.Prelude.{◌≡◌, IfErr, IfOk, []};
ghost use Rattle.file_plans.specs.Calls.{Runs};
ghost use Rattle.file_plans.specs.Plans.{HasStepped, first_of};
ghost use Rattle.file_plans.specs.Stands.{At};
ghost use Rattle.file_plans.specs.Turns.{IsSooner};
ghost use Rattle.file_plans.specs.Went.{LeavesOthers};
ghost use Rattle.host_facts.specs.Others.{Others};
ghost use Rattle.plan_parts.specs.Cuts.{IsUntouched};
ghost use Rattle.vol_base.specs.declared.command.Command.{Command};

use crate::call::FileCall;
use crate::stage::Stage;
use crate::state::Core;
use crate::stepping::steps;
use held_cache::HeldCache;
use lock_store::StepNo;
use meta_world::MetaWorld;
use plan_parts::{Outcome, Taken, cut_step};
use shared_disk::Device;
use std::mem;
use vol_base::{Digest, FileNo, HostNo, Next, NoMemory, PlainCall, Step};

/// A command on a file, cut at each device call.
#[derive(Drop)]
pub struct FilePlan {
    pub core: Core,
    pub stage: Stage,
}

impl FilePlan {
    /// The plan of a plain call. No device call is made.
    pub fn new(host: HostNo, call: &PlainCall) -> FilePlan
        ensures core { result.core ≡ record { host = host; call = FileCall.Plain call.now; taken = []; outcome = Outcome.Open } }
        ensures stage { result.stage ≡ first_of (FileCall.Plain call.now) }
    {
        FilePlan::begun(host, FileCall::Plain(*call))
    }

    /// The plan that closes a file. No device call is made.
    pub fn close_file(host: HostNo, file: FileNo) -> FilePlan
        ensures core { result.core ≡ record { host = host; call = FileCall.Close file; taken = []; outcome = Outcome.Open } }
        ensures stage { result.stage ≡ Stage.Begins }
    {
        FilePlan::begun(host, FileCall::Close(file))
    }

    fn begun(host: HostNo, call: FileCall) -> FilePlan
        ensures core { result.core ≡ record { host = host; call = call; taken = []; outcome = Outcome.Open } }
        ensures stage { result.stage ≡ first_of call }
    {
        let stage = if call.is_write() {
            Stage::Asks
        } else {
            Stage::Begins
        };
        FilePlan {
            core: Core {
                host,
                call,
                taken: Taken::new(),
                outcome: Outcome::Open,
            },
            stage,
        }
    }

    /// The digest of the block that a write waits for was handed in. The hint that it becomes is made by the caller.
    pub fn supply(&mut self, digest: Digest)
        requires { self.old.stage ≡ Stage.Asks }
        ensures core { self.new.core ≡ self.old.core }
        ensures stage { self.new.stage ≡ Stage.Begins }
    {
        let _digest = digest;
        self.stage = Stage::Begins;
    }

    /// One step. Where there was no memory for it nothing was done, and the plan is at its end.
    pub fn next<D: Device>(
        &mut self,
        world: &mut MetaWorld<D>,
        cache: &mut HeldCache,
    ) -> Result<Step, NoMemory>
        requires stands { At world.old cache.old self.old.core self.old.stage }
        ensures step { IfOk result (λ step. HasStepped world.old world.new cache.new self.old.core self.new.core self.old.stage step self.new.stage step.next) }
        ensures sooner { IfOk result (λ step. IsSooner world.old cache.old self.old.core self.old.stage world.new cache.new self.new.core step.next self.new.stage) }
        ensures none { IfErr result (λ e. (command : Command) → Runs command self.old.core.call → IsUntouched self.old.core.host world.old world.new) }
        ensures others { Others self.old.core.host world.old world.new }
        ensures leaves { LeavesOthers self.old.core.host cache.old cache.new }
    {
        let host = self.core.host;
        let stage = mem::replace(&mut self.stage, Stage::Over);
        match goes(&mut self.core, world, cache, host, stage) {
            Ok((step, stage)) => {
                self.stage = stage;
                Ok(step)
            }
            Err(no) => Err(no),
        }
    }
}

// One step; a call that was refused cuts the command, but where there was no memory for it.
fn goes<D: Device>(
    core: &mut Core,
    world: &mut MetaWorld<D>,
    cache: &mut HeldCache,
    host: HostNo,
    stage: Stage,
) -> Result<(Step, Stage), NoMemory>
    requires stands { At world.old cache.old core.old stage }
    requires host { host ≡ core.old.host }
    ensures step { IfOk result (λ r. HasStepped world.old world.new cache.new core.old core.new stage r.0 r.1 r.0.next) }
    ensures sooner { IfOk result (λ r. IsSooner world.old cache.old core.old stage world.new cache.new core.new r.0.next r.1) }
    ensures none { IfErr result (λ e. (command : Command) → Runs command core.old.call → IsUntouched core.old.host world.old world.new) }
    ensures others { Others core.old.host world.old world.new }
    ensures leaves { LeavesOthers core.old.host cache.old cache.new }
{
    let _geometry = world.locks().geometry();
    match steps(core, world, cache, stage) {
        Ok(went) => Ok(went),
        Err(why) => match cut_step(why) {
            Ok(step) => {
                cache.forget_host(host);
                Ok((step, Stage::Over))
            }
            Err(no) => Err(no),
        },
    }
}
