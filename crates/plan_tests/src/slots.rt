// The plan of a command on slots, from its first call to its answer, and what a host remembers of slots between two commands.
ghost use Rattle.std.specs.Prelude.{◌≡◌, ◌≢◌, ◌<◌, IsTrue, None};
ghost use Rattle.host_facts.specs.Others.{Others};
ghost use Rattle.lock_store.specs.Views.{key_at, told_of};
ghost use Rattle.plan_parts.specs.Steps.{IsReady};
ghost use Rattle.plan_tests.specs.Seen.{AreSeen};
ghost use Rattle.recover_plan.specs.Nexts.{IsOfPlan, first_of};
ghost use Rattle.recover_plan.specs.PlanSteps.{AreWatched};
ghost use Rattle.recover_plan.specs.Plans.{PlanStands};

use crate::ready::has;
use meta_world::MetaWorld;
use recover_plan::RecoverPlan;
use shared_disk::Device;
use vol_base::{Answer, Command, HostNo, Next};
use watch::Watch;

/// More steps than a command takes on the volume of these tests.
pub const MOST: u8 = 40;

/// What a host of three remembers of slots: each is spelled, not free, and of its host.
#[derive(Drop)]
pub struct Eyes {
    pub watch: Watch,
    ghost seen: { AreSeen watch },
}

impl Eyes {
    /// Nothing is remembered.
    pub fn new() -> Eyes {
        Eyes {
            watch: Watch::new(),
        }
    }
}

/// Runs a command to its answer, or by so many steps, behind which its host makes none any more: `None`.
#[tactic(auto, using(crate::proofs::WorldLaws::still, crate::proofs::SlotLaws::same_volume))]
pub fn run<D: Device>(
    world: &mut MetaWorld<D>,
    watch: &mut Watch,
    host: HostNo,
    command: Command,
    most: u8,
) -> Option<Answer>
    requires on { IsOfPlan host command }
    requires stands { PlanStands world.old host watch.old (first_of command) }
    requires untold { told_of world.old.locks ≡ None }
    ensures untold { told_of world.new.locks ≡ None }
    ensures geometry { world.new.locks.geometry ≡ world.old.locks.geometry }
    ensures watched { AreWatched world.new host watch.new }
    ensures others { Others host world.old world.new }
{
    let _geometry = world.locks().geometry();
    let mut plan = RecoverPlan::new(host, command);
    for _step in 0..most {
        match plan.next(world, watch) {
            Ok(step) => {
                if let Next::Answered(answer) = step.next {
                    return Some(answer);
                }
            }
            Err(_) => break,
        }
    }
    *watch = Watch::new();
    None
}

/// Runs a `join` of a host that has nothing in memory any more, by at most so many steps.
#[tactic(auto, using(crate::proofs::UntoldLaws::stays))]
pub fn join<D: Device>(world: &mut MetaWorld<D>, host: HostNo, most: u8) -> Option<Answer>
    requires host { host < world.old.locks.geometry.hosts }
    requires untold { told_of world.old.locks ≡ None }
    ensures untold { told_of world.new.locks ≡ None }
    ensures geometry { world.new.locks.geometry ≡ world.old.locks.geometry }
    ensures others { Others host world.old world.new }
{
    let _geometry = world.locks().geometry();
    world.locks_mut().drop_host(host);
    let mut watch = Watch::new();
    run(world, &mut watch, host, Command::Join, most)
}

/// Runs a `leave`, a `beat`, or a `look` at or a `recover` of another host, by at most so many steps.
#[tactic(auto, using(crate::proofs::SlotLaws::seen, crate::proofs::SlotLaws::watched))]
pub fn act<D: Device>(
    world: &mut MetaWorld<D>,
    eyes: &mut Eyes,
    host: HostNo,
    command: Command,
    most: u8,
) -> Option<Answer>
    requires host { host < world.old.locks.geometry.hosts }
    requires three { world.old.locks.geometry.hosts ≡ 3 }
    requires key { key_at world.old.locks host ≢ 0 }
    requires ready { IsReady world.old host }
    requires untold { told_of world.old.locks ≡ None }
    ensures untold { told_of world.new.locks ≡ None }
    ensures geometry { world.new.locks.geometry ≡ world.old.locks.geometry }
    ensures others { Others host world.old world.new }
{
    let watch = &mut eyes.watch;
    match command {
        Command::Leave => run(world, watch, host, Command::Leave, most),
        Command::Beat => run(world, watch, host, Command::Beat, most),
        Command::Look(of) if is_other(world, host, of) => {
            run(world, watch, host, Command::Look(of), most)
        }
        Command::Recover(of) if is_other(world, host, of) => {
            run(world, watch, host, Command::Recover(of), most)
        }
        _ => None,
    }
}

// Whether the host may begin a command on the slot of this other one.
fn is_other<D: Device>(world: &MetaWorld<D>, host: HostNo, of: HostNo) -> bool
    ensures of { IsTrue result → of < world.now.locks.geometry.hosts }
    ensures other { IsTrue result → of ≢ host }
{
    has(world, of) && of != host
}
