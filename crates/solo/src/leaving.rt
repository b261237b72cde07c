// A leave that is driven to its end.
ghost use Rattle.std.specs.Prelude.{◌≡◌, ◌≤◌, IfErr, OnOk};
ghost use Rattle.recover_plan.specs.KeptVolumes.{KeepsVolume};
ghost use Rattle.recover_plan.specs.LoneSteps.{IsSlotFree};
ghost use Rattle.solo.specs.Alone.{IsAlone, IsLater};
ghost use Rattle.solo.specs.Leaves.{IsLeft, left_by};
ghost use Rattle.solo.specs.Stops.{HasCause};

use crate::reading::SOLO;
use meta_world::MetaWorld;
use recover_plan::RecoverPlan;
use settle::LoneNo;
use shared_disk::Device;
use vol_base::{Answer, Command, CutBy, Next};
use watch::Watch;

/// Frees the locks of all files and the slot, and takes the own key off.
pub fn leaves<D: Device>(world: &mut MetaWorld<D>) -> Result<(), LoneNo>
    requires alone { IsAlone world.old }
    ensures later { IsLater 0 world.old world.new }
    ensures free { OnOk result (IsSlotFree world.new 0) }
    ensures kept { OnOk result (KeepsVolume world.old world.new) }
    ensures cause { IfErr result (HasCause world.old.locks.disk world.new.locks.disk) }
{
    let _geometry = world.locks().geometry();
    let mut watch = Watch::new();
    let mut plan = RecoverPlan::new(SOLO, Command::Leave);
    loop {
        let _geometry = world.locks().geometry();
        match plan.next(world, &mut watch) {
            Ok(step) => match step.next {
                Next::More => {}
                Next::Answered(answer) => return left(answer),
                Next::Work(_) => unreachable!(),
            },
            Err(_) => return Err(LoneNo::NoMemory),
        }
    }
}

// What the answer of a `leave` is to the host.
fn left(answer: Answer) -> Result<(), LoneNo>
    requires { IsLeft answer }
    ensures { result ≡ left_by answer }
{
    match answer {
        Answer::Fine => Ok(()),
        Answer::Cut(CutBy::Fault) => Err(LoneNo::Failed),
        Answer::Cut(CutBy::Bad(place)) => Err(LoneNo::Bad(place)),
        _ => unreachable!(),
    }
}
