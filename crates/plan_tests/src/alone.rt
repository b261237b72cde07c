// The plans of a host that is alone, from their first call to their end.
ghost use Rattle.std.specs.Prelude.{◌≡◌, ◌<◌, None};
ghost use Rattle.lock_store.specs.Views.{told_of};
ghost use Rattle.plan_parts.specs.Steps.{IsReady};
ghost use Rattle.recover_plan.specs.Lones.{LoneAt};

use meta_world::MetaWorld;
use recover_plan::{LoneEnd, LonePlan, join_at_once, recover_at_once};
use shared_disk::Device;
use vol_base::HostNo;

/// Runs a `join` of a host that has nothing in memory any more, by at most so many steps.
#[tactic(auto, using(crate::proofs::UntoldLaws::stays))]
pub fn join_alone<D: Device>(world: &mut MetaWorld<D>, host: HostNo, most: u8) -> Option<LoneEnd>
    requires host { host < world.old.locks.geometry.hosts }
    requires untold { told_of world.old.locks ≡ None }
    ensures { told_of world.new.locks ≡ None }
{
    world.locks_mut().drop_host(host);
    run(world, join_at_once(host), most)
}

/// Runs the recovery of another host by a ready one.
pub fn recover_alone<D: Device>(
    world: &mut MetaWorld<D>,
    host: HostNo,
    of: HostNo,
    most: u8,
) -> Option<LoneEnd>
    requires host { host < world.old.locks.geometry.hosts }
    requires ready { IsReady world.old host }
    requires untold { told_of world.old.locks ≡ None }
    ensures { told_of world.new.locks ≡ None }
{
    if of >= world.locks().geometry().hosts || of == host {
        return None;
    }
    run(world, recover_at_once(host, of), most)
}

// Runs a plan to its end, by at most so many steps.
#[tactic(auto, using(crate::proofs::WorldLaws::still))]
fn run<D: Device>(world: &mut MetaWorld<D>, plan: LonePlan, most: u8) -> Option<LoneEnd>
    requires at { LoneAt world.old plan.host plan.of plan.stage }
    requires untold { told_of world.old.locks ≡ None }
    ensures { told_of world.new.locks ≡ None }
{
    let mut plan = plan;
    for _step in 0..most {
        match plan.next(world) {
            Ok(None) => {}
            Ok(Some(end)) => return Some(end),
            Err(_) => return None,
        }
    }
    None
}
