// A collection, from its first call to its answer.
ghost use Rattle.std.specs.Prelude.{◌≡◌, ◌<◌, None};
ghost use Rattle.host_facts.specs.Others.{Others};
ghost use Rattle.lock_store.specs.Views.{told_of};
ghost use Rattle.plan_parts.specs.Steps.{IsReady};

use meta_world::MetaWorld;
use share_plans::CollectPlan;
use shared_disk::Device;
use vol_base::{Answer, HostNo, Next};

/// Collects the slots of a part, by at most so many steps, behind which its host makes none any more: `None`.
pub fn collect<D: Device>(
    world: &mut MetaWorld<D>,
    host: HostNo,
    part: u8,
    most: u8,
) -> Option<Answer>
    requires ready { IsReady world.old host }
    requires host { host < world.old.locks.geometry.hosts }
    requires part { part < world.old.locks.geometry.parts }
    requires untold { told_of world.old.locks ≡ None }
    ensures untold { told_of world.new.locks ≡ None }
    ensures geometry { world.new.locks.geometry ≡ world.old.locks.geometry }
    ensures others { Others host world.old world.new }
{
    let _geometry = world.locks().geometry();
    let mut plan = CollectPlan::new(host, part);
    for _step in 0..most {
        match plan.next(world) {
            Ok(step) => {
                if let Next::Answered(answer) = step.next {
                    return Some(answer);
                }
            }
            Err(_) => break,
        }
    }
    None
}
