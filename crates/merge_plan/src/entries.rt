// The next entry of a shelf, one device call a step.
ghost use Rattle.std.specs.Prelude.{IfErr, IfOk};
ghost use Rattle.host_facts.specs.Others.{Others};
ghost use Rattle.merge_plan.specs.Plans.{PlanStands};
ghost use Rattle.merge_plan.specs.Steps.{Went};
ghost use Rattle.merge_plan.specs.declared.plan.Doing.{Doing};
ghost use Rattle.plan_parts.specs.Cuts.{IsCut};

use crate::deciding::{decides, finishes};
use crate::plan::{Come, Doing};
use crate::room::MergeRoom;
use lock_store::StepNo;
use merge_actions::{ActPlan, Acted};
use merge_looks::{Look, Seen};
use merge_shelves::Done;
use meta_world::MetaWorld;
use shared_disk::Device;
use vol_base::{Answer, HostNo};

/// One step of the look at its place. Where there is no block the entry is decided at once.
#[tactic(none)]
pub(crate) fn looks<D: Device>(
    world: &mut MetaWorld<D>,
    host: HostNo,
    room: &mut MergeRoom,
    shelf: u8,
    look: Look,
) -> Result<Come, StepNo>
    requires stands { PlanStands world.old host room.old (Doing.Looks shelf look) }
    ensures went { IfOk result (Went host world.old world.new room.old room.new (Doing.Looks shelf look)) }
    ensures cut { IfErr result (IsCut host world.old world.new) }
    ensures others { Others host world.old world.new }
{
    let _geometry = world.locks().geometry();
    let mut look = look;
    let came = look.next(world);
    let _geometry = world.locks().geometry();
    match came {
        Ok(seen) => Ok(Come::More(match seen {
            None => Doing::Looks(shelf, look),
            Some(Seen::Nothing) => decides(world, host, room, shelf, None),
            Some(Seen::Block(block)) => Doing::Asks(shelf, block),
        })),
        Err(why) => Err(why),
    }
}

/// One step of what was decided of it. A busy lock is the command's answer, and the shelf is forgotten.
#[tactic(none)]
pub(crate) fn acts<D: Device>(
    world: &mut MetaWorld<D>,
    host: HostNo,
    room: &mut MergeRoom,
    shelf: u8,
    plan: ActPlan,
) -> Result<Come, StepNo>
    requires stands { PlanStands world.old host room.old (Doing.Acts shelf plan) }
    ensures went { IfOk result (Went host world.old world.new room.old room.new (Doing.Acts shelf plan)) }
    ensures cut { IfErr result (IsCut host world.old world.new) }
    ensures others { Others host world.old world.new }
{
    let _geometry = world.locks().geometry();
    let mut plan = plan;
    let came = plan.next(world);
    let _geometry = world.locks().geometry();
    match came {
        Ok(acted) => Ok(match acted {
            None => Come::More(Doing::Acts(shelf, plan)),
            Some(Acted::Busy(key)) => Come::Answered(Answer::Busy(key)),
            Some(Acted::Done(outcome, slot)) => {
                let done = Done {
                    action: plan.action,
                    outcome,
                    slot,
                };
                Come::More(finishes(world, host, room, shelf, &done))
            }
        }),
        Err(why) => Err(why),
    }
}
