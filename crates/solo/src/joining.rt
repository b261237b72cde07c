// A plan of a lone host that is driven to its end: it joins, or recovers another host.
ghost use Rattle.std.specs.Prelude.{◌≡◌, IfErr, OnOk};
ghost use Rattle.recover_plan.specs.Lones.{LoneAt, keys_left};
ghost use Rattle.solo.specs.Alone.{IsLater};
ghost use Rattle.solo.specs.Starts.{HasStartCause, IsJoined, IsKeyOpen, ended_by};

use crate::reading::SOLO;
use crate::refusal::refusal_of;
use meta_world::MetaWorld;
use recover_plan::{LoneEnd, LonePlan};
use settle::LoneNo;
use shared_disk::Device;

/// Joins, or recovers another host: behind it the host is in, and that one's slot is free.
pub fn drives<D: Device>(world: &mut MetaWorld<D>, plan: LonePlan) -> Result<(), LoneNo>
    requires host { plan.host ≡ 0 }
    requires at { LoneAt world.old 0 plan.of plan.stage }
    requires open { IsKeyOpen world.old 0 }
    ensures later { IsLater (keys_left plan.stage) world.old world.new }
    ensures joined { OnOk result (IsJoined world.old world.new plan.of) }
    ensures cause { IfErr result (HasStartCause world.old.locks.disk world.new.locks.disk) }
{
    let mut plan = plan;
    let _geometry = world.locks().geometry();
    loop {
        let _geometry = world.locks().geometry();
        match plan.next(world) {
            Ok(end) => match end {
                Some(end) => return ended(end),
                None => {}
            },
            Err(why) => return Err(refusal_of(why)),
        }
    }
}

// What the end of a plan is to the host.
fn ended(end: LoneEnd) -> Result<(), LoneNo>
    ensures { result ≡ ended_by end }
{
    match end {
        LoneEnd::Joined(_) | LoneEnd::Recovered | LoneEnd::Free => Ok(()),
        LoneEnd::Busy(key) => Err(LoneNo::Busy(key)),
        LoneEnd::NoKeys => Err(LoneNo::NoKeys),
    }
}
