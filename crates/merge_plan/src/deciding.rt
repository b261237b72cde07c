// The next entry is decided and handled.
ghost use Rattle.std.specs.Prelude.{◌<◌, length};
ghost use Rattle.merge_decide.specs.Counted.{EndsWith};
ghost use Rattle.merge_plan.specs.Followings.{IsDecided, IsFinished};
ghost use Rattle.merge_plan.specs.Rooms.{HasFilled, IsNext, IsOpen};
ghost use Rattle.merge_steps.specs.Sweeps.{IsHeld, IsOfHost, IsSweeping};
ghost use Rattle.vol_layout.specs.Ranges.{arena_slots};

use crate::following::goes_on;
use crate::plan::Doing;
use crate::room::MergeRoom;
use merge_actions::ActPlan;
use merge_decide::{Action, Outcome};
use merge_shelves::{Done, decided, handle};
use meta_world::MetaWorld;
use shared_disk::Device;
use vol_base::{Digest, HostNo};

/// The next entry of a shelf, of a file that the host holds, is decided by what stands at its place. Where that needs no device call it is handled, and what
/// comes behind it is next.
pub(crate) fn decides<D: Device>(
    world: &MetaWorld<D>,
    host: HostNo,
    room: &mut MergeRoom,
    shelf: u8,
    now: Option<Digest>,
) -> Doing
    requires host { IsOfHost world.now host room.old.logs }
    requires sweep { IsSweeping world.now room.old.logs room.old.sweep }
    requires open { IsOpen world.now room.old shelf }
    requires filled { HasFilled world.now.locks.geometry room.old }
    requires next { IsNext world.now host room.old shelf (IsHeld world.now host) }
    ensures { IsDecided world.now host shelf now room.old room.new result }
{
    let entry = room.logs.get(room.sweep.at).entry;
    let action = decided(&room.sweep.shelf, &entry, true, now);
    // what it names is in range, since the shelf's entries are
    let _found = room.sweep.shelf.entries_of(&entry.digest);
    match action {
        Action::Share(_) | Action::Promote(_, _) | Action::Post(_) => {
            Doing::Acts(shelf, ActPlan::new(host, entry, action))
        }
        Action::Stale | Action::PutUnique | Action::Skip => {
            let done = Done {
                action,
                outcome: Outcome::Done,
                slot: 0,
            };
            finishes(world, host, room, shelf, &done)
        }
    }
}

/// The next entry of a shelf was handled: the shelf gains what that puts, one count rises, and what comes behind it is next.
pub(crate) fn finishes<D: Device>(
    world: &MetaWorld<D>,
    host: HostNo,
    room: &mut MergeRoom,
    shelf: u8,
    done: &Done,
) -> Doing
    requires host { IsOfHost world.now host room.old.logs }
    requires sweep { IsSweeping world.now room.old.logs room.old.sweep }
    requires open { IsOpen world.now room.old shelf }
    requires filled { HasFilled world.now.locks.geometry room.old }
    requires more { room.old.sweep.at < length room.old.logs }
    requires ends { EndsWith done.now.action done.now.outcome }
    requires slot { done.now.slot < arena_slots world.now.locks.geometry }
    ensures { IsFinished world.now host shelf done.now room.old room.new result }
{
    let _geometry = world.locks().geometry();
    let entry = room.logs.get(room.sweep.at).entry;
    handle(&mut room.sweep.counts, &mut room.sweep.shelf, &entry, done);
    room.sweep.at += 1;
    goes_on(world, host, room, shelf)
}
