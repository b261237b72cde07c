// What is done next, where no device call is needed to know it.
ghost use Rattle.std.specs.Prelude.{◌≡◌, ◌<◌, ◌≤◌, length};
ghost use Rattle.merge_plan.specs.Followings.{GoesOn, IsAfter, IsNextFilled, IsNextShelf, OpensShelf};
ghost use Rattle.merge_plan.specs.Rooms.{HasFilled, IsOpen};
ghost use Rattle.merge_steps.specs.Sweeps.{IsOfHost, IsSweeping};
ghost use Rattle.vol_layout.specs.Ranges.{IsGeometry};

use crate::plan::Doing;
use crate::room::MergeRoom;
use hint_blocks::shard_of;
use merge_actions::ActPlan;
use merge_decide::Action;
use merge_looks::Look;
use merge_shelves::{next_changed, shelves};
use merge_steps::{Due, passes};
use meta_world::MetaWorld;
use shared_disk::Device;
use vol_base::HostNo;
use vol_layout::Geometry;

/// The next entry of a shelf that needs device calls; those before it are handled. Where there is none, its changed blocks are swapped.
pub(crate) fn goes_on<D: Device>(
    world: &MetaWorld<D>,
    host: HostNo,
    room: &mut MergeRoom,
    shelf: u8,
) -> Doing
    requires host { IsOfHost world.now host room.old.logs }
    requires sweep { IsSweeping world.now room.old.logs room.old.sweep }
    requires open { IsOpen world.now room.old shelf }
    requires filled { HasFilled world.now.locks.geometry room.old }
    ensures { GoesOn world.now host shelf room.old room.new result }
{
    let geometry = *world.locks().geometry();
    match passes(world, host, &room.logs, shelf, &mut room.sweep) {
        Due::Looks => {
            let entry = room.logs.get(room.sweep.at).entry;
            Doing::Looks(shelf, Look::new(host, entry.file, entry.index))
        }
        Due::Posts(slot) => {
            let entry = room.logs.get(room.sweep.at).entry;
            // the slot is in range, since the shelf's entries are
            let _found = room.sweep.shelf.entries_of(&entry.digest);
            Doing::Acts(shelf, ActPlan::new(host, entry, Action::Post(slot)))
        }
        Due::Ends => after_entries(room, &geometry, shelf, 0),
    }
}

/// The blocks of a shelf whose entries changed are swapped, from this one on; then the next shelf comes.
pub(crate) fn after_entries(room: &mut MergeRoom, geometry: &Geometry, shelf: u8, from: u8) -> Doing
    requires geometry { IsGeometry geometry.now }
    requires volume { room.old.sweep.shelf.geometry ≡ geometry.now }
    requires blocks { length room.old.read ≡ room.old.sweep.shelf.blocks }
    requires filled { HasFilled geometry.now room.old }
    requires within { room.old.sweep.at ≤ length room.old.logs }
    ensures { IsAfter geometry.now shelf from room.old room.new result }
{
    match next_changed(
        room.read.all(),
        &room.sweep.shelf,
        u32::from(from),
        geometry,
    ) {
        Some(k) => Doing::Swaps(shelf, k as u8),
        None => next_shelf(room, geometry),
    }
}

// The shelf of the next entry comes, or, where all entries are handled, the logs are emptied.
fn next_shelf(room: &mut MergeRoom, geometry: &Geometry) -> Doing
    requires geometry { IsGeometry geometry.now }
    requires filled { HasFilled geometry.now room.old }
    requires within { room.old.sweep.at ≤ length room.old.logs }
    ensures { IsNextShelf geometry.now room.old room.new result }
{
    if room.sweep.at < room.logs.count() {
        opens(room, geometry)
    } else {
        Doing::EmptiesLog(next_filled(&room.filled, 0, geometry.logs).unwrap())
    }
}

/// The blocks of the next entry's shelf are read.
pub(crate) fn opens(room: &mut MergeRoom, geometry: &Geometry) -> Doing
    requires geometry { IsGeometry geometry.now }
    requires more { room.old.sweep.at < length room.old.logs }
    ensures { OpensShelf geometry.now room.old room.new result }
{
    let entry = room.logs.get(room.sweep.at).entry;
    room.read.clear();
    Doing::ReadsShard(shard_of(&entry.digest, shelves(geometry)), 0)
}

/// The first own log block that had entries, from this one on.
pub(crate) fn next_filled(filled: &[bool; 16], from: u8, logs: u8) -> Option<u8>
    requires { logs ≤ 16 }
    ensures { IsNextFilled filled.now logs from result }
{
    for log in from..logs {
        if filled[log as usize] {
            return Some(log);
        }
    }
    None
}
