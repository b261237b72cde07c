// The entries of a shelf that need no device call.
ghost use Rattle.std.specs.Prelude.{◌≡◌, ◌-◌};
ghost use Rattle.merge_steps.specs.Sweeps.{IsOfHost, IsSweeping, ArePassed, HasPassed, IsDue};

use hint_blocks::shard_of;
use merge_shelves::{LogRoom, pass, shelves};
use meta_world::MetaWorld;
use shared_disk::Device;
use sorted_shard::Shelf;
use vol_base::{HostNo, MergeCounts, SlotNo};
use vol_layout::Resource;

/// How far a merge is in the entries of its host's logs: the next one, the nine counts of those before it, and the shelf as it stands.
#[derive(Drop)]
pub struct Sweep {
    pub at: u32,
    pub counts: MergeCounts,
    pub shelf: Shelf,
}

/// What the next entry asks for: what stands at its place is looked at, it is posted to this slot, or it is of another shelf, or there is
/// none.
#[derive(Clone, Copy, Debug, PartialEq, Eq)]
pub enum Due {
    Looks,
    Posts(SlotNo),
    Ends,
}

/// Handles the entries of shelf `number` one after the other, up to one that needs a device call. No call is made.
pub fn passes<D: Device>(
    world: &MetaWorld<D>,
    host: HostNo,
    room: &LogRoom,
    number: u8,
    sweep: &mut Sweep,
) -> Due
    requires host { IsOfHost world.now host room.now }
    requires sweep { IsSweeping world.now room.now sweep.old }
    ensures passed { ArePassed world.now host room.now number sweep.old (sweep.new.at - sweep.old.at) sweep.new }
    ensures due { IsDue world.now host room.now number sweep.new result }
    ensures sweep { IsSweeping world.now room.now sweep.new }
{
    loop {
        if let Some(due) = passes_one(world, host, room, number, sweep) {
            return due;
        }
    }
}

// One entry, or what the next one asks for.
fn passes_one<D: Device>(
    world: &MetaWorld<D>,
    host: HostNo,
    room: &LogRoom,
    number: u8,
    sweep: &mut Sweep,
) -> Option<Due>
    requires host { IsOfHost world.now host room.now }
    requires sweep { IsSweeping world.now room.now sweep.old }
    ensures passed { HasPassed world.now host room.now number sweep.old sweep.new result }
    ensures sweep { IsSweeping world.now room.now sweep.new }
{
    let geometry = world.locks().geometry();
    if sweep.at == room.count() {
        return Some(Due::Ends);
    }
    let entry = room.get(sweep.at).entry;
    if shard_of(&entry.digest, shelves(geometry)) != number {
        return Some(Due::Ends);
    }
    if world.locks().holds(host, Resource::File(entry.file)) {
        return Some(Due::Looks);
    }
    match pass(&mut sweep.counts, &mut sweep.shelf, &entry) {
        Some(slot) => Some(Due::Posts(slot)),
        None => {
            sweep.at += 1;
            None
        }
    }
}
