// The blocks of a shelf: they are read in order, and those whose entries changed are swapped.
ghost use Rattle.std.specs.Prelude.{◌≡◌, ◌<◌, ◌++◌, ◌∷◌, [], IfErr, IfOk};
ghost use Rattle.host_facts.specs.Others.{Others};
ghost use Rattle.merge_plan.specs.Plans.{IsFilling, PlanStands};
ghost use Rattle.merge_plan.specs.Steps.{IsBehindShard, Went};
ghost use Rattle.merge_plan.specs.declared.plan.Doing.{Doing};
ghost use Rattle.merge_shelves.specs.Changes.{shard_bytes};
ghost use Rattle.plan_parts.specs.Cuts.{IsCut};

use crate::following::{after_entries, goes_on};
use crate::plan::{Come, Doing};
use crate::room::MergeRoom;
use lock_store::StepNo;
use merge_shelves::blocks_of;
use merge_steps::{reads_index, swaps_index};
use meta_world::MetaWorld;
use shared_disk::Device;
use sorted_shard::Shelf;
use vol_base::{Block, HostNo};
use vol_layout::Kind;

/// A block of a shelf is read.
#[tactic(none)]
pub(crate) fn reads<D: Device>(
    world: &mut MetaWorld<D>,
    host: HostNo,
    room: &mut MergeRoom,
    shelf: u8,
    k: u8,
) -> Result<Come, StepNo>
    requires stands { PlanStands world.old host room.old (Doing.ReadsShard shelf k) }
    ensures went { IfOk result (Went host world.old world.new room.old room.new (Doing.ReadsShard shelf k)) }
    ensures cut { IfErr result (IsCut host world.old world.new) }
    ensures others { Others host world.old world.new }
{
    let _geometry = world.locks().geometry();
    let read = reads_index(world, host, Kind::Shard(4 * shelf + k));
    let _geometry = world.locks().geometry();
    match read {
        Ok(block) => Ok(behind_block(world, host, room, block, shelf, k)),
        Err(why) => Err(why),
    }
}

// The next block comes; behind the last one the shelf is made of all, and its entries are handled.
#[tactic(none)]
fn behind_block<D: Device>(
    world: &MetaWorld<D>,
    host: HostNo,
    room: &mut MergeRoom,
    block: Block,
    shelf: u8,
    k: u8,
) -> Come
    requires { IsFilling world.now host room.old shelf k }
    ensures { IsBehindShard world.now host shelf k (record room.old { read = room.old.read ++ block ∷ [] }) room.new result }
{
    let geometry = *world.locks().geometry();
    room.read.push(block);
    if k + 1 < blocks_of(&geometry, shelf) {
        return Come::More(Doing::ReadsShard(shelf, k + 1));
    }
    room.sweep.shelf = Shelf::of(room.read.all(), &geometry);
    Come::More(goes_on(world, host, room, shelf))
}

/// A block of a shelf is swapped from what was read to what the shelf has for it.
#[tactic(none)]
pub(crate) fn swaps<D: Device>(
    world: &mut MetaWorld<D>,
    host: HostNo,
    room: &mut MergeRoom,
    shelf: u8,
    k: u8,
) -> Result<Come, StepNo>
    requires stands { PlanStands world.old host room.old (Doing.Swaps shelf k) }
    ensures went { IfOk result (Went host world.old world.new room.old room.new (Doing.Swaps shelf k)) }
    ensures cut { IfErr result (IsCut host world.old world.new) }
    ensures others { Others host world.old world.new }
{
    let geometry = *world.locks().geometry();
    let kind = Kind::Shard(4 * shelf + k);
    let new = block_of(&room.sweep.shelf, k);
    let swapped = swaps_index(world, host, kind, room.read.get(k), &new);
    let _geometry = world.locks().geometry();
    match swapped {
        Ok(_swapped) => Ok(Come::More(after_entries(room, &geometry, shelf, k + 1))),
        Err(why) => Err(why),
    }
}

// The block that a shelf has for one of its places.
fn block_of(shelf: &Shelf, k: u8) -> Block
    requires { k < shelf.now.blocks }
    ensures { result.0 ≡ shard_bytes k shelf.now.entries }
{
    shelf.block(u32::from(k)).into_block()
}
