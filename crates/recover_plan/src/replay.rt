// The recovery of a slot, cut at each device call.
ghost use Rattle.std.specs.Prelude.{◌≡◌, ◌≢◌, ◌<◌, IfErr, IfOk};
ghost use Rattle.disk_locks.specs.Consistent.{Consistent};
ghost use Rattle.host_facts.specs.Facts.Fact.{Off};
ghost use Rattle.host_facts.specs.Knows.{Knows};
ghost use Rattle.host_facts.specs.Others.{Others};
ghost use Rattle.lock_store.specs.Calls.{FencesKey};
ghost use Rattle.lock_store.specs.SlotTries.{slot_by};
ghost use Rattle.lock_store.specs.Views.{key_at};
ghost use Rattle.recover_plan.specs.Replays.{IsCutAt, Went};
ghost use Rattle.recover_plan.specs.Stages.{AreOff, IsSeen, Stands, behind_fence};
ghost use Rattle.slot_lock_blocks.specs.Slots.{slot_key};

use crate::replaying::{clear, journal, read, write};
use crate::sweeping::sweep;
use journal_block::Record;
use lock_store::{Claim, StepNo};
use meta_world::MetaWorld;
use shared_disk::Device;
use slot_lock_blocks::Slot;
use vol_base::{HostNo, Key, Packed};

/// What is done next, with what it is done from: a key of a slot that was seen is taken off, or its `by`; the slot is claimed; and then,
/// for the dead key, the journal is read, the table of an edit read, and written, the journal cleared, or a lock freed.
#[derive(Drop)]
pub enum Replay {
    Fence(Slot),
    FenceBy(Slot),
    Claim(Slot),
    Journal(Key),
    Read(Key, Record, u32),
    Write(Key, Record, u32, Packed<4>),
    Clear(Key),
    Sweep(Key, u8),
}

/// What a step came to: another one is left; the claim, made from the first slot, found the second one; or nothing is left of the dead
/// key but its slot.
#[derive(Drop)]
pub enum Going {
    More(Replay),
    Found(Slot, Slot),
    Ready(Key),
}

/// One step, which makes one device call.
pub fn step<D: Device>(
    world: &mut MetaWorld<D>,
    host: HostNo,
    of: HostNo,
    stage: Replay,
) -> Result<Going, StepNo>
    requires stands { Stands world.old host of stage }
    ensures went { IfOk result (Went host of world.old world.new stage) }
    ensures cut { IfErr result (IsCutAt host of world.old world.new stage) }
    ensures others { Others host world.old world.new }
{
    match stage {
        Replay::Fence(slot) => fence(world, host, of, slot),
        Replay::FenceBy(slot) => fence_by(world, host, of, slot),
        Replay::Claim(slot) => claim(world, host, of, slot),
        Replay::Journal(dead) => journal(world, host, of, dead),
        Replay::Read(dead, entry, k) => read(world, host, of, dead, entry, k),
        Replay::Write(dead, entry, k, kept) => write(world, host, of, dead, entry, k, &kept),
        Replay::Clear(dead) => clear(world, host, of, dead),
        Replay::Sweep(dead, k) => sweep(world, host, of, dead, k),
    }
}

// Takes the key off that a slot shows.
fn fence<D: Device>(
    world: &mut MetaWorld<D>,
    host: HostNo,
    of: HostNo,
    slot: Slot,
) -> Result<Going, StepNo>
    requires seen { IsSeen world.old host of slot }
    ensures went { IfOk result (Went host of world.old world.new (Replay.Fence slot)) }
    ensures cut { IfErr result (IsCutAt host of world.old world.new (Replay.Fence slot)) }
    ensures others { Others host world.old world.new }
{
    match take_off(world, host, shown(&slot)) {
        Ok(()) => Ok(Going::More(behind_fence(slot))),
        Err(why) => Err(why),
    }
}

// Takes the key of the host off that recovers a slot.
fn fence_by<D: Device>(
    world: &mut MetaWorld<D>,
    host: HostNo,
    of: HostNo,
    slot: Slot,
) -> Result<Going, StepNo>
    requires seen { IsSeen world.old host of slot }
    requires by { slot_by slot ≢ 0 }
    requires off { Knows world.old host (Off (slot_key slot)) }
    ensures went { IfOk result (Went host of world.old world.new (Replay.FenceBy slot)) }
    ensures cut { IfErr result (IsCutAt host of world.old world.new (Replay.FenceBy slot)) }
    ensures others { Others host world.old world.new }
{
    match take_off(world, host, by(&slot)) {
        Ok(()) => Ok(Going::More(Replay::Claim(slot))),
        Err(why) => Err(why),
    }
}

// Claims a slot whose keys are off.
fn claim<D: Device>(
    world: &mut MetaWorld<D>,
    host: HostNo,
    of: HostNo,
    from: Slot,
) -> Result<Going, StepNo>
    requires seen { IsSeen world.old host of from }
    requires off { AreOff world.old host from }
    ensures went { IfOk result (Went host of world.old world.new (Replay.Claim from)) }
    ensures cut { IfErr result (IsCutAt host of world.old world.new (Replay.Claim from)) }
    ensures others { Others host world.old world.new }
{
    let _geometry = world.locks().geometry();
    let tried = world.locks_mut().claim_slot(host, of, &from);
    let _geometry = world.locks().geometry();
    match tried {
        Ok(Claim::Claimed) => Ok(Going::More(Replay::Journal(shown(&from)))),
        Ok(Claim::Found(found)) => Ok(Going::Found(from, found)),
        Err(why) => Err(why),
    }
}

// What comes next once the key is off.
fn behind_fence(slot: Slot) -> Replay
    ensures { result ≡ behind_fence slot }
{
    match slot {
        Slot::Recovering { .. } => Replay::FenceBy(slot),
        Slot::Free | Slot::Live { .. } => Replay::Claim(slot),
    }
}

// The key that a slot shows, and its `by`; 0 for none.
pub(crate) fn shown(slot: &Slot) -> Key
    ensures { result.0 ≡ slot_key slot.now }
{
    match *slot {
        Slot::Free => Key(0),
        Slot::Live { key, .. } | Slot::Recovering { key, .. } => key,
    }
}

fn by(slot: &Slot) -> Key
    ensures { result.0 ≡ slot_by slot.now }
{
    match *slot {
        Slot::Free | Slot::Live { .. } => Key(0),
        Slot::Recovering { by, .. } => by,
    }
}

// Takes a key off.
pub(crate) fn take_off<D: Device>(
    world: &mut MetaWorld<D>,
    host: HostNo,
    target: Key,
) -> Result<(), StepNo>
    requires host { host < world.old.locks.geometry.hosts }
    requires key { key_at world.old.locks host ≢ 0 }
    ensures did { FencesKey world.old.locks host target result world.new.locks }
    ensures others { Others host world.old world.new }
    ensures standing { world.new.standing ≡ world.old.standing }
    ensures was { Consistent world.old.locks }
    ensures is { Consistent world.new.locks }
{
    let _geometry = world.locks().geometry();
    let done = world.locks_mut().fence(host, target);
    let _geometry = world.locks().geometry();
    done
}
