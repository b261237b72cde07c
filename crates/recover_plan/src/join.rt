// A host joins: it is given a key, and enters its own slot, from a free one, or once its older key is recovered.
ghost use Rattle.std.specs.Prelude.{◌≡◌, ◌≢◌, ◌<◌, ℕ, false, IfErr, IfOk};
ghost use Rattle.disk_locks.specs.Calls.{EntersSlot, IsSound};
ghost use Rattle.disk_locks.specs.Consistent.{Consistent};
ghost use Rattle.disk_locks.specs.Freeing.{IsUnneeded, MayEnterFrom};
ghost use Rattle.disk_locks.specs.Others as locks';
ghost use Rattle.disk_locks.specs.Sure.{Sure};
ghost use Rattle.host_facts.specs.Others.{Others};
ghost use Rattle.lock_store.specs.Calls.{RegistersHost};
ghost use Rattle.lock_store.specs.Memories.{claim_of};
ghost use Rattle.lock_store.specs.Views.{host_at, key_at};
ghost use Rattle.plan_parts.specs.Cuts.{IsCutBy};
ghost use Rattle.recover_plan.specs.Joins.{IsDropped, IsLeftBy, entering, join_found};
ghost use Rattle.recover_plan.specs.Plans.{Agrees, Came, PlanStands};
ghost use Rattle.slot_lock_blocks.specs.Slots.{IsSlot, slot_key};
ghost use Rattle.watch.specs.Looks.{nothing};

use crate::plan::{Come, Doing};
use crate::replay::{Going, Replay, step};
use lock_store::{Claim, StepNo};
use meta_world::MetaWorld;
use shared_disk::{Device, DiskNo};
use slot_lock_blocks::Slot;
use vol_base::{Answer, Command, CutBy, HostNo, Key};
use vol_layout::Kind;
use watch::Watch;

/// The first step of a `join`: a key is asked for.
pub(crate) fn register<D: Device>(
    world: &mut MetaWorld<D>,
    watch: &mut Watch,
    host: HostNo,
) -> Result<Come, StepNo>
    requires stands { PlanStands world.old host watch.old Doing.Register }
    ensures came { IfOk result (Came host world.old world.new watch.old watch.new Doing.Register) }
    ensures cut { IfErr result (λ why. IsCutBy Command.Join host world.old world.new why (Agrees host world.old watch.old Doing.Register)) }
    ensures memory { IfErr result (λ why. why ≡ StepNo.NoMemory) }
    ensures others { Others host world.old world.new }
{
    let _geometry = world.locks().geometry();
    match ask_key(world, host) {
        Ok(_) => Ok(Come::More(Doing::Enter)),
        Err(DiskNo::NoKeys) => {
            *watch = Watch::new();
            Ok(Come::Answered(Answer::NoKeys))
        }
        Err(DiskNo::Failed) => {
            *watch = Watch::new();
            Ok(Come::Answered(Answer::Cut(CutBy::Fault)))
        }
        Err(DiskNo::NoMemory) => Err(StepNo::NoMemory),
        // No key is looked at when one is asked for.
        Err(DiskNo::Fenced) => Err(StepNo::Fenced),
    }
}

/// The own slot is entered from a free one: at first, or once its claim found it free.
pub(crate) fn enter<D: Device>(
    world: &mut MetaWorld<D>,
    watch: &mut Watch,
    host: HostNo,
    again: bool,
) -> Result<Come, StepNo>
    requires host { host < world.old.locks.geometry.hosts }
    requires stands { PlanStands world.old host watch.old (entering again) }
    ensures came { IfOk result (Came host world.old world.new watch.old watch.new (entering again)) }
    ensures cut { IfErr result (λ why. IsCutBy Command.Join host world.old world.new why (Agrees host world.old watch.old (entering again))) }
    ensures others { Others host world.old world.new }
{
    let _geometry = world.locks().geometry();
    let own = key(world, host);
    match set_live(world, host, &Slot::Free) {
        Ok(Claim::Claimed) => {
            *watch = Watch::new();
            Ok(Come::Answered(Answer::Joined(own)))
        }
        Ok(Claim::Found(slot)) => Ok(found(world, watch, host, again, &slot)),
        Err(why) => Err(why),
    }
}

/// One step of the recovery of an older key.
pub(crate) fn over<D: Device>(
    world: &mut MetaWorld<D>,
    watch: &mut Watch,
    host: HostNo,
    stage: Replay,
) -> Result<Come, StepNo>
    requires stands { PlanStands world.old host watch.old (Doing.Over stage) }
    ensures came { IfOk result (Came host world.old world.new watch.old watch.new (Doing.Over stage)) }
    ensures cut { IfErr result (λ why. IsCutBy Command.Join host world.old world.new why (Agrees host world.old watch.old (Doing.Over stage))) }
    ensures others { Others host world.old world.new }
{
    let _geometry = world.locks().geometry();
    let went = step(world, host, host, stage);
    let _later = world.locks().geometry();
    match went {
        Ok(Going::More(next)) => Ok(Come::More(Doing::Over(next))),
        Ok(Going::Ready(dead)) => Ok(Come::More(Doing::Retake(dead))),
        Ok(Going::Found(_, slot)) => Ok(found(world, watch, host, true, &slot)),
        Err(why) => Err(why),
    }
}

/// The own slot is entered from its claim. Another slot is found there only where the device tells nothing, and is not of its kind.
pub(crate) fn retake<D: Device>(
    world: &mut MetaWorld<D>,
    watch: &mut Watch,
    host: HostNo,
    dead: Key,
) -> Result<Come, StepNo>
    requires stands { PlanStands world.old host watch.old (Doing.Retake dead) }
    ensures came { IfOk result (Came host world.old world.new watch.old watch.new (Doing.Retake dead)) }
    ensures cut { IfErr result (λ why. IsCutBy Command.Join host world.old world.new why (Agrees host world.old watch.old (Doing.Retake dead))) }
    ensures others { Others host world.old world.new }
{
    let place = world.locks().geometry().place(Kind::Slot(host));
    let own = key(world, host);
    match set_live(world, host, &Slot::Recovering { key: dead, by: own }) {
        Ok(Claim::Claimed) => {
            *watch = Watch::new();
            Ok(Come::Answered(Answer::Joined(own)))
        }
        Ok(Claim::Found(_)) => {
            forget(world, host);
            Err(StepNo::Bad(place))
        }
        Err(why) => Err(why),
    }
}

// What comes of a slot that was found in place of the own one.
fn found<D: Device>(
    world: &mut MetaWorld<D>,
    watch: &mut Watch,
    host: HostNo,
    again: bool,
    slot: &Slot,
) -> Come
    requires host { host < world.old.locks.geometry.hosts }
    ensures come { result ≡ join_found host slot.now again }
    ensures left { IsLeftBy host world.old world.new watch.old watch.new result }
{
    match behind(host, slot, again) {
        Come::More(doing) => Come::More(doing),
        Come::Answered(answer) => {
            forget(world, host);
            *watch = Watch::new();
            Come::Answered(answer)
        }
        Come::Uncalled(answer) => {
            forget(world, host);
            *watch = Watch::new();
            Come::Uncalled(answer)
        }
    }
}

fn behind(host: HostNo, slot: &Slot, again: bool) -> Come
    ensures { result ≡ join_found host slot.now again }
{
    match *slot {
        Slot::Free => Come::More(Doing::EnterAgain),
        Slot::Live { key, .. } => {
            if again {
                Come::Answered(Answer::Busy(key))
            } else {
                older(slot)
            }
        }
        Slot::Recovering { by, .. } => {
            if !again && by.0 % 16 == u64::from(host) {
                older(slot)
            } else {
                Come::Answered(Answer::Busy(by))
            }
        }
    }
}

// The key that stands in the own slot is recovered first: it is taken off, before the slot is claimed.
fn older(slot: &Slot) -> Come
    ensures { result ≡ Come.More (Doing.Over (Replay.Fence slot.now)) }
{
    Come::More(Doing::Over(Replay::Fence(*slot)))
}

/// Drops the host: it has no key any more. No device call is made.
pub(crate) fn forget<D: Device>(world: &mut MetaWorld<D>, host: HostNo)
    requires host { host < world.old.locks.geometry.hosts }
    ensures { IsDropped host world.old world.new }
{
    world.locks_mut().drop_host(host);
}

/// The key of a host that has one.
pub(crate) fn key<D: Device>(world: &MetaWorld<D>, host: HostNo) -> Key
    requires host { host < world.now.locks.geometry.hosts }
    requires some { key_at world.now.locks host ≢ 0 }
    ensures { result.0 ≡ key_at world.now.locks host }
{
    world.locks().key_of(host).unwrap()
}

// Asks for a key.
pub(crate) fn ask_key<D: Device>(world: &mut MetaWorld<D>, host: HostNo) -> Result<Key, DiskNo>
    requires host { host < world.old.locks.geometry.hosts }
    requires none { key_at world.old.locks host ≡ 0 }
    ensures did { RegistersHost world.old.locks host result world.new.locks }
    ensures fenced { result ≢ Err DiskNo.Fenced }
    ensures others { locks'.Others host world.old.locks world.new.locks }
    ensures standing { world.new.standing ≡ world.old.standing }
    ensures consistent { Consistent world.new.locks }
{
    let given = world.locks_mut().register(host);
    let _geometry = world.locks().geometry();
    given
}

// Sets the own slot live.
pub(crate) fn set_live<D: Device>(
    world: &mut MetaWorld<D>,
    host: HostNo,
    from: &Slot,
) -> Result<Claim, StepNo>
    requires host { host < world.old.locks.geometry.hosts }
    requires key { key_at world.old.locks host ≢ 0 }
    requires out { (host_at world.old.locks host).joined ≡ false }
    requires stays { (host_at world.old.locks host).freed ≡ false }
    requires slot { IsSlot from.now }
    requires from { MayEnterFrom (key_at world.old.locks host) (claim_of (host_at world.old.locks host) host) from.now }
    requires unneeded { Sure world.old.locks host (λ image. slot_key from.now ≢ 0 → IsUnneeded world.old.locks.geometry image host) }
    ensures did { EntersSlot world.old.locks host from.now result world.new.locks }
    ensures sound { IsSound result world.old.locks }
    ensures others { locks'.Others host world.old.locks world.new.locks }
    ensures standing { world.new.standing ≡ world.old.standing }
    ensures consistent { Consistent world.new.locks }
{
    let done = world.locks_mut().enter(host, from);
    let _geometry = world.locks().geometry();
    done
}
