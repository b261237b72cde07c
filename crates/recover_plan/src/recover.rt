// The recovery of another host.
ghost use Rattle.std.specs.Prelude.{◌≡◌, ◌≢◌, ◌+◌, ◌≤◌, ◌<◌, ◌↔◌, ℕ, None, IfErr, IfOk, IsTrue};
ghost use Rattle.disk_locks.specs.Calls.{FreesSlot, IsFreed, IsSound};
ghost use Rattle.disk_locks.specs.Consistent.{Consistent};
ghost use Rattle.disk_locks.specs.Freeing.{IsUnneeded, MayFreeSlot};
ghost use Rattle.disk_locks.specs.Others as locks';
ghost use Rattle.disk_locks.specs.Sure.{Sure};
ghost use Rattle.host_facts.specs.Facts.{locks_of};
ghost use Rattle.host_facts.specs.Others.{Others};
ghost use Rattle.lock_store.specs.Views.{host_at, key_at};
ghost use Rattle.host_runs.specs.Notes.{Notes};
ghost use Rattle.plan_parts.specs.Cuts.{IsCutBy};
ghost use Rattle.watch.specs.Looks.{IsLook, count_of, look_at};
ghost use Rattle.recover_plan.specs.Plans.{Agrees, Came, PlanStands};
ghost use Rattle.recover_plan.specs.Stages.{steps_left};
ghost use Rattle.recover_plan.specs.Recoveries.{FoundTo, IsSameLive, RecoverTo, found_answer, recovery};

use crate::plan::{Come, Doing};
use crate::replay::{Going, Replay, shown, step};
use lock_store::StepNo;
use meta_world::MetaWorld;
use shared_disk::Device;
use slot_lock_blocks::Slot;
use vol_base::{Answer, Command, HostNo, Key};
use watch::Watch;

/// One step of a recovery, by the first claim or the second one.
pub(crate) fn recovers<D: Device>(
    world: &mut MetaWorld<D>,
    watch: &mut Watch,
    host: HostNo,
    of: HostNo,
    again: bool,
    stage: Replay,
) -> Result<Come, StepNo>
    requires stands { PlanStands world.old host watch.old (recovery of again stage) }
    ensures came { IfOk result (Came host world.old world.new watch.old watch.new (recovery of again stage)) }
    ensures cut { IfErr result (λ why. IsCutBy (Command.Recover of) host world.old world.new why (Agrees host world.old watch.old (recovery of again stage))) }
    ensures others { Others host world.old world.new }
{
    let _geometry = world.locks().geometry();
    let went = step(world, host, of, stage);
    let _later = world.locks().geometry();
    match went {
        Ok(going) => Ok(behind(watch, of, again, going)),
        Err(why) => Err(why),
    }
}

/// The first step of a `recover`: a host that was seen less than three times may be alive.
pub(crate) fn begin<D: Device>(
    world: &mut MetaWorld<D>,
    watch: &mut Watch,
    host: HostNo,
    of: HostNo,
) -> Result<Come, StepNo>
    requires stands { PlanStands world.old host watch.old (Doing.Begin of) }
    ensures came { IfOk result (Came host world.old world.new watch.old watch.new (Doing.Begin of)) }
    ensures cut { IfErr result (λ why. IsCutBy (Command.Recover of) host world.old world.new why (Agrees host world.old watch.old (Doing.Begin of))) }
    ensures thrice { IfErr result (λ why. 3 ≤ count_of (look_at watch.old of)) }
    ensures others { Others host world.old world.new }
{
    let _geometry = world.locks().geometry();
    let count = watch.count(of);
    if count < 3 {
        return Ok(Come::Uncalled(Answer::Alive(count)));
    }
    let claim = world.locks().host(host).claim(of);
    if claim != 0 {
        return begin_with(world, watch, host, of, Replay::Journal(Key(claim)));
    }
    let slot = watch.seen(of).unwrap();
    begin_with(world, watch, host, of, Replay::Fence(slot))
}

// Begins at a stage with which the notes agree.
fn begin_with<D: Device>(
    world: &mut MetaWorld<D>,
    watch: &mut Watch,
    host: HostNo,
    of: HostNo,
    stage: Replay,
) -> Result<Come, StepNo>
    requires stands { PlanStands world.old host watch.old (Doing.First of stage) }
    requires agrees { (n : Notes) → Agrees host world.old watch.old (Doing.Begin of) n → Agrees host world.old watch.old (Doing.First of stage) n }
    requires most { steps_left world.old.locks.geometry stage ≤ locks_of world.old.locks.geometry + 21 }
    ensures came { IfOk result (Came host world.old world.new watch.old watch.new (Doing.Begin of)) }
    ensures cut { IfErr result (λ why. IsCutBy (Command.Recover of) host world.old world.new why (Agrees host world.old watch.old (Doing.Begin of))) }
    ensures others { Others host world.old world.new }
{
    match recovers(world, watch, host, of, false, stage) {
        Ok(come) => Ok(come),
        Err(why) => Err(why),
    }
}

/// Frees the slot of a dead host that holds nothing any more, and forgets it.
pub(crate) fn free<D: Device>(
    world: &mut MetaWorld<D>,
    watch: &mut Watch,
    host: HostNo,
    of: HostNo,
    dead: Key,
) -> Result<Come, StepNo>
    requires stands { PlanStands world.old host watch.old (Doing.Free of dead) }
    ensures came { IfOk result (Came host world.old world.new watch.old watch.new (Doing.Free of dead)) }
    ensures cut { IfErr result (λ why. IsCutBy (Command.Recover of) host world.old world.new why (Agrees host world.old watch.old (Doing.Free of dead))) }
    ensures others { Others host world.old world.new }
{
    let _dead = dead;
    let _geometry = world.locks().geometry();
    match free_slot(world, host, of) {
        Ok(()) => {
            watch.forget(of);
            Ok(Come::Answered(Answer::Recovered))
        }
        Err(why) => Err(why),
    }
}

// Frees a slot.
pub(crate) fn free_slot<D: Device>(
    world: &mut MetaWorld<D>,
    host: HostNo,
    of: HostNo,
) -> Result<(), StepNo>
    requires host { host < world.old.locks.geometry.hosts }
    requires key { key_at world.old.locks host ≢ 0 }
    requires of { of < world.old.locks.geometry.hosts }
    requires may { MayFreeSlot world.old.locks.geometry of host (host_at world.old.locks host) }
    requires unneeded { Sure world.old.locks host (λ image. IsUnneeded world.old.locks.geometry image of) }
    ensures did { FreesSlot world.old.locks host of result world.new.locks }
    ensures freed { IsFreed world.old.locks host of result world.new.locks }
    ensures sound { IsSound result world.old.locks }
    ensures others { locks'.Others host world.old.locks world.new.locks }
    ensures standing { world.new.standing ≡ world.old.standing }
    ensures consistent { Consistent world.new.locks }
{
    let done = world.locks_mut().free_slot(host, of);
    let _geometry = world.locks().geometry();
    done
}

// What comes next.
fn behind(watch: &mut Watch, of: HostNo, again: bool, going: Going) -> Come
    requires of { of < 16 }
    ensures { RecoverTo of again going watch.old watch.new result }
{
    match going {
        Going::More(stage) => Come::More(on(of, again, stage)),
        Going::Ready(dead) => Come::More(Doing::Free(of, dead)),
        Going::Found(from, found) => found_slot(watch, of, again, from, found),
    }
}

fn on(of: HostNo, again: bool, stage: Replay) -> Doing
    ensures { result ≡ recovery of again stage }
{
    if again {
        Doing::Again(of, stage)
    } else {
        Doing::First(of, stage)
    }
}

// What comes of a slot that a claim found.
fn found_slot(watch: &mut Watch, of: HostNo, again: bool, from: Slot, found: Slot) -> Come
    requires of { of < 16 }
    ensures { FoundTo of from found watch.old watch.new again result }
{
    if again {
        return remembered(watch, of, &found);
    }
    if is_same_live(&from, &found) {
        return Come::More(Doing::Again(of, Replay::Claim(found)));
    }
    remembered(watch, of, &found)
}

// Remembers the slot as seen once, and answers what it says.
fn remembered(watch: &mut Watch, of: HostNo, found: &Slot) -> Come
    requires of { of < 16 }
    ensures answer { result ≡ found_answer found.now }
    ensures kept { (k : ℕ) → k ≢ of → look_at watch.new k ≡ look_at watch.old k }
    ensures looked { IsLook found.now None (look_at watch.new of) }
{
    watch.forget(of);
    watch.look(of, found);
    answer(found)
}

// Whether the slot is live with the key that the claim was made from.
pub(crate) fn is_same_live(from: &Slot, found: &Slot) -> bool
    ensures { IsTrue result ↔ IsSameLive from.now found.now }
{
    match *found {
        Slot::Live { key, .. } => shown(from).0 == key.0,
        Slot::Free | Slot::Recovering { .. } => false,
    }
}

// What is answered of a slot that a claim found.
fn answer(found: &Slot) -> Come
    ensures { result ≡ found_answer found.now }
{
    match *found {
        Slot::Free => Come::Answered(Answer::Free),
        Slot::Live { .. } => Come::Answered(Answer::Alive(1)),
        Slot::Recovering { by, .. } => Come::Answered(Answer::Busy(by)),
    }
}
