// A beat, and a look at the slot of another host.
ghost use Rattle.std.specs.Prelude.{◌≡◌, ◌≢◌, ◌<◌, IfErr, IfOk, List, Option, true};
ghost use Rattle.disk_locks.specs.Calls.{Beats, IsSound};
ghost use Rattle.disk_locks.specs.Consistent.{Consistent};
ghost use Rattle.disk_locks.specs.Others as locks';
ghost use Rattle.host_facts.specs.Others.{Others};
ghost use Rattle.lock_store.specs.SlotTries.{ReadsSlot};
ghost use Rattle.lock_store.specs.Views.{host_at, key_at};
ghost use Rattle.plan_parts.specs.Cuts.{IsCut, IsCutBy};
ghost use Rattle.plan_parts.specs.Steps.{IsReady};
ghost use Rattle.recover_plan.specs.KnownTables.{KeepsTables};
ghost use Rattle.recover_plan.specs.PlanSteps.{AreWatched, OpenNoted, OwesAnswer, RestsWith};
ghost use Rattle.recover_plan.specs.Plans.{Agrees, Came, PlanStands};
ghost use Rattle.recover_plan.specs.SlotTurns.{look_answer};
ghost use Rattle.watch.specs.declared.watch.Look.{Look};

use crate::plan::{Come, Doing};
use lock_store::StepNo;
use meta_world::MetaWorld;
use shared_disk::Device;
use slot_lock_blocks::Slot;
use vol_base::{Answer, Command, HostNo};
use watch::Watch;

/// The one step of a `beat`.
pub(crate) fn beats<D: Device>(
    world: &mut MetaWorld<D>,
    watch: &Watch,
    host: HostNo,
) -> Result<Come, StepNo>
    requires stands { PlanStands world.old host watch.now Doing.Beat }
    ensures came { IfOk result (Came host world.old world.new watch.now watch.now Doing.Beat) }
    ensures cut { IfErr result (λ why. IsCutBy Command.Beat host world.old world.new why (Agrees host world.old watch.now Doing.Beat)) }
    ensures others { Others host world.old world.new }
{
    let _watch = watch;
    match beat(world, host) {
        Ok(()) => Ok(Come::Answered(Answer::Fine)),
        Err(why) => Err(why),
    }
}

/// The one step of a `look`.
pub(crate) fn looks<D: Device>(
    world: &mut MetaWorld<D>,
    watch: &mut Watch,
    host: HostNo,
    of: HostNo,
) -> Result<Come, StepNo>
    requires stands { PlanStands world.old host watch.old (Doing.Look of) }
    ensures came { IfOk result (Came host world.old world.new watch.old watch.new (Doing.Look of)) }
    ensures cut { IfErr result (λ why. IsCutBy (Command.Look of) host world.old world.new why (Agrees host world.old watch.old (Doing.Look of))) }
    ensures others { Others host world.old world.new }
{
    match look(world, watch, host, of) {
        Ok(answer) => Ok(Come::Answered(answer)),
        Err(why) => Err(why),
    }
}

// Shows the next beat in the own slot.
fn beat<D: Device>(world: &mut MetaWorld<D>, host: HostNo) -> Result<(), StepNo>
    requires host { host < world.old.locks.geometry.hosts }
    requires ready { IsReady world.old host }
    ensures owes { IfOk result (λ u. (watch : List (Option Look)) → OwesAnswer Command.Beat host world.old world.new Answer.Fine (OpenNoted Command.Beat host world.old watch) (RestsWith host world.new watch)) }
    ensures watched { IfOk result (λ u. (watch : List (Option Look)) → AreWatched world.old host watch → AreWatched world.new host watch) }
    ensures tables { IfOk result (λ u. KeepsTables host world.old world.new) }
    ensures cut { IfErr result (λ why. IsCutBy Command.Beat host world.old world.new why (λ n. Unit {0})) }
    ensures others { Others host world.old world.new }
{
    let _geometry = world.locks().geometry();
    match show_beat(world, host) {
        Ok(()) => Ok(()),
        Err(why) => Err(why),
    }
}

// Reads the slot of another host, which is then remembered as it was seen.
fn look<D: Device>(
    world: &mut MetaWorld<D>,
    watch: &mut Watch,
    host: HostNo,
    of: HostNo,
) -> Result<Answer, StepNo>
    requires host { host < world.old.locks.geometry.hosts }
    requires of { of < world.old.locks.geometry.hosts }
    requires ready { IsReady world.old host }
    requires watched { AreWatched world.old host watch.old }
    ensures owes { IfOk result (λ answer. OwesAnswer (Command.Look of) host world.old world.new answer (OpenNoted (Command.Look of) host world.old watch.old) (RestsWith host world.new watch.new)) }
    ensures watched { IfOk result (λ answer. AreWatched world.new host watch.new) }
    ensures tables { IfOk result (λ answer. KeepsTables host world.old world.new) }
    ensures cut { IfErr result (IsCut host world.old world.new) }
    ensures others { Others host world.old world.new }
{
    let _geometry = world.locks().geometry();
    match read(world, host, of) {
        Ok(slot) => Ok(answer(&slot, watch.look(of, &slot))),
        Err(why) => Err(why),
    }
}

// What a look answers.
fn answer(slot: &Slot, count: u32) -> Answer
    ensures { result ≡ look_answer slot.now count }
{
    match *slot {
        Slot::Free => Answer::Free,
        Slot::Live { .. } | Slot::Recovering { .. } => Answer::Seen(count),
    }
}

// Writes the slot.
fn show_beat<D: Device>(world: &mut MetaWorld<D>, host: HostNo) -> Result<(), StepNo>
    requires host { host < world.old.locks.geometry.hosts }
    requires joined { (host_at world.old.locks host).joined ≡ true }
    ensures did { Beats world.old.locks host result world.new.locks }
    ensures others { locks'.Others host world.old.locks world.new.locks }
    ensures standing { world.new.standing ≡ world.old.standing }
    ensures consistent { Consistent world.new.locks }
{
    let done = world.locks_mut().beat(host);
    let _geometry = world.locks().geometry();
    done
}

// Reads a slot.
pub(crate) fn read<D: Device>(
    world: &mut MetaWorld<D>,
    host: HostNo,
    of: HostNo,
) -> Result<Slot, StepNo>
    requires host { host < world.old.locks.geometry.hosts }
    requires of { of < world.old.locks.geometry.hosts }
    requires key { key_at world.old.locks host ≢ 0 }
    ensures did { ReadsSlot world.old.locks host of result world.new.locks }
    ensures sound { IsSound result world.old.locks }
    ensures others { locks'.Others host world.old.locks world.new.locks }
    ensures standing { world.new.standing ≡ world.old.standing }
    ensures consistent { Consistent world.new.locks }
{
    let slot = world.locks_mut().read_slot_of(host, of);
    let _geometry = world.locks().geometry();
    slot
}
