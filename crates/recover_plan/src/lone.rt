// The plans of a host that is alone: it joins, and recovers another host, without looks. No run has them, so no notes are kept of them.
ghost use Rattle.std.specs.Prelude.{◌≡◌, ◌≢◌, ◌<◌, IfErr, IfOk};
ghost use Rattle.host_facts.specs.Others.{Others};
ghost use Rattle.recover_plan.specs.LoneSteps.{IsRefused, LoneCame, LoneStepped};
ghost use Rattle.recover_plan.specs.Lones.{IsOnWay, LoneAt, entry_by, found_by, found_other, found_own, has_key, on_by};

use crate::join::{ask_key, forget, key, set_live};
use crate::looks::read;
use crate::recover::{free_slot, is_same_live};
use crate::replay::{Going, Replay, step};
use lock_store::{Claim, StepNo};
use meta_world::MetaWorld;
use shared_disk::{Device, DiskNo};
use slot_lock_blocks::Slot;
use std::mem;
use vol_base::{HostNo, Key};
use vol_layout::Kind;

/// What a lone host does next.
#[derive(Drop)]
pub enum Lone {
    /// To join, it asks for a key, and enters its slot from a free one: at first, or once its claim found it free.
    Register,
    Enter,
    EnterAgain,
    /// To recover another host, it reads its slot.
    Find,
    /// The key that the slot shows is recovered, by a first claim or a second one.
    First(Replay),
    Again(Replay),
    /// Nothing is left of this dead key but its slot: another host's is freed, and the own one is entered from the claim.
    Last(Key),
    /// The plan has ended.
    Ended,
}

/// How the plan of a lone host ends: it is joined under this key; the other host is recovered; its slot was free from the start; a slot was
/// found of another host, with this key; or no key was left.
#[derive(Clone, Copy, Debug, PartialEq, Eq)]
pub enum LoneEnd {
    Joined(Key),
    Recovered,
    Free,
    Busy(Key),
    NoKeys,
}

/// The plan of a host that is alone: no other host has one under way. It recovers its own slot to join, and that of another host.
#[derive(Drop)]
pub struct LonePlan {
    pub host: HostNo,
    pub of: HostNo,
    pub stage: Lone,
}

// What a step came to.
#[derive(Drop)]
enum Came {
    More(Lone),
    End(LoneEnd),
}

/// A `join` of a lone host: a slot of its own that recovers is taken over from whatever host recovered it.
pub fn join_at_once(host: HostNo) -> LonePlan
    ensures { result ≡ record { host = host; of = host; stage = Lone.Register } }
{
    LonePlan {
        host,
        of: host,
        stage: Lone::Register,
    }
}

/// The recovery of another host by a lone one.
pub fn recover_at_once(host: HostNo, of: HostNo) -> LonePlan
    ensures { result ≡ record { host = host; of = of; stage = Lone.Find } }
{
    LonePlan {
        host,
        of,
        stage: Lone::Find,
    }
}

impl LonePlan {
    /// One step, which makes one device call: `None` while the plan goes on. A step that was refused leaves it at its end.
    pub fn next<D: Device>(&mut self, world: &mut MetaWorld<D>) -> Result<Option<LoneEnd>, StepNo>
        requires at { LoneAt world.old self.old.host self.old.of self.old.stage }
        ensures stepped { IfOk result (LoneStepped self.old.host self.old.of world.old world.new self.old.stage self.new.stage) }
        ensures refused { IfErr result (IsRefused self.old.host world.old world.new) }
        ensures others { Others self.old.host world.old world.new }
        ensures host { self.new.host ≡ self.old.host }
        ensures of { self.new.of ≡ self.old.of }
    {
        let stage = mem::replace(&mut self.stage, Lone::Ended);
        match call(world, self.host, self.of, stage) {
            Ok(Came::More(later)) => {
                self.stage = later;
                Ok(None)
            }
            Ok(Came::End(end)) => Ok(Some(end)),
            Err(why) => Err(why),
        }
    }
}

// The call of a step.
fn call<D: Device>(
    world: &mut MetaWorld<D>,
    host: HostNo,
    of: HostNo,
    stage: Lone,
) -> Result<Came, StepNo>
    requires at { LoneAt world.old host of stage }
    ensures came { IfOk result (LoneCame host of world.old world.new stage) }
    ensures refused { IfErr result (IsRefused host world.old world.new) }
    ensures others { Others host world.old world.new }
{
    match stage {
        Lone::Register => asks(world, host, of),
        Lone::Enter => enters(world, host, of, false),
        Lone::EnterAgain => enters(world, host, of, true),
        Lone::Find => finds(world, host, of),
        Lone::First(stage) => replays(world, host, of, false, stage),
        Lone::Again(stage) => replays(world, host, of, true, stage),
        Lone::Last(dead) => lasts(world, host, of, dead),
        Lone::Ended => Err(StepNo::NoMemory),
    }
}

// Asks for a key.
fn asks<D: Device>(world: &mut MetaWorld<D>, host: HostNo, of: HostNo) -> Result<Came, StepNo>
    requires at { LoneAt world.old host of Lone.Register }
    ensures came { IfOk result (LoneCame host of world.old world.new Lone.Register) }
    ensures refused { IfErr result (IsRefused host world.old world.new) }
    ensures others { Others host world.old world.new }
{
    let _of = of;
    let _geometry = world.locks().geometry();
    match ask_key(world, host) {
        Ok(_) => Ok(Came::More(Lone::Enter)),
        Err(DiskNo::NoKeys) => Ok(Came::End(LoneEnd::NoKeys)),
        Err(DiskNo::Failed) => Err(StepNo::Failed),
        Err(DiskNo::NoMemory) => Err(StepNo::NoMemory),
        // No key is looked at when one is asked for.
        Err(DiskNo::Fenced) => Err(StepNo::Fenced),
    }
}

// Enters the own slot from a free one.
fn enters<D: Device>(
    world: &mut MetaWorld<D>,
    host: HostNo,
    of: HostNo,
    again: bool,
) -> Result<Came, StepNo>
    requires at { LoneAt world.old host of (entry_by again) }
    ensures came { IfOk result (LoneCame host of world.old world.new (entry_by again)) }
    ensures refused { IfErr result (IsRefused host world.old world.new) }
    ensures others { Others host world.old world.new }
{
    let _of = of;
    let _geometry = world.locks().geometry();
    let own = key(world, host);
    match set_live(world, host, &Slot::Free) {
        Ok(Claim::Claimed) => Ok(Came::End(LoneEnd::Joined(own))),
        Ok(Claim::Found(slot)) => Ok(found_own(again, slot)),
        Err(why) => Err(why),
    }
}

// Reads the slot of another host, but where it is claimed already.
fn finds<D: Device>(world: &mut MetaWorld<D>, host: HostNo, of: HostNo) -> Result<Came, StepNo>
    requires at { LoneAt world.old host of Lone.Find }
    ensures came { IfOk result (LoneCame host of world.old world.new Lone.Find) }
    ensures refused { IfErr result (IsRefused host world.old world.new) }
    ensures others { Others host world.old world.new }
{
    let _geometry = world.locks().geometry();
    let claim = world.locks().host(host).claim(of);
    if claim != 0 {
        return goes_on(world, host, of, Key(claim));
    }
    match read(world, host, of) {
        Ok(slot) => Ok(found_other(slot)),
        Err(why) => Err(why),
    }
}

// Goes on with the claim that the host has in memory.
fn goes_on<D: Device>(
    world: &mut MetaWorld<D>,
    host: HostNo,
    of: HostNo,
    dead: Key,
) -> Result<Came, StepNo>
    requires at { IsOnWay world.old host of (Replay.Journal dead) }
    ensures came { IfOk result (LoneCame host of world.old world.new Lone.Find) }
    ensures refused { IfErr result (IsRefused host world.old world.new) }
    ensures others { Others host world.old world.new }
{
    match replays(world, host, of, false, Replay::Journal(dead)) {
        Ok(came) => Ok(came),
        Err(why) => Err(why),
    }
}

// One step of the recovery of the slot.
fn replays<D: Device>(
    world: &mut MetaWorld<D>,
    host: HostNo,
    of: HostNo,
    again: bool,
    stage: Replay,
) -> Result<Came, StepNo>
    requires at { IsOnWay world.old host of stage }
    ensures came { IfOk result (LoneCame host of world.old world.new (on_by again stage)) }
    ensures refused { IfErr result (IsRefused host world.old world.new) }
    ensures others { Others host world.old world.new }
{
    let _geometry = world.locks().geometry();
    let went = step(world, host, of, stage);
    let _later = world.locks().geometry();
    match went {
        Ok(Going::More(next)) => Ok(Came::More(on(again, next))),
        Ok(Going::Ready(dead)) => Ok(Came::More(Lone::Last(dead))),
        Ok(Going::Found(from, slot)) => {
            let same = is_same_live(&from, &slot);
            Ok(found_by(host == of, again, same, slot))
        }
        Err(why) => Err(why),
    }
}

// Frees the slot of another host, or enters the own one from the claim.
fn lasts<D: Device>(
    world: &mut MetaWorld<D>,
    host: HostNo,
    of: HostNo,
    dead: Key,
) -> Result<Came, StepNo>
    requires at { LoneAt world.old host of (Lone.Last dead) }
    ensures came { IfOk result (LoneCame host of world.old world.new (Lone.Last dead)) }
    ensures refused { IfErr result (IsRefused host world.old world.new) }
    ensures others { Others host world.old world.new }
{
    if host == of {
        retakes(world, host, dead)
    } else {
        frees(world, host, of, dead)
    }
}

fn frees<D: Device>(
    world: &mut MetaWorld<D>,
    host: HostNo,
    of: HostNo,
    dead: Key,
) -> Result<Came, StepNo>
    requires at { LoneAt world.old host of (Lone.Last dead) }
    requires other { of ≢ host }
    ensures came { IfOk result (LoneCame host of world.old world.new (Lone.Last dead)) }
    ensures refused { IfErr result (IsRefused host world.old world.new) }
    ensures others { Others host world.old world.new }
{
    let _dead = dead;
    let _geometry = world.locks().geometry();
    match free_slot(world, host, of) {
        Ok(()) => Ok(Came::End(LoneEnd::Recovered)),
        Err(why) => Err(why),
    }
}

fn retakes<D: Device>(world: &mut MetaWorld<D>, host: HostNo, dead: Key) -> Result<Came, StepNo>
    requires at { LoneAt world.old host host (Lone.Last dead) }
    ensures came { IfOk result (LoneCame host host world.old world.new (Lone.Last dead)) }
    ensures refused { IfErr result (IsRefused host world.old world.new) }
    ensures others { Others host world.old world.new }
{
    let place = world.locks().geometry().place(Kind::Slot(host));
    let own = key(world, host);
    match set_live(world, host, &Slot::Recovering { key: dead, by: own }) {
        Ok(Claim::Claimed) => Ok(Came::End(LoneEnd::Joined(own))),
        // Only a device that tells nothing shows another slot than the own claim.
        Ok(Claim::Found(_)) => {
            forget(world, host);
            Err(StepNo::Bad(place))
        }
        Err(why) => Err(why),
    }
}

fn on(again: bool, stage: Replay) -> Lone
    ensures { result ≡ on_by again stage }
{
    if again {
        Lone::Again(stage)
    } else {
        Lone::First(stage)
    }
}

// What comes of a slot that a try of the own free one found: at first its key is recovered.
fn found_own(again: bool, slot: Slot) -> Came
    ensures { result ≡ found_own again slot }
{
    if again {
        Came::End(LoneEnd::Busy(key_of(&slot)))
    } else {
        Came::More(Lone::First(Replay::Fence(slot)))
    }
}

// What comes of the slot of another host that was read.
fn found_other(slot: Slot) -> Came
    ensures { result ≡ found_other slot }
{
    match slot {
        Slot::Free => Came::End(LoneEnd::Free),
        Slot::Live { .. } | Slot::Recovering { .. } => Came::More(Lone::First(Replay::Fence(slot))),
    }
}

// What comes of a slot that a claim found.
fn found_by(own: bool, again: bool, same: bool, slot: Slot) -> Came
    ensures { result ≡ found_by own again same slot }
{
    match slot {
        Slot::Free if own => Came::More(Lone::EnterAgain),
        Slot::Free => Came::End(LoneEnd::Free),
        Slot::Live { .. } if !own && !again && same => Came::More(Lone::Again(Replay::Claim(slot))),
        Slot::Live { .. } | Slot::Recovering { .. } => Came::End(LoneEnd::Busy(key_of(&slot))),
    }
}

// The key of the host that has a slot.
fn key_of(slot: &Slot) -> Key
    ensures { result ≡ has_key slot.now }
{
    match *slot {
        Slot::Free => Key(0),
        Slot::Live { key, .. } => key,
        Slot::Recovering { by, .. } => by,
    }
}
