// Claims of slots, and the freeing of what dead hosts left.
ghost use Rattle.std.specs.Prelude.{◌≡◌, ◌≢◌, ◌<◌, ℕ, false};
ghost use Rattle.disk_locks.specs.Calls.{ClaimsSlot, ClearsLock, ClearsSlot, FreesLock, FreesSlot, IsFreed, IsSound, freeing, slot_of};
ghost use Rattle.disk_locks.specs.Freeing.{IsOut, IsUnneeded, MayFreeSlot, UneditedBy};
ghost use Rattle.disk_locks.specs.Others.{Others};
ghost use Rattle.disk_locks.specs.Sure.{Sure};
ghost use Rattle.lock_store.specs.Memories.{claim_of, key_of};
ghost use Rattle.lock_store.specs.Views.{LocksView, host_at, key_at, keys_of};
ghost use Rattle.slot_lock_blocks.specs.Keys.{IsKey};
ghost use Rattle.slot_lock_blocks.specs.Slots.{IsSlot, slot_key};
ghost use Rattle.vol_layout.specs.declared.kind.Resource.{Resource};
ghost use Rattle.vol_layout.specs.Ranges.{HasResource};

use crate::locks::Locks;
use lock_store::{Claim, HostState, Purpose, SlotUse, StepNo, Took};
use shared_disk::Device;
use slot_lock_blocks::{LockWord, Slot};
use vol_base::{HostNo, Key};
use vol_layout::Resource;

impl<D: Device> Locks<D> {
    /// Claims the slot of a host whose key is off: the slot is recovering by this host then.
    pub fn claim_slot(&mut self, host: HostNo, of: HostNo, from: &Slot) -> Result<Claim, StepNo>
        requires host { host < self.old.geometry.hosts }
        requires key { key_at self.old host ≢ 0 }
        requires of { of < self.old.geometry.hosts }
        requires own { of ≡ host → (host_at self.old host).joined ≡ false }
        requires slot { IsSlot from.now }
        requires some { slot_key from.now ≢ 0 }
        requires fenced { Sure self.old host (λ image. IsOut (keys_of self.old) from.now) }
        ensures did { ClaimsSlot self.old host of from.now result self.new }
        ensures sound { IsSound result self.old }
        ensures others { Others host self.old self.new }
    {
        let key = self.key(host);
        let dead = shown(from);
        let after = self.me(host).with_claim(of, dead.0);
        let to = Slot::Recovering { key: dead, by: key };
        let claimed = self
            .store
            .try_slot(host, key, of, SlotUse::Take, from, &to, &after);
        self.store.known();
        claimed
    }

    /// Frees a lock that is held by the dead key which a claimed slot shows. Another word there is left as it is.
    pub fn free_lock_of(&mut self, host: HostNo, dead: Key, what: Resource) -> Result<(), StepNo>
        requires host { host < self.old.geometry.hosts }
        requires key { key_at self.old host ≢ 0 }
        requires what { HasResource self.old.geometry what }
        requires some { IsKey dead.0 }
        requires claimed { (y : ℕ) × (y < self.old.geometry.hosts) × (claim_of (host_at self.old host) y ≡ dead.0) }
        requires unedited { Sure self.old host (UneditedBy self.old.geometry what dead.0) }
        ensures did { FreesLock self.old host dead.0 what result self.new }
        ensures sound { IsSound result self.old }
        ensures others { Others host self.old self.new }
    {
        let key = self.key(host);
        let memory = *self.me(host);
        let from = LockWord::Held(dead);
        let tried = self.store.try_lock(
            host,
            key,
            what,
            Purpose::Clear,
            &from,
            &LockWord::Free,
            &memory,
        );
        self.store.known();
        cleared(tried)
    }

    /// Frees a slot that the host claimed, or its own one, which it leaves. Another slot there is left as it is, which never comes
    /// where the device tells its content.
    pub fn free_slot(&mut self, host: HostNo, of: HostNo) -> Result<(), StepNo>
        requires host { host < self.old.geometry.hosts }
        requires key { key_at self.old host ≢ 0 }
        requires of { of < self.old.geometry.hosts }
        requires may { MayFreeSlot self.old.geometry of host (host_at self.old host) }
        requires unneeded { Sure self.old host (λ image. IsUnneeded self.old.geometry image of) }
        ensures did { FreesSlot self.old host of result self.new }
        ensures freed { IsFreed self.old host of result self.new }
        ensures sound { IsSound result self.old }
        ensures others { Others host self.old self.new }
    {
        let key = self.key(host);
        let from = slot_of(self.me(host), of, key);
        let after = freeing(self.me(host), of);
        let tried = self
            .store
            .try_slot(host, key, of, SlotUse::Clear, &from, &Slot::Free, &after);
        self.store.known();
        left(tried)
    }
}

// The key that a slot shows, which is not free.
fn shown(slot: &Slot) -> Key
    requires { slot_key slot.now ≢ 0 }
    ensures { result.0 ≡ slot_key slot.now }
{
    match *slot {
        Slot::Free => Key(0),
        Slot::Live { key, .. } | Slot::Recovering { key, .. } => key,
    }
}

// The slot as a host with this key knows it.
fn slot_of(memory: &HostState, of: HostNo, key: Key) -> Slot
    requires of { of < 16 }
    requires key { key_of memory.now ≡ key.0 }
    ensures { result ≡ slot_of memory.now of }
{
    match memory.claim(of) {
        0 => Slot::Live {
            key,
            beat: memory.beat,
        },
        dead => Slot::Recovering {
            key: Key(dead),
            by: key,
        },
    }
}

// What the host has in memory once the slot is free.
fn freeing(memory: &HostState, of: HostNo) -> HostState
    requires { of < 16 }
    ensures { result ≡ freeing of memory.now }
{
    if memory.claim(of) == 0 {
        memory.left()
    } else {
        memory.with_claim(of, 0)
    }
}

// Of a try that clears a lock it is not told whether another word stood there.
fn cleared(tried: Result<Took, StepNo>) -> Result<(), StepNo>
    ensures { (v w : LocksView) (h dead : ℕ) (r : Resource) → ClearsLock v h dead r tried w → FreesLock v h dead r result w }
{
    match tried {
        Ok(_) => Ok(()),
        Err(why) => Err(why),
    }
}

// The same of a slot.
fn left(tried: Result<Claim, StepNo>) -> Result<(), StepNo>
    ensures { (v w : LocksView) (h y : ℕ) → ClearsSlot v h y tried w → FreesSlot v h y result w }
{
    match tried {
        Ok(_) => Ok(()),
        Err(why) => Err(why),
    }
}
