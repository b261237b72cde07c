// A host's key and its own slot.
ghost use Rattle.std.specs.Prelude.{◌≡◌, ◌≢◌, ◌<◌, ◌↔◌, Err, false, true};
ghost use Rattle.disk_locks.specs.Calls.{Beats, EntersSlot, IsSound, entry_use};
ghost use Rattle.disk_locks.specs.Freeing.{IsUnneeded, MayEnterFrom};
ghost use Rattle.disk_locks.specs.Others.{Others};
ghost use Rattle.disk_locks.specs.Sure.{Sure};
ghost use Rattle.lock_store.specs.Calls.{FencesKey, RegistersHost};
ghost use Rattle.lock_store.specs.Memories.{claim_of};
ghost use Rattle.lock_store.specs.SlotTries.{ReadsSlot};
ghost use Rattle.lock_store.specs.Views.{counter_of, host_at, key_at};
ghost use Rattle.shared_disk.specs.Calls.{last_counter};
ghost use Rattle.slot_lock_blocks.specs.Slots.{IsSlot, slot_key};

use crate::locks::Locks;
use lock_store::{Claim, SlotUse, StepNo};
use shared_disk::{Device, DiskNo};
use slot_lock_blocks::{Slot, write_slot};
use vol_base::{HostNo, Key};
use vol_layout::Kind;

impl<D: Device> Locks<D> {
    /// Gives the host a key; it is not yet joined. At a refusal the host has no key.
    pub fn register(&mut self, host: HostNo) -> Result<Key, DiskNo>
        requires host { host < self.old.geometry.hosts }
        requires none { key_at self.old host ≡ 0 }
        ensures did { RegistersHost self.old host result self.new }
        ensures fenced { result ≢ Err DiskNo.Fenced }
        ensures no_keys { (result ≡ Err DiskNo.NoKeys) ↔ (counter_of self.old ≡ last_counter) }
        ensures others { Others host self.old self.new }
    {
        let _memory = self.me(host);
        let given = self.store.register(host);
        self.store.known();
        given
    }

    /// Takes a key off the device; one that is not registered is no fault.
    pub fn fence(&mut self, host: HostNo, target: Key) -> Result<(), StepNo>
        requires host { host < self.old.geometry.hosts }
        requires key { key_at self.old host ≢ 0 }
        ensures did { FencesKey self.old host target result self.new }
        ensures others { Others host self.old self.new }
    {
        let key = self.key(host);
        let fenced = self.store.fence(host, key, target);
        self.store.known();
        fenced
    }

    /// Reads the slot of a host.
    pub fn read_slot_of(&mut self, host: HostNo, of: HostNo) -> Result<Slot, StepNo>
        requires host { host < self.old.geometry.hosts }
        requires key { key_at self.old host ≢ 0 }
        requires of { of < self.old.geometry.hosts }
        ensures did { ReadsSlot self.old host of result self.new }
        ensures sound { IsSound result self.old }
        ensures others { Others host self.old self.new }
    {
        let key = self.key(host);
        let slot = self.store.read_slot(host, key, of);
        self.store.known();
        slot
    }

    /// Enters the own slot, from a free one or from the own claim, and shows beat 0 there. Then the host is joined.
    pub fn enter(&mut self, host: HostNo, from: &Slot) -> Result<Claim, StepNo>
        requires host { host < self.old.geometry.hosts }
        requires key { key_at self.old host ≢ 0 }
        requires out { (host_at self.old host).joined ≡ false }
        requires stays { (host_at self.old host).freed ≡ false }
        requires slot { IsSlot from.now }
        requires from { MayEnterFrom (key_at self.old host) (claim_of (host_at self.old host) host) from.now }
        requires unneeded { Sure self.old host (λ image. slot_key from.now ≢ 0 → IsUnneeded self.old.geometry image host) }
        ensures did { EntersSlot self.old host from.now result self.new }
        ensures sound { IsSound result self.old }
        ensures others { Others host self.old self.new }
    {
        let key = self.key(host);
        let after = self.me(host).entered(host);
        let to = Slot::Live { key, beat: 0 };
        let entered = self
            .store
            .try_slot(host, key, host, entry_use(from), from, &to, &after);
        self.store.known();
        entered
    }

    /// Shows the next beat in the own slot; a beat of `u64::MAX` stays.
    pub fn beat(&mut self, host: HostNo) -> Result<(), StepNo>
        requires host { host < self.old.geometry.hosts }
        requires joined { (host_at self.old host).joined ≡ true }
        ensures did { Beats self.old host result self.new }
        ensures others { Others host self.old self.new }
    {
        let beat = self.me(host).beat.saturating_add(1);
        let after = self.me(host).with_beat(beat);
        let key = self.key(host);
        let block = write_slot(&Slot::Live { key, beat });
        let shown = self
            .store
            .write(host, key, Kind::Slot(host), &block, &after);
        self.store.known();
        shown
    }
}

// What the own slot is seen for when it is entered from this one.
fn entry_use(from: &Slot) -> SlotUse
    ensures { result ≡ entry_use from.now }
{
    match *from {
        Slot::Free | Slot::Live { .. } => SlotUse::Take,
        Slot::Recovering { .. } => SlotUse::Retake,
    }
}
