// A device over a store.
ghost use Rattle.std.specs.Prelude.{◌≡◌, ◌≢◌, ◌+◌, ◌-◌, ◌*◌, ◌/◌, ◌^◌, ◌<◌, ◌≤◌, ◌↔◌, ℕ, All, false, IsSome, IsTrue, length, vec_capacity, vec_len};
ghost use Rattle.std.specs.Option.{ForSome};
ghost use Rattle.shared_disk.specs.Calls.{last_counter};

use crate::store::{BLOCKS, Store};
use shared_disk::{Device, DiskNo, LAST_COUNTER, Tested};
use std::alloc::Global;
use std::io;
use vol_base::{Block, HostNo, Key, NoMemory};

// So many keys are registered without a call for memory.
pub(crate) const KEYS: usize = 16_400;

/// A device of `BLOCKS` blocks over a store. It tells of its content what the store tells. Each
/// failed call of the store is a fault, and the reason of the last one is kept.
#[derive(Drop)]
pub struct StoredDisk<S: Store> {
    store: S,
    // The registered keys' numbers.
    keys: Vec<u64>,
    counter: u64,
    calls: u64,
    faults: u64,
    reason: Option<io::Error>,
    ghost reached: { All (λ key. key / 16 ≤ counter) keys.items },
    ghost named: { All (λ key. 0 < key) keys.items },
    ghost fits: { counter < 2 ^ 59 },
    ghost roomy: { 16400 ≤ vec_capacity keys },
    ghost kept: { ForSome (S.kept store) (λ kept. kept ≡ counter) },
    ghost closed_keys: { S.is_open store ≡ false → vec_len keys ≡ 0 },
    ghost closed_counter: { S.is_open store ≡ false → counter ≡ 0 },
    ghost known: { IsSome reason ↔ (0 < faults) },
}

impl<S: Store> StoredDisk<S> {
    ghost use Rattle.std.specs.Prelude.{◌⊎◌, [], Contains, IfErr, IfOk, OnErr, OnOk};
    ghost use Rattle.file_disk.specs.StoredDisk.{NotesFailure, fresh, keyed_of, room_of, state_of, with_call, with_fault, without_key};
    ghost use Rattle.shared_disk.specs.Calls.{after_register, after_write, next_key};
    ghost use Rattle.shared_disk.specs.State.{Stands};
    ghost use Rattle.vol_base.specs.Faults.{Rose};

    /// A device over this store, which has this counter. No key is registered.
    pub fn over(alloc: Global, store: S, counter: u64) -> Result<StoredDisk<S>, NoMemory>
        requires fits { counter < 2 ^ 59 }
        requires kept { ForSome (S.kept store) (λ kept. kept ≡ counter) }
        requires closed { S.is_open store ≡ false → counter ≡ 0 }
        ensures { IfOk result (λ d. keyed_of d ≡ fresh store counter) }
    {
        let keys = Vec::with_capacity(alloc, KEYS)?;
        Ok(StoredDisk::with_keys(keys, store, counter))
    }

    // The room for keys is taken already.
    pub(crate) fn with_keys(keys: Vec<u64>, store: S, counter: u64) -> StoredDisk<S>
        requires room { 16400 ≤ vec_capacity keys }
        requires empty { keys.items ≡ [] }
        requires fits { counter < 2 ^ 59 }
        requires kept { ForSome (S.kept store) (λ kept. kept ≡ counter) }
        requires closed { S.is_open store ≡ false → counter ≡ 0 }
        ensures { keyed_of result ≡ fresh store counter }
    {
        StoredDisk {
            store,
            keys,
            counter,
            calls: 0,
            faults: 0,
            reason: None,
        }
    }

    /// Why the last failed call of the device failed: what the store answered then. Before a call failed
    /// there is nothing to tell.
    pub fn reason(&self) -> Option<io::Error>
        ensures reason { result ≡ (keyed_of self.now).reason }
        ensures known { IsSome result ↔ (0 < (keyed_of self.now).faults) }
    {
        self.reason
    }

    fn count_call(&mut self)
        ensures { keyed_of self.new ≡ with_call (keyed_of self.old) }
    {
        self.calls = self.calls.saturating_add(1);
    }

    // Counts a fault, and keeps why it came.
    fn fail(&mut self, reason: io::Error) -> DiskNo
        ensures refusal { result ≡ DiskNo.Failed }
        ensures keyed { keyed_of self.new ≡ with_fault (Some reason) (keyed_of self.old) }
        ensures rose { Rose (keyed_of self.old).faults (keyed_of self.new).faults }
        ensures later { (keyed_of self.old).faults ≤ (keyed_of self.new).faults }
    {
        self.faults = self.faults.saturating_add(1);
        self.reason = Some(reason);
        DiskNo::Failed
    }

    // What each call under a key does first.
    fn admit(&mut self, key: Key) -> Result<(), DiskNo>
        ensures keyed { keyed_of self.new ≡ with_call (keyed_of self.old) }
        ensures fenced { (result ≡ Err DiskNo.Fenced) ↔ (Contains (keyed_of self.old).keys key.0 → ⊥) }
        ensures registered { OnOk result (Contains (keyed_of self.old).keys key.0) }
        ensures only { IfErr result (λ refusal. refusal ≡ DiskNo.Fenced) }
    {
        self.count_call();
        if self.keys.contains(&key.0) {
            Ok(())
        } else {
            Err(DiskNo::Fenced)
        }
    }

    fn load(&mut self, place: u64) -> Result<Block, DiskNo>
        requires { place < BLOCKS }
        ensures block { IfOk result (λ block. Stands (state_of S.told (keyed_of self.old)) place block.0) }
        ensures ok { OnOk result (keyed_of self.new ≡ keyed_of self.old) }
        ensures err { OnErr result (keyed_of self.new ≡ with_fault (keyed_of self.new).reason (keyed_of self.old)) }
        ensures only { IfErr result (λ refusal. refusal ≡ DiskNo.Failed) }
        ensures faults { NotesFailure (keyed_of self.old) (keyed_of self.new) result }
        ensures failed { OnErr result (Rose (keyed_of self.old).faults (keyed_of self.new).faults) }
        ensures later { (keyed_of self.old).faults ≤ (keyed_of self.new).faults }
    {
        match self.store.block(place) {
            Ok(block) => Ok(block),
            Err(reason) => Err(self.fail(reason)),
        }
    }

    fn save(&mut self, place: u64, block: &Block) -> Result<(), DiskNo>
        requires { place < BLOCKS }
        ensures ok { OnOk result (state_of S.told (keyed_of self.new) ≡ after_write place block.now.0 (state_of S.told (keyed_of self.old))) }
        ensures err { OnErr result (state_of S.told (keyed_of self.new) ≡ state_of S.told (keyed_of self.old)) }
        ensures only { IfErr result (λ refusal. refusal ≡ DiskNo.Failed) }
        ensures faults { NotesFailure (keyed_of self.old) (keyed_of self.new) result }
        ensures failed { OnErr result (Rose (keyed_of self.old).faults (keyed_of self.new).faults) }
        ensures later { (keyed_of self.old).faults ≤ (keyed_of self.new).faults }
        ensures count { (keyed_of self.new).answered ≡ (keyed_of self.old).answered }
    {
        match self.store.set_block(place, block) {
            Ok(()) => Ok(()),
            Err(reason) => Err(self.fail(reason)),
        }
    }

    // Raises the counter and registers the host's key.
    fn add_key(&mut self, host: HostNo) -> Result<Key, DiskNo>
        requires host { host < 16 }
        requires counter { (keyed_of self.old).counter < last_counter }
        ensures key { IfOk result (λ key. key.0 ≡ next_key host (state_of S.told (keyed_of self.old))) }
        ensures ok { OnOk result (state_of S.told (keyed_of self.new) ≡ after_register host (state_of S.told (keyed_of self.old))) }
        ensures err { OnErr result (state_of S.told (keyed_of self.new) ≡ state_of S.told (keyed_of self.old)) }
        ensures only { IfErr result (λ refusal. (refusal ≡ DiskNo.Failed) ⊎ (refusal ≡ DiskNo.NoMemory)) }
        ensures memory { result ≡ Err DiskNo.NoMemory → room_of (keyed_of self.old) ≡ 0 }
        ensures closed { S.is_open (keyed_of self.old).store ≡ false → result ≡ Err DiskNo.Failed }
        ensures faults { NotesFailure (keyed_of self.old) (keyed_of self.new) result }
        ensures failed { result ≡ Err DiskNo.Failed → Rose (keyed_of self.old).faults (keyed_of self.new).faults }
        ensures later { (keyed_of self.old).faults ≤ (keyed_of self.new).faults }
        ensures count { (keyed_of self.new).answered ≡ (keyed_of self.old).answered }
    {
        self.keys.reserve(1)?;
        let counter = self.counter + 1;
        if let Err(reason) = self.store.set_counter(counter) {
            return Err(self.fail(reason));
        }
        self.counter = counter;
        let key = counter * 16 + u64::from(host);
        self.keys.push_reserved(key);
        Ok(Key(key))
    }

    fn remove_key(&mut self, target: Key)
        ensures keyed { keyed_of self.new ≡ without_key target.0 (keyed_of self.old) }
        ensures fewer { length (keyed_of self.new).keys ≤ length (keyed_of self.old).keys }
    {
        self.keys.retain(|key| *key != target.0);
    }
}

impl<S: Store> Device for StoredDisk<S> {
    ghost use Rattle.std.specs.Prelude.{Contains, IfOk, OnErr, OnOk};
    ghost use Rattle.file_disk.specs.StoredDisk.{NotesFailure, keyed_of, room_of, state_of};
    ghost use Rattle.shared_disk.specs.Calls.{after_fence, after_register, after_write, next_count, next_key, Swaps};
    ghost use Rattle.shared_disk.specs.State.{Stands};
    ghost use Rattle.vol_base.specs.Faults.{Rose};

    ghost state = { λ d. state_of S.told (keyed_of d) };

    ghost faults = { λ d. (keyed_of d).faults };

    ghost room = { λ d. room_of (keyed_of d) };

    ghost answered = { λ d. (keyed_of d).answered };

    fn blocks(&self) -> u64 {
        BLOCKS
    }

    fn counter(&self) -> u64 {
        self.counter
    }

    fn calls(&self) -> u64 {
        self.calls
    }

    fn read(&mut self, key: Key, place: u64) -> Result<Block, DiskNo>
        requires { place < BLOCKS }
        ensures block { IfOk result (λ block. Stands (state_of S.told (keyed_of self.old)) place block.0) }
        ensures same { state_of S.told (keyed_of self.new) ≡ state_of S.told (keyed_of self.old) }

        ensures fenced { (result ≡ Err DiskNo.Fenced) ↔ (Contains (keyed_of self.old).keys key.0 → ⊥) }
        ensures registered { OnOk result (Contains (keyed_of self.old).keys key.0) }
        ensures failed { result ≡ Err DiskNo.Failed → Rose (keyed_of self.old).faults (keyed_of self.new).faults }
        ensures no_keys { result ≢ Err DiskNo.NoKeys }
        ensures memory { result ≢ Err DiskNo.NoMemory }

        ensures count { (keyed_of self.new).answered ≡ next_count (keyed_of self.old).answered }
        ensures later { (keyed_of self.old).faults ≤ (keyed_of self.new).faults }
        ensures faults { NotesFailure (keyed_of self.old) (keyed_of self.new) result }
        ensures spends { room_of (keyed_of self.old) ≤ room_of (keyed_of self.new) }
    {
        self.admit(key)?;
        self.load(place)
    }

    fn write(&mut self, key: Key, place: u64, block: &Block) -> Result<(), DiskNo>
        requires { place < BLOCKS }
        ensures done { OnOk result (state_of S.told (keyed_of self.new) ≡ after_write place block.now.0 (state_of S.told (keyed_of self.old))) }
        ensures same { OnErr result (state_of S.told (keyed_of self.new) ≡ state_of S.told (keyed_of self.old)) }

        ensures fenced { (result ≡ Err DiskNo.Fenced) ↔ (Contains (keyed_of self.old).keys key.0 → ⊥) }
        ensures registered { OnOk result (Contains (keyed_of self.old).keys key.0) }
        ensures failed { result ≡ Err DiskNo.Failed → Rose (keyed_of self.old).faults (keyed_of self.new).faults }
        ensures no_keys { result ≢ Err DiskNo.NoKeys }
        ensures memory { result ≢ Err DiskNo.NoMemory }

        ensures count { (keyed_of self.new).answered ≡ next_count (keyed_of self.old).answered }
        ensures later { (keyed_of self.old).faults ≤ (keyed_of self.new).faults }
        ensures faults { NotesFailure (keyed_of self.old) (keyed_of self.new) result }
        ensures spends { room_of (keyed_of self.old) ≤ room_of (keyed_of self.new) }
    {
        self.admit(key)?;
        self.save(place, block)
    }

    fn test_and_set(
        &mut self,
        key: Key,
        place: u64,
        old: &Block,
        new: &Block,
    ) -> Result<Tested, DiskNo>
        requires { place < BLOCKS }
        ensures done { IfOk result (Swaps place old.now.0 new.now.0 (state_of S.told (keyed_of self.old)) (state_of S.told (keyed_of self.new))) }
        ensures same { OnErr result (state_of S.told (keyed_of self.new) ≡ state_of S.told (keyed_of self.old)) }

        ensures fenced { (result ≡ Err DiskNo.Fenced) ↔ (Contains (keyed_of self.old).keys key.0 → ⊥) }
        ensures registered { OnOk result (Contains (keyed_of self.old).keys key.0) }
        ensures failed { result ≡ Err DiskNo.Failed → Rose (keyed_of self.old).faults (keyed_of self.new).faults }
        ensures no_keys { result ≢ Err DiskNo.NoKeys }
        ensures memory { result ≢ Err DiskNo.NoMemory }

        ensures count { (keyed_of self.new).answered ≡ next_count (keyed_of self.old).answered }
        ensures later { (keyed_of self.old).faults ≤ (keyed_of self.new).faults }
        ensures faults { NotesFailure (keyed_of self.old) (keyed_of self.new) result }
        ensures spends { room_of (keyed_of self.old) ≤ room_of (keyed_of self.new) }
    {
        self.admit(key)?;
        let found = self.load(place)?;
        if !found.same(old) {
            return Ok(Tested::Found(found));
        }
        self.save(place, new)?;
        Ok(Tested::Swapped)
    }

    fn register(&mut self, host: HostNo) -> Result<Key, DiskNo>
        requires { host < 16 }
        ensures key { IfOk result (λ key. key.0 ≡ next_key host (state_of S.told (keyed_of self.old))) }
        ensures done { OnOk result (state_of S.told (keyed_of self.new) ≡ after_register host (state_of S.told (keyed_of self.old))) }
        ensures same { OnErr result (state_of S.told (keyed_of self.new) ≡ state_of S.told (keyed_of self.old)) }

        ensures closed { S.is_open (keyed_of self.old).store ≡ false → result ≡ Err DiskNo.Failed }
        ensures no_keys { (result ≡ Err DiskNo.NoKeys) ↔ ((keyed_of self.old).counter ≡ last_counter) }
        ensures failed { result ≡ Err DiskNo.Failed → Rose (keyed_of self.old).faults (keyed_of self.new).faults }
        ensures fenced { result ≢ Err DiskNo.Fenced }
        ensures memory { result ≡ Err DiskNo.NoMemory → room_of (keyed_of self.old) ≡ 0 }

        ensures count { (keyed_of self.new).answered ≡ next_count (keyed_of self.old).answered }
        ensures later { (keyed_of self.old).faults ≤ (keyed_of self.new).faults }
        ensures faults { NotesFailure (keyed_of self.old) (keyed_of self.new) result }
        ensures spends { room_of (keyed_of self.old) ≤ room_of (keyed_of self.new) + 1 }
    {
        self.count_call();
        if self.counter == LAST_COUNTER {
            return Err(DiskNo::NoKeys);
        }
        self.add_key(host)
    }

    fn fence(&mut self, key: Key, target: Key) -> Result<(), DiskNo>
        ensures done { OnOk result (state_of S.told (keyed_of self.new) ≡ after_fence target.0 (state_of S.told (keyed_of self.old))) }
        ensures same { OnErr result (state_of S.told (keyed_of self.new) ≡ state_of S.told (keyed_of self.old)) }

        ensures fenced { (result ≡ Err DiskNo.Fenced) ↔ (Contains (keyed_of self.old).keys key.0 → ⊥) }
        ensures registered { OnOk result (Contains (keyed_of self.old).keys key.0) }
        ensures failed { result ≡ Err DiskNo.Failed → Rose (keyed_of self.old).faults (keyed_of self.new).faults }
        ensures no_keys { result ≢ Err DiskNo.NoKeys }
        ensures memory { result ≢ Err DiskNo.NoMemory }

        ensures count { (keyed_of self.new).answered ≡ next_count (keyed_of self.old).answered }
        ensures later { (keyed_of self.old).faults ≤ (keyed_of self.new).faults }
        ensures faults { NotesFailure (keyed_of self.old) (keyed_of self.new) result }
        ensures spends { room_of (keyed_of self.old) ≤ room_of (keyed_of self.new) }
    {
        self.admit(key)?;
        self.remove_key(target);
        Ok(())
    }

    ghost whole_image = { λ d. S.whole_image d.store };

    ghost whole_blocks = { λ d. S.whole_blocks d.store };

    ghost keys_reached = { λ d. d.reached };

    ghost keys_named = { λ d. d.named };

    ghost counter_fits = { λ d. d.fits };
}
