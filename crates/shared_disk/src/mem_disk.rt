// A device in memory.
ghost use Rattle.std.specs.Prelude.{◌≡◌, ◌≢◌, ◌+◌, ◌-◌, ◌*◌, ◌/◌, ◌^◌, ◌<◌, ◌≤◌, ◌↔◌, ◌⊎◌, ℕ, All, IsTrue, vec_len, vec_capacity};
ghost use Rattle.shared_disk.specs.Calls.{last_counter};
ghost use Rattle.vol_base.specs.Bytes.{IsBlock};

use crate::answers::{DiskNo, Tested};
use crate::device::{Device, LAST_COUNTER};
use std::alloc::Global;
use vol_base::{Block, HostNo, Key, NoMemory, are_blocks};

/// A device in memory, which tells its image and the list of its writes. It fails only at the calls
/// that it was told to fail at.
#[derive(Drop)]
pub struct MemDisk {
    image: Vec<Block>,
    writes: Vec<(u64, Block)>,
    // The registered keys' numbers.
    keys: Vec<u64>,
    counter: u64,
    calls: u64,
    faults: u64,
    // The numbers of the calls that are to fail.
    failing: Vec<u64>,
    // So many more writes, and so many more keys, need no memory.
    spare: u64,
    ghost whole: { All (λ block. IsBlock block.0) image.items },
    ghost reached: { All (λ key. key / 16 ≤ counter) keys.items },
    ghost named: { All (λ key. 0 < key) keys.items },
    ghost fits: { counter < 2 ^ 59 },
    ghost writes_room: { vec_len writes + spare ≤ vec_capacity writes },
    ghost keys_room: { vec_len keys + spare ≤ vec_capacity keys },
}

impl MemDisk {
    ghost use Rattle.std.specs.Prelude.{IfOk, IfSome, length, max, OnErr, OnOk};
    ghost use Rattle.shared_disk.specs.MemDisk.{bytes_of, fresh, memory_of, spare_of, told_of, with_failing, writes_of, zero_blocks};
    ghost use Rattle.shared_disk.specs.State.{Stands};

    /// A device of `blocks` blocks of zeros, with counter 0 and no keys.
    pub fn new(alloc: Global, blocks: u64) -> Result<MemDisk, NoMemory>
        ensures fresh { IfOk result (λ d. memory_of d ≡ fresh (zero_blocks blocks) 0) }
        ensures blocks { IfOk result (λ d. (memory_of d).state.blocks ≡ blocks) }
    {
        match vec![in alloc; Block::zeros(); blocks as usize] {
            Ok(image) => MemDisk::of_image(alloc, image, 0),
            Err(_) => Err(NoMemory),
        }
    }

    /// A device with this image and counter, and no keys.
    pub fn of_image(alloc: Global, image: Vec<Block>, counter: u64) -> Result<MemDisk, NoMemory>
        requires { counter < 2 ^ 59 }
        ensures { IfOk result (λ d. memory_of d ≡ fresh (bytes_of image.items) counter) }
    {
        are_blocks(&image);
        Ok(MemDisk {
            image,
            writes: Vec::new(alloc),
            keys: Vec::new(alloc),
            counter,
            calls: 0,
            faults: 0,
            failing: Vec::new(alloc),
            spare: 0,
        })
    }

    /// Makes the call of this number fail, where the first call is 1, unless that call answers
    /// `Fenced` or `NoKeys`.
    pub fn fail_at(&mut self, call: u64) -> Result<(), NoMemory>
        ensures ok { OnOk result (memory_of self.new ≡ with_failing call (memory_of self.old)) }
        ensures err { OnErr result (memory_of self.new ≡ memory_of self.old) }
        ensures spare { spare_of self.new ≡ spare_of self.old }
    {
        self.failing.push(call).map_err(|_| NoMemory)
    }

    /// Makes `spare` at least `n`.
    pub fn reserve(&mut self, n: u64) -> Result<(), NoMemory>
        ensures ok { OnOk result (spare_of self.new ≡ max (spare_of self.old) n) }
        ensures err { OnErr result (spare_of self.new ≡ spare_of self.old) }
        ensures same { memory_of self.new ≡ memory_of self.old }
    {
        let more = n as usize;
        self.writes.reserve(more)?;
        self.keys.reserve(more)?;
        self.spare = self.spare.max(n);
        Ok(())
    }

    /// So many more writes, swaps and registrations need no memory.
    pub fn spare(&self) -> u64
        ensures { result ≡ spare_of self.now }
    {
        self.spare
    }

    /// The block at the place.
    pub fn block(&self, place: u64) -> &Block
        requires { place < (memory_of self.now).state.blocks }
        ensures { Stands (memory_of self.now).state place result.now.0 }
    {
        &self.image[place as usize]
    }

    /// All writes since the device was made, swaps too, the oldest first.
    pub fn writes(&self) -> &[(u64, Block)]
        ensures { writes_of result.now ≡ (told_of self.now).writes }
    {
        &self.writes
    }
}

// The steps of the calls.
impl MemDisk {
    ghost use Rattle.std.specs.Prelude.{Contains, if◌then◌else◌, IfErr, IfOk, is_ok, OnErr, OnOk};
    ghost use Rattle.shared_disk.specs.Calls.{after_fence, after_register, after_write, next_count, next_key};
    ghost use Rattle.shared_disk.specs.MemDisk.{FailsWhenDue, memory_of, spare_of, with_call, with_fault, with_state};
    ghost use Rattle.vol_base.specs.Faults.{Rose};

    fn count_call(&mut self)
        ensures memory { memory_of self.new ≡ with_call (memory_of self.old) }
        ensures spare { spare_of self.new ≡ spare_of self.old }
    {
        self.calls = self.calls.saturating_add(1);
    }

    fn fail_if_due(&mut self) -> Result<(), DiskNo>
        ensures ok { OnOk result (memory_of self.new ≡ memory_of self.old) }
        ensures err { OnErr result (memory_of self.new ≡ with_fault (memory_of self.old)) }
        ensures due { (result ≡ Err DiskNo.Failed) ↔ Contains (memory_of self.old).failing (memory_of self.old).answered }
        ensures only { IfErr result (λ refusal. refusal ≡ DiskNo.Failed) }
        ensures later { (memory_of self.old).faults ≤ (memory_of self.new).faults }
        ensures failed { OnErr result (Rose (memory_of self.old).faults (memory_of self.new).faults) }
        ensures spare { spare_of self.new ≡ spare_of self.old }
    {
        if self.failing.contains(&self.calls) {
            self.faults = self.faults.saturating_add(1);
            return Err(DiskNo::Failed);
        }
        Ok(())
    }

    // What each call under a key does first.
    fn admit(&mut self, key: Key) -> Result<(), DiskNo>
        ensures ok { OnOk result (memory_of self.new ≡ with_call (memory_of self.old)) }
        ensures state { (memory_of self.new).state ≡ (memory_of self.old).state }
        ensures count { (memory_of self.new).answered ≡ next_count (memory_of self.old).answered }
        ensures fenced { (result ≡ Err DiskNo.Fenced) ↔ (Contains (memory_of self.old).state.keys key.0 → ⊥) }
        ensures registered { OnOk result (Contains (memory_of self.old).state.keys key.0) }
        ensures only { IfErr result (λ refusal. (refusal ≡ DiskNo.Fenced) ⊎ (refusal ≡ DiskNo.Failed)) }
        ensures later { (memory_of self.old).faults ≤ (memory_of self.new).faults }
        ensures failed { result ≡ Err DiskNo.Failed → Rose (memory_of self.old).faults (memory_of self.new).faults }
        ensures due { FailsWhenDue (Contains (memory_of self.old).state.keys key.0) (memory_of self.old) (memory_of self.new) result }
        ensures spare { spare_of self.new ≡ spare_of self.old }
    {
        self.count_call();
        if !self.is_registered(key) {
            return Err(DiskNo::Fenced);
        }
        self.fail_if_due()
    }

    // Raises the counter and registers the host's key.
    fn add_key(&mut self, host: HostNo) -> Result<Key, DiskNo>
        requires host { host < 16 }
        requires counter { (memory_of self.old).state.counter < last_counter }
        ensures key { IfOk result (λ key. key.0 ≡ next_key host (memory_of self.old).state) }
        ensures ok { OnOk result (memory_of self.new ≡ with_state (after_register host (memory_of self.old).state) (memory_of self.old)) }
        ensures err { OnErr result (memory_of self.new ≡ memory_of self.old) }
        ensures memory { IfErr result (λ refusal. (refusal ≡ DiskNo.NoMemory) × (spare_of self.old ≡ 0)) }
        ensures spends { spare_of self.new ≡ (if is_ok result then spare_of self.old - 1 else spare_of self.old) }
    {
        self.keys.reserve(1)?;
        self.counter += 1;
        let key = self.counter * 16 + u64::from(host);
        self.keys.push_reserved(key);
        self.spare = self.spare.saturating_sub(1);
        Ok(Key(key))
    }

    fn remove_key(&mut self, target: Key)
        ensures memory { memory_of self.new ≡ with_state (after_fence target.0 (memory_of self.old).state) (memory_of self.old) }
        ensures spare { spare_of self.new ≡ spare_of self.old }
    {
        self.keys.retain(|key| *key != target.0);
    }

    fn is_registered(&self, key: Key) -> bool
        ensures { IsTrue result ↔ Contains (memory_of self.now).state.keys key.0 }
    {
        self.keys.contains(&key.0)
    }

    fn set_block(&mut self, place: u64, block: &Block) -> Result<(), DiskNo>
        requires { place < (memory_of self.old).state.blocks }
        ensures ok { OnOk result (memory_of self.new ≡ with_state (after_write place block.now.0 (memory_of self.old).state) (memory_of self.old)) }
        ensures err { OnErr result (memory_of self.new ≡ memory_of self.old) }
        ensures memory { IfErr result (λ refusal. (refusal ≡ DiskNo.NoMemory) × (spare_of self.old ≡ 0)) }
        ensures spends { spare_of self.new ≡ (if is_ok result then spare_of self.old - 1 else spare_of self.old) }
    {
        let _bytes = block.bytes();
        self.writes.reserve(1)?;
        self.writes.push_reserved((place, *block));
        self.image[place as usize] = *block;
        self.spare = self.spare.saturating_sub(1);
        Ok(())
    }
}

impl Device for MemDisk {
    ghost use Rattle.std.proofs.lemmas.List.{length-map};
    ghost use Rattle.std.proofs.lemmas.List.Elements.{All-map};
    ghost use Rattle.std.specs.Prelude.{Contains, if◌then◌else◌, IfOk, is_ok, OnErr, OnOk};
    ghost use Rattle.shared_disk.specs.Calls.{after_fence, after_register, after_write, next_count, next_key, Swaps};
    ghost use Rattle.shared_disk.specs.MemDisk.{FailsWhenDue, memory_of, spare_of};
    ghost use Rattle.shared_disk.specs.State.{Stands};
    ghost use Rattle.vol_base.specs.Faults.{Rose};

    ghost state = { λ d. (memory_of d).state };

    ghost faults = { λ d. (memory_of d).faults };

    ghost room = { spare_of };

    ghost answered = { λ d. (memory_of d).answered };

    fn blocks(&self) -> u64 {
        self.image.len() as u64
    }

    fn counter(&self) -> u64 {
        self.counter
    }

    fn calls(&self) -> u64 {
        self.calls
    }

    fn read(&mut self, key: Key, place: u64) -> Result<Block, DiskNo>
        requires { place < (memory_of self.old).state.blocks }
        ensures block { IfOk result (λ block. Stands (memory_of self.old).state place block.0) }
        ensures same { (memory_of self.new).state ≡ (memory_of self.old).state }

        ensures fenced { (result ≡ Err DiskNo.Fenced) ↔ (Contains (memory_of self.old).state.keys key.0 → ⊥) }
        ensures registered { OnOk result (Contains (memory_of self.old).state.keys key.0) }
        ensures failed { result ≡ Err DiskNo.Failed → Rose (memory_of self.old).faults (memory_of self.new).faults }
        ensures no_keys { result ≢ Err DiskNo.NoKeys }
        ensures memory { result ≢ Err DiskNo.NoMemory }

        ensures count { (memory_of self.new).answered ≡ next_count (memory_of self.old).answered }
        ensures later { (memory_of self.old).faults ≤ (memory_of self.new).faults }
        ensures due { FailsWhenDue (Contains (memory_of self.old).state.keys key.0) (memory_of self.old) (memory_of self.new) result }
        ensures spare { spare_of self.new ≡ spare_of self.old }
    {
        self.admit(key)?;
        Ok(*self.block(place))
    }

    fn write(&mut self, key: Key, place: u64, block: &Block) -> Result<(), DiskNo>
        requires { place < (memory_of self.old).state.blocks }
        ensures done { OnOk result ((memory_of self.new).state ≡ after_write place block.now.0 (memory_of self.old).state) }
        ensures same { OnErr result ((memory_of self.new).state ≡ (memory_of self.old).state) }
        ensures blocks { (memory_of self.new).state.blocks ≡ (memory_of self.old).state.blocks }

        ensures fenced { (result ≡ Err DiskNo.Fenced) ↔ (Contains (memory_of self.old).state.keys key.0 → ⊥) }
        ensures registered { OnOk result (Contains (memory_of self.old).state.keys key.0) }
        ensures failed { result ≡ Err DiskNo.Failed → Rose (memory_of self.old).faults (memory_of self.new).faults }
        ensures no_keys { result ≢ Err DiskNo.NoKeys }
        ensures memory { result ≡ Err DiskNo.NoMemory → spare_of self.old ≡ 0 }

        ensures count { (memory_of self.new).answered ≡ next_count (memory_of self.old).answered }
        ensures later { (memory_of self.old).faults ≤ (memory_of self.new).faults }
        ensures due { FailsWhenDue (Contains (memory_of self.old).state.keys key.0) (memory_of self.old) (memory_of self.new) result }
        ensures spare { spare_of self.new ≡ (if is_ok result then spare_of self.old - 1 else spare_of self.old) }
    {
        self.admit(key)?;
        self.set_block(place, block)
    }

    fn test_and_set(
        &mut self,
        key: Key,
        place: u64,
        old: &Block,
        new: &Block,
    ) -> Result<Tested, DiskNo>
        requires { place < (memory_of self.old).state.blocks }
        ensures done { IfOk result (Swaps place old.now.0 new.now.0 (memory_of self.old).state (memory_of self.new).state) }
        ensures same { OnErr result ((memory_of self.new).state ≡ (memory_of self.old).state) }
        ensures blocks { (memory_of self.new).state.blocks ≡ (memory_of self.old).state.blocks }

        ensures fenced { (result ≡ Err DiskNo.Fenced) ↔ (Contains (memory_of self.old).state.keys key.0 → ⊥) }
        ensures registered { OnOk result (Contains (memory_of self.old).state.keys key.0) }
        ensures failed { result ≡ Err DiskNo.Failed → Rose (memory_of self.old).faults (memory_of self.new).faults }
        ensures no_keys { result ≢ Err DiskNo.NoKeys }
        ensures memory { result ≡ Err DiskNo.NoMemory → spare_of self.old ≡ 0 }

        ensures count { (memory_of self.new).answered ≡ next_count (memory_of self.old).answered }
        ensures later { (memory_of self.old).faults ≤ (memory_of self.new).faults }
        ensures due { FailsWhenDue (Contains (memory_of self.old).state.keys key.0) (memory_of self.old) (memory_of self.new) result }
        ensures spare { result ≡ Ok Tested.Swapped → spare_of self.new ≡ spare_of self.old - 1 }
        ensures unspent { result ≢ Ok Tested.Swapped → spare_of self.new ≡ spare_of self.old }
    {
        self.admit(key)?;
        let found = *self.block(place);
        if !found.same(old) {
            return Ok(Tested::Found(found));
        }
        self.set_block(place, new)?;
        Ok(Tested::Swapped)
    }

    fn register(&mut self, host: HostNo) -> Result<Key, DiskNo>
        requires { host < 16 }
        ensures key { IfOk result (λ key. key.0 ≡ next_key host (memory_of self.old).state) }
        ensures done { OnOk result ((memory_of self.new).state ≡ after_register host (memory_of self.old).state) }
        ensures same { OnErr result ((memory_of self.new).state ≡ (memory_of self.old).state) }
        ensures blocks { (memory_of self.new).state.blocks ≡ (memory_of self.old).state.blocks }

        ensures no_keys { (result ≡ Err DiskNo.NoKeys) ↔ ((memory_of self.old).state.counter ≡ last_counter) }
        ensures failed { result ≡ Err DiskNo.Failed → Rose (memory_of self.old).faults (memory_of self.new).faults }
        ensures fenced { result ≢ Err DiskNo.Fenced }
        ensures memory { result ≡ Err DiskNo.NoMemory → spare_of self.old ≡ 0 }

        ensures count { (memory_of self.new).answered ≡ next_count (memory_of self.old).answered }
        ensures later { (memory_of self.old).faults ≤ (memory_of self.new).faults }
        ensures due { FailsWhenDue ((memory_of self.old).state.counter ≢ last_counter) (memory_of self.old) (memory_of self.new) result }
        ensures spare { spare_of self.new ≡ (if is_ok result then spare_of self.old - 1 else spare_of self.old) }
    {
        self.count_call();
        if self.counter == LAST_COUNTER {
            return Err(DiskNo::NoKeys);
        }
        self.fail_if_due()?;
        self.add_key(host)
    }

    fn fence(&mut self, key: Key, target: Key) -> Result<(), DiskNo>
        ensures done { OnOk result ((memory_of self.new).state ≡ after_fence target.0 (memory_of self.old).state) }
        ensures same { OnErr result ((memory_of self.new).state ≡ (memory_of self.old).state) }
        ensures blocks { (memory_of self.new).state.blocks ≡ (memory_of self.old).state.blocks }

        ensures fenced { (result ≡ Err DiskNo.Fenced) ↔ (Contains (memory_of self.old).state.keys key.0 → ⊥) }
        ensures registered { OnOk result (Contains (memory_of self.old).state.keys key.0) }
        ensures failed { result ≡ Err DiskNo.Failed → Rose (memory_of self.old).faults (memory_of self.new).faults }
        ensures no_keys { result ≢ Err DiskNo.NoKeys }
        ensures memory { result ≢ Err DiskNo.NoMemory }

        ensures count { (memory_of self.new).answered ≡ next_count (memory_of self.old).answered }
        ensures later { (memory_of self.old).faults ≤ (memory_of self.new).faults }
        ensures due { FailsWhenDue (Contains (memory_of self.old).state.keys key.0) (memory_of self.old) (memory_of self.new) result }
        ensures spare { spare_of self.new ≡ spare_of self.old }
    {
        self.admit(key)?;
        self.remove_key(target);
        Ok(())
    }

    ghost whole_image = { λ d. length-map d.image.items (λ block. block.0) };

    ghost whole_blocks = { λ d. All-map IsBlock (λ block. block.0) d.image.items d.whole };

    ghost keys_reached = { λ d. d.reached };

    ghost keys_named = { λ d. d.named };

    ghost counter_fits = { λ d. d.fits };
}
