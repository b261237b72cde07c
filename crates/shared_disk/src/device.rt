// The device that hosts share.
ghost use Rattle.std.specs.Prelude.{◌≡◌, ◌≢◌, ◌+◌, ◌-◌, ◌/◌, ◌^◌, ◌<◌, ◌≤◌, ◌↔◌, ℕ, All, Contains, IfOk, OnErr, OnOk};
ghost use Rattle.shared_disk.specs.Calls.{after_fence, after_register, after_write, last_counter, next_count, next_key, Swaps};
ghost use Rattle.shared_disk.specs.State.{HasBlocks, HasWholeImage, Stands, State};
ghost use Rattle.vol_base.specs.Faults.{Rose};

use crate::answers::{DiskNo, Tested};
use vol_base::{Block, HostNo, Key};

/// The counter of a device that has given all its keys, so that a key is below `2^63`.
pub const LAST_COUNTER: u64 = (1 << 59) - 1;

/// A block device that hosts share. Each of the last five calls is one atomic change. They are made
/// under a registered key, but for `register`, which gives one; a key is `counter * 16 + host`. A
/// place is the number of a block.
pub trait Device {
    /// The number of blocks, the registered keys, the counter, and the content where the device tells it.
    ghost state: { Self → State };

    /// How often the device failed.
    ghost faults: { Self → ℕ };

    /// For so many writes, swaps and registrations the device needs no memory.
    ghost room: { Self → ℕ };

    /// How many of the last five calls were answered.
    ghost answered: { Self → ℕ };

    /// The number of blocks, which never changes.
    fn blocks(&self) -> u64
        ensures { result ≡ (state self.now).blocks };

    /// The number of registrations so far, with those before the device was handed in.
    fn counter(&self) -> u64
        ensures { result ≡ (state self.now).counter };

    /// The number of answered calls of the five below, refusals too. It stays at `u64::MAX`.
    fn calls(&self) -> u64
        ensures { result ≡ answered self.now };

    /// Reads one block. It takes no memory.
    fn read(&mut self, key: Key, place: u64) -> Result<Block, DiskNo>
        requires { place < (state self.old).blocks }
        ensures block { IfOk result (λ block. Stands (state self.old) place block.0) }
        ensures same { state self.new ≡ state self.old }

        ensures fenced { (result ≡ Err DiskNo.Fenced) ↔ (Contains (state self.old).keys key.0 → ⊥) }
        ensures registered { OnOk result (Contains (state self.old).keys key.0) }
        ensures failed { result ≡ Err DiskNo.Failed → Rose (faults self.old) (faults self.new) }
        ensures no_keys { result ≢ Err DiskNo.NoKeys }
        ensures memory { result ≢ Err DiskNo.NoMemory }

        ensures count { answered self.new ≡ next_count (answered self.old) }
        ensures later { faults self.old ≤ faults self.new }
        ensures spends { room self.old ≤ room self.new };

    /// Writes one block.
    fn write(&mut self, key: Key, place: u64, block: &Block) -> Result<(), DiskNo>
        requires { place < (state self.old).blocks }
        ensures done { OnOk result (state self.new ≡ after_write place block.now.0 (state self.old)) }
        ensures same { OnErr result (state self.new ≡ state self.old) }
        ensures blocks { (state self.new).blocks ≡ (state self.old).blocks }

        ensures fenced { (result ≡ Err DiskNo.Fenced) ↔ (Contains (state self.old).keys key.0 → ⊥) }
        ensures registered { OnOk result (Contains (state self.old).keys key.0) }
        ensures failed { result ≡ Err DiskNo.Failed → Rose (faults self.old) (faults self.new) }
        ensures no_keys { result ≢ Err DiskNo.NoKeys }
        ensures memory { result ≡ Err DiskNo.NoMemory → room self.old ≡ 0 }

        ensures count { answered self.new ≡ next_count (answered self.old) }
        ensures later { faults self.old ≤ faults self.new }
        ensures spends { room self.old ≤ room self.new + 1 };

    /// Writes `new` where the block equals `old`, and else hands out the block that stands there.
    fn test_and_set(
        &mut self,
        key: Key,
        place: u64,
        old: &Block,
        new: &Block,
    ) -> Result<Tested, DiskNo>
        requires { place < (state self.old).blocks }
        ensures done { IfOk result (Swaps place old.now.0 new.now.0 (state self.old) (state self.new)) }
        ensures same { OnErr result (state self.new ≡ state self.old) }
        ensures blocks { (state self.new).blocks ≡ (state self.old).blocks }

        ensures fenced { (result ≡ Err DiskNo.Fenced) ↔ (Contains (state self.old).keys key.0 → ⊥) }
        ensures registered { OnOk result (Contains (state self.old).keys key.0) }
        ensures failed { result ≡ Err DiskNo.Failed → Rose (faults self.old) (faults self.new) }
        ensures no_keys { result ≢ Err DiskNo.NoKeys }
        ensures memory { result ≡ Err DiskNo.NoMemory → room self.old ≡ 0 }

        ensures count { answered self.new ≡ next_count (answered self.old) }
        ensures later { faults self.old ≤ faults self.new }
        ensures spends { room self.old ≤ room self.new + 1 };

    /// Raises the counter by one and registers a key for the host.
    fn register(&mut self, host: HostNo) -> Result<Key, DiskNo>
        requires { host < 16 }
        ensures key { IfOk result (λ key. key.0 ≡ next_key host (state self.old)) }
        ensures done { OnOk result (state self.new ≡ after_register host (state self.old)) }
        ensures same { OnErr result (state self.new ≡ state self.old) }
        ensures blocks { (state self.new).blocks ≡ (state self.old).blocks }

        ensures no_keys { (result ≡ Err DiskNo.NoKeys) ↔ ((state self.old).counter ≡ last_counter) }
        ensures failed { result ≡ Err DiskNo.Failed → Rose (faults self.old) (faults self.new) }
        ensures fenced { result ≢ Err DiskNo.Fenced }
        ensures memory { result ≡ Err DiskNo.NoMemory → room self.old ≡ 0 }

        ensures count { answered self.new ≡ next_count (answered self.old) }
        ensures later { faults self.old ≤ faults self.new }
        ensures spends { room self.old ≤ room self.new + 1 };

    /// Takes `target` off the registered keys; one that is not registered is no fault. It takes no memory.
    fn fence(&mut self, key: Key, target: Key) -> Result<(), DiskNo>
        ensures done { OnOk result (state self.new ≡ after_fence target.0 (state self.old)) }
        ensures same { OnErr result (state self.new ≡ state self.old) }
        ensures blocks { (state self.new).blocks ≡ (state self.old).blocks }

        ensures fenced { (result ≡ Err DiskNo.Fenced) ↔ (Contains (state self.old).keys key.0 → ⊥) }
        ensures registered { OnOk result (Contains (state self.old).keys key.0) }
        ensures failed { result ≡ Err DiskNo.Failed → Rose (faults self.old) (faults self.new) }
        ensures no_keys { result ≢ Err DiskNo.NoKeys }
        ensures memory { result ≢ Err DiskNo.NoMemory }

        ensures count { answered self.new ≡ next_count (answered self.old) }
        ensures later { faults self.old ≤ faults self.new }
        ensures spends { room self.old ≤ room self.new };

    /// The image, where it is told, is as long as the device.
    ghost whole_image: { (d : Self) → HasWholeImage (state d) };

    /// The image, where it is told, is made of blocks: each is 4,096 bytes.
    ghost whole_blocks: { (d : Self) → HasBlocks (state d) };

    /// Every registered key divided by 16 is at most the counter.
    ghost keys_reached: { (d : Self) → All (λ key. key / 16 ≤ (state d).counter) (state d).keys };

    /// No registered key is 0.
    ghost keys_named: { (d : Self) → All (λ key. 0 < key) (state d).keys };

    /// The counter is at most `2^59 - 1`, so that a key is below `2^63`.
    ghost counter_fits: { (d : Self) → (state d).counter < 2 ^ 59 };
}
