// Where a device keeps its blocks and its counter.
ghost use Rattle.std.specs.Prelude.{◌≡◌, ◌<◌, ℕ, All, Bool, IfOk, IfSome, IsTrue, length, OnErr, OnOk, Option, Some, option_map, slice_get};
ghost use Rattle.shared_disk.specs.Calls.{told_after};
ghost use Rattle.shared_disk.specs.State.{Told};
ghost use Rattle.vol_base.specs.Bytes.{IsBlock};
ghost use Rattle.file_disk.specs.declared.store.TheConstants.{BLOCKS};

use std::io;
use vol_base::Block;

/// The number of blocks of a store, which is that of the largest volume.
pub const BLOCKS: u64 = 66_177;

/// Where a device keeps its blocks and its counter: what is asked of the outside. A call that
/// fails changes neither.
pub trait Store: Drop {
    /// The image and the writes so far, where the store tells them.
    ghost told: { Self → Option Told };

    /// The counter that is kept, where the store tells it.
    ghost kept: { Self → Option ℕ };

    /// Whether the store was opened. One that was not fails each call.
    ghost is_open: { Self → Bool };

    /// The block at the place.
    fn block(&self, place: u64) -> io::Result<Block>
        requires { place < BLOCKS }
        ensures block { IfOk result (λ block. IfSome (told self.now) (λ told. slice_get told.image place ≡ Some block.0)) }
        ensures opened { OnOk result (IsTrue (is_open self.now)) };

    /// Puts a block at the place.
    fn set_block(&mut self, place: u64, block: &Block) -> io::Result<()>
        requires { place < BLOCKS }
        ensures done { OnOk result (told self.new ≡ option_map (told_after place block.now.0) (told self.old)) }
        ensures same { OnErr result (told self.new ≡ told self.old) }
        ensures opened { OnOk result (IsTrue (is_open self.old)) }
        ensures kept { kept self.new ≡ kept self.old }
        ensures open { is_open self.new ≡ is_open self.old };

    /// Keeps this counter in place of the one before.
    fn set_counter(&mut self, counter: u64) -> io::Result<()>
        ensures done { OnOk result (IfSome (kept self.new) (λ kept. kept ≡ counter)) }
        ensures same { OnErr result (kept self.new ≡ kept self.old) }
        ensures opened { OnOk result (IsTrue (is_open self.old)) }
        ensures told { told self.new ≡ told self.old }
        ensures open { is_open self.new ≡ is_open self.old };

    /// The image, where it is told, has `BLOCKS` blocks.
    ghost whole_image: { (s : Self) → IfSome (told s) (λ told. length told.image ≡ BLOCKS) };

    /// The image, where it is told, is made of blocks: each is 4,096 bytes.
    ghost whole_blocks: { (s : Self) → IfSome (told s) (λ told. All IsBlock told.image) };
}
