// The blocks that a workload writes.
ghost use Rattle.std.specs.Prelude.{◌≡◌, ◌<◌, ◌%◌, ℕ, slice_index};
ghost use Rattle.vol_base.specs.Bytes.{bytes_of};
ghost use Rattle.vol_base.specs.NumberBlock.{number_block};

use crate::block::Block;
use crate::draft::Draft;

/// The block of a number: its eight bytes, the highest first, over and over. It hands out a whole
/// block.
pub fn number_block(n: u64) -> Block
    ensures value { result ≡ number_block n }
    ensures each_byte { (k : ℕ) → k < 4096 → slice_index result.0 k ≡ slice_index (bytes_of 8 n) (k % 8) }
{
    let mut draft = Draft::new();
    for _copy in 0..512u32 {
        draft.push_u64(n);
    }
    draft.finish()
}
