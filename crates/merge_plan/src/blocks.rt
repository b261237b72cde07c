// The shard blocks of a shelf as they were read.
ghost use Rattle.std.specs.Prelude.{◌≡◌, ◌<◌, ◌≤◌, ◌++◌, ◌∷◌, [], IfOk, Some, length, slice_get};

use std::alloc::{AllocError, Global};
use std::marker::Model;
use vol_base::Block;

/// The most shard blocks of a shelf.
const MOST: usize = 4;

/// At most four blocks. Their room is taken when it is made.
#[derive(Drop)]
pub struct ShelfBlocks {
    blocks: Vec<Block>,
}

impl Model for ShelfBlocks {
    ghost use Rattle.std.specs.Prelude.{◌≤◌, List, length, vec_capacity};
    ghost use Rattle.vol_base.specs.declared.block.Block.{Block};

    ghost Value = { List Block };

    ghost view = { λ b. b.blocks.items };

    ghost invariant = { λ b. (length b.blocks.items ≤ 4) × (4 ≤ vec_capacity b.blocks) };
}

impl ShelfBlocks {
    /// No block, and room for four.
    pub fn new(alloc: Global) -> Result<ShelfBlocks, AllocError>
        ensures { IfOk result (λ blocks. blocks ≡ []) }
    {
        Ok(ShelfBlocks {
            blocks: Vec::with_capacity(alloc, MOST)?,
        })
    }

    /// Takes all blocks out.
    pub fn clear(&mut self)
        ensures { self.new ≡ [] }
    {
        self.blocks.clear();
    }

    /// Puts a block behind the others.
    pub fn push(&mut self, block: Block)
        requires { length self.old < 4 }
        ensures { self.new ≡ self.old ++ block ∷ [] }
    {
        self.blocks.push_reserved(block);
    }

    /// Block `k`.
    pub fn get(&self, k: u8) -> &Block
        requires { k < length self.now }
        ensures { slice_get self.now k ≡ Some result.now }
    {
        &self.blocks[k as usize]
    }

    /// The blocks in the order in which they were read.
    pub fn all(&self) -> &[Block]
        ensures blocks { result.now ≡ self.now }
        ensures few { length self.now ≤ 4 }
    {
        self.blocks.as_slice()
    }
}
