// The blocks of one file.
ghost use Rattle.std.specs.Prelude.{◌≡◌, ◌<◌, ◌^◌, [], length, nat_lt, if◌then◌else◌, Some, slice_index_or, slice_set, OnOk, OnErr};
ghost use Rattle.plain_files.specs.Block.{zero_block};
ghost use Rattle.plain_files.specs.Calls.{sized, at_block};

use std::alloc::Global;
use std::marker::Model;
use vol_base::{Block, NoMemory, PlainReply};

/// The blocks of a file that is there, in order.
#[derive(Drop)]
pub struct Content {
    blocks: Vec<Block>,
}

impl Model for Content {
    ghost use Rattle.std.specs.Prelude.{List};
    ghost use Rattle.vol_base.specs.declared.block.Block.{Block};

    ghost Value = { List Block };

    ghost view = { λ c. c.blocks.items };
}

impl Content {
    /// A file of no blocks.
    pub fn empty(alloc: Global) -> Content
        ensures { result ≡ [] }
    {
        Content {
            blocks: Vec::new(alloc),
        }
    }

    pub fn as_slice(&self) -> &[Block]
        ensures { result.now ≡ self.now }
    {
        self.blocks.as_slice()
    }

    /// Cuts the file, or grows it with zeros, to `n` blocks.
    pub fn resize(&mut self, n: u32) -> Result<(), NoMemory>
        ensures ok { OnOk result (self.new ≡ sized n self.old) }
        ensures err { OnErr result (self.new ≡ self.old) }
        ensures grows { OnErr result (length self.old < n) }
    {
        self.blocks
            .resize(n as usize, zero_block())
            .map_err(|_| NoMemory)
    }

    pub fn read(&self, index: u32) -> PlainReply
        requires { length self.now < 2 ^ 32 }
        ensures { result
            ≡ (at_block index self.now (PlainReply.Holds (slice_index_or self.now index zero_block), Some self.now)).0 }
    {
        match self.blocks.get(index as usize) {
            Some(block) => PlainReply::Holds(*block),
            None => self.beyond(),
        }
    }

    pub fn write(&mut self, index: u32, block: &Block) -> PlainReply
        requires { length self.old < 2 ^ 32 }
        ensures reply { result
            ≡ (at_block index self.old (PlainReply.Done, Some self.old)).0 }
        ensures after { self.new
            ≡ (if nat_lt index (length self.old) then slice_set self.old index block.now else self.old) }
    {
        let index = index as usize;
        if index >= self.blocks.len() {
            return self.beyond();
        }
        self.blocks[index] = *block;
        PlainReply::Done
    }

    /// The reply to a call on a block past the end.
    fn beyond(&self) -> PlainReply
        requires { length self.now < 2 ^ 32 }
        ensures { result ≡ PlainReply.Beyond (length self.now) }
    {
        PlainReply::Beyond(self.blocks.len() as u32)
    }
}

pub fn zero_block() -> Block
    ensures { result ≡ zero_block }
{
    Block::zeros()
}
