// A store in memory that tells nothing of its content. What a call asks of a told image then holds with nothing to show, so that a
// test meets the premises of a call by what a host has in memory alone.
ghost use Rattle.std.specs.Prelude.{None, true};

use file_disk::Store;
use std::io;
use std::io::ErrorKind;
use vol_base::Block;

/// Blocks in memory. The counter is kept by the device over it.
#[derive(Drop)]
pub struct Untold {
    pub blocks: Vec<Block>,
}

impl Store for Untold {
    ghost told = { λ _. None };

    ghost kept = { λ _. None };

    ghost is_open = { λ _. true };

    fn block(&self, place: u64) -> io::Result<Block> {
        match self.blocks.get(place as usize) {
            Some(block) => Ok(*block),
            None => Err(ErrorKind::NotFound.into()),
        }
    }

    fn set_block(&mut self, place: u64, block: &Block) -> io::Result<()> {
        let at = place as usize;
        if at >= self.blocks.len() {
            return Err(ErrorKind::NotFound.into());
        }
        self.blocks[at] = *block;
        Ok(())
    }

    fn set_counter(&mut self, _: u64) -> io::Result<()> {
        Ok(())
    }

    ghost whole_image = { λ _. tt };

    ghost whole_blocks = { λ _. tt };
}
