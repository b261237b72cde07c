// A store in memory that tells its content and can fail: the clauses of a store can be met, and a
// device over it is as good as the store.
ghost use Rattle.std.specs.Prelude.{◌≡◌, ◌+◌, ◌++◌, All, length, replicate, true};
ghost use Rattle.shared_disk.specs.MemDisk.{bytes_of, writes_of};
ghost use Rattle.vol_base.specs.Bytes.{IsBlock, zeros};
ghost use Rattle.file_disk.specs.declared.store.TheConstants.{BLOCKS};

use file_disk::{Store, StoredDisk};
use shared_disk::{Device, DiskNo};
use std::alloc::Global;
use std::io;
use std::io::ErrorKind;
use std::test::Fail;
use vol_base::{Block, are_blocks};

// Only its first blocks can be read and written, the rest are zeros, and one counter is refused.
#[derive(Drop)]
struct FewBlocks {
    front: Vec<Block>,
    rest: u64,
    writes: Vec<(u64, Block)>,
    counter: u64,
    refused: u64,
    ghost whole: { length front.items + rest ≡ BLOCKS },
    ghost blocks: { All (λ block. IsBlock block.0) front.items },
}

impl Store for FewBlocks {
    ghost use Rattle.std.specs.Prelude.{Some};
    ghost use Rattle.std.proofs.Common.{ap, ◌∙◌};
    ghost use Rattle.std.proofs.lemmas.List.{length-append, length-map, length-replicate};
    ghost use Rattle.std.proofs.lemmas.List.Elements.{All-append, All-map, All-replicate};
    ghost use Rattle.vol_base.specs.laws.BytesLaws.{IsBlock-zeros};

    ghost told = { λ s. Some (record {
      image = bytes_of s.front.items ++ replicate s.rest (zeros 4096);
      writes = writes_of s.writes.items;
    }) };

    ghost kept = { λ s. Some s.counter };

    ghost is_open = { λ _. true };

    fn block(&self, place: u64) -> io::Result<Block> {
        match self.front.get(place as usize) {
            Some(block) => Ok(*block),
            None => Err(ErrorKind::NotFound.into()),
        }
    }

    fn set_block(&mut self, place: u64, block: &Block) -> io::Result<()> {
        let _bytes = block.bytes();
        let at = place as usize;
        if at >= self.front.len() {
            return Err(ErrorKind::NotFound.into());
        }
        self.writes.reserve(1)?;
        self.writes.push_reserved((place, *block));
        self.front[at] = *block;
        Ok(())
    }

    fn set_counter(&mut self, counter: u64) -> io::Result<()> {
        if counter == self.refused {
            return Err(ErrorKind::PermissionDenied.into());
        }
        self.counter = counter;
        Ok(())
    }

    ghost whole_image = { λ s.
        length-append (bytes_of s.front.items) (replicate s.rest (zeros 4096))
        ∙ (ap (λ n. n + length (replicate s.rest (zeros 4096))) (length-map s.front.items (λ block. block.0))
        ∙ (ap (λ n. length s.front.items + n) (length-replicate s.rest (zeros 4096)) ∙ s.whole)) };

    ghost whole_blocks = { λ s.
        All-append IsBlock (bytes_of s.front.items) (replicate s.rest (zeros 4096))
        (All-map IsBlock (λ block. block.0) s.front.items s.blocks)
        (All-replicate IsBlock s.rest (zeros 4096) IsBlock-zeros) };
}

#[test]
fn a_failed_call_of_the_store_changes_nothing(rt: HostRuntime) -> Result<(), Fail> {
    let front = vec![in rt.alloc(); Block::zeros(); 2]?;
    are_blocks(&front);
    let store = FewBlocks {
        front,
        rest: 66175,
        writes: Vec::new(rt.alloc()),
        counter: 7,
        refused: 9,
    };
    let mut disk = StoredDisk::over(rt.alloc(), store, 7)?;
    let key = disk.register(0)?;
    assert_eq!(rt; disk.register(1), Err(DiskNo::Failed));
    assert_eq!(rt; disk.counter(), 8);
    let block = Block([3; 4096]);
    assert_eq!(rt; disk.write(key, 2, &block), Err(DiskNo::Failed));
    assert_eq!(rt; disk.write(key, 1, &block), Ok(()));
    assert_eq!(rt; disk.read(key, 1), Ok(block));
    assert_eq!(rt; disk.calls(), 5);
    Ok(())
}
