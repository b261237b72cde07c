// Code over any device, and a device that hides its content.
ghost use Rattle.std.specs.Prelude.{◌<◌, None};
ghost use Rattle.shared_disk.specs.Events.{Acts, Fences, Reads, Registers, Tests, Writes, done_reply, event, key_reply, read_reply, tested_reply};
ghost use Rattle.shared_disk.specs.Seen.{seen_by};

use shared_disk::{Device, DiskNo, MemDisk, Tested};
use std::test::Fail;
use vol_base::{Block, HostNo, Key};

// Each call as one event.
fn read<D: Device>(disk: &mut D, key: Key, place: u64) -> Result<Block, DiskNo>
    requires { place < (D.state disk.old).blocks }
    ensures { Acts (event key.0 (Reads place) (read_reply result)) (seen_by D.Device disk.old) (seen_by D.Device disk.new) }
{
    disk.read(key, place)
}

fn write<D: Device>(disk: &mut D, key: Key, place: u64, block: &Block) -> Result<(), DiskNo>
    requires { place < (D.state disk.old).blocks }
    ensures { Acts (event key.0 (Writes place block.now.0) (done_reply result)) (seen_by D.Device disk.old) (seen_by D.Device disk.new) }
{
    disk.write(key, place, block)
}

fn test_and_set<D: Device>(
    disk: &mut D,
    key: Key,
    place: u64,
    old: &Block,
    new: &Block,
) -> Result<Tested, DiskNo>
    requires { place < (D.state disk.old).blocks }
    ensures { Acts (event key.0 (Tests place old.now.0 new.now.0) (tested_reply result)) (seen_by D.Device disk.old) (seen_by D.Device disk.new) }
{
    disk.test_and_set(key, place, old, new)
}

fn register<D: Device>(disk: &mut D, host: HostNo) -> Result<Key, DiskNo>
    requires { host < 16 }
    ensures { Acts (event 0 (Registers host) (key_reply result)) (seen_by D.Device disk.old) (seen_by D.Device disk.new) }
{
    disk.register(host)
}

fn fence<D: Device>(disk: &mut D, key: Key, target: Key) -> Result<(), DiskNo>
    ensures { Acts (event key.0 (Fences target.0) (done_reply result)) (seen_by D.Device disk.old) (seen_by D.Device disk.new) }
{
    disk.fence(key, target)
}

// A device that tells nothing of its content.
#[derive(Drop)]
struct Hidden<D> {
    disk: D,
}

impl<D: Device> Device for Hidden<D> {
    ghost state = { λ hidden. record (D.state hidden.disk) { told = None } };

    ghost faults = { λ hidden. D.faults hidden.disk };

    ghost room = { λ hidden. D.room hidden.disk };

    ghost answered = { λ hidden. D.answered hidden.disk };

    fn blocks(&self) -> u64 {
        self.disk.blocks()
    }

    fn counter(&self) -> u64 {
        self.disk.counter()
    }

    fn calls(&self) -> u64 {
        self.disk.calls()
    }

    fn read(&mut self, key: Key, place: u64) -> Result<Block, DiskNo> {
        self.disk.read(key, place)
    }

    fn write(&mut self, key: Key, place: u64, block: &Block) -> Result<(), DiskNo> {
        self.disk.write(key, place, block)
    }

    fn test_and_set(
        &mut self,
        key: Key,
        place: u64,
        old: &Block,
        new: &Block,
    ) -> Result<Tested, DiskNo> {
        self.disk.test_and_set(key, place, old, new)
    }

    fn register(&mut self, host: HostNo) -> Result<Key, DiskNo> {
        self.disk.register(host)
    }

    fn fence(&mut self, key: Key, target: Key) -> Result<(), DiskNo> {
        self.disk.fence(key, target)
    }

    ghost whole_image = { λ hidden. tt };

    ghost whole_blocks = { λ hidden. tt };

    ghost keys_reached = { λ hidden. D.keys_reached hidden.disk };

    ghost keys_named = { λ hidden. D.keys_named hidden.disk };

    ghost counter_fits = { λ hidden. D.counter_fits hidden.disk };
}

#[test]
fn a_device_that_hides_its_content_serves_too(rt: HostRuntime) -> Result<(), Fail> {
    let disk = MemDisk::new(rt.alloc(), 3)?;
    let mut hidden = Hidden { disk };
    let key = register(&mut hidden, 0)?;
    let nines = Block([9; 4096]);
    assert_eq!(rt; write(&mut hidden, key, 1, &nines), Ok(()));
    assert_eq!(rt; read(&mut hidden, key, 1), Ok(nines));
    assert_eq!(rt;
        test_and_set(&mut hidden, key, 2, &Block::zeros(), &nines),
        Ok(Tested::Swapped)
    );
    assert_eq!(rt; fence(&mut hidden, key, key), Ok(()));
    assert_eq!(rt;
        (hidden.blocks(), hidden.counter(), hidden.calls()),
        (3, 1, 5)
    );
    Ok(())
}
