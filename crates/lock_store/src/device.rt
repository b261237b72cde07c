// One call of the device as one event.
ghost use Rattle.std.specs.Prelude.{◌≡◌, ◌<◌};
ghost use Rattle.shared_disk.specs.Events.{Acts, done_reply, event, key_reply, read_reply, tested_reply};
ghost use Rattle.shared_disk.specs.Events.{Fences, Reads, Registers, Tests, Writes};
ghost use Rattle.shared_disk.specs.Seen.{disk_seen};

use shared_disk::{Device, DiskNo, Tested};
use vol_base::{Block, HostNo, Key};

pub fn ask_read<D: Device>(disk: &mut D, key: Key, place: u64) -> Result<Block, DiskNo>
    requires { place < (D.state disk.old).blocks }
    ensures acts { Acts (event key.0 (Reads place) (read_reply result)) (disk_seen (D.state disk.old) (D.faults disk.old) (D.room disk.old) (D.answered disk.old)) (disk_seen (D.state disk.new) (D.faults disk.new) (D.room disk.new) (D.answered disk.new)) }
    ensures blocks { (D.state disk.new).blocks ≡ (D.state disk.old).blocks }
{
    disk.read(key, place)
}

pub fn ask_write<D: Device>(disk: &mut D, key: Key, place: u64, block: &Block) -> Result<(), DiskNo>
    requires { place < (D.state disk.old).blocks }
    ensures acts { Acts (event key.0 (Writes place block.now.0) (done_reply result)) (disk_seen (D.state disk.old) (D.faults disk.old) (D.room disk.old) (D.answered disk.old)) (disk_seen (D.state disk.new) (D.faults disk.new) (D.room disk.new) (D.answered disk.new)) }
    ensures blocks { (D.state disk.new).blocks ≡ (D.state disk.old).blocks }
{
    disk.write(key, place, block)
}

pub fn ask_swap<D: Device>(
    disk: &mut D,
    key: Key,
    place: u64,
    old: &Block,
    new: &Block,
) -> Result<Tested, DiskNo>
    requires { place < (D.state disk.old).blocks }
    ensures acts { Acts (event key.0 (Tests place old.now.0 new.now.0) (tested_reply result)) (disk_seen (D.state disk.old) (D.faults disk.old) (D.room disk.old) (D.answered disk.old)) (disk_seen (D.state disk.new) (D.faults disk.new) (D.room disk.new) (D.answered disk.new)) }
    ensures blocks { (D.state disk.new).blocks ≡ (D.state disk.old).blocks }
{
    disk.test_and_set(key, place, old, new)
}

pub fn ask_register<D: Device>(disk: &mut D, host: HostNo) -> Result<Key, DiskNo>
    requires { host < 16 }
    ensures acts { Acts (event 0 (Registers host) (key_reply result)) (disk_seen (D.state disk.old) (D.faults disk.old) (D.room disk.old) (D.answered disk.old)) (disk_seen (D.state disk.new) (D.faults disk.new) (D.room disk.new) (D.answered disk.new)) }
    ensures blocks { (D.state disk.new).blocks ≡ (D.state disk.old).blocks }
{
    disk.register(host)
}

pub fn ask_fence<D: Device>(disk: &mut D, key: Key, target: Key) -> Result<(), DiskNo>
    ensures acts { Acts (event key.0 (Fences target.0) (done_reply result)) (disk_seen (D.state disk.old) (D.faults disk.old) (D.room disk.old) (D.answered disk.old)) (disk_seen (D.state disk.new) (D.faults disk.new) (D.room disk.new) (D.answered disk.new)) }
    ensures blocks { (D.state disk.new).blocks ≡ (D.state disk.old).blocks }
{
    disk.fence(key, target)
}
