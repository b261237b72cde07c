// Whether a block is the lock of a resource.
ghost use Rattle.std.specs.Prelude.{◌<◌, ◌↔◌, IsTrue};
ghost use Rattle.image_view.specs.Spelled.{IsLockOf};
ghost use Rattle.slot_lock_blocks.specs.LockWords.{IsLockWord};
ghost use Rattle.slot_lock_blocks.specs.ReaderKeys.{AreReaders};
ghost use Rattle.volume_faults.specs.Spellings.{AreReadersOf, IsFile, IsReaderOf, MaySay};

use crate::spelling::keys::is_given;
use slot_lock_blocks::{LockWord, Readers, read_lock};
use vol_base::{Block, HostNo};
use vol_layout::{Geometry, Resource};

/// Whether the block spells a lock of the resource, with keys that the device gave.
pub fn is_lock_of(geometry: &Geometry, counter: u64, resource: Resource, block: &Block) -> bool
    ensures { IsTrue result ↔ IsLockOf geometry.now counter resource block.now.0 }
{
    match read_lock(block) {
        None => false,
        Some(word) => may_say(geometry, counter, resource, &word),
    }
}

// Whether a resource's lock may say this.
fn may_say(geometry: &Geometry, counter: u64, resource: Resource, word: &LockWord) -> bool
    requires { IsLockWord word.now }
    ensures { IsTrue result ↔ MaySay geometry.now counter resource word.now }
{
    match word {
        LockWord::Free => true,
        LockWord::Held(key) => is_given(counter, *key),
        LockWord::Read(readers) => is_file(resource) && are_readers(geometry, counter, readers),
    }
}

// Whether the resource is a file.
fn is_file(resource: Resource) -> bool
    ensures { IsTrue result ↔ IsFile resource }
{
    matches!(resource, Resource::File(_))
}

// Whether the readers are hosts of the volume, under keys that the device gave.
fn are_readers(geometry: &Geometry, counter: u64, readers: &Readers) -> bool
    requires { AreReaders readers.now }
    ensures { IsTrue result ↔ AreReadersOf geometry.now counter readers.now }
{
    for host in 0..16u8 {
        if !is_reader(geometry, counter, readers, host) {
            return false;
        }
    }
    true
}

// Whether the host does not read, or may read under its key.
fn is_reader(geometry: &Geometry, counter: u64, readers: &Readers, host: HostNo) -> bool
    requires { host < 16 }
    ensures { IsTrue result ↔ IsReaderOf geometry.now counter readers.now host }
{
    match readers.get(host) {
        None => true,
        Some(key) => host < geometry.hosts && is_given(counter, key),
    }
}
