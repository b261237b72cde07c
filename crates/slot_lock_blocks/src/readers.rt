// Who reads a file.
ghost use Rattle.std.specs.Prelude.{◌≡◌, ◌<◌, ◌≤◌, ◌↔◌, ◌+◌, ◌*◌, ◌++◌, ℕ, List, IfSome, IsNone, IsTrue, length, slice_index, slice_set};
ghost use Rattle.std.specs.List.{flat_map};
ghost use Rattle.vol_base.specs.Bytes.{bytes_of, u64_at};
ghost use Rattle.slot_lock_blocks.specs.Keys.{IsKeyOf};
ghost use Rattle.slot_lock_blocks.specs.ReaderKeys.{AreReaders, StandIn, key_number, nobody};

use crate::header::key_at;
use std::marker::Model;
use vol_base::{Block, Draft, HostNo, Key};

/// The readers of a file: for each of the 16 hosts the key under which it reads, or none. A contract
/// sees the 16 keys by host number, 0 for none.
#[derive(Clone, Copy, Debug, PartialEq, Eq)]
pub struct Readers {
    keys: [u64; 16],
}

impl Model for Readers {
    ghost use Rattle.std.specs.Prelude.{ℕ, List};
    ghost use Rattle.slot_lock_blocks.specs.ReaderKeys.{AreReaders};

    ghost Value = { List ℕ };

    ghost view = { λ readers. readers.keys };

    ghost invariant = { λ readers. AreReaders readers.keys };

    ghost inverse = { λ keys. record { keys = keys } };
}

impl Readers {
    /// No readers.
    pub fn none() -> Readers
        ensures { result ≡ nobody }
    {
        Readers { keys: [0; 16] }
    }

    /// The key under which the host reads; `None` where it does not.
    pub fn get(&self, host: HostNo) -> Option<Key>
        requires { host < 16 }
        ensures none { IsNone result ↔ (slice_index self.now host ≡ 0) }
        ensures key { IfSome result (λ key. key.0 ≡ slice_index self.now host) }
        ensures of_host { IfSome result (λ key. IsKeyOf host key.0) }
        ensures readers { AreReaders self.now }
    {
        match self.keys[usize::from(host)] {
            0 => None,
            key => Some(Key(key)),
        }
    }

    /// Notes the key under which the host reads, or that it does not.
    pub fn set(&mut self, host: HostNo, key: Option<Key>)
        requires host { host < 16 }
        requires key { IfSome key (λ key. IsKeyOf host key.0) }
        ensures noted { self.new ≡ slice_set self.old host (key_number key) }
        ensures readers { AreReaders self.new }
    {
        self.keys[usize::from(host)] = key.map_or(0, |key| key.0);
    }

    /// Whether no host reads.
    pub fn is_empty(&self) -> bool
        ensures { IsTrue result ↔ (self.now ≡ nobody) }
    {
        *self == Readers::none()
    }

    /// Writes the 16 keys, each of eight bytes.
    pub(crate) fn push_to(&self, draft: &mut Draft)
        requires { length draft.old + 128 ≤ 4096 }
        ensures keys { draft.new ≡ draft.old ++ flat_map (bytes_of 8) self.now }
        ensures long { length draft.new ≡ length draft.old + 128 }
    {
        for key in &self.keys {
            draft.push_u64(*key);
        }
    }

    /// What the places of a lock's readers hold: the readers whose keys stand there, if any.
    pub(crate) fn candidate(block: &Block) -> Readers
        ensures stand { (readers : List ℕ) → AreReaders readers → StandIn block.now.0 readers → result ≡ readers }
        ensures readers { AreReaders result }
    {
        let mut readers = Readers::none();
        for host in 0..16u8 {
            readers.set(host, reader_in(block, host));
        }
        readers
    }
}

// The key at a host's place, where it is a key of this host.
fn reader_in(block: &Block, host: HostNo) -> Option<Key>
    requires { host < 16 }
    ensures of_host { IfSome result (λ key. IsKeyOf host key.0) }
    ensures key { IsKeyOf host (u64_at block.now.0 (64 + 8 * host)) → key_number result ≡ u64_at block.now.0 (64 + 8 * host) }
    ensures none { u64_at block.now.0 (64 + 8 * host) ≡ 0 → key_number result ≡ 0 }
{
    key_at(block, 64 + 8 * usize::from(host)).filter(|key| key.0 % 16 == u64::from(host))
}
