// What a try is made for, and which words it may find.
ghost use Rattle.std.specs.Prelude.{◌≡◌, ◌<◌, ◌↔◌, IsTrue, slice_index};
ghost use Rattle.lock_store.specs.SlotTries.{IsOfHost, MayShow, slot_by};
ghost use Rattle.lock_store.specs.Tries.{MayBeAmong, MayFind};
ghost use Rattle.slot_lock_blocks.specs.Slots.{slot_key};

use crate::host::HostState;
use slot_lock_blocks::{LockWord, Readers, Slot};
use vol_base::{HostNo, Key};

/// What a try of a lock is made for: to hold a part or a group, to read a file, to hold a file, to read it no more, or to
/// free a dead host's lock.
#[derive(Clone, Copy)]
pub enum Purpose {
    Share,
    Read,
    Write,
    Release,
    Clear,
}

/// What a slot is seen for: to look at it, to enter or to claim it, to enter it from the own claim, or to free it.
#[derive(Clone, Copy)]
pub enum SlotUse {
    Look,
    Take,
    Retake,
    Clear,
}

/// Who tries: a host, its key, and whether it reads the file.
#[derive(Clone, Copy)]
pub struct Trier {
    pub host: HostNo,
    pub key: Key,
    pub reads: bool,
}

impl Trier {
    /// Whether the word may stand where the try finds another one than it hoped for.
    pub(crate) fn may_find(&self, purpose: Purpose, word: &LockWord) -> bool
        requires { self.now.host < 16 }
        ensures { IsTrue result ↔ MayFind purpose self.now word.now }
    {
        match purpose {
            Purpose::Share => match word {
                LockWord::Held(key) => key.0 != self.key.0,
                LockWord::Free | LockWord::Read(_) => false,
            },
            Purpose::Read => match word {
                LockWord::Free => true,
                LockWord::Held(key) => key.0 != self.key.0,
                LockWord::Read(readers) => self.reads || !self.is_among(readers),
            },
            Purpose::Write => match word {
                LockWord::Free => !self.reads,
                LockWord::Held(key) => key.0 != self.key.0,
                LockWord::Read(readers) => self.reads || !self.is_among(readers),
            },
            Purpose::Release => match word {
                LockWord::Read(readers) => self.is_among(readers),
                LockWord::Free | LockWord::Held(_) => false,
            },
            Purpose::Clear => true,
        }
    }
}

impl Trier {
    // Whether the readers' keys have the own one.
    fn is_among(&self, readers: &Readers) -> bool
        requires { self.now.host < 16 }
        ensures { IsTrue result ↔ (slice_index readers.now self.now.host ≡ self.now.key.0) }
    {
        readers.get(self.host).map_or(0, |key| key.0) == self.key.0
    }
}

/// Whether a slot of this host may stand there, as a host sees it that has this in memory.
pub(crate) fn may_show(seen: SlotUse, of: HostNo, memory: &HostState, slot: &Slot) -> bool
    requires { of < 16 }
    ensures { IsTrue result ↔ MayShow seen of memory.now slot.now }
{
    let own = memory.number();
    match seen {
        SlotUse::Look => by(slot) != own || memory.claim(of) != 0,
        SlotUse::Take => {
            (by(slot) != own || memory.claim(of) != 0) && (shown(slot) != own || memory.joined)
        }
        SlotUse::Retake => {
            by(slot) != own && (shown(slot) != own || memory.joined) && *slot != Slot::Free
        }
        SlotUse::Clear => true,
    }
}

/// Whether the slot's key, if it shows one, is of this host.
pub(crate) fn is_of_host(of: HostNo, slot: &Slot) -> bool
    ensures { IsTrue result ↔ IsOfHost of slot.now }
{
    shown(slot) == 0 || shown(slot) % 16 == u64::from(of)
}

fn shown(slot: &Slot) -> u64
    ensures { result ≡ slot_key slot.now }
{
    match *slot {
        Slot::Free => 0,
        Slot::Live { key, .. } | Slot::Recovering { key, .. } => key.0,
    }
}

fn by(slot: &Slot) -> u64
    ensures { result ≡ slot_by slot.now }
{
    match *slot {
        Slot::Free | Slot::Live { .. } => 0,
        Slot::Recovering { by, .. } => by.0,
    }
}
