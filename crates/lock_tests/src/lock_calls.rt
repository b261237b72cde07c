// The calls of the locks, which the world lends.
ghost use Rattle.std.specs.Prelude.{◌≡◌, ◌<◌, Contains, IsTrue, false, slice_index, true};
ghost use Rattle.disk_locks.specs.Calls.{IsShared};
ghost use Rattle.disk_locks.specs.Freeing.{IsOpen, MayEnterFrom};
ghost use Rattle.lock_store.specs.Memories.{holds};
ghost use Rattle.lock_store.specs.Views.{host_at};
ghost use Rattle.slot_lock_blocks.specs.LockWords.{IsLockWord, lock_readers};
ghost use Rattle.slot_lock_blocks.specs.Slots.{IsSlot};

use crate::hosts::{Asked, Hosts};
use disk_locks::Got;
use lock_store::{Claim, HostState, Took};
use shared_disk::{DiskNo, Tested};
use slot_lock_blocks::{LockWord, Readers, Slot};
use vol_base::{Block, FileNo, HostNo, Key};
use vol_layout::{Kind, Resource};

#[tactic(auto, using(crate::proofs::UntoldLaws::stays, crate::proofs::UntoldLaws::sure))]
impl Hosts {
    pub fn drop_host(&mut self, host: HostNo) {
        if self.has(host) {
            self.world.locks_mut().drop_host(host);
        }
    }

    pub fn register(&mut self, host: HostNo) -> Option<Result<Key, DiskNo>> {
        if !self.has(host) || self.world.locks().host(host).number() != 0 {
            return None;
        }
        Some(self.world.locks_mut().register(host))
    }

    pub fn fence(&mut self, host: HostNo, target: Key) -> Asked<()> {
        if !self.has_key(host) {
            return None;
        }
        Some(self.world.locks_mut().fence(host, target))
    }

    pub fn read_slot_of(&mut self, host: HostNo, of: HostNo) -> Asked<Slot> {
        if !self.has_key(host) || !self.has(of) {
            return None;
        }
        Some(self.world.locks_mut().read_slot_of(host, of))
    }

    pub fn beat(&mut self, host: HostNo) -> Asked<()> {
        if !self.is_joined(host) {
            return None;
        }
        Some(self.world.locks_mut().beat(host))
    }

    /// Tries the lock of a part or a group.
    pub fn try_lock(&mut self, host: HostNo, what: Resource) -> Asked<Got> {
        if !self.lacks(host, what) || !is_shared(what) {
            return None;
        }
        Some(self.world.locks_mut().try_lock(host, what))
    }

    pub fn unlock(&mut self, host: HostNo, what: Resource) -> Asked<()> {
        if !self.is_joined(host) || !self.holds(host, what) {
            return None;
        }
        Some(self.world.locks_mut().unlock(host, what))
    }
}

// Calls on files.
#[tactic(auto, using(crate::proofs::UntoldLaws::stays, crate::proofs::UntoldLaws::sure))]
impl Hosts {
    // Whether the host may try the lock of the file from this word.
    fn may_try(&self, host: HostNo, file: FileNo, from: &LockWord) -> bool
        ensures host { IsTrue result → host < self.now.world.locks.geometry.hosts }
        ensures small { IsTrue result → host < 16 }
        ensures joined { IsTrue result → (host_at self.now.world.locks host).joined ≡ true }
        ensures file { IsTrue result → file < self.now.world.locks.geometry.files }
        ensures out { IsTrue result → holds (host_at self.now.world.locks host) (Resource.File file) ≡ false }
        ensures word { IsTrue result → IsLockWord from.now }
        ensures open { IsTrue result → IsOpen from.now }
    {
        self.lacks(host, Resource::File(file)) && is_open(from)
    }

    pub fn try_read(&mut self, host: HostNo, file: FileNo, from: &LockWord) -> Asked<Took> {
        if !self.may_try(host, file, from) {
            return None;
        }
        Some(self.world.locks_mut().try_read(host, file, from))
    }

    pub fn try_write(&mut self, host: HostNo, file: FileNo, from: &LockWord) -> Asked<Took> {
        if !self.may_try(host, file, from) {
            return None;
        }
        Some(self.world.locks_mut().try_write(host, file, from))
    }

    pub fn release_read(&mut self, host: HostNo, file: FileNo, from: &LockWord) -> Asked<Took> {
        if !self.may_try(host, file, from) || !self.world.locks().reads(host, file) {
            return None;
        }
        if reader(from, host) != self.world.locks().host(host).number() {
            return None;
        }
        Some(self.world.locks_mut().release_read(host, file, from))
    }

    pub fn confirm(&mut self, host: HostNo, file: FileNo) -> Asked<()> {
        let what = Resource::File(file);
        if !self.has_key(host) || !self.has_resource(what) {
            return None;
        }
        if !self.world.locks().holds(host, what) && !self.world.locks().reads(host, file) {
            return None;
        }
        Some(self.world.locks_mut().confirm(host, file))
    }
}

// Calls on slots, and on what dead hosts left.
#[tactic(auto, using(crate::proofs::UntoldLaws::stays, crate::proofs::UntoldLaws::sure))]
impl Hosts {
    pub fn enter(&mut self, host: HostNo, from: &Slot) -> Asked<Claim> {
        if !self.has_key(host) {
            return None;
        }
        let memory = self.world.locks().host(host);
        if memory.joined || memory.freed || !is_slot(from) {
            return None;
        }
        if !may_enter(memory.number(), memory.claim(host), from) {
            return None;
        }
        Some(self.world.locks_mut().enter(host, from))
    }

    pub fn claim_slot(&mut self, host: HostNo, of: HostNo, from: &Slot) -> Asked<Claim> {
        if !self.has_key(host) || !self.has(of) || !is_slot(from) || *from == Slot::Free {
            return None;
        }
        if of == host && self.world.locks().host(host).joined {
            return None;
        }
        Some(self.world.locks_mut().claim_slot(host, of, from))
    }

    pub fn free_lock_of(&mut self, host: HostNo, of: HostNo, what: Resource) -> Asked<()> {
        if !self.claims(host, of) || !self.has_resource(what) {
            return None;
        }
        let dead = Key(self.world.locks().host(host).claim(of));
        Some(self.world.locks_mut().free_lock_of(host, dead, what))
    }

    /// Frees a slot that the host claimed.
    pub fn free_claimed(&mut self, host: HostNo, of: HostNo) -> Asked<()> {
        if !self.claims(host, of) || (of == host && self.world.locks().host(host).joined) {
            return None;
        }
        Some(self.world.locks_mut().free_slot(host, of))
    }

    /// Frees the own slot.
    pub fn leave(&mut self, host: HostNo) -> Asked<()> {
        if !self.has_key(host) || !self.is_joined(host) {
            return None;
        }
        let memory = self.world.locks().host(host);
        if !holds_nothing(memory) || memory.claim(host) != 0 {
            return None;
        }
        Some(self.world.locks_mut().free_slot(host, host))
    }
}

// Calls on the block of requests of a file.
#[tactic(auto, using(crate::proofs::UntoldLaws::stays, crate::proofs::UntoldLaws::sure))]
impl Hosts {
    pub fn read_request(&mut self, host: HostNo, file: FileNo) -> Asked<Block> {
        if !self.has_key(host) || !self.has_resource(Resource::File(file)) {
            return None;
        }
        Some(self.world.locks_mut().read_kind(host, Kind::Request(file)))
    }

    pub fn write_request(&mut self, host: HostNo, file: FileNo, block: &Block) -> Asked<()> {
        if !self.has_key(host) || !self.has_resource(Resource::File(file)) {
            return None;
        }
        Some(
            self.world
                .locks_mut()
                .write_kind(host, Kind::Request(file), block),
        )
    }

    pub fn swap_request(
        &mut self,
        host: HostNo,
        file: FileNo,
        old: &Block,
        new: &Block,
    ) -> Asked<Tested> {
        if !self.has_key(host) || !self.has_resource(Resource::File(file)) {
            return None;
        }
        Some(
            self.world
                .locks_mut()
                .swap_kind(host, Kind::Request(file), old, new),
        )
    }
}

fn is_shared(what: Resource) -> bool
    ensures { IsTrue result → IsShared what }
{
    match what {
        Resource::File(_) => false,
        Resource::Part(_) | Resource::Group(_) => true,
    }
}

fn holds_nothing(memory: &HostState) -> bool
    ensures { IsTrue result → Contains memory.now.held true → ⊥ }
{
    !memory.held.contains(&true)
}

// Whether the word is one in range that nobody holds.
fn is_open(word: &LockWord) -> bool
    ensures word { IsTrue result → IsLockWord word.now }
    ensures open { IsTrue result → IsOpen word.now }
{
    match word {
        LockWord::Free => true,
        LockWord::Held(_) => false,
        LockWord::Read(readers) => {
            let _first = readers.get(0);
            !readers.is_empty()
        }
    }
}

// The key under which the host reads, 0 for none.
fn reader(word: &LockWord, host: HostNo) -> u64
    requires { host < 16 }
    ensures { result ≡ slice_index (lock_readers word.now) host }
{
    let readers = match word {
        LockWord::Read(readers) => *readers,
        LockWord::Free | LockWord::Held(_) => Readers::none(),
    };
    readers.get(host).map_or(0, |key| key.0)
}

fn is_slot(slot: &Slot) -> bool
    ensures { IsTrue result → IsSlot slot.now }
{
    match *slot {
        Slot::Free => true,
        Slot::Live { key, beat: _beat } => key.0 != 0,
        Slot::Recovering { key, by } => key.0 != 0 && by.0 != 0,
    }
}

// Whether a host with this key, and with this claim of its own slot, may enter from this one.
fn may_enter(own: u64, claim: u64, from: &Slot) -> bool
    ensures { IsTrue result → MayEnterFrom own claim from.now }
{
    match *from {
        Slot::Free => true,
        Slot::Live { .. } => false,
        Slot::Recovering { key, by } => by.0 == own && key.0 == claim,
    }
}

/// The slot of a live host.
pub fn live(key: u64, beat: u64) -> Slot {
    Slot::Live {
        key: Key(key),
        beat,
    }
}
