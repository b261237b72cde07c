// The world of a small volume, as a test calls it.
ghost use Rattle.std.specs.Prelude.{◌≡◌, ◌≢◌, ◌<◌, [], IsTrue, None, true};
ghost use Rattle.lock_store.specs.Memories.{holds};
ghost use Rattle.lock_store.specs.Views.{host_at, key_at, told_of};
ghost use Rattle.plan_parts.specs.Holds.{IsOutside};
ghost use Rattle.plan_parts.specs.Steps.{IsReady};
ghost use Rattle.plan_parts.specs.TakenLocks.{IsTaking};
ghost use Rattle.vol_layout.specs.declared.kind.Resource.{Resource};

use crate::holds::{self, Came};
use crate::noting::Noting;
use crate::ready::{has_none, may_act, takes_none};
use crate::slots::{Eyes, act, join};
use crate::trace::Trace;
use crate::transactions::{self, Created, Sought};
use crate::untold::Untold;
use crate::volumes::blocks_of;
use crate::{alone, records};
use disk_locks::Locks;
use file_disk::StoredDisk;
use lock_store::{Claim, StepNo};
use meta_world::MetaWorld;
use plan_parts::{confirm, free_lock};
use recover_plan::LoneEnd;
use shared_disk::DiskNo;
use slot_lock_blocks::Slot;
use std::alloc::Global;
use vol_base::{Answer, Block, Command, FileNo, HostNo, Key, NoMemory};
use vol_layout::{Geometry, Resource};

/// The least volume of three hosts, two files and two groups, of 2,039 blocks.
pub const GEOMETRY: Geometry = Geometry {
    hosts: 3,
    files: 2,
    groups: 2,
    parts: 1,
    shards: 1,
    logs: 1,
    tables: 1,
};

/// The world of a volume that tells nothing of its content. Each call first asks for what it needs to stand in a host's memory, and is
/// not made where that does not stand: `None`.
#[derive(Drop)]
pub struct Worlds {
    pub(crate) world: MetaWorld<Noting<StoredDisk<Untold>>>,
    ghost untold: { told_of world.locks ≡ None },
}

/// What a call answered, where it was made.
pub type Asked<T> = Option<Result<T, StepNo>>;

impl Worlds {
    /// A volume as formatting leaves it.
    pub fn new(alloc: Global) -> Result<Worlds, NoMemory> {
        Worlds::full_from(alloc, 2)
    }

    /// The same, but that from this group on no data block is free.
    pub fn full_from(alloc: Global, group: u8) -> Result<Worlds, NoMemory> {
        let blocks = blocks_of(alloc, &GEOMETRY, group, &[])?;
        Worlds::over(alloc, blocks)
    }

    /// A volume of these blocks.
    pub fn over(alloc: Global, blocks: Vec<Block>) -> Result<Worlds, NoMemory> {
        let disk = StoredDisk::over(alloc, Untold { blocks }, 0)?;
        Ok(Worlds {
            world: MetaWorld::new(Locks::new(
                Noting::over(disk, Trace::empty(alloc, &GEOMETRY)),
                GEOMETRY,
            )),
        })
    }

    /// The device, with its calls.
    pub fn close(self) -> Noting<StoredDisk<Untold>> {
        self.world.close()
    }

    // Whether the volume has the host.
    pub(crate) fn has(&self, host: HostNo) -> bool
        ensures host { IsTrue result → host < self.now.world.locks.geometry.hosts }
        ensures small { IsTrue result → host < 16 }
    {
        host < self.world.locks().geometry().hosts
    }

    pub(crate) fn is_joined(&self, host: HostNo) -> bool
        ensures host { IsTrue result → host < self.now.world.locks.geometry.hosts }
        ensures joined { IsTrue result → (host_at self.now.world.locks host).joined ≡ true }
    {
        self.has(host) && self.world.locks().host(host).joined
    }

    // Whether the volume has the file, and the joined host not its write hold.
    fn is_outside(&self, host: HostNo, file: FileNo) -> bool
        ensures host { IsTrue result → host < self.now.world.locks.geometry.hosts }
        ensures outside { IsTrue result → IsOutside self.now.world host file }
    {
        self.is_joined(host)
            && file < self.world.locks().geometry().files
            && !self.world.locks().holds(host, Resource::File(file))
    }

    // Whether the joined host has the write hold of the file.
    pub(crate) fn is_writer(&self, host: HostNo, file: FileNo) -> bool
        ensures host { IsTrue result → host < self.now.world.locks.geometry.hosts }
        ensures joined { IsTrue result → (host_at self.now.world.locks host).joined ≡ true }
        ensures file { IsTrue result → file < self.now.world.locks.geometry.files }
        ensures held { IsTrue result → holds (host_at self.now.world.locks host) (Resource.File file) ≡ true }
    {
        self.is_joined(host)
            && file < self.world.locks().geometry().files
            && self.world.locks().holds(host, Resource::File(file))
    }

    // Whether the host has the write hold of the file, holds no part and no group, and the volume has the group.
    fn may_create(&self, host: HostNo, file: FileNo, group: u8) -> bool
        ensures host { IsTrue result → host < self.now.world.locks.geometry.hosts }
        ensures joined { IsTrue result → (host_at self.now.world.locks host).joined ≡ true }
        ensures file { IsTrue result → file < self.now.world.locks.geometry.files }
        ensures group { IsTrue result → group < self.now.world.locks.geometry.groups }
        ensures held { IsTrue result → holds (host_at self.now.world.locks host) (Resource.File file) ≡ true }
        ensures taking { IsTrue result → IsTaking self.now.world host [] }
    {
        if !self.is_writer(host, file) || !self.takes_none(host) {
            return false;
        }
        group < self.world.locks().geometry().groups
    }

    // Whether the host may begin a command on slots, on a volume of three hosts.
    pub(crate) fn is_ready(&self, host: HostNo) -> bool
        ensures host { IsTrue result → host < self.now.world.locks.geometry.hosts }
        ensures three { IsTrue result → self.now.world.locks.geometry.hosts ≡ 3 }
        ensures key { IsTrue result → key_at self.now.world.locks host ≢ 0 }
        ensures ready { IsTrue result → IsReady self.now.world host }
    {
        may_act(&self.world, host)
    }

    // Whether the host holds no part and no group.
    fn takes_none(&self, host: HostNo) -> bool
        requires { host < self.now.world.locks.geometry.hosts }
        ensures { IsTrue result → IsTaking self.now.world host [] }
    {
        takes_none(&self.world, host)
    }
}

#[tactic(auto, using(crate::proofs::UntoldLaws::stays, crate::proofs::UntoldLaws::sure))]
impl Worlds {
    pub fn register(&mut self, host: HostNo) -> Option<Result<Key, DiskNo>> {
        if !self.has(host) || self.world.locks().host(host).number() != 0 {
            return None;
        }
        Some(self.world.locks_mut().register(host))
    }

    /// Enters a free slot.
    pub fn enter(&mut self, host: HostNo) -> Asked<Claim> {
        if !self.has(host) {
            return None;
        }
        let memory = self.world.locks().host(host);
        if memory.number() == 0 || memory.joined || memory.freed {
            return None;
        }
        Some(self.world.locks_mut().enter(host, &Slot::Free))
    }

    /// Frees the own slot of a host that holds nothing.
    #[tactic(auto, using(crate::proofs::UntoldLaws::stays, crate::proofs::UntoldLaws::sure, crate::proofs::WorldLaws::may_leave))]
    pub fn leave(&mut self, host: HostNo) -> Asked<()> {
        if !self.has(host) {
            return None;
        }
        let memory = self.world.locks().host(host);
        if memory.number() == 0
            || !memory.joined
            || !has_none(memory, 0)
            || memory.claim(host) != 0
        {
            return None;
        }
        Some(self.world.locks_mut().free_slot(host, host))
    }
}

#[tactic(auto, using(crate::proofs::WorldLaws::still, crate::proofs::WorldLaws::none_stands))]
impl Worlds {
    pub fn take_write(&mut self, host: HostNo, file: FileNo) -> Asked<Came> {
        if !self.is_outside(host, file) {
            return None;
        }
        Some(holds::take_write(&mut self.world, host, file))
    }

    pub fn take_read(&mut self, host: HostNo, file: FileNo) -> Asked<Came> {
        if !self.is_outside(host, file) || self.world.locks().reads(host, file) {
            return None;
        }
        Some(holds::take_read(&mut self.world, host, file))
    }

    pub fn give_back(&mut self, host: HostNo, file: FileNo) -> Asked<Came> {
        if !self.is_outside(host, file) || !self.world.locks().reads(host, file) {
            return None;
        }
        Some(holds::give_back(&mut self.world, host, file))
    }

    /// Confirms a read hold.
    pub fn confirm(&mut self, host: HostNo, file: FileNo) -> Asked<()> {
        if !self.is_outside(host, file) || !self.world.locks().reads(host, file) {
            return None;
        }
        Some(confirm(&mut self.world, host, file))
    }

    /// Frees a write hold.
    pub fn free_lock(&mut self, host: HostNo, file: FileNo) -> Asked<()> {
        if !self.is_writer(host, file) {
            return None;
        }
        Some(free_lock(&mut self.world, host, Resource::File(file)))
    }

    /// Makes a file of no blocks under the lock of a group.
    pub fn create(&mut self, host: HostNo, file: FileNo, group: u8) -> Asked<Created> {
        if !self.may_create(host, file, group) {
            return None;
        }
        Some(transactions::create(&mut self.world, host, file, group, true))
    }

    /// Takes the locks for it and writes its record, behind which the host makes no call any more.
    pub fn commit(&mut self, host: HostNo, file: FileNo, group: u8) -> Asked<Created> {
        if !self.may_create(host, file, group) {
            return None;
        }
        Some(transactions::create(&mut self.world, host, file, group, false))
    }

    /// Takes the lock of group 0 and writes a record of two tables, behind which the host makes no call any more.
    pub fn commit_two(&mut self, host: HostNo, file: FileNo) -> Asked<Created> {
        if !self.may_create(host, file, 0) {
            return None;
        }
        Some(records::commit_two(&mut self.world, host, file))
    }

    pub fn search(&mut self, host: HostNo) -> Asked<Sought> {
        if !self.is_joined(host) || !self.takes_none(host) {
            return None;
        }
        Some(transactions::search(&mut self.world, host))
    }
}

impl Worlds {
    /// Runs a `join` of a lone host that has nothing in memory any more, by at most so many steps.
    pub fn join_alone(&mut self, host: HostNo, most: u8) -> Option<LoneEnd> {
        if !self.has(host) {
            return None;
        }
        alone::join_alone(&mut self.world, host, most)
    }

    /// Runs the recovery of another host by a lone one.
    pub fn recover_alone(&mut self, host: HostNo, of: HostNo, most: u8) -> Option<LoneEnd> {
        if !self.is_ready(host) {
            return None;
        }
        alone::recover_alone(&mut self.world, host, of, most)
    }
}

impl Worlds {
    /// Runs a `leave`, a `beat`, or a `look` at or a `recover` of another host, by at most so many steps.
    pub fn plan(
        &mut self,
        eyes: &mut Eyes,
        host: HostNo,
        command: Command,
        most: u8,
    ) -> Option<Answer> {
        if !self.is_ready(host) {
            return None;
        }
        act(&mut self.world, eyes, host, command, most)
    }

    /// Runs a `join` of a host that has nothing in memory any more, by at most so many steps.
    pub fn join(&mut self, host: HostNo, most: u8) -> Option<Answer> {
        if !self.has(host) {
            return None;
        }
        join(&mut self.world, host, most)
    }
}
