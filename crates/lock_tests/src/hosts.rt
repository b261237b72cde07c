// A small volume as a test calls it: its locks, and the world over them.
ghost use Rattle.std.specs.Prelude.{◌≡◌, ◌≢◌, ◌<◌, ◌^◌, IsTrue, None, false, true};
ghost use Rattle.lock_store.specs.Memories.{claim_of, holds};
ghost use Rattle.lock_store.specs.Views.{host_at, key_at, told_of};
ghost use Rattle.vol_layout.specs.Fields.{HasField};
ghost use Rattle.vol_layout.specs.Ranges.{HasResource, HasTable};

use crate::untold::Untold;
use disk_locks::Locks;
use file_disk::StoredDisk;
use lock_store::StepNo;
use meta_world::MetaWorld;
use std::alloc::Global;
use std::fmt::Debug;
use std::process::Abort;
use vol_base::{Block, FileNo, HostNo, Key, NoMemory};
use vol_layout::{Field, Geometry, Resource, Table};

/// The least volume of two hosts and four files, of 1,032 blocks.
pub const GEOMETRY: Geometry = Geometry {
    hosts: 2,
    files: 4,
    groups: 1,
    parts: 1,
    shards: 1,
    logs: 1,
    tables: 1,
};

/// The world of a volume that tells nothing of its content, with its locks. Each call first asks for what it needs to stand in a host's
/// memory, and is not made where that does not stand: `None`.
#[derive(Drop)]
pub struct Hosts {
    pub(crate) world: MetaWorld<StoredDisk<Untold>>,
    ghost untold: { told_of world.locks ≡ None },
}

/// What a call answered, where it was made.
pub type Asked<T> = Option<Result<T, StepNo>>;

impl Hosts {
    /// A volume as formatting leaves it, with this counter of registrations.
    pub fn new(alloc: Global, counter: u64) -> Result<Hosts, NoMemory>
        requires { counter < 2 ^ 59 }
    {
        Hosts::over(alloc, counter, GEOMETRY.total())
    }

    /// The same with no registration, but that the block at one place spells nothing.
    pub fn spoiled(alloc: Global, spoiled: u64) -> Result<Hosts, NoMemory> {
        Hosts::over(alloc, 0, spoiled)
    }

    fn over(alloc: Global, counter: u64, spoiled: u64) -> Result<Hosts, NoMemory>
        requires { counter < 2 ^ 59 }
    {
        let mut blocks = Vec::new(alloc);
        for place in 0..GEOMETRY.total() {
            let block = if place == spoiled {
                Block([1; 4096])
            } else {
                GEOMETRY.blank(place)
            };
            blocks.push(block).map_err(|_| NoMemory)?;
        }
        let disk = StoredDisk::over(alloc, Untold { blocks }, counter)?;
        Ok(Hosts {
            world: MetaWorld::new(Locks::new(disk, GEOMETRY)),
        })
    }

    /// The device, whose calls a test counts.
    pub fn close(self) -> StoredDisk<Untold> {
        self.world.close()
    }

    pub fn geometry(&self) -> &Geometry {
        self.world.locks().geometry()
    }

    pub fn key_of(&self, host: HostNo) -> Option<Key> {
        if !self.has(host) {
            return None;
        }
        self.world.locks().key_of(host)
    }

    pub fn reads(&self, host: HostNo, file: FileNo) -> bool {
        let what = Resource::File(file);
        self.has(host) && self.has_resource(what) && self.world.locks().reads(host, file)
    }

    pub fn holds(&self, host: HostNo, what: Resource) -> bool
        ensures host { IsTrue result → host < self.now.world.locks.geometry.hosts }
        ensures what { IsTrue result → HasResource self.now.world.locks.geometry what }
        ensures held { IsTrue result → holds (host_at self.now.world.locks host) what ≡ true }
    {
        self.has(host) && self.has_resource(what) && self.world.locks().holds(host, what)
    }

    // Whether the volume has the host.
    pub(crate) fn has(&self, host: HostNo) -> bool
        ensures host { IsTrue result → host < self.now.world.locks.geometry.hosts }
        ensures small { IsTrue result → host < 16 }
    {
        host < self.world.locks().geometry().hosts
    }

    // Whether the volume has the host, and the host a key.
    pub(crate) fn has_key(&self, host: HostNo) -> bool
        ensures host { IsTrue result → host < self.now.world.locks.geometry.hosts }
        ensures small { IsTrue result → host < 16 }
        ensures key { IsTrue result → key_at self.now.world.locks host ≢ 0 }
    {
        self.has(host) && self.world.locks().host(host).number() != 0
    }

    pub(crate) fn is_joined(&self, host: HostNo) -> bool
        ensures host { IsTrue result → host < self.now.world.locks.geometry.hosts }
        ensures small { IsTrue result → host < 16 }
        ensures joined { IsTrue result → (host_at self.now.world.locks host).joined ≡ true }
    {
        self.has(host) && self.world.locks().host(host).joined
    }

    pub(crate) fn has_resource(&self, what: Resource) -> bool
        ensures { IsTrue result → HasResource self.now.world.locks.geometry what }
    {
        let geometry = self.world.locks().geometry();
        match what {
            Resource::File(file) => file < geometry.files,
            Resource::Part(part) => part < geometry.parts,
            Resource::Group(group) => group < geometry.groups,
        }
    }

    // Whether the host is joined, and does not hold the resource, which the volume has.
    pub(crate) fn lacks(&self, host: HostNo, what: Resource) -> bool
        ensures host { IsTrue result → host < self.now.world.locks.geometry.hosts }
        ensures small { IsTrue result → host < 16 }
        ensures joined { IsTrue result → (host_at self.now.world.locks host).joined ≡ true }
        ensures what { IsTrue result → HasResource self.now.world.locks.geometry what }
        ensures out { IsTrue result → holds (host_at self.now.world.locks host) what ≡ false }
    {
        self.is_joined(host) && self.has_resource(what) && !self.world.locks().holds(host, what)
    }

    // Whether the host claimed the slot.
    pub(crate) fn claims(&self, host: HostNo, of: HostNo) -> bool
        ensures host { IsTrue result → host < self.now.world.locks.geometry.hosts }
        ensures key { IsTrue result → key_at self.now.world.locks host ≢ 0 }
        ensures of { IsTrue result → of < self.now.world.locks.geometry.hosts }
        ensures small { IsTrue result → of < 16 }
        ensures claim { IsTrue result → claim_of (host_at self.now.world.locks host) of ≢ 0 }
    {
        self.has_key(host) && self.has(of) && self.world.locks().host(host).claim(of) != 0
    }

    pub(crate) fn has_table(&self, which: Table) -> bool
        ensures { IsTrue result → HasTable self.now.world.locks.geometry which }
    {
        let geometry = self.world.locks().geometry();
        match which {
            Table::File(file) => file < geometry.files,
            Table::Group(group) => group < geometry.groups,
            Table::Part(part) => part < geometry.parts,
            Table::More(file, more) => file < geometry.files && 1 <= more && more < geometry.tables,
        }
    }

    pub(crate) fn has_field(&self, field: Field) -> bool
        ensures { IsTrue result → HasField self.now.world.locks.geometry field }
    {
        self.world.locks().geometry().has_field(&field)
    }
}

/// Compares what a call answered.
pub fn expect<T: Copy + PartialEq + Debug>(rt: &impl Abort, answer: T, expected: T) {
    assert_eq!(rt; answer, expected);
}
