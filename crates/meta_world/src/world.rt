// The world of the hosts: the locks, and each host's record that stands.
ghost use Rattle.std.specs.Prelude.{◌≡◌, ◌≢◌, ◌<◌, ℕ, None, length, replicate, true};
ghost use Rattle.std.specs.Borrow.{sem};
ghost use Rattle.disk_locks.specs.Consistent.{Consistent};
ghost use Rattle.disk_locks.specs.MayWrite.{IsWritable};
ghost use Rattle.disk_locks.specs.Others as locks';
ghost use Rattle.host_facts.specs.Wrote.{HasValidImage};
ghost use Rattle.lock_store.specs.Calls.{ReadsBlock, WritesBlock};
ghost use Rattle.lock_store.specs.Events.{Notes};
ghost use Rattle.lock_store.specs.Memories.{claim_of, dropped, holds, may_read};
ghost use Rattle.lock_store.specs.Views.{host_at, key_at};
ghost use Rattle.meta_world.specs.Lending.{LendsLocks};
ghost use Rattle.meta_world.specs.MayPut.{MayPut};
ghost use Rattle.shared_disk.specs.Seen.{disk_seen};
ghost use Rattle.vol_layout.specs.Places.{place_of};
ghost use Rattle.vol_layout.specs.Ranges.{HasKind};
ghost use Rattle.vol_layout.specs.declared.kind.Resource.{Resource};

use disk_locks::Locks;
use journal_block::Record;
use lock_store::StepNo;
use shared_disk::Device;
use std::marker::Model;
use vol_base::{Block, HostNo};
use vol_layout::Kind;

/// The tables, data blocks, journals and hint blocks of a volume, under the locks of its hosts. What it is is seen as the locks, and
/// the record of each host that stands; between any two calls a told image is valid, as the locks keep it.
#[derive(Drop)]
pub struct MetaWorld<D: Device> {
    pub(crate) locks: Locks<D>,
    pub(crate) standing: [Option<Record>; 16],
}

impl<D: Device> Model for MetaWorld<D> {
    ghost use Rattle.std.specs.Prelude.{◌≡◌, length};
    ghost use Rattle.host_facts.specs.Views.{WorldView};

    ghost Value = { WorldView };

    ghost view = { λ w. record { locks = w.locks; standing = w.standing } };

    ghost invariant = { λ w. length w.standing ≡ 16 };
}

impl<D: Device> MetaWorld<D> {
    /// The world over these locks, in which no record stands in memory. No device call is made.
    pub fn new(locks: Locks<D>) -> MetaWorld<D>
        ensures { result ≡ record { locks = locks; standing = replicate 16 None } }
    {
        MetaWorld {
            locks,
            standing: [
                None, None, None, None, None, None, None, None, None, None, None, None, None, None,
                None, None,
            ],
        }
    }

    /// The locks: keys, holds and the geometry. No device call is made.
    pub fn locks(&self) -> &Locks<D>
        ensures { result.now ≡ self.now.locks }
    {
        &self.locks
    }

    /// The locks, for their own calls; what each call of them owes is asked there. No device call is made by this one.
    pub fn locks_mut(&mut self) -> &mut Locks<D>
        ensures* writes_back { sem 𝓛 (LendsLocks D.row D.Device self.entry result) }
        ensures now { result.now ≡ self.old.locks }
    {
        &mut self.locks
    }

    /// The device, with no call of it.
    pub fn close(self) -> D
        ensures { self.locks.disk ≡ disk_seen (D.state result) (D.faults result) (D.room result) (D.answered result) }
    {
        self.locks.close()
    }
}

impl<D: Device> MetaWorld<D> {
    // What holds between any two calls.
    pub(crate) fn known(&self, host: HostNo)
        requires { host < self.now.locks.geometry.hosts }
        ensures consistent { Consistent self.now.locks }
        ensures valid { HasValidImage self.now }
        ensures long { length self.now.standing ≡ 16 }
        ensures small { host < 16 }
        ensures joined { (host_at self.now.locks host).joined ≡ true → key_at self.now.locks host ≢ 0 }
        ensures named { (what : Resource) → may_read (host_at self.now.locks host) what ≡ true → key_at self.now.locks host ≢ 0 }
        ensures holder { (what : Resource) → holds (host_at self.now.locks host) what ≡ true → key_at self.now.locks host ≢ 0 }
        ensures claims { (of : ℕ) → claim_of (host_at self.now.locks host) of ≢ 0 → key_at self.now.locks host ≢ 0 }
    {
        let _geometry = self.locks.geometry();
    }

    // Reads the block of a kind.
    pub(crate) fn get(&mut self, host: HostNo, kind: Kind) -> Result<Block, StepNo>
        requires host { host < self.old.locks.geometry.hosts }
        requires key { key_at self.old.locks host ≢ 0 }
        requires kind { HasKind self.old.locks.geometry kind }
        ensures did { ReadsBlock self.old.locks host kind result self.new.locks }
        ensures others { locks'.Others host self.old.locks self.new.locks }
        ensures standing { self.new.standing ≡ self.old.standing }
    {
        self.locks.read_kind(host, kind)
    }

    // Writes the block of a kind, where that keeps the image valid and wrongs no other host.
    pub(crate) fn put(&mut self, host: HostNo, kind: Kind, block: &Block) -> Result<(), StepNo>
        requires host { host < self.old.locks.geometry.hosts }
        requires key { key_at self.old.locks host ≢ 0 }
        requires kind { IsWritable self.old.locks.geometry kind }
        requires may { MayPut self.old.locks host kind block.now.0 }
        ensures did { WritesBlock self.old.locks host kind block.now.0 (host_at self.old.locks host) result self.new.locks }
        ensures others { locks'.Others host self.old.locks self.new.locks }
        ensures standing { self.new.standing ≡ self.old.standing }
    {
        self.locks.write_kind(host, kind, block)
    }

    // Drops a host that read a block which is not of its kind.
    pub(crate) fn bad(&mut self, host: HostNo, kind: Kind) -> StepNo
        requires host { host < self.old.locks.geometry.hosts }
        requires kind { HasKind self.old.locks.geometry kind }
        ensures bad { result ≡ StepNo.Bad (place_of self.old.locks.geometry kind) }
        ensures did { Notes host dropped self.old.locks self.new.locks }
        ensures others { locks'.Others host self.old.locks self.new.locks }
        ensures standing { self.new.standing ≡ self.old.standing }
    {
        let place = self.locks.geometry().place(kind);
        self.locks.drop_host(host);
        StepNo::Bad(place)
    }
}
