// Blocks that are no slots and no locks.
ghost use Rattle.std.specs.Prelude.{◌≡◌, ◌≢◌, ◌<◌};
ghost use Rattle.disk_locks.specs.MayWrite.{IsWritable, MayWrite};
ghost use Rattle.disk_locks.specs.Others.{Others};
ghost use Rattle.disk_locks.specs.Sure.{Sure};
ghost use Rattle.image_view.specs.Images.{written};
ghost use Rattle.image_view.specs.Valid.{IsValid};
ghost use Rattle.lock_store.specs.Calls.{ReadsBlock, SwapsBlock, WritesBlock};
ghost use Rattle.lock_store.specs.Views.{counter_of, host_at, key_at};
ghost use Rattle.vol_layout.specs.Ranges.{HasKind};

use crate::locks::Locks;
use lock_store::StepNo;
use shared_disk::{Device, Tested};
use vol_base::{Block, HostNo};
use vol_layout::Kind;

impl<D: Device> Locks<D> {
    /// Reads the block of a kind.
    pub fn read_kind(&mut self, host: HostNo, kind: Kind) -> Result<Block, StepNo>
        requires host { host < self.old.geometry.hosts }
        requires key { key_at self.old host ≢ 0 }
        requires kind { HasKind self.old.geometry kind }
        ensures did { ReadsBlock self.old host kind result self.new }
        ensures others { Others host self.old self.new }
    {
        let key = self.key(host);
        let block = self.store.read(host, key, kind);
        self.store.known();
        block
    }

    /// Writes a block that is no slot and no lock, where that wrongs no other host.
    pub fn write_kind(&mut self, host: HostNo, kind: Kind, block: &Block) -> Result<(), StepNo>
        requires host { host < self.old.geometry.hosts }
        requires key { key_at self.old host ≢ 0 }
        requires kind { IsWritable self.old.geometry kind }
        requires valid { Sure self.old host (λ image. IsValid self.old.geometry (counter_of self.old) (written self.old.geometry image kind block.now.0)) }
        requires may { Sure self.old host (λ image. MayWrite self.old.geometry host (host_at self.old host) image kind block.now.0) }
        ensures did { WritesBlock self.old host kind block.now.0 (host_at self.old host) result self.new }
        ensures others { Others host self.old self.new }
    {
        let key = self.key(host);
        let memory = *self.me(host);
        let done = self.store.write(host, key, kind, block, &memory);
        self.store.known();
        done
    }

    /// The same by test-and-set: writes `new` where the block equals `old`, and else hands out the block that stands there.
    pub fn swap_kind(
        &mut self,
        host: HostNo,
        kind: Kind,
        old: &Block,
        new: &Block,
    ) -> Result<Tested, StepNo>
        requires host { host < self.old.geometry.hosts }
        requires key { key_at self.old host ≢ 0 }
        requires kind { IsWritable self.old.geometry kind }
        requires valid { Sure self.old host (λ image. IsValid self.old.geometry (counter_of self.old) (written self.old.geometry image kind new.now.0)) }
        requires may { Sure self.old host (λ image. MayWrite self.old.geometry host (host_at self.old host) image kind new.now.0) }
        ensures did { SwapsBlock self.old host kind old.now.0 new.now.0 (host_at self.old host) result self.new }
        ensures others { Others host self.old self.new }
    {
        let key = self.key(host);
        let memory = *self.me(host);
        let swapped = self.store.swap(host, key, kind, old, new, &memory);
        self.store.known();
        swapped
    }
}
