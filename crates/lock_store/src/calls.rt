// The five calls that make one event of the device, with what they leave in memory.
ghost use Rattle.std.specs.Prelude.{◌≡◌, ◌<◌, ◌≢◌, ◌-◌, ◌^◌, ◌↔◌, Err};
ghost use Rattle.lock_store.specs.Calls.{FencesKey, ReadsBlock, RegistersHost, SwapsBlock, WritesBlock};
ghost use Rattle.lock_store.specs.Events.{IsRefusalOf, Notes};
ghost use Rattle.lock_store.specs.Memories.{dropped};
ghost use Rattle.lock_store.specs.Views.{counter_of, host_at, key_at};
ghost use Rattle.vol_layout.specs.Places.{place_of};
ghost use Rattle.vol_layout.specs.Ranges.{HasKind};

use crate::answers::StepNo;
use crate::device::{ask_fence, ask_read, ask_register, ask_swap, ask_write};
use crate::host::HostState;
use crate::store::Store;
use shared_disk::{Device, DiskNo, Tested};
use vol_base::{Block, HostNo, Key};
use vol_layout::Kind;

impl<D: Device> Store<D> {
    /// Gives the host a key.
    pub fn register(&mut self, host: HostNo) -> Result<Key, DiskNo>
        requires host { host < 16 }
        requires none { key_at self.old host ≡ 0 }
        ensures did { RegistersHost self.old host result self.new }
    {
        match ask_register(&mut self.disk, host) {
            Ok(key) => {
                self.note(host, &HostState::registered(key));
                Ok(key)
            }
            Err(why) => Err(why),
        }
    }

    /// Takes a key off the device.
    pub fn fence(&mut self, host: HostNo, key: Key, target: Key) -> Result<(), StepNo>
        requires host { host < 16 }
        requires key { key_at self.old host ≡ key.0 }
        ensures did { FencesKey self.old host target result self.new }
    {
        match ask_fence(&mut self.disk, key, target) {
            Ok(()) => Ok(()),
            Err(why) => Err(self.refused(host, why)),
        }
    }

    /// Reads the block of a kind.
    pub fn read(&mut self, host: HostNo, key: Key, kind: Kind) -> Result<Block, StepNo>
        requires host { host < 16 }
        requires key { key_at self.old host ≡ key.0 }
        requires kind { HasKind self.old.geometry kind }
        ensures did { ReadsBlock self.old host kind result self.new }
    {
        let place = self.geometry.place(kind);
        match ask_read(&mut self.disk, key, place) {
            Ok(block) => Ok(block),
            Err(why) => Err(self.refused(host, why)),
        }
    }

    /// Writes the block of a kind; `after` is what the host then has in memory.
    pub fn write(
        &mut self,
        host: HostNo,
        key: Key,
        kind: Kind,
        block: &Block,
        after: &HostState,
    ) -> Result<(), StepNo>
        requires host { host < 16 }
        requires key { key_at self.old host ≡ key.0 }
        requires kind { HasKind self.old.geometry kind }
        ensures did { WritesBlock self.old host kind block.now.0 after.now result self.new }
    {
        let place = self.geometry.place(kind);
        match ask_write(&mut self.disk, key, place, block) {
            Ok(()) => {
                self.note(host, after);
                Ok(())
            }
            Err(why) => Err(self.refused(host, why)),
        }
    }

    /// Writes `new` as the block of a kind where it equals `old`; `after` is what the host then has in memory.
    pub fn swap(
        &mut self,
        host: HostNo,
        key: Key,
        kind: Kind,
        old: &Block,
        new: &Block,
        after: &HostState,
    ) -> Result<Tested, StepNo>
        requires host { host < 16 }
        requires key { key_at self.old host ≡ key.0 }
        requires kind { HasKind self.old.geometry kind }
        ensures did { SwapsBlock self.old host kind old.now.0 new.now.0 after.now result self.new }
    {
        let place = self.geometry.place(kind);
        match ask_swap(&mut self.disk, key, place, old, new) {
            Ok(Tested::Swapped) => {
                self.note(host, after);
                Ok(Tested::Swapped)
            }
            Ok(Tested::Found(block)) => Ok(Tested::Found(block)),
            Err(why) => Err(self.refused(host, why)),
        }
    }

    // What a refusal of the device is to the host, which is dropped but where memory was refused.
    fn refused(&mut self, host: HostNo, why: DiskNo) -> StepNo
        requires { host < 16 }
        ensures { IsRefusalOf host why result self.old self.new }
    {
        match why {
            DiskNo::Fenced => {
                self.note(host, &HostState::dropped());
                StepNo::Fenced
            }
            DiskNo::NoMemory => StepNo::NoMemory,
            DiskNo::Failed | DiskNo::NoKeys => {
                self.note(host, &HostState::dropped());
                StepNo::Failed
            }
        }
    }

    /// Drops the host whose block of a kind does not fit, and says where it stands.
    pub(crate) fn unfit(&mut self, host: HostNo, kind: Kind) -> StepNo
        requires host { host < 16 }
        requires kind { HasKind self.old.geometry kind }
        ensures bad { result ≡ StepNo.Bad (place_of self.old.geometry kind) }
        ensures dropped { Notes host dropped self.old self.new }
    {
        let place = self.geometry.place(kind);
        self.note(host, &HostState::dropped());
        StepNo::Bad(place)
    }
}
