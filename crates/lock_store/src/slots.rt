// Tries and reads of slots.
ghost use Rattle.std.specs.Prelude.{◌≡◌, ◌<◌, IfNone, IfSome};
ghost use Rattle.lock_store.specs.SlotTries.{FitsSlot, IsOfHost, MayShow, ReadsSlot, TriesSlot};
ghost use Rattle.lock_store.specs.Views.{host_at, key_at};
ghost use Rattle.slot_lock_blocks.specs.Slots.{SpellsSlot};

use crate::answers::{Claim, StepNo};
use crate::host::HostState;
use crate::purpose::{SlotUse, is_of_host, may_show};
use crate::store::Store;
use shared_disk::{Device, Tested};
use slot_lock_blocks::{Slot, read_slot, write_slot};
use vol_base::{Block, HostNo, Key};
use vol_layout::Kind;

impl<D: Device> Store<D> {
    /// Tries the slot of a host from one content to another; `after` is what the trying host then has in memory. Another content
    /// is found where it may stand there; a block of another kind drops the trying host.
    pub fn try_slot(
        &mut self,
        host: HostNo,
        key: Key,
        of: HostNo,
        seen: SlotUse,
        from: &Slot,
        to: &Slot,
        after: &HostState,
    ) -> Result<Claim, StepNo>
        requires host { host < 16 }
        requires key { key_at self.old host ≡ key.0 }
        requires of { of < self.old.geometry.hosts }
        requires small { of < 16 }
        ensures did { TriesSlot self.old host of seen from.now to.now after.now result self.new }
    {
        let memory = *self.host(host);
        let kind = Kind::Slot(of);
        match self.swap(host, key, kind, &write_slot(from), &write_slot(to), after) {
            Ok(Tested::Swapped) => Ok(Claim::Claimed),
            Ok(Tested::Found(block)) => match found_slot(&block, seen, of, &memory) {
                Some(slot) => Ok(Claim::Found(slot)),
                None => Err(self.unfit(host, kind)),
            },
            Err(why) => Err(why),
        }
    }

    /// Reads the slot of a host, which drops the reading host where the block is not of its kind.
    pub fn read_slot(&mut self, host: HostNo, key: Key, of: HostNo) -> Result<Slot, StepNo>
        requires host { host < 16 }
        requires key { key_at self.old host ≡ key.0 }
        requires of { of < self.old.geometry.hosts }
        requires small { of < 16 }
        ensures did { ReadsSlot self.old host of result self.new }
    {
        let memory = *self.host(host);
        let kind = Kind::Slot(of);
        match self.read(host, key, kind) {
            Ok(block) => match found_slot(&block, SlotUse::Look, of, &memory) {
                Some(slot) => Ok(slot),
                None => Err(self.unfit(host, kind)),
            },
            Err(why) => Err(why),
        }
    }
}

// The slot that a block spells, where it may stand there; `None` exactly where the block is not of its kind.
fn found_slot(block: &Block, seen: SlotUse, of: HostNo, memory: &HostState) -> Option<Slot>
    requires { of < 16 }
    ensures spelled { IfSome result (λ slot. SpellsSlot block.now.0 slot) }
    ensures host { IfSome result (λ slot. IsOfHost of slot) }
    ensures shown { IfSome result (λ slot. MayShow seen of memory.now slot) }
    ensures none { IfNone result (FitsSlot seen of memory.now block.now.0 → ⊥) }
{
    let slot = read_slot(block)?;
    if is_of_host(of, &slot) && may_show(seen, of, memory, &slot) {
        Some(slot)
    } else {
        None
    }
}
