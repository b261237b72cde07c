// Whether a block is the slot of a host.
ghost use Rattle.std.specs.Prelude.{◌≡◌, ◌%◌, ◌↔◌, IsTrue};
ghost use Rattle.image_view.specs.Spelled.{IsSlotOf};
ghost use Rattle.slot_lock_blocks.specs.Slots.{IsSlot};
ghost use Rattle.volume_faults.specs.Spellings.{MayShow};

use crate::spelling::keys::is_given;
use slot_lock_blocks::{Slot, read_slot};
use vol_base::{Block, HostNo, Key};

/// Whether the block spells a slot of the host, with keys that the device gave.
pub fn is_slot_of(counter: u64, host: HostNo, block: &Block) -> bool
    ensures { IsTrue result ↔ IsSlotOf counter host block.now.0 }
{
    match read_slot(block) {
        None => false,
        Some(slot) => may_show(counter, host, slot),
    }
}

// Whether a host's slot may show these keys.
fn may_show(counter: u64, host: HostNo, slot: Slot) -> bool
    requires { IsSlot slot }
    ensures { IsTrue result ↔ MayShow counter host slot }
{
    match slot {
        Slot::Free => true,
        Slot::Live { key, beat: _ } => is_of_host(host, key) && is_given(counter, key),
        Slot::Recovering { key, by } => {
            is_of_host(host, key) && is_given(counter, key) && is_given(counter, by)
        }
    }
}

// Whether the key is one of the host's.
fn is_of_host(host: HostNo, key: Key) -> bool
    ensures { IsTrue result ↔ (key.0 % 16 ≡ host) }
{
    key.0 % 16 == u64::from(host)
}
