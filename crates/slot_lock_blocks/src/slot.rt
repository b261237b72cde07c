// The slot of a host.
ghost use Rattle.std.specs.Prelude.{◌≡◌, IfNone, IfSome};
ghost use Rattle.slot_lock_blocks.specs.Slots.{IsSlot, SpellsSlot, slot_bytes, slot_key, slot_second, slot_state};
ghost use Rattle.slot_lock_blocks.specs.declared.slot.Slot.{Slot};

use crate::header::{header, key_at};
use vol_base::{Block, Key};

/// What a host's slot says: that the host is away, that it is there under a key and has shown so many
/// beats, or that the host of the key `by` recovers what the host with the key `key` left.
#[derive(Clone, Copy, Debug, PartialEq, Eq)]
pub enum Slot {
    Free,
    Live { key: Key, beat: u64 },
    Recovering { key: Key, by: Key },
}

const MAGIC: [u8; 8] = *b"DEDESLOT";

/// The slot that a block spells. It is `None` exactly where the block is not the one spelling of a
/// slot in range.
pub fn read_slot(block: &Block) -> Option<Slot>
    ensures spelled { IfSome result (λ slot. SpellsSlot block.now.0 slot) }
    ensures only { (slot : Slot) → SpellsSlot block.now.0 slot → result ≡ Some slot }
    ensures none { IfNone result ((slot : Slot) → SpellsSlot block.now.0 slot → ⊥) }
{
    let slot = candidate(block)?;
    if write_slot(&slot).same(block) {
        Some(slot)
    } else {
        None
    }
}

/// The block of a slot. Where the slot is in range, this block alone reads as it.
pub fn write_slot(slot: &Slot) -> Block
    ensures bytes { result.0 ≡ slot_bytes slot.now }
    ensures reads { IsSlot slot.now → SpellsSlot result.0 slot.now }
{
    let mut draft = header(&MAGIC, slot.state(), slot.key());
    draft.push_u64(slot.second());
    draft.finish()
}

// What the places of a slot's numbers hold: the slot that the block spells, if any.
fn candidate(block: &Block) -> Option<Slot>
    ensures range { IfSome result (λ slot. IsSlot slot) }
    ensures spelled { (slot : Slot) → SpellsSlot block.now.0 slot → result ≡ Some slot }
{
    match block.u32_at(8) {
        0 => Some(Slot::Free),
        1 => Some(Slot::Live {
            key: key_at(block, 16)?,
            beat: block.u64_at(24),
        }),
        2 => Some(Slot::Recovering {
            key: key_at(block, 16)?,
            by: key_at(block, 24)?,
        }),
        _ => None,
    }
}

impl Slot {
    fn state(&self) -> u32
        ensures { result ≡ slot_state self.now }
    {
        match *self {
            Slot::Free => 0,
            Slot::Live { .. } => 1,
            Slot::Recovering { .. } => 2,
        }
    }

    fn key(&self) -> u64
        ensures { result ≡ slot_key self.now }
    {
        match *self {
            Slot::Free => 0,
            Slot::Live { key, .. } | Slot::Recovering { key, .. } => key.0,
        }
    }

    fn second(&self) -> u64
        ensures { result ≡ slot_second self.now }
    {
        match *self {
            Slot::Free => 0,
            Slot::Live { beat, .. } => beat,
            Slot::Recovering { by, .. } => by.0,
        }
    }
}
