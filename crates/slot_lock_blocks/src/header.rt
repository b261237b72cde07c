// What slots and locks have in common.
ghost use Rattle.std.specs.Prelude.{◌≡◌, ◌≤◌, ◌+◌, ◌↔◌, IfSome, IsNone, length};
ghost use Rattle.vol_base.specs.Bytes.{u64_at};
ghost use Rattle.slot_lock_blocks.specs.Keys.{IsKey, header_bytes};

use vol_base::{Block, Draft, Key};

/// The first 24 bytes of a slot or lock; `key` is 0 for none.
pub fn header(magic: &[u8; 8], state: u32, key: u64) -> Draft
    ensures bytes { result ≡ header_bytes magic.now state key }
    ensures long { length result ≡ 24 }
{
    let mut draft = Draft::new();
    draft.push_bytes(magic);
    draft.push_u32(state);
    draft.skip_to(16);
    draft.push_u64(key);
    draft
}

/// The key in the eight bytes from byte `at` on; `None` where they are 0.
pub fn key_at(block: &Block, at: usize) -> Option<Key>
    requires { at + 8 ≤ 4096 }
    ensures none { IsNone result ↔ (u64_at block.now.0 at ≡ 0) }
    ensures number { IfSome result (λ key. key.0 ≡ u64_at block.now.0 at) }
    ensures range { IfSome result (λ key. IsKey key.0) }
{
    match block.u64_at(at) {
        0 => None,
        key => Some(Key(key)),
    }
}
