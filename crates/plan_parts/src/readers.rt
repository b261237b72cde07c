// The keys of other readers in the lock of a file.
ghost use Rattle.std.specs.Prelude.{◌≡◌, ◌≤◌, ◌<◌, IfSome, IsNone, option_map, slice_index};
ghost use Rattle.plan_parts.specs.OtherReaders.{HasNone, IsNext, IsOther, lowest_in};
ghost use Rattle.slot_lock_blocks.specs.LockWords.{lock_readers};
ghost use Rattle.vol_base.specs.declared.block.Key.{Key};

use slot_lock_blocks::{LockWord, Readers};
use vol_base::{HostNo, Key};

// The key at a host's place, where it is one and not the own one.
fn other_at(readers: &Readers, own: Key, host: HostNo) -> Option<Key>
    requires { host < 16 }
    ensures some { IfSome result (λ key. IsOther own.0 (slice_index readers.now host)) }
    ensures key { IfSome result (λ key. key.0 ≡ slice_index readers.now host) }
    ensures none { IsNone result → IsOther own.0 (slice_index readers.now host) → ⊥ }
{
    match readers.get(host) {
        Some(key) => { if key == own { None } else { Some(key) } }
        None => None,
    }
}

/// The first host from one on, and before another one, under whose place another key than the own one stands.
pub(crate) fn next_other(readers: &Readers, own: Key, from: HostNo, end: HostNo) -> Option<HostNo>
    requires { end ≤ 16 }
    ensures some { IfSome result (λ at. IsNext own.0 readers.now from end at) }
    ensures none { IsNone result → HasNone own.0 readers.now from end }
{
    for host in from..end {
        if other_at(readers, own, host).is_some() {
            return Some(host);
        }
    }
    None
}

/// The lowest other reader's key in a lock.
pub(crate) fn lowest_key(word: &LockWord, own: Key) -> Option<Key>
    ensures { option_map (λ (k : Key). k.0) result ≡ lowest_in own.0 (lock_readers word.now) }
{
    match word {
        LockWord::Read(readers) => lowest_reader(readers, own),
        LockWord::Free | LockWord::Held(_) => None,
    }
}

/// The lowest other reader's key.
pub(crate) fn lowest_reader(readers: &Readers, own: Key) -> Option<Key>
    ensures { option_map (λ (k : Key). k.0) result ≡ lowest_in own.0 readers.now }
{
    let _keys = readers.get(0);
    match next_other(readers, own, 0, 16) {
        Some(at) => readers.get(at),
        None => None,
    }
}
