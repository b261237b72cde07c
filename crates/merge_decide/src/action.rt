// The decision.
ghost use Rattle.std.specs.Prelude.{◌≡◌, All};
ghost use Rattle.merge_decide.specs.Decision.{decision, first_line, first_other, first_shared, has_own, is_at, is_now, other_in, slot_in};

use hint_blocks::{HintTo, IndexEntry, LogEntry};
use vol_base::{Digest, FileNo, SlotNo};

/// What a merge does with an entry of a log, whose block stands at an index of a file.
#[derive(Clone, Copy, Debug, PartialEq, Eq)]
pub enum Action {
    /// Nothing: the entry's digest is not that of the block there now.
    Stale,
    /// The index gains the entry's place, as one that is not shared.
    PutUnique,
    /// The entry's place is compared with this slot of the arena, and shares it where the bytes are
    /// equal.
    Share(SlotNo),
    /// The entry's place is promoted to a slot of the arena. The place that the index has for the
    /// digest, this file and index, is to share that slot.
    Promote(FileNo, u32),
    /// The host that holds the file is asked to share this slot of the arena.
    Post(SlotNo),
    /// Nothing: the index has the entry's place already.
    Skip,
}

/// What is done with an entry. `held` says that the merging host holds the entry's file, `now` is then
/// the digest of the block at the entry's place, if there is one, and `found` are the index's entries
/// of the entry's digest, in order. `found` is not looked at where the entry is stale. The table of
/// cases is in docs/COMMANDS.md, "What a merge decides".
pub fn decide(entry: &LogEntry, held: bool, now: Option<Digest>, found: &[IndexEntry]) -> Action
    requires { All (λ hint. hint.digest ≡ entry.now.digest) found.now }
    ensures { result ≡ decision entry.now held now found.now }
{
    if held && !is_now(&entry.digest, &now) {
        return Action::Stale;
    }
    match first_shared(found) {
        Some(slot) if held => Action::Share(slot),
        Some(slot) => Action::Post(slot),
        None => without_slot(entry, held, found),
    }
}

// What is done where no entry of the index is shared.
fn without_slot(entry: &LogEntry, held: bool, found: &[IndexEntry]) -> Action
    ensures { result ≡ first_line held held None (first_other entry.now found.now) (has_own entry.now found.now) }
{
    match first_other(entry, found) {
        Some((file, index)) if held => Action::Promote(file, index),
        _ if has_own(entry, found) => Action::Skip,
        _ => Action::PutUnique,
    }
}

fn is_now(digest: &Digest, now: &Option<Digest>) -> bool
    ensures { result ≡ is_now digest.now now.now }
{
    match now {
        Some(now) => now.0 == digest.0,
        None => false,
    }
}

fn first_shared(found: &[IndexEntry]) -> Option<SlotNo>
    ensures { result ≡ first_shared found.now }
{
    for hint in found {
        if let Some(slot) = slot_in(&hint.to) {
            return Some(slot);
        }
    }
    None
}

fn first_other(entry: &LogEntry, found: &[IndexEntry]) -> Option<(FileNo, u32)>
    ensures { result ≡ first_other entry.now found.now }
{
    for hint in found {
        if let Some(place) = other_in(entry, &hint.to) {
            return Some(place);
        }
    }
    None
}

fn has_own(entry: &LogEntry, found: &[IndexEntry]) -> bool
    ensures { result ≡ has_own entry.now found.now }
{
    for hint in found {
        if is_at(entry, &hint.to) {
            return true;
        }
    }
    false
}

// The slot of a shared entry.
fn slot_in(to: &HintTo) -> Option<SlotNo>
    ensures { result ≡ slot_in to.now }
{
    match *to {
        HintTo::Shared(slot) => Some(slot),
        HintTo::Unique(_, _) => None,
    }
}

// The place of a unique entry, where that is another than the log entry's.
fn other_in(entry: &LogEntry, to: &HintTo) -> Option<(FileNo, u32)>
    ensures { result ≡ other_in entry.now to.now }
{
    match *to {
        HintTo::Unique(file, index) if file == entry.file && index == entry.index => None,
        HintTo::Unique(file, index) => Some((file, index)),
        HintTo::Shared(_) => None,
    }
}

// Whether the entry is a unique one of the log entry's place.
fn is_at(entry: &LogEntry, to: &HintTo) -> bool
    ensures { result ≡ is_at entry.now to.now }
{
    match *to {
        HintTo::Unique(file, index) => file == entry.file && index == entry.index,
        HintTo::Shared(_) => false,
    }
}
