// What a step answers.
use slot_lock_blocks::{LockWord, Slot};

/// Why a step was refused. But for `NoMemory` the host is then dropped: it has no key and holds nothing in memory, while the
/// disk stays as it is.
#[derive(Clone, Copy, Debug, PartialEq, Eq)]
pub enum StepNo {
    /// The host's key is not registered.
    Fenced,
    /// The device failed.
    Failed,
    /// The block at this place, just read or found, is not of its kind.
    Bad(u64),
    /// The device had no memory for the call.
    NoMemory,
}

/// How a try of a lock ended: the hold is as asked, or another word was found.
#[derive(Clone, Copy, Debug, PartialEq, Eq)]
pub enum Took {
    Took,
    Found(LockWord),
}

/// How a try of a slot ended: the slot is as asked, or another content was found.
#[derive(Clone, Copy, Debug, PartialEq, Eq)]
pub enum Claim {
    Claimed,
    Found(Slot),
}
