// What became of an entry, and the counts of a merge.

/// What a compare-and-share of a place with a slot of the arena came to.
#[derive(Clone, Copy, Debug, PartialEq, Eq)]
pub enum ShareOutcome {
    /// The place shares the slot's block now.
    Linked,
    /// It shared it already.
    Already,
    /// The bytes differ.
    Differs,
    /// The slot is empty, or was changed.
    NoSource,
    /// There is no block at the place.
    Hole,
}

/// What the promotion of an entry's place to a slot came to, and then the sharing of the other
/// place.
#[derive(Clone, Copy, Debug, PartialEq, Eq)]
pub enum PromoteOutcome {
    /// There is no block at the entry's place.
    Hole,
    /// The entry's place is shared already.
    Marked,
    /// The part of the arena has no empty slot.
    PartFull,
    /// It was promoted, and the host of the other place was asked to share the slot.
    Posted,
    /// It was promoted, and the other place was compared with the slot.
    Shared(ShareOutcome),
}

/// What an action came to. `Done` is that of each action but `Share` and `Promote`.
#[derive(Clone, Copy, Debug, PartialEq, Eq)]
pub enum Outcome {
    Done,
    Shared(ShareOutcome),
    Promoted(PromoteOutcome),
}

/// One of the nine counts of a merge.
#[derive(Clone, Copy, Debug, PartialEq, Eq)]
pub enum MergeCount {
    Stale,
    Unique,
    Linked,
    Already,
    Differs,
    Gone,
    Posted,
    Full,
    Skipped,
}
