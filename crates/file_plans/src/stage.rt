// Where a plan is.
use crate::old::Old;
use crate::remains::Remains;
use plan_parts::{Applying, Kept, ReadTry, Search, TakeWrite};
use vol_base::DataNo;

/// Where a plan is: what its next step does.
#[derive(Drop)]
pub enum Stage {
    /// A write asks for the digest of its block.
    Asks,
    /// The host may have to take the hold of its file.
    Begins,
    /// The write hold is on its way.
    Writes(TakeWrite),
    /// The read hold is on its way.
    Reads(ReadTry),
    /// A read hold is given back.
    GivesBack(ReadTry),
    /// The host has its hold: tables of the file are read, and then the call acts.
    Sees,
    /// A free block is searched for a pointer that is a hole, or names this shared block; the table of the shared block's group, once
    /// the search has met it.
    Searches(Option<DataNo>, Option<Kept>, Search),
    /// The group of the shared block is locked, and its table read.
    LocksShared(DataNo, DataNo, Kept),
    FetchesShared(DataNo, DataNo, Kept),
    /// The free block is written, and then its record.
    Puts(Fresh),
    Fills(Fresh),
    /// The group of data blocks that pointers are to name no more is locked, its table read, and their record written.
    Locks(Change),
    Fetches(Change),
    Changes(Change, Kept),
    /// A record is on its way into the tables.
    Applies(Applying),
    /// The locks of parts and groups are freed.
    Frees,
    /// The call was answered.
    Over,
}

/// A free block, the table of its group, and what the pointer named before it.
#[derive(Drop)]
pub struct Fresh {
    pub number: DataNo,
    pub group: Kept,
    pub left: Old,
}

/// Pointers that are to become holes.
#[derive(Drop)]
pub enum Change {
    Drop(DataNo),
    Purge(Remains),
}
