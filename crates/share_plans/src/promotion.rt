// A promotion: where it is, and what it came to.
use crate::closing::Closing;
use crate::tables::FileTables;
use plan_parts::{Kept, Taken};
use vol_base::{DataNo, FileNo, HostNo, Key, SlotNo};
use vol_layout::Table;

/// What a promotion came to.
#[derive(Clone, Copy, Debug, PartialEq, Eq)]
pub enum Promoted {
    /// This slot of the arena names the block, which is shared now.
    Promoted(SlotNo),
    /// The block is shared already.
    Marked,
    /// The file has no block at the index: it is not there, or shorter, or has a hole there.
    Hole,
    /// No slot of the host's own part is empty.
    PartFull,
    /// The part, or the group of the data block, is locked under this key of another host.
    Busy(Key),
}

/// The host, the place whose block is promoted, the locks that are taken, and the file tables that were read.
#[derive(Drop)]
pub struct Promotion {
    pub host: HostNo,
    pub file: FileNo,
    pub index: u32,
    pub taken: Taken,
    pub tables: FileTables,
}

/// What the next step of a promotion does.
#[derive(Drop)]
pub enum Doing {
    /// A table of the file is read.
    Reads(Table),
    /// The host's own part is locked, and its table read; the place has this data block.
    LocksPart(DataNo),
    ReadsPart(DataNo),
    /// The group of the data block is locked, and its table read. The slot is empty, and this is its part's table.
    LocksGroup(DataNo, SlotNo, Kept),
    ReadsGroup(DataNo, SlotNo, Kept),
    /// The record is written. The tables are those of the part and the group.
    Commits(DataNo, SlotNo, Kept, Kept),
    /// The answer is known: a record goes into the tables, and locks are freed.
    Closes(Closing, Promoted),
    /// The promotion was answered.
    Over,
}

/// What a step came to: the promotion goes on, or is answered.
#[derive(Drop)]
pub enum Reached {
    More(Doing),
    Answered(Promoted),
}
