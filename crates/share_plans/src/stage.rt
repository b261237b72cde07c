// Where a share is, and what it has at every step.
use crate::closing::Closing;
use crate::sharing::{Place, Shared};
use crate::tables::FileTables;
use plan_parts::{Kept, Taken};
use vol_base::{Block, DataNo, FileNo, HostNo};
use vol_layout::Table;

/// The host, the place that is to share its block, the source, the groups that are locked, and the file tables that were read.
#[derive(Drop)]
pub struct Core {
    pub host: HostNo,
    pub file: FileNo,
    pub index: u32,
    pub source: Place,
    pub taken: Taken,
    pub tables: FileTables,
}

/// The data block that the place has, that of the source, and whether the source has the mark of a shared block already, as a slot does.
#[derive(Clone, Copy)]
pub struct Pair {
    pub own: DataNo,
    pub source: DataNo,
    pub shared: bool,
}

/// What the next step of a share does.
#[derive(Drop)]
pub enum Stage {
    /// A table of one of the files is read.
    Reads(Table),
    /// The slot is read for the first time; the place has this data block.
    Peeks(DataNo),
    /// The group of the place's data block is locked, and then that of the source's, where it is another one.
    Locks(Pair),
    LocksSource(Pair),
    /// The slot is read again, which stays from here on.
    PeeksAgain(Pair),
    /// The source's data block is read, and then that of the place, which is compared with these bytes.
    ReadsSource(Pair),
    ReadsOwn(Pair, Block),
    /// The table of the first group is read, and then that of the second one, where it is another one.
    CountsOwn(Pair),
    CountsSource(Pair, Kept),
    /// The record of the link is written. The tables are those of the two groups; one where they are the same.
    Commits(Pair, Kept, Option<Kept>),
    /// The answer is known: a record goes into the tables, and locks are freed.
    Closes(Closing, Shared),
    /// The share was answered.
    Over,
}

/// What a step came to: the share goes on, or is answered.
#[derive(Drop)]
pub enum Came {
    More(Stage),
    Answered(Shared),
}
