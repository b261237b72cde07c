// A collection: where it is, and what it came to.
use crate::groups::Groups;
use journal_block::Record;
use plan_parts::{Applying, Kept, Taken};
use vol_base::{Answer, HostNo, Key};

/// The host, the part whose slots are collected, the locks that are taken, the groups that are left to visit, and how many slots were
/// emptied so far.
#[derive(Drop)]
pub struct Collection {
    pub host: HostNo,
    pub part: u8,
    pub taken: Taken,
    pub groups: Groups,
    pub count: u32,
}

/// A record by which slots are emptied whose data blocks nothing else names, and how many they are.
#[derive(Drop)]
pub struct Emptying {
    pub entry: Record,
    pub slots: u32,
}

/// What the next step of a collection does.
#[derive(Drop)]
pub enum Gathering {
    /// The part is locked, and its table read.
    LocksPart,
    ReadsPart,
    /// The first group that is left is locked, and its table read. The table is that of the part.
    LocksGroup(Kept),
    ReadsGroup(Kept),
    /// The record is written. The tables are those of the part and the group.
    Commits(Emptying, Kept, Kept),
    /// The record goes into its two tables, which are as they come to be.
    Applies(Applying, Kept, Kept),
    /// No slot of the part is left to empty for the group: its lock is freed. The table is that of the part.
    FreesGroup(Kept),
    /// The part's lock is freed: no group is left to visit, or one is locked under this key of another host.
    FreesPart(Option<Key>),
    /// The collection was answered.
    Over,
}

/// What a step came to: the collection goes on, or is answered.
#[derive(Drop)]
pub enum Gathered {
    More(Gathering),
    Answered(Answer),
}
