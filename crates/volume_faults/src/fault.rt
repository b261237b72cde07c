// The faults of a volume.
use vol_base::{DataNo, Key};

/// What is wrong at a place. A check looks in four stages and lists all faults of the first stage that
/// has any: `Superblock` and `Size` are of the first, `Spelling` is of the second, `LockKey`,
/// `JournalKey` and `JournalEdit` are of the third, `Count` and `Mark` of the fourth.
/// `docs/FORMATS.md`, "Faults", has the rules.
#[derive(Clone, Copy, Debug, PartialEq, Eq)]
pub enum FaultKind {
    /// Block 0 is no superblock.
    Superblock,
    /// The volume needs so many blocks, and the device has only so many.
    Size(u64, u64),
    /// The slot, journal, lock or table is no spelling in range, or shows a key that the device has
    /// not given yet.
    Spelling,
    /// The lock is held under this key, which the slot of the key's host does not show.
    LockKey(Key),
    /// A record of this key stands in the journal, and the slot of the journal's host does not show it.
    JournalKey(Key),
    /// This edit of the journal's record, from 0, is of a field whose resource the record's key does
    /// not hold, or of a slot without edits of the counts that go with it.
    JournalEdit(u32),
    /// The logical count of this data number, and how often pointers and slots name it.
    Count {
        number: DataNo,
        found: u32,
        counted: u32,
    },
    /// The file's pointer at this index, which is that in the file, has no mark, and its data number
    /// is named more than once.
    Mark(u32),
}

/// A fault, and the place of the block where it stands.
#[derive(Clone, Copy, Debug, PartialEq, Eq)]
pub struct Fault {
    pub place: u64,
    pub kind: FaultKind,
}
