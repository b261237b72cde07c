// A share as its caller sees it: the source of the block, and the answer.
use vol_base::{FileNo, Key, SlotNo};

/// Where the block of a share comes from: the block of a file at an index, or a slot of the arena.
#[derive(Clone, Copy, Debug, PartialEq, Eq)]
pub enum Place {
    File(FileNo, u32),
    Arena(SlotNo),
}

/// What a share came to.
#[derive(Clone, Copy, Debug, PartialEq, Eq)]
pub enum Shared {
    /// The two places had different data blocks with equal bytes, and have one now.
    Linked,
    /// Both places have one data block.
    Already,
    /// The bytes differ, and this is the first place at which they do.
    Differs(u32),
    /// The file has no block at the index: it is not there, or shorter, or has a hole there.
    Hole,
    /// So it is with the source; or the slot is empty, or came to name another data block meanwhile.
    NoSource,
    /// A group of one of the data blocks is locked under this key of another host.
    Busy(Key),
}
