// The calls on plain files, by number, and their replies.
ghost use Rattle.std.specs.Prelude.{⊤};

use crate::block::Block;
use std::alloc::AllocError;

/// A host of a volume, from 0; a volume has at most 16.
pub type HostNo = u8;

/// A file of a volume, from 0; a volume has at most 64.
pub type FileNo = u8;

/// A data block of a volume, from 0; a volume has at most 64,512.
pub type DataNo = u32;

/// A slot of the shared arena, from 0.
pub type SlotNo = u32;

/// The answer of a call that was refused memory.
#[derive(Clone, Copy, Debug, PartialEq, Eq)]
pub struct NoMemory;

impl From<AllocError> for NoMemory {
    ghost from_gives = { λ _ _. ⊤ };

    fn from(_: AllocError) -> NoMemory {
        NoMemory
    }
}

/// A call on plain files. `Size` gives the new length in blocks; an index counts blocks from 0.
#[derive(Clone, Copy, Debug, PartialEq, Eq)]
pub enum PlainCall {
    Create(FileNo),
    Size(FileNo, u32),
    Write(FileNo, u32, Block),
    Read(FileNo, u32),
    Punch(FileNo, u32),
    Remove(FileNo),
}

/// What a plain call replies. `Beyond` carries the length of the file in blocks.
#[derive(Clone, Copy, Debug, PartialEq, Eq)]
pub enum PlainReply {
    Done,
    Holds(Block),
    NoFile,
    Exists,
    Beyond(u32),
    TooLong,
}
