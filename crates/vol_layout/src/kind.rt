// The kinds of blocks of a volume.
use vol_base::{DataNo, FileNo, HostNo};

/// What a lock guards: a file, a part of the arena, or a group of reference counts.
#[derive(Clone, Copy, Debug, PartialEq, Eq)]
pub enum Resource {
    File(FileNo),
    Part(u8),
    Group(u8),
}

/// A table block. A file's first table block is `File`, and `More` is a further one, from 1.
#[derive(Clone, Copy, Debug, PartialEq, Eq)]
pub enum Table {
    File(FileNo),
    Group(u8),
    Part(u8),
    More(FileNo, u8),
}

/// What a block of a volume is. `Log` is a host's log block, by its number from 0.
#[derive(Clone, Copy, Debug, PartialEq, Eq)]
pub enum Kind {
    Super,
    Slot(HostNo),
    Journal(HostNo),
    Lock(Resource),
    Table(Table),
    Log(HostNo, u8),
    Shard(u8),
    Request(FileNo),
    Number(DataNo),
}
