// The commands of a workload.
use crate::plain::{FileNo, HostNo};

/// A command that a workload gives a host. The last number of `Write` and the second of `Scribble`
/// name the number block that is written (see `number_block`).
#[derive(Clone, Copy, Debug, PartialEq, Eq)]
pub enum Command {
    Join,
    Leave,
    Create(FileNo),
    Size(FileNo, u32),
    Write(FileNo, u32, u64),
    Read(FileNo, u32),
    Punch(FileNo, u32),
    Remove(FileNo),
    Close(FileNo),
    Log,
    Scan(FileNo, u32),
    Merge,
    Serve,
    Collect(u8),
    Beat,
    Look(HostNo),
    Recover(HostNo),
    Die(u32),
    Scribble(u64, u64, u32),
}
