// The plan of a command on hints.
use crate::scan::Scan;
use plan_parts::TakeWrite;
use vol_base::{Answer, Block, Digest, FileNo, HostNo};

/// A block of one hint that is to be written: where, of which number block, and where the hint says that it was seen.
#[derive(Clone, Copy, Debug, PartialEq, Eq)]
pub struct Scribble {
    pub place: u64,
    pub number: u64,
    pub seen: u32,
}

/// What a plan does next.
#[derive(Drop)]
pub enum Doing {
    /// `scribble`: the digest of its number block is asked for, where the place is one of hints; then its block is written.
    Asks(Scribble),
    Puts(Scribble, Digest),
    /// `log`: an own log block is read; the pending hints are written over one that reads as none.
    ReadsLog(u8),
    WritesLog(u8),
    /// `scan`: the hold of the file is taken, where the host lacks it; tables of the file are read, from the first one on; then each block
    /// that is no hole is read, and its digest asked for.
    BeginsScan(FileNo, u32),
    HoldsFile(FileNo, u32, TakeWrite),
    ReadsHead(FileNo, u32),
    ReadsTable(Scan),
    ReadsBlock(Scan),
    AsksBlock(Scan, Block),
    /// The command was answered.
    Ended,
}

/// What a step came to: the plan goes on, or the command is answered, behind a call or without one; or the digest of a block is waited
/// for, and nothing was done.
#[derive(Drop)]
pub enum Come {
    More(Doing),
    Answered(Answer),
    Uncalled(Answer),
    Works(Doing, Block),
}

/// A command on hints, cut at each device call.
#[derive(Drop)]
pub struct HintPlan {
    pub host: HostNo,
    pub doing: Doing,
}
