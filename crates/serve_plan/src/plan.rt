// The plan of the command by which a host serves the requests of its files.
use hint_blocks::{Hints, Request};
use share_plans::SharePlan;
use vol_base::{Answer, Block, FileNo, HostNo, ServeCounts};

/// The requests of a file as its block was read, of which so many were handled.
#[derive(Drop)]
pub struct Serving {
    pub file: FileNo,
    pub block: Block,
    pub requests: Hints<Request>,
    pub done: u32,
}

/// What the plan does next.
#[derive(Drop)]
pub enum Doing {
    /// The first file is looked for that the host holds for writing, and its block of requests is read.
    Begins,
    /// The block of requests of a held file is read.
    Reads(FileNo),
    /// A request is handled, by one step of its share.
    Shares(Serving, SharePlan),
    /// All requests of the file were handled: the block is made empty, where it is still the one that was read.
    Empties(FileNo, Block),
    /// The command was answered.
    Ended,
}

/// What a step came to: the plan goes on, or the command is answered, behind a call or without one.
#[derive(Drop)]
pub enum Come {
    More(Doing),
    Answered(Answer),
    Uncalled(Answer),
}

/// The command `serve`, cut at each device call: for each file that the host holds for writing, ascending, each request is handled by a
/// compare-and-share with its slot of the arena.
#[derive(Drop)]
pub struct ServePlan {
    pub host: HostNo,
    pub counts: ServeCounts,
    pub doing: Doing,
}
