// What a command answers, and what one step of a run gives.
use crate::block::{Block, Key};
use crate::plain::PlainReply;

/// What ended a command and dropped its host.
#[derive(Clone, Copy, Debug, PartialEq, Eq)]
pub enum CutBy {
    /// The host's key was fenced.
    Fenced,
    /// The device failed.
    Fault,
    /// The host died, as a `die` before had said.
    Died,
    /// The block at that place was not of its kind.
    Bad(u64),
}

/// How often a merge counted each outcome of its log entries.
#[derive(Clone, Copy, Debug, PartialEq, Eq)]
pub struct MergeCounts {
    pub stale: u32,
    pub unique: u32,
    pub linked: u32,
    pub already: u32,
    pub differs: u32,
    pub gone: u32,
    pub posted: u32,
    pub full: u32,
    pub skipped: u32,
}

/// How often a serve counted each outcome of its requests.
#[derive(Clone, Copy, Debug, PartialEq, Eq)]
pub struct ServeCounts {
    pub linked: u32,
    pub already: u32,
    pub differs: u32,
    pub gone: u32,
}

/// The answer of a command.
#[derive(Clone, Copy, Debug, PartialEq, Eq)]
pub enum Answer {
    /// A file command got this reply.
    Plain(PlainReply),
    /// The command was done and has nothing to tell.
    Fine,
    /// The host joined under this key.
    Joined(Key),
    /// A `join` of a host that is joined.
    Up,
    /// Another command of a host that is not joined.
    Down,
    /// A lock or slot showed this key of another host.
    Busy(Key),
    /// No data block is free.
    Full,
    /// The command ended at a device call, and the host was dropped.
    Cut(CutBy),
    /// So many hints were written to a log block.
    Logged(u32),
    /// So many blocks were read for hints.
    Scanned(u32),
    Merged(MergeCounts),
    Served(ServeCounts),
    /// So many slots of an arena part were emptied.
    Collected(u32),
    /// The slot that was looked at is free.
    Free,
    /// The slot that was looked at was so often seen without a change.
    Seen(u32),
    /// The host to be recovered was so often seen without a change, and may be alive.
    Alive(u32),
    Recovered,
    /// The place is no hint block.
    Refused,
    /// The device has given all its keys.
    NoKeys,
}

/// What one turn of a host gives.
#[derive(Clone, Copy, Debug, PartialEq, Eq)]
pub enum Turn {
    /// The host's command went on.
    Moved,
    /// The host waits for the digest of this block; see [`crate::Turns::supply`].
    Work(Block),
    /// The host's command ended with this answer.
    Answered(Answer),
    /// The host has no command left in the phase.
    Idle,
}

/// What the next step of a plan is.
#[derive(Clone, Copy, Debug, PartialEq, Eq)]
pub enum Next {
    More,
    /// The digest of this block is wanted first.
    Work(Block),
    Answered(Answer),
}

/// One step of a plan: the plain reply where the command took its place in the history in this
/// step, whether the step made its one device call, and what comes next.
#[derive(Clone, Copy, Debug, PartialEq, Eq)]
pub struct Step {
    pub placed: Option<PlainReply>,
    pub called: bool,
    pub next: Next,
}
