// The plan of a merge.
use merge_actions::ActPlan;
use merge_looks::Look;
use vol_base::{Answer, Block, Digest, HostNo};

/// What the next step of a merge does. A shelf is told by its number.
#[derive(Drop)]
pub enum Doing {
    /// The first own log block is read.
    Begins,
    /// An own log block is read.
    ReadsLog(u8),
    /// A block of a shelf is read.
    ReadsShard(u8, u8),
    /// What stands at the place of the next entry is looked at.
    Looks(u8, Look),
    /// The digest of this block is waited for, which stands there.
    Asks(u8, Block),
    /// The entry is decided by the digest that was handed in, and the next device call made.
    Decides(u8, Digest),
    /// What was decided is done.
    Acts(u8, ActPlan),
    /// A block of the shelf whose entries changed is swapped.
    Swaps(u8, u8),
    /// An own log block that had entries is written empty.
    EmptiesLog(u8),
    /// The command was answered.
    Ended,
}

/// What a step came to: the merge goes on, or is answered.
#[derive(Drop)]
pub enum Come {
    More(Doing),
    Answered(Answer),
}

/// The command `merge`, cut at each device call.
#[derive(Drop)]
pub struct MergePlan {
    pub host: HostNo,
    pub doing: Doing,
}
