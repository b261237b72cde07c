//! What a merge does with an entry of a log, and how it counts it. No call of this crate takes memory.
//!
//! # What is proved
//!
//! - `decide`: exactly the first line that fits of the table in `docs/COMMANDS.md` ("What a merge decides"), over the index's
//!   entries of the log entry's digest, in order.
//! - `counted`: exactly the count that an entry raises, by its action and what that came to; it asks for an outcome of the
//!   action's kind. `MergeCount::raise` raises that count by one and leaves the others; it asks for a count below its type's end.
//! - Tested: one case a line of the decision, with the order of entries, and each outcome of each action.
//! - No call takes memory.
#![tactic(auto)]

mod action;
mod counting;
mod outcome;

pub use action::{Action, decide};
pub use counting::counted;
pub use outcome::{MergeCount, Outcome, PromoteOutcome, ShareOutcome};
