//! What a merge does with one entry of a log once it is decided, where that takes device calls: one call a step.
//!
//! # What is proved
//!
//! - `ActPlan::new`: the plan at its first step (`begun`), of an action that makes calls (`Calls`). At most 36 steps come.
//! - `ActPlan::next`: where the plan stands (`At`), a step makes one device call (`Went`). Its turn may make it in a merge, no file changes, a told
//!   image stays valid, and whatever the notes of the merge said of its pending hints and of the own log blocks, they say it behind the call
//!   (`quiet`); a busy lock was shown there exactly where the plan came to `Busy` (`outcome_behind`). The host keeps its holds of files
//!   (`KeepsHolds`), what other hosts rely on stays (`Others`), and fewer steps are left (`left`).
//! - What each step does (`Does`). An entry's place is shared with the slot of the index by a `SharePlan`, or promoted by a `PromotePlan`,
//!   whose steps say what they do (`Went` of `share_plans`). Behind a promotion to a slot (`other_of`) the other place is shared with that slot
//!   where the host holds its file, and else a request for it is posted to the file. A post reads the block of requests of its file, and then
//!   makes one test-and-set from that block to the one with the request behind (`requested_with`); where another block is found, it stays.
//! - What came of it (`HasActed`): an outcome of the action's kind (`EndsWith`), by the answer of the share or the promotion (`behind_share`,
//!   `behind_promotion`), and a slot of the arena, that to which the entry's place was promoted, or 0. Where there was a request to post by then,
//!   the last call posted it, to its file (`posted`). Behind an outcome, and behind a busy lock, no record stands, and the host holds no part and
//!   no group (`IsReady`).
//! - A step that is refused cuts the merge (`IsCut`).
//! - The plan begins where its host is ready and has what the action asks for (`act_begins`, `MayAct`), and stands over the calls of other hosts
//!   (`act_still`). Its host has a key (`act_key`), and no reply has its place in what the merge has come to (`act_placed`).
//!
//! What is decided of an entry, and what its shelf gains, is for `merge_decide` and `merge_shelves` to say. No step takes memory.
#![tactic(auto)]

mod acting;
mod behind;
mod stages;

pub use acting::{ActPlan, Acted, Acting};
