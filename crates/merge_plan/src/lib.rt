//! The command `merge` as a plan, cut at each device call: the hints of a host's own logs go into the index that all hosts share, and blocks that the index
//! has as equal come to be shared.
//!
//! # What is proved
//!
//! - `MergePlan::new`: the plan at its first step. `MergeRoom::{new, clear}`: a room in which nothing was read (`IsCleared`). It lies beside the plan and is
//!   lent to each step; no step takes memory or moves it.
//! - `MergePlan::next`: where the plan stands (`PlanStands`), a step makes exactly one device call (`HasStepped`). Whatever the notes of a run were that
//!   agree with the plan (`Agrees`), and whatever hints are pending, which stay, the step is a turn of the run (`OwesStep`): its turn may make the call, no
//!   file changes, a told image stays valid, and an answer has its cause. The host keeps its holds of files (`KeepsHolds`), what other hosts rely on
//!   stays (`Others`), and fewer steps are left: at most 100,018 come (`left`).
//! - What each step does (`Does`). Each own log block is read, in order, and its entries in range are noted (`IsLogNoted`). Behind the last one they are sorted by
//!   shelf, digest and the place at which they were read (`IsOrdered`); where there are none, `merged` comes with nine counts of 0.
//! - For each shelf that has an entry, ascending, its blocks are read in order, and the shelf made of all of them as read (`IsShelved`). Its entries are handled one
//!   after the other. One of a file that the host does not hold is handled without a call, or posted (`GoesOn`); at the place of one of a file that it holds the tables and the
//!   data block are read, and the block's digest is waited for. It is decided by that digest, or by its lack where there is no block, and by the shelf as it
//!   then stands (`IsDecided`), and what was decided is done (`merge_actions`). Then the shelf gains what that puts, and exactly one count rises
//!   (`IsFinished`). A busy lock is the command's answer: no block of this shelf was swapped, and no log is emptied.
//! - Behind the last entry of a shelf each of its blocks whose entries are others than were read is swapped, in order, by one test-and-set from the block
//!   that was read to what the shelf has for it (`IsAfter`). No block of the index is read or swapped a second time: `reached` never falls, it rises at each such
//!   call, and each has a number of its own.
//! - At last each own log block that had entries is written empty, in order, and `merged` comes: its nine counts add up to the entries that the logs had
//!   (`HasMerged`).
//! - `MergePlan::supply`: the digest that was waited for (`supplied`).
//! - A plan begins with a host that is ready (`merge_begins`). What stands and the notes stay so over the calls of other hosts (`plan_still`, `agrees_still`), and
//!   with a digest (`supply_stands`, `supply_noted`). A step that is refused cuts the command (`IsCutOff`): the device is as before, and no hint is pending
//!   any more.
#![tactic(auto)]

mod blocks;
mod deciding;
mod entries;
mod following;
mod logs;
mod next;
mod plan;
mod room;
mod shards;

pub use blocks::ShelfBlocks;
pub use plan::{Come, Doing, MergePlan};
pub use room::MergeRoom;
