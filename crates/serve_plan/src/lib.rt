//! The command `serve` as a plan, cut at each device call: what others asked of the files that a host holds for writing.
//!
//! # What is proved
//!
//! - `ServePlan::new`: the plan at its first step, with no request counted.
//! - `ServePlan::next`: where the plan stands (`PlanStands`), a step makes one device call or none (`HasStepped`). Whatever the notes of a run were
//!   that agree with the plan (`Agrees`), the step is a turn of the run (`OwesStep`): its turn may make the call, no file changes, a told image
//!   stays valid, an answer has its cause and leaves the notes of a host at rest, and behind a step that goes on the notes agree again. The host
//!   keeps its holds of files (`KeepsHolds`), what other hosts rely on stays (`Others`), and fewer steps are left (`left`).
//! - What each step does (`Does`). The first file is looked for that the host holds for writing; where there is none, `served` comes with the
//!   counts 0 and without a call. The block of requests of each held file is read, ascending (`HasRead`): without a request the next held file comes.
//!   Each request in order is handled by a `SharePlan` of the file's index and the slot that it names (`IsBegun`), whose steps say what they do
//!   (`Went` of `share_plans`). Its answer raises one count (`counted`): `linked`, `already`, `differs`, or `gone` where the place or the slot
//!   has no block. A busy lock is counted nowhere: it is the command's answer, and the block stays as it is (`IsAnswered`).
//! - Behind the last request one test-and-set is made, from the block that was read to the one that has no request; where another block is found,
//!   it stays, and the next held file comes.
//! - `served` comes only once the requests of every held file were read, and its four counts add up to the requests that all of the command's
//!   calls read (`HasServed`): a share reads none.
//! - A plan begins with a host that is ready (`serve_begins`), and at most 145,281 steps come (`serve_few`). What stands, what is left and the notes
//!   stay so over the calls of other hosts (`plan_still`, `left_still`, `agrees_still`).
//! - A step that is refused cuts the command (`IsCutOff`), and the device is as before.
//!
//! Any block reads as requests in range; what is out of range is no request. No step takes memory.
#![tactic(auto)]

mod files;
mod next;
mod plan;
mod requests;
mod serving;

pub use plan::{Come, Doing, ServePlan, Serving};
