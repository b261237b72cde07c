//! The commands on hints as plans, each cut at its device calls: `scribble`, `log` and `scan`.
//!
//! A host's pending hints live beside its plan, as `Hints<LogEntry>`: at most 126, the newest, in order. A plan is lent them at each of its
//! steps and with each digest, and takes no memory.
//!
//! # What is proved
//!
//! - `HintPlan::new`: the plan of a command, at its first step (`first_of`).
//! - `HintPlan::next`: where the plan stands (`PlanStands`), a step makes one device call or none (`HasStepped`). Whatever the notes of a run
//!   were that agree with the plan (`Agrees`), the step is a turn of the run (`OwesStep`): its turn may make the call, no file changes, a told
//!   image stays valid, an answer has its cause and comes where it has to, and the notes behind it agree: with the plan, which stands and
//!   has the same command; or with a host at rest, which has the pending hints that its notes say (`RestsWith`). A call that was refused is
//!   answered as a cut, and nothing is pending any more. Where there was no memory for it nothing was done (`IsUntouched`). What other hosts
//!   rely on stays (`Others`), and so does what the host knows of its tables (`KeepsTables`).
//! - What a step writes is exactly said (`HasWritten`): the one block of a `scribble`, all pending hints by a `log`, or, in a `scan`, the
//!   lock of its file; behind every other step the device is as before.
//! - `scribble`: at a place that is none of hints it is refused, without a call. Elsewhere the digest of its number block is waited for first
//!   (`IsWaiting`), and then the block of one hint is written that the kind of the place asks for (`scribbled`), with the digest that was
//!   handed in. The number that says where the hint was seen may be any, also one that no volume has.
//! - `log`: the own log blocks are read in order. The first one that reads as no entries is written with exactly the pending hints, in
//!   order; then none is pending, and `logged` has their number, at least 1. `logged 0` comes exactly where none is pending, without a call,
//!   or where each own log block was read and has an entry (`AreRead`); then the pending hints stay.
//! - `scan`: the hold of the file is taken where the host lacks it, and `busy` has another host's key. Its tables are read anew: the
//!   first one, and each further one that has an index from I to I + 125 below the length. What was found is exactly the indexes below the length that
//!   are no holes, with their data blocks, as far as the tables go that were read (`IsLooked`). Each block is read, and its digest waited
//!   for. `scanned` comes behind the last digest, without a call, or behind the last table where there is no block; its number is that of the
//!   digests, and of the blocks that the file had at the last call (`HasSeen`).
//! - `HintPlan::supply`: the digest that was waited for. A `scan` makes a pending hint of it, of its file and the index of its block; where 126
//!   are pending the oldest is lost (`hinted`). So the pending hints are those of before with one for each digest, in order (`ScanNoted`).
//! - A plan stands at its first step where its host is ready and the file is one of the volume (`first_stands`, `first_noted`), and so do plan
//!   and notes with a digest (`supply_stands`, `supply_noted`, and `supply_may`, that it may be handed in). Both stand over the calls of other hosts
//!   (`plan_still`, `agrees_still`, and `rests_still` of a host between two commands).
//! - Fewer steps are left behind each step that goes on, and behind a digest (`supply_fewer`); other hosts leave as many (`left_still`). At most 2
//!   come of a `scribble`, 17 of a `log`, and 400 of any command (`first_few`).
//!
//! The serving of requests is a plan of a crate of its own, `serve_plan`, and a merge one of `merge_plan`.
#![tactic(auto)]

mod found;
mod logging;
mod next;
mod plan;
mod scan;
mod scanning;
mod scribbling;

pub use found::{Found, Mapped};
pub use plan::{Come, Doing, HintPlan, Scribble};
pub use scan::Scan;
