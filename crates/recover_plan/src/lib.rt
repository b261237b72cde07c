//! The plan of the commands on slots: `join`, `leave`, `beat`, `look` and `recover`, cut at each device call.
//!
//! # What is proved
//!
//! - `RecoverPlan::new`: the plan of one of the five commands, which does first what `first_of` says. Its host is not the one that a
//!   `look` or a `recover` is of. It stands there where the host may begin (`MayBegin`, `first_stands`), and the notes of a host at rest
//!   agree with it (`first_noted`).
//! - `RecoverPlan::next`: where the plan stands (`PlanStands`), a step makes one device call, or none in a `recover` of a host that was seen
//!   less than three times. Whatever the notes of a run were that agree with the plan (`Agrees`), the step is a turn of the run
//!   (`OwesStep`), and the notes behind it agree: with the plan, which stands still, or with a host that is at rest (`RestsWith`). A
//!   call that was refused is answered as a cut, and its host is dropped. Where there was no memory for a call, the device's state and
//!   the host's memory are as before (`IsUntouched`), and its faults did not fall. What others rely on stays (`Others`); and what the
//!   host itself knows of its tables does so at each step of a `beat`, a `look` or a `recover` that is not cut (`TablesStay`).
//! - Over a step of another host, whatever plan that is of, a plan stands still, the notes agree with it, a host at rest stays so, and what
//!   it remembers of other slots holds (`host_stays`). Over a step of the same host's plan of any command that is none on slots what it
//!   remembers holds too, but where the host is dropped, and the notes remember the same (`looks_stay`).
//! - Behind each step of a plan fewer are left (`calls_left`), of which a plan has no more than its geometry says (`calls_most`), and as many
//!   over the calls of other hosts (`calls_still`).
//! - `step` of the recovery of one slot, which a `join` makes of its own one and a `recover` of that of its host: the keys of the slot are
//!   taken off, it is claimed, the record of its journal is made again in the tables, the journal is cleared, and each lock of the dead key
//!   is freed. At each step fewer are left (`AreFewer`), and the slots of other hosts are as before (`SlotsStay`).
//! - `join`: a key is asked for, and where none is left the answer is `nokeys`. The own slot is tried from a free one, and entered: then it
//!   is live under that key with beat 0, the answer is `joined`, and the host is ready, with an empty journal. A live slot that this first
//!   try finds, and one whose recovery an older key of the host began, are recovered, and the slot is entered from the claim; one that
//!   another host recovers is answered `busy` with that host's key (`join_found`). Where the claim finds another slot, a free one is
//!   entered, and any other one is answered `busy` with its key, or its `by`. Behind each answer but `joined` the host is dropped, and
//!   behind each it remembers no slot (`IsLeftBy`).
//! - `leave`: each step frees the lock of the first file that the host holds; once it holds none its slot is freed (`HasFreedSlot`); and the
//!   last step takes its own key off. Then the answer is fine, and the host is dropped and remembers no slot. No step of it that is not cut
//!   changes a logical number or a data block (`VolumeStays`).
//! - `beat`, `look`: one call, and the answer. The slot that is read is remembered, seen once more or once (`look_answer`).
//! - `recover`: below three looks the answer is `alive` with their count, without a call. A claim that finds another slot is answered by
//!   it, but for one more claim from a live slot with the same key (`RecoverTo`); a slot that was swept is freed, and the host forgotten.
//! - `join_at_once`, `recover_at_once`: a host that is alone joins, and recovers another one, without looks. Where the plan may make its step
//!   (`LoneAt`), each step of `LonePlan::next` is one device call (`LoneStepped`): no file changes, the image is valid, the slots of other
//!   hosts are as before, and so is what the host holds and reads; its key is registered, once the device gave it; what comes next stands,
//!   and fewer steps are left (`lone_left`). One key is asked for, by the first step of a `join_at_once`; no other step asks for one
//!   (`keys_left`). At its end (`HasEnded`) the host is ready, and the other one's slot is free; `busy` comes only where the
//!   device tells nothing, and `nokeys` only where its counter is at its end. A step that was refused has its cause (`IsRefused`), and is
//!   never refused for want of a key while the host's one is registered.
#![tactic(auto)]

mod join;
mod leave;
mod lone;
mod looks;
mod next;
mod plan;
mod recover;
mod replay;
mod replaying;
mod sweeping;

pub use lone::{Lone, LoneEnd, LonePlan, join_at_once, recover_at_once};
pub use plan::{Come, Doing, RecoverPlan};
pub use replay::{Going, Replay, step};
