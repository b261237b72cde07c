//! A run of several hosts on one device: one turn of one host at a time, each with at most one device call.
//!
//! # What is proved
//!
//! - `Cluster::start` opens a device under the contract of `volume_opening::open`, and takes all memory of the run before (`HasStarted`,
//!   `HasRefused`). The workload is one that can be run (`are_known`): any in which no host looks at itself or recovers itself.
//! - `Cluster::turn`: from all notes of a run that agree with the cluster, the turn is one of the run, and some that agree are behind it
//!   (`Turned`, in the words of `host_runs`: at most one device call; the files change with an entry alone, whose reply is the plain one;
//!   each answer has its cause), for every death, failure, fencing and recovery. So whatever calls led from the start to the state before, they
//!   lead with this one to the state behind (`GoesOn`). A turn is refused memory only where its device has no room left (`room`), or an
//!   earlier one was refused (`ever`); it leaves all that a run sees then (`IsStill`).
//! - `Cluster::supply` and `next_phase`: the same of a digest that is handed in, by which a command begins or, in a `scan` or a `merge`,
//!   goes on; and of the next phase, which begins where all hosts are idle (`Supplied`, `Goes`).
//! - What a host keeps beside its plan agrees with the notes as well (`Carried`): its looks at other slots, and its pending hints. A `write` that is done
//!   leaves one hint more, a `scan` one for each digest, a `log` none; and none is pending where a host was dropped, has left or has joined. They have
//!   their room in the host's seat, and so has what a `merge` reads, so that no turn takes memory for them.
//! - The tables that are kept for a host are those that the device has (`IsCached`). None is kept for one that joins, leaves, serves, merges or was cut
//!   (`ForgetsFor`, `ForgetsBehind`): a share changes tables beside what is kept.
//! - `Facts`, behind each of them and of `close`: there was a run from the start whose last state is the present one. Answers and history fit the
//!   workload; where the device tells its content, the history is legal from the files that its first image has, the last image is valid and
//!   has the files that the history leaves, and each image on the way has those of a front; and the events list the history and the answers.
//! - `idle`, `hosts`, `is_spent`, `next_line`, `history`, `answers` and `close` are exact. A cluster is `Begun` and `Counted` (its events), and goes to another
//!   thread where its device does.
//! - `Parts`, `Seat` and `Plan`: the inner layers, with the same of the parts of a cluster, of one host, and of one step of a command. Each turn that
//!   goes on leaves fewer turns of its command, of less than 2^28, and another host's turn leaves no more (`IsSoonerFor`).
//! - `left` adds those turns up: it is 0 exactly where no host has a command left in the phase, and each turn that moves a command or answers it, and
//!   each digest that is handed in where it is waited for, lowers it. So a cluster is `Turns`, which its hosts' threads may move forward.
//! - Only tested, by `cluster_tests`: which answers two hosts give turn by turn, with the device calls and the entries behind each turn.
//! - A whole schedule is played by the crate above, `schedule`.
#![tactic(auto)]

mod asking;
mod budget;
mod carried;
mod cluster;
mod event;
mod known;
mod ledger;
mod mark;
mod origin;
mod parts;
mod phases;
mod plan;
mod seat;
mod start_seen;
mod starting;
mod turns;

pub use carried::Carried;
pub use cluster::{Closed, Cluster};
pub use event::RunEvent;
pub use known::{are_known, is_known};
pub use ledger::Ledger;
pub use origin::Origin;
pub use parts::Parts;
pub use plan::Plan;
pub use seat::{Done, Seat};
