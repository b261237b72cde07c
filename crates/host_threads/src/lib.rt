//! The hosts of a run as threads. Each host's thread makes its turns under one lock, a turn a hold, and
//! works out digests while it has no hold; the caller drives what the threads left over.
//!
//! # What is proved
//!
//! - `run_phase`: the value that comes back began where the given one did (`began`), and its list of entries begins with the given
//!   one's (`entries`), whatever is answered. At Ok no step is left (`none_left`) and no host has a command left in the phase
//!   (`idle`). `NoMemory` is the one other answer; it comes where a turn or the lock was refused memory, which is no clause.
//! - One hold of the lock is one turn, or one digest handed in. That the gate is passed, and a digest worked out, while the thread
//!   does not have the lock, that each host's thread makes all turns of its host and counts them from 0, and that hosts interleave
//!   inside their commands, is no clause and is tested: 200 runs of two hosts with exact counts of passes, answers and the SHA-1 of
//!   the block that was asked for; a gate at which each of two hosts waits inside a command for the other; a phase that the caller
//!   drives alone; and a phase whose turns are refused memory.
//! - Not claimed: that `run_phase` returns, that a thread could be started or that two ran at once, fairness, or an order of turns.
#![tactic(auto)]

mod drive;
mod phase;
mod turns;

pub use phase::run_phase;
