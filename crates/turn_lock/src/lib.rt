//! A lock that hands a value from thread to thread. Each value that is taken began where the first
//! one did, and its list begins with all that the seat which takes it had seen.
//!
//! # What is proved
//!
//! - `TurnLock::take`: the value began where the first one did, and its list of entries begins with all that the seat had seen
//!   (`began`, `entries`); the seat then has the lock and has seen that value (`seat`). `put` wants a value that began there and whose
//!   list begins with the taken one's. `close` wants all seats, none of which has the lock; its value began where the first one did,
//!   and its list begins with what every seat had seen. `new` hands the value back where there was no memory; its seats have the
//!   numbers from 0 in the order of the list (`new`).
//! - A seat may go to another thread where its value may, and threads may share a lock: `TurnSeat<T>` is `Send` and `TurnLock<T>` is
//!   `Sync` where `T` is `Send`.
//! - Tested: two seats in one thread, one after the other. `lock_bench` and the hosts of `thread_tests` take it in threads.
//! - Not claimed: that a thread ever gets the value, fairness, order, or freedom from deadlock.
#![tactic(auto)]

mod knowledge;
mod last_seen;
mod lock;
mod plays;
mod seat;
mod seats;
mod steps;

pub use lock::TurnLock;
pub use seat::TurnSeat;
