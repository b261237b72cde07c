//! The order of a schedule: words, each the turn of a host, and then rounds over all hosts.
//!
//! # What is proved
//!
//! - `play`: where it is answered Ok, a run of this schedule was made (`HasPlayed`): as long as there are words each is the turn of its host, and
//!   behind them the turns go round the hosts from 0; whenever no host has a command left the next phase begins, and its rounds begin at 0 again; a
//!   host that waits for a digest gets the SHA-1 of its block at once. Behind it no host has a command left, and the phase is the last one. It
//!   returns. `NoMemory` is the one other answer: some moves of this schedule were made, and the next turn was refused since the device had no
//!   room left (`IsStopped`); the cluster is spent then.
//! - The cluster is of the same start, so what it tells of its run when it is closed is told of this one.
//! - The moves are those of a run (`played-run`).
//! - Only tested, by `cluster_tests`: which answers two schedules of one workload give.
#![tactic(auto)]

mod playing;

pub use playing::play;
