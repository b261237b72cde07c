//! Small callers of the world: each shows that the contracts of `meta_world` suffice for the code above it.
//!
//! # What is proved
//!
//! - `rewrite`: a file's block is written in place exactly where the file's table shows it there below the length and without the mark
//!   (`none`), and is then the place of a plain write (`placed`) and known (`shows`); else no call is made (`kept`).
//! - `punch`: the record of a punch is committed, written to both tables and taken out: at Ok no record stands (`empty`), and the host
//!   knows both tables with the edits made (`tables`).
//! - `replay`: a dead host's edits are made in one table, as the host then knows (`replayed`).
//! - Of each: what every other host knows stays (`others`), whatever is answered.
//!
//! `lock_tests` calls each of them once.
#![tactic(auto)]

mod punching;
mod replaying;
mod rewriting;

pub use punching::punch;
pub use replaying::replay;
pub use rewriting::rewrite;
