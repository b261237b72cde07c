//! The report of a run: a text with a line for each command and its answer, a line that names the
//! history, and a line of how much of the volume is used.
//!
//! # What is proved
//!
//! - `text`: exactly the report of a workload, its answers, a history and maybe a usage, where every position has an answer and
//!   each entry's line is a position. `write_usage_line`: exactly the line of a usage.
#![tactic(auto)]

mod answers;
mod contents;
mod lines;

pub use lines::{text, write_usage_line};
