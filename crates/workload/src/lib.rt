//! The workload language both ways: a text is read to its workload or to its first faulty line, and a
//! workload is written as its text. Texts of other crates write their numbers as it does.
//!
//! # What is proved
//!
//! - `parse`: for every text exactly what the grammar says: its workload, or its first faulty line and that line's first cause.
//! - `print`: exactly the workload's text; the grammar reads it as the same workload where that is the workload of a text in the
//!   grammar that ends with a line feed.
#![tactic(auto)]

mod cause;
mod entry;
mod line;
mod number;
mod order;
mod parsing;
mod printing;
mod verb;
mod volume;
mod words;

pub use cause::{ParseNo, WorkloadNo};
pub use line::{Line, Lines, Workload};
pub use parsing::parse;
pub use printing::{print, write_numbers};
