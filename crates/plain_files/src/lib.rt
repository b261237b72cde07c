//! Plain files, the measure of all answers of a volume: each file is a list of blocks of its own.
//!
//! # What is proved
//!
//! - `PlainFiles::new`, `with_limit`: no file is there. `apply`: exactly the reply and the files of the definition; at `NoMemory`
//!   nothing changed, and it comes only at a call that makes a file longer. `file`: `None` exactly where the file is not there.
//! - `replay`: `Some` exactly where the history is legal from the start, and then the state after it.
#![tactic(auto)]

mod content;
mod files;
mod history;

pub use files::{DEFAULT_LIMIT, PlainFiles};
pub use history::{Placed, replay};
