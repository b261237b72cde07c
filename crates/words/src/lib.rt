//! The words of the command line, and the line that they make.
//!
//! # What is proved
//!
//! - `job_of`: exactly the job of the words behind the program's name, for any words.
//! - `asked`: the line of words of a form has their job, their volume and their hosts (`IsLineOf`); words that are of no form are refused as
//!   `Usage`, and words of a form are refused for want of memory alone (`Asks`). The volume and the hosts are those that `clap` gives, by one
//!   command of three positionals: for words of a form its parse fails for want of memory alone, and gives each word in its place
//!   (`rows_of_words`).
//! - Safe and total: yes. A line takes memory for the parser's command and matches, and for its hosts.
#![tactic(auto)]

mod forms;
mod line;

pub use forms::{Job, job_of};
pub use line::{Line, LineNo, asked};
