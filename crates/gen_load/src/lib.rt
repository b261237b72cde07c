//! The text of a large workload: four hosts that fill sixteen files with blocks of which many are
//! equal, log and merge their hints, and serve each other.
//!
//! # What is proved
//!
//! - `gen_text`: exactly the text of so many rounds, by the five rules of `docs/COMMANDS.md` ("The generated workload"); it asks
//!   for 1 to 100 rounds.
//! - Tested: how the texts of 1, 10 and 40 rounds begin and end; that each is in the workload language; and their counts
//!   of commands, places, contents and contents of host 0 alone (1,820, 1,600, 101 and 101 for 40 rounds). No clause says that
//!   the text is in the workload language.
#![tactic(auto)]

mod generating;

pub use generating::gen_text;
