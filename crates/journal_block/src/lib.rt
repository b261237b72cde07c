//! The journal of a host: the record of the edits that it is about to make. Each record has one
//! spelling, and no other block reads as it. No call of this crate takes memory.
//!
//! # What is proved
//!
//! - `Record`: a key and one to eight edits, no two of one field. `add` is `None` exactly where eight stand or the field stands
//!   already, and nothing changed then. `read_journal` gives the record that the block spells, in range of the geometry, and
//!   `None` exactly where it spells neither a record nor the empty journal; `write_journal` is exactly that spelling, which reads
//!   again for a record in range of the geometry.
#![tactic(auto)]

mod edit;
mod journal;
mod record;

pub use journal::{read_journal, write_journal};
pub use record::Record;
