//! Shelves of the index: the entries of up to four shard blocks, sorted by digest, so that the entries
//! of a digest are found by halving. `docs/DEFINITIONS.md`, "Shelves", says what they stand for. No call
//! of this crate takes memory.
//!
//! # What is proved
//!
//! - `Shelf::of`: the entries of one to four shard blocks as they read, sorted by digest, those of one digest in the order in which
//!   they were read (`entries`). `add`: the same of the shelf's entries and one more, where the first entry is dropped before if no
//!   room is left. `sorted_once`, a law: this says exactly which list it is. `entries_of`: exactly the entries of a digest, in
//!   order, found by halving. `drop_digest`: exactly the others. `block`: exactly the 126 entries from `126 * k` on. `empty`: no entry.
//! - A shelf always has room for its entries, and they are sorted and in range (`shelf`). No call takes memory; a shelf is some 18
//!   kilobytes in place.
//! - Tested: two blocks, and a full one. Not claimed: how many comparisons a call makes.
#![tactic(auto)]

mod edits;
mod places;
mod shelf;

pub use shelf::Shelf;
