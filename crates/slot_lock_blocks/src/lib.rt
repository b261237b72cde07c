//! The blocks by which hosts agree: a host's slot, and the lock of a resource. Each value has one
//! spelling, and no other block reads as it. No call of this crate takes memory.
//!
//! # What is proved
//!
//! - `read_slot`, `read_lock`: the value that the block spells, and `None` exactly where it is not the one spelling of a value in
//!   range; `write_slot`, `write_lock`: exactly that spelling, which reads again as the same value where it is in range.
//! - `Readers`: 16 keys by host number; `get`, `set`, `is_empty` are exact.
#![tactic(auto)]

mod header;
mod lock;
mod readers;
mod slot;

pub use lock::{LockWord, read_lock, write_lock};
pub use readers::Readers;
pub use slot::{Slot, read_slot, write_slot};
