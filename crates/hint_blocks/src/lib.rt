//! Hint blocks: what hosts tell each other about blocks that may be equal. A hint may be wrong, and any
//! block reads as a list of hints in range. `docs/FORMATS.md`, "Hint blocks", has the bytes. No call of
//! this crate takes memory.
//!
//! # What is proved
//!
//! - `Hints::of`: any block reads as a list of entries in range, exactly by one definition over its bytes (`entries`, with `room`
//!   and `range`); a block with another magic or a count above 126 reads as none. `empty`, `count`, `get`: exact. `push_over` puts
//!   a hint last and, where 126 stand, drops the first; `drop_digest` takes away all hints about a digest: both exact, and the
//!   geometry stays. `into_block` is exactly the one block of the hints (`bytes`), which reads as them again (`reads`).
//! - `Hint`, for the three kinds of entries: `from_entry` is exactly what 32 bytes stand for, `None` exactly where that is out of
//!   range; `to_entry` exactly the bytes of the entry; `digest` its digest. Two laws are proved of each kind: what is read is in
//!   range (`reads_in_range`), and what is written for an entry in range reads as it (`reads_back`).
//! - `shard_of`: exactly the big-endian number in the first four bytes of the digest, modulo the number of shards.
//! - `Hints` is generic over the kind of entry, by one proof. No call takes memory.
//! - Tested: an entry of each kind, the bounds of a log's on volumes of both versions, the block of all ones, and count 127.
#![tactic(auto)]

mod entry;
mod hint;
mod hints;
mod shard;
mod spelling;

pub use entry::{HintTo, IndexEntry, LogEntry, Request};
pub use hint::Hint;
pub use hints::Hints;
pub use shard::shard_of;
