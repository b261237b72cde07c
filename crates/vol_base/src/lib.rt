//! The types that every crate of the volume speaks: blocks, keys and digests, the plain calls on
//! files, commands with their answers, and what a run is made of. No call of this crate takes memory.
//!
//! # What is proved
//!
//! - `Block::zeros`, `is_zeros`, `same`, `of_bytes`, `u32_at`, `u64_at`: exact; the two tests by ↔.
//! - `Draft` is the list of bytes written so far, and `finish` hands out that list and zeros.
//! - `number_block(n)` is the block whose byte k is byte k mod 8 of the big-endian n; `plain_call` is exactly the call of a file
//!   command, and `None` for each other command.
//! - `Packed<W>`, for every W above 0 by one proof: `of` is `None` exactly for a wrong magic or a count above the room, and else
//!   what the block reads as; `get`, `set`, `push` are those of the list and leave the header and the other entries; `push` is
//!   `None` exactly where the room is full, and nothing changed then; `into_block` writes exactly `packed_bytes` and reads again
//!   as the same value. `Packed<4>::number`, `set_number`: the same for numbers.
//! - `Begun`, `Counted`, `Turns`: what a run of several hosts owes its callers. No type of this repository implements them yet.
//! - Tested: `Packed` at 4, 16 and 32, and each public call once.
#![tactic(auto)]

mod answer;
mod block;
mod calls;
mod command;
mod draft;
mod filled;
mod gate;
mod packed;
mod plain;
mod turns;

pub use answer::{Answer, CutBy, MergeCounts, Next, ServeCounts, Step, Turn};
pub use block::{Block, Digest, Key, are_blocks};
pub use calls::plain_call;
pub use command::Command;
pub use draft::Draft;
pub use filled::number_block;
pub use gate::{FreeGate, Gate};
pub use packed::Packed;
pub use plain::{DataNo, FileNo, HostNo, NoMemory, PlainCall, PlainReply, SlotNo};
pub use turns::{Begun, Counted, Turns};
