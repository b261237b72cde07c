//! Keys, slots, claims and locks on disk. Each call makes one device call, or none.
//!
//! # What is proved
//!
//! Of every call:
//! - `did`: exactly what was asked of the device under the host's key, what it answered, and what the host then has in memory.
//! - `others`: no memory changes but that of the calling host; and what every other host may go on relying on (`Keeps`), while its key is
//!   registered: its own record, the tables, numbers and blocks that it may read, the slots of the arena whose blocks it holds, the
//!   slots that it claimed, and that the own slot which it freed stays free; keys only fall, no lock comes to be held by a key that is
//!   off, and what has entered or ended stays so (`Lasts`).
//! - `sound`: a block that is not of its kind comes only where the device does not tell its content.
//! - Between any two calls (`Consistent`, by `geometry`): a told image is valid and agrees with all memories, and each host holds in
//!   memory what the image says (`IsHeldInMemory`). Whatever the device tells, a joined host claims its own slot no more (`IsMemory`).
//!
//! Of single calls: `register` is refused for want of keys exactly where the counter is at its end; `free_slot` frees a slot of every
//! told volume, and of a host that leaves asks that it holds no resource of the volume; `write_kind` and `swap_kind` ask that the written
//! image is valid and wrongs no other host (`MayWrite`).
//!
//! `lock_tests` tests two hosts on one volume: read holds together, refused and granted write holds, a reader that has ended, claims of live
//! and of recovering slots, a dead host's locks, and the counter at its end.
#![tactic(auto)]

mod answers;
mod blocks;
mod files;
mod locks;
mod own;
mod recovering;
mod shared;

pub use answers::Got;
pub use locks::Locks;
