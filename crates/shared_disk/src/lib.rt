//! A block device that several hosts share: one block a call, each call one atomic change, and keys
//! that can be fenced. `Device` is the trait, and `MemDisk` a device in memory that tells all.
//!
//! # What is proved
//!
//! - The trait `Device`: `Fenced` exactly where the key is not registered, `NoKeys` exactly where the counter is at its end,
//!   `Failed` only where the count of faults rose; after each refusal image, keys, counter and record are as before; `write` and
//!   a swap set one block and add themselves to the record; `test_and_set` swaps exactly where the block equals the old one;
//!   `register` gives `counter * 16 + host` with the raised counter; `fence` takes one key off. While there is room no call is
//!   refused memory. Where a device does not tell its content the clauses on content hold with nothing to show. What it tells is
//!   made of blocks, each 4,096 numbers below 256 (`whole_blocks`).
//! - Each call as one event (`specs/laws/EventLaws.antt`): the clauses of a call say together that it `Acts` as its event says.
//! - `MemDisk` meets the trait and fails exactly at the calls that it was told to fail at, unless such a call is refused for its key
//!   or the counter's end; `new`, `of_image`, `fail_at`,
//!   `reserve`, `block`, `writes` are exact.
//! - Laws of `Prefixes` and `EachImage` (images on the way of several calls): the empty stretch, one call, entries without a
//!   write, two stretches joined.
#![tactic(auto)]

mod answers;
mod device;
mod mem_disk;

pub use answers::{DiskNo, Tested};
pub use device::{Device, LAST_COUNTER};
pub use mem_disk::MemDisk;
