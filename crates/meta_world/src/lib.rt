//! The tables, data blocks, journals and hint blocks of a volume, read and written under the locks of its hosts. Each call makes one
//! call of the device, or none.
//!
//! # What is proved
//!
//! Of every call:
//! - `did`: exactly what was asked of the device under the host's key, and what it answered.
//! - `others`: what every other host may go on relying on (`Others`): its part of the locks, its record in memory, and every fact that it
//!   knows.
//! - `looked`, of a read (`Looks`): to its own host it leaves memory, key and device as they were, and every fact. So does a swap that
//!   found another block (`kept`).
//! - `wrote`, of a write (`Wrote`): it leaves memory, key, and every fact that the write spares (`Spares`). A told image is that with the
//!   one block written, and logical numbers get exactly the record's edits at `commit` and stay at every other call (`Writing`). The write
//!   of a hint block spares every fact (`WroteHint`; of a swap `swapped`).
//! - `files`, of a write: no file changes, but at `commit` and `write_own`. `commit` makes the edits of its record, which the laws of
//!   `call_effects` read as a plain call; `write_own` is the place of a plain write (`placed`). Refused, these two change no file either
//!   (`files`, `refused`).
//! - `sound`, of a read: a block that is not of its kind comes only where the device does not tell its content.
//! - `standing`: each host's record in memory stays, but where `commit` or `finish` is done: then the own one is the record, or none.
//!
//! Of single calls, what the host then knows: a table that it read or wrote, and the number of a slot (`table`, `number`, `known`,
//! `range`); the bytes of a data block (`block`, `fresh`, `shows`); its own record (`stands`, `empty`); the record of a host whose slot it
//! claimed (`entry`, `empty`), and the tables that this record edits (`table`).
//!
//! That a told image is valid between any two calls is carried by `Locks::geometry`, and `valid` says it behind each write. What a call
//! asks of the image it asks only while the host's key is registered (`Sure`). `locks_mut` lends the locks and asks nothing: what their
//! calls owe is asked by them, and what they leave of facts is said by the laws of `host_facts`. Over a device that tells nothing, that a
//! block which is no spelling is answered by `Bad` is tested and not proved: no clause sees there which block came.
//!
//! `lock_tests` tests the calls: each of them once, hint blocks, and a record that is replayed after each of its device calls.
#![tactic(auto)]

mod hints;
mod numbers;
mod records;
mod replays;
mod tables;
mod world;

pub use world::MetaWorld;
