//! A device over a file, which outlives the program: a block is read and written in place, and the
//! counter of registrations is kept beside the blocks. `docs/FORMATS.md`, "The volume file".
//!
//! # What is proved
//!
//! - `StoredDisk` meets the trait `Device` over any store (the trait `Store`: a block at a place, a counter), and `FileDisk` is the
//!   one over a file. Where a store tells its content, so does the device, and the clauses on content hold. Beside the trait's
//!   clauses: the count of faults rises by one at `Failed` and stays at every other answer; `write` and `test_and_set` are never
//!   refused memory, and `register` only where 16,400 keys are registered; where the store could not be opened each `register`
//!   answers `Failed`; the counter that the store keeps is the device's. `reason` tells why the last failed call failed, and tells something
//!   exactly where a call has failed; every other call leaves it (`NotesFailure`).
//! - `FileDisk::new`, `over`: no key, no call, no fault; the counter is that of the file or of the store. `VolumeFile`, the store that
//!   is a file: its counter is at most `2^59 - 1`, and 0 where the file could not be opened. The place of a block in the file and the
//!   number that eight bytes spell are exact.
//! - Only tested: that the calls of `VolumeFile` read and write those bytes of the file and no others, and that a reason is the one that the
//!   system gave: of a file that could not be opened, at each call, that of its opening.
#![tactic(auto)]

mod file_disk;
mod store;
mod stored_disk;
mod volume_file;

pub use file_disk::FileDisk;
pub use store::{BLOCKS, Store};
pub use stored_disk::StoredDisk;
pub use volume_file::{VolumeFile, read_padded};
