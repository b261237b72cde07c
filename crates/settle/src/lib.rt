//! Settling a volume: all equal blocks of its files come to share one data block.
//!
//! # What is proved
//!
//! All of it is said over any `Lone`, a host that is alone on a volume, of an image for which `IsSound` holds; a valid one has it
//! (`sound-valid`). Where the device tells nothing, `stopped` alone is owed.
//!
//! - `settle`: at `Ok` any two live places with equal bytes show one data block (`IsSettled`). `live` is exactly the number of live places,
//!   which are no holes (`live_places`), and `distinct` exactly the number of the different blocks that they hold (`HasContents`).
//! - Whatever it answers, each change was a link of two places with equal bytes (`Stays`, by its chain `Shares`): every place keeps its bytes,
//!   and every file and its length stay (`KeepsFiles`).
//! - From a valid volume on, each image on the way is a valid volume with the files of the first, whatever it answers and wherever it is broken
//!   off, and no key is given (`GoesOn`, of a `Lone` that says so of each of its calls).
//! - Where no two different blocks that are live have one SHA-1 (`NoClash`), at most 40 calls of the device are made for each place, holes
//!   included, and 4 for each file number (`places_of`), whatever it answers. So a place is compared with the places of its own digest alone,
//!   and with one of those that are equal.
//! - A refusal is that of the host, which stopped for exactly it (`IsRefused`), and never `Full` or `NoKeys`. Of `NoMemory` no more is said: the
//!   list of blocks may have found none, while the host goes on.
//! - Blocks are equal by their bytes. Equal digests say no more than that two blocks are to be compared: blocks of one digest that differ are
//!   representatives both (`IsGathered`).
//!
//! Not proved: that places are linked to the first one with equal bytes, which the code does. The memory that the list of blocks takes has no
//! clause: it has an entry for each different block, of which a volume has at most 64,512. The host of `solo`
//! implements `Lone`.
#![tactic(auto)]

mod candidates;
mod comparing;
mod lone;
mod placing;
mod reading;
mod seeking;
mod settling;

pub use lone::{Lone, LoneNo};
pub use settling::{Settled, settle};
