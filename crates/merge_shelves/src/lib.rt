//! What a merge does between its device calls: the entries of the host's logs in their order, the decision on each from the shelf as it
//! then stands, what the shelf gains, and the nine counts.
//!
//! # What is proved
//!
//! - `LogRoom`: the entries of up to sixteen log blocks, each with its place among them. `note` adds exactly the entries of a block, in order;
//!   `order` sorts all by shelf, digest and place (`IsOrdered`), and loses none. Room for 2,016 is taken when it is made, and no other
//!   call of this crate takes memory.
//! - `decided`: exactly the decision on an entry, from the shelf's entries of its digest as it stands. `handle`: what is done with an entry once
//!   it is known what its action came to: the shelf gains exactly what the action puts (`HasGained`), and exactly the count of
//!   the action and its outcome rises, by one (`IsRaised`).
//! - `pass`: an entry of a file that the host does not hold is handled at once (`IsHandled`), but where it is to be posted; then nothing was done.
//! - `posted`: exactly the block of requests with one more. `next_changed`: the first block of a shelf from a place on whose entries as
//!   read are others than the shelf's; those before it have the same.
//! - `shelves`, `blocks_of`: how many shelves there are, and how many blocks one has.
#![tactic(auto)]

mod changes;
mod handling;
mod parts;
mod room;
mod tally;

pub use changes::{next_changed, posted};
pub use handling::{Done, decided, handle, pass};
pub use parts::{blocks_of, shelves};
pub use room::{LogRoom, Noted};
pub use tally::none;
