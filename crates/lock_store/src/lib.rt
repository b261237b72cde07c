//! The store under the locks: a device, the geometry of its volume, and what each host has in memory. Of images it knows
//! nothing.
//!
//! # What is proved
//!
//! - `register`, `fence`, `read`, `write`, `swap` make exactly one event of the device each, under the host's key, with the
//!   device's answer (`Did`), and leave each other host's memory as it was.
//! - A refusal is the device's own: after `Fenced` and `Failed` the host is dropped, after `NoMemory` its memory is as before
//!   (`IsRefusal`).
//! - `try_lock`, `try_slot`, `read_slot` and `confirm` hand out what was found exactly where it may stand there, and answer `Bad` with
//!   the block's place exactly where the block that the device showed is not of its kind (`FitsLock`, `FitsSlot`).
//! - `new`, `close`, `geometry`, `host` and `note` make no event.
//! - `lock_tests` tests the store over a device in memory.
#![tactic(auto)]

mod answers;
mod calls;
mod device;
mod host;
mod purpose;
mod slots;
mod store;
mod tries;

pub use answers::{Claim, StepNo, Took};
pub use host::HostState;
pub use purpose::{Purpose, SlotUse, Trier};
pub use store::Store;
