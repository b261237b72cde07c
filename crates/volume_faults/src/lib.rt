//! What is wrong with a volume: the faults that a check lists, stage by stage, and the text of each.
//! That a volume without a fault is a valid one is proved in `specs/ValidityLaws.antt`.
//!
//! # What is proved
//!
//! - `text`: exactly the line of each fault, in their order.
//! - `is_of_kind`: exactly whether a block is a spelling in range of its kind, with keys that the device gave.
//! - Definitions of the faults of a volume, stage by stage, and their laws: an empty list exactly on valid volumes, one list a volume,
//!   the same list for images that agree on what is read. The contract of `volume_check::check` carries them.
#![tactic(auto)]

mod fault;
mod lines;
mod spelling;

pub use fault::{Fault, FaultKind};
pub use lines::text;
pub use spelling::is_of_kind;
