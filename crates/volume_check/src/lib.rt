//! The check of a volume: all faults of the first stage that has any, and how much of a valid volume is
//! used. It keeps the slots, journals, locks and tables that it read, and beside them one number a data
//! block.
//!
//! # What is proved
//!
//! - `check`: at Ok the list is all faults of the first stage that has any, in order (`faults`), and it is empty exactly where the
//!   volume is valid (`valid`), with the counter that the check's own registration left; `Blank` only where block 0 is all zeros
//!   (`blank`), and never a list there (`not_blank`). `NoKeys` exactly where the counter was at its end, `Failed` only where the
//!   device's count of faults rose. Image and record are as they were, whatever is answered (`told`), and
//!   counter and keys those of a visit that may have been broken off (`visiting`); where the check was made, the
//!   counter has risen by one and the keys are as before (`done`, `left`). Over a device that tells nothing the clauses on content say
//!   nothing.
//! - `check_tables`: the same for the stages behind block 0, under a key that is registered; it changes nothing on the device.
//! - `survey`: at Ok exactly the usage of the image (`usage`), which is to be readable where it is told: its superblock, slots,
//!   journals, locks and tables are spellings in range, and of keys, records and counts nothing is asked. So the usage of a volume
//!   is told also while hosts hold it or after one of them died. `Bad` never comes where the image is told (`bad`), and always names
//!   block 0, or the place of a slot, journal, lock or table of a volume in range that has room on the device (`place`); where the
//!   caller expects a geometry, of that one. The other refusals have the causes of `check`.
//! - Laws for callers (`specs/laws/ReadableLaws.antt`): a valid volume is readable (`IsReadable-valid`), a readable one stays so while the
//!   device's counter rises (`IsReadable-later`), and the geometry under which an image is readable is the one that its block 0 says
//!   (`IsReadableVolume-readable`).
//! - Cost: each slot, journal, lock and table is read once, in the order of places; the blocks stay in memory, at most 1,280 of them,
//!   and beside them one number of four bytes a data block and the standing edits, at most 128. Each stage goes once over the places;
//!   counting makes one step a mapping, and a logical number is a look through the standing edits.
//! - `volume_tests` tests volumes with each kind of fault, with faults of two stages, of version 2, with standing records and read
//!   locks; each call of the device failing in turn. Not proved: that each block is read once.
#![tactic(auto)]

mod adding;
mod checking;
mod counting;
mod fields;
mod holds;
mod keys;
mod metadata;
mod records;
mod spelling;
mod stages;
mod standing;
mod surveying;
mod usages;
mod uses;
mod visits;

pub use checking::{CheckNo, check, check_tables};
pub use surveying::survey;
pub use volume_faults::{Fault, FaultKind};
