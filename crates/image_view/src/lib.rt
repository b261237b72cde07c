//! What an image of a volume means: the numbers of its fields with the journals applied, its files, its
//! mappings and counts, and when it is valid. The definitions stand in `specs/`.
//!
//! # What is proved
//!
//! - The definitions of `docs/DEFINITIONS.md`, and laws over them that the gate proves and of which some are carried by no public call yet: what a
//!   write to one kind of block leaves; how standing edits, logical numbers and uses move when a record is made, applied and
//!   emptied; that counts balance for each kind of record, and that an image stays counted where they do and marks are kept; that
//!   two journals of a valid image edit no common field; that a formatted image is valid, without a file and without a mapping;
//!   that on a valid image whose slots are all free no lock is held, no record stands, and each number stands in its table
//!   (`free_slots_leave_nothing`);
//!   that a write of a hint or data block keeps an image valid; when files stay or change. Not proved yet: that each kind of record
//!   keeps marks, and that a whole image stays valid when a record is made, applied or emptied, or a slot or lock is written.
//! - `read_pointer`, `write_pointer`: exact, by the number of a pointer. `slow`: a plain program whose contract is the definitions,
//!   which reads geometry, logical numbers, files, uses and usage of a small image in memory, so that tests run the definitions.
#![tactic(auto)]

mod pointer;
pub mod slow;
mod usage;

pub use pointer::{Number, read_pointer, write_pointer};
pub use usage::{SurveyNo, Usage};
