//! The device calls of a merge on blocks of hints, one step each, and what a run asks of a merge of its calls.
//!
//! # What is proved
//!
//! - `reads_log`, `reads_index`, `swaps_index`, `empties_log`: where the host is ready (`IsMerging`), each makes one device call (`Went`): its turn may
//!   make it in a merge, no file changes, a told image stays valid, and whatever the notes of a run were that agree (`MergeNoted`), those
//!   behind it agree. What the host has and knows stays, and so does what other hosts rely on (`Others`). A call that was refused cuts
//!   the merge (`IsCut`).
//! - What the calls did with the own log blocks is said exactly (`AreLogs`): which were read, with how many hints in all, which of these had some, and
//!   which of those were written empty. A read of the next log block adds its hints, a write of an empty block over the next one adds it
//!   to those that are empty, and no other call of these changes anything there, nor does one that spares the log blocks (`noted_spared`).
//! - `merge_ends`, a law: behind a call with which all own log blocks were read, and those that had hints are empty, a merge may be answered
//!   with nine counts that add up to the hints that were read; then the answer has its cause (`HasMerged`). `merge_goes_on`: it may go on,
//!   without a digest that is asked for.
//!
//! - `reads_table`, `reads_block`: the same of a table and of a data block of a held file, of which it is then known what stands there; a table's numbers are
//!   in range. `merge_asks`: behind the read of a data block its digest may be asked for; it is then waited for (`merge_waits`), and handed in
//!   (`merge_handed`).
//! - `passes`: the entries of a shelf that need no device call are handled one after the other (`ArePassed`), each by the decision from the lock that is not
//!   held and the shelf as it then stands, and counted; up to one that asks for a call (`IsDue`): of a held file, or to be posted, or none is left
//!   of this shelf. The counts add up to the entries that are done (`IsSweeping`).
//! - All of it stands over the calls of other hosts (`merging_still`, `merge_noted_still`).
//!
//! The plan of a merge is not built here: which block is swapped and which request is posted, and in which order, is for it to say.
#![tactic(auto)]

mod calls;
mod looks;
mod sweep;

pub use calls::{empties_log, reads_index, reads_log, swaps_index};
pub use looks::{reads_block, reads_table};
pub use sweep::{Due, Sweep, passes};
