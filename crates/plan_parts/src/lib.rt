//! What the plans of commands share: sub-plans cut at each device call, and what one device call of a plan owes.
//!
//! # What is proved
//!
//! - A call of a plan that changes no file is quiet (`QuietCall`), for any command and whatever key it was shown: its turn may make
//!   it, the files stay, and the notes agree with the host's memory behind it. So are the read of a block that is no slot (`quiet_read`,
//!   `quiet_table`), the write of a block that is no slot and no lock (`quiet_write`), and the freeing of a lock (`quiet_unlock`). One
//!   that may be the place of its command (`PlacedCall`) differs in what the files become (`placed_write`). Each is a turn of its
//!   command (`quiet_turn`, `placed_turn`).
//! - A step that was refused cuts its command (`IsCut`, `cut_of`), and is the turn in which it is cut (`cut_turn`).
//! - A step of a command on the volume as a whole owes a run no more than its quiet call shows: it goes on (`volume_step_goes_on`), is answered with
//!   a cause (`volume_step_ends`), or is cut (`volume_step_cut`).
//! - `Applying`: behind a commit each step writes the first table that is left, with all edits of the record, which the host then
//!   knows; and when none is left, the empty journal. It stands behind a commit (`committed`), and over the calls of other hosts
//!   (`applying_still`).
//! - `Taken`: each step frees the lock that was taken last; the others are held still, and once all are free the host holds no part
//!   and no group (`none_held`). `free_lock` frees any lock, as a host may that has no record (`LockFreed`).
//! - `ReadTry`: a read hold is taken by three tries at most, and given back by two at most. `TakeWrite`: a write hold is taken by three
//!   tries at most, and behind the first one the slot of each other reader is read, at most sixteen. Each call is quiet for every command
//!   that tries so for the file (`TakesRead`, `GivesBack`, `TakesWrite`), and `Busy` has the key that the notes show. The first stages
//!   stand (`read_starts`, `release_starts`, `write_starts`), with the notes of a command that tried nothing yet (`try_noted`,
//!   `write_noted`), and each stands over the calls of other hosts (`read_taking_still`, `releasing_still`, `write_taking_still`).
//! - `Taken::take`: a lock of a part or a group is taken, and all that the host knows stays; or the key of its holder is shown, which is
//!   another one, and a command that frees no dead host's locks has come to `busy` (`LockBusy`). `fetch`: the table of a held resource is
//!   known (`Fetched`). The read is quiet, but for a `write` where the volume is full under its key: then the command comes to `full`. That
//!   it is not so follows of a group that is not held (`unlocked_spares`), and of a count of 0 (`kept_spares`, `free_spares`).
//! - `Search`: groups are locked and read from the host's own first one upwards, going round, until one has a count of 0. The table of a
//!   group that was counted in vain is handed out (`HasPassed`). The block that is found is free, and the lowest of its group (`HasFound`); where none has, all groups are locked, and the command comes to `full`
//!   (`IsExhausted`). It stands over the calls of other hosts (`searching_still`), and at most two steps a group come (`rank`).
//! - `commit`: the record stands on its way into the tables (`Committed`), which are kept in the order of its edits (`tables_of`). Its
//!   write is a place of the command where the files then are as its plain call leaves them (`placed_commit`), and quiet where they stay
//!   (`quiet_commit`).
//! - `confirm`: the lock of a file that the host may read was read, and nothing changed (`Confirmed`). The read of a data block is quiet
//!   (`quiet_block`), and the write of one in place is a place (`placed_own`).
//!
//! Each step is one call of the device, but that of `Taken` with no lock; at each one table or one lock less is left.
#![tactic(auto)]

mod applying;
mod committing;
mod confirming;
mod fetching;
mod freeing;
mod kept;
mod kepts;
mod lock_calls;
mod outcome;
mod read_try;
mod readers;
mod searching;
mod take_write;
mod taken;
mod taking;

pub use applying::{Applied, Applying};
pub use committing::commit;
pub use confirming::confirm;
pub use fetching::fetch;
pub use freeing::free_lock;
pub use kept::Kept;
pub use kepts::Kepts;
pub use outcome::{Outcome, cut_step};
pub use read_try::ReadTry;
pub use searching::{Search, Searching};
pub use take_write::TakeWrite;
pub use taken::Taken;
pub use taking::Taking;
