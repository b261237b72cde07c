//! How a job that runs a workload opens its device: a blank device is formatted, and any other one is
//! checked and used as it stands.
//!
//! # What is proved
//!
//! - `open` formats a blank device, and checks any other one and uses it as it stands. What it leaves is said of what the device
//!   tells; over a device that tells nothing the clauses on content hold with nothing to show.
//! - Ok (`opened`: `fits`, `valid`, `formatted`; `long`, `used`, `visited`): the device has the blocks that the geometry needs, the
//!   geometry fits, the image is a valid volume of it under the device's counter, it is formatted where the device was blank, and
//!   else the image and the record of writes are those handed in; the counter has risen by one and all else of the keys stays.
//! - `Geometry` (`refused`, `left`): exactly the two numbers of `misfit`: the first of the seven numbers in which a superblock at
//!   block 0 differs, or else the blocks that are needed and the fewer blocks that are there. It comes before the faults: Ok and
//!   `Faults` say that `misfit` is nothing.
//! - `Faults` (`HasFaults`: `fits`, `used`, `some`, `faults`): the device is not blank, and these are all faults of its volume by the
//!   definition of `volume_faults`, at least one.
//! - `NoKeys` exactly where the counter is at its end (`no_keys`), and nothing changed. `Failed` only where the device's faults rose
//!   (`failed`).
//! - `images`: at every answer each image between the one handed in and the last one is the one handed in, or, where that is blank,
//!   a blank or a formatted one; at `NoMemory` none is formatted (`IsStillBlank`), and at `Geometry`, `Faults` and `NoKeys` nothing
//!   was written (`left`). `used`: a device that is not blank keeps its image and its record at every answer.
//! - Keys (`left`, `visited`): after Ok, `Geometry` and `Faults` the own key is fenced; after `Failed` it may still be registered.
//! - Laws for callers: a geometry fits a blank device that is long enough, and a volume of its own (`blank_fits`, `volume_fits`); each
//!   image on the way has the files of the one handed in, and is blank or valid where that one is (`opening_keeps_files`,
//!   `opening_keeps_valid`).
//! - Only tested, by `volume_tests`: the order of the writes, the number of device calls (20 on a blank device of one table block a
//!   file, and 19 on its volume), and that no want of memory is answered with ample memory.
#![tactic(auto)]

mod block_zero;
mod format;
mod misfit;
mod open_no;
mod opening;
mod volume;

pub use open_no::OpenNo;
pub use opening::open;
