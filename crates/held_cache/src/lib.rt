//! The tables of files that hosts keep in memory between two commands: for each host of a volume and
//! each table block of a file nothing, or the table that was kept last.
//!
//! # What is proved
//!
//! - `HeldCache::new` keeps nothing (`nothing`); `keep` keeps exactly that table at that host and table block, and all else stays
//!   (`ChangesOnly`); `get` is exactly what is kept there, and `None` exactly where nothing is; `forget` and `forget_host` take
//!   away one table, or all of one host, and nothing else (`ChangesOnly`, `ForgetsHost`). So `get` answers what was kept last and
//!   not forgotten since. `keep` and `get` ask for a table block of a file, further ones among them; `forget` takes any table of
//!   the volume, and for one of a group or part nothing changes.
//! - No call but `new` takes memory. That the room that `new` reserved is enough for every host and table is proved: each table
//!   that is kept has one place of its own, and there are as many places as pairs of host and table block.
//! - Measured, not proved: for the greatest geometry `new` takes 63.6 MiB of address space (16,384 tables of 4,052 bytes and
//!   positions of 256 KiB), of which 268 KiB are touched before the first table is kept.
#![tactic(auto)]

mod cache;
mod store;

pub use cache::HeldCache;
