//! Tests of the jobs: whole texts and volumes, and what a job writes of them byte by byte. They stand in one
//! crate, so that the jobs and the crates below are proved once.
//!
//! - `one_host`, `several_hosts`, `earlier_runs`, `damages`, `faults`: tables of cases. Each case is a device in memory and what is done with it,
//!   one step after the other: a workload with each answer behind its line, a check, or a change of the device's blocks, counter or calls.
//! - `deaths`: a command that is cut behind each of its device calls in turn, by the death of its host, and the recovery of that host.
//! - `filling`: a volume that is written full. `collections`: a part of the arena that is emptied. `generations`: a generated
//!   workload. `hints`: hints that are logged, scanned for and written, over any content of their blocks. `merges` and `shared_blocks`: hints
//!   that are merged, and what comes of them. `servings`: requests that are served. `settlings`: volumes that are settled. `refusals`: words and
//!   texts without a run. `streams`: sources and sinks that fail.
//! - `telling`: the texts of outcomes.
#![tactic(auto)]

#[cfg(test)]
mod cases;
#[cfg(test)]
mod collections;
#[cfg(test)]
mod damages;
#[cfg(test)]
mod deaths;
#[cfg(test)]
mod devices;
#[cfg(test)]
mod earlier_runs;
#[cfg(test)]
mod faults;
#[cfg(test)]
mod filling;
#[cfg(test)]
mod generations;
#[cfg(test)]
mod hints;
#[cfg(test)]
mod merges;
#[cfg(test)]
mod one_host;
#[cfg(test)]
mod refusals;
#[cfg(test)]
mod scripts;
#[cfg(test)]
mod servings;
#[cfg(test)]
mod settlings;
#[cfg(test)]
mod several_hosts;
#[cfg(test)]
mod shared_blocks;
#[cfg(test)]
mod streams;
#[cfg(test)]
mod telling;
