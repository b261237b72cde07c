//! Tests of the turn lock and of the hosts as threads: that they run, that hosts interleave inside a command, also those of a
//! cluster over its device, and what the program reports of such a run. They stand in one crate, so that the crates below are
//! proved once.
#![tactic(auto)]

#[cfg(test)]
mod clusters;
#[cfg(test)]
mod hosts;
#[cfg(test)]
mod reports;
#[cfg(test)]
mod seats;
