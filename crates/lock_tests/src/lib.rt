//! Tests of the locks, of the store under them, and of the world over them: two hosts and one volume. They stand in one crate, so that
//! the crates below are proved once.
#![tactic(auto)]

#[cfg(test)]
mod blocks;
#[cfg(test)]
mod dead_hosts;
#[cfg(test)]
mod files;
#[cfg(test)]
mod hosts;
#[cfg(test)]
mod lock_calls;
#[cfg(test)]
mod rewrites;
#[cfg(test)]
mod spoiled;
#[cfg(test)]
mod stops;
#[cfg(test)]
mod store;
#[cfg(test)]
mod untold;
#[cfg(test)]
mod world_blocks;
#[cfg(test)]
mod world_tables;
