//! Tests of the layout, the codecs and the parts that speak of values alone: what no clause says. They
//! stand in one crate, so that the crates below are proved once.
#![tactic(auto)]

#[cfg(test)]
mod caches;
#[cfg(test)]
mod decisions;
#[cfg(test)]
mod digests;
#[cfg(test)]
mod files;
#[cfg(test)]
mod hints;
#[cfg(test)]
mod journals;
#[cfg(test)]
mod layout;
#[cfg(test)]
mod loads;
#[cfg(test)]
mod looks;
#[cfg(test)]
mod shelves;
#[cfg(test)]
mod slots_and_locks;
#[cfg(test)]
mod workloads;
