//! Tests of the check of a volume, of its opening, and of records made in its tables: what no clause
//! says, and volumes that are built by hand. They stand in one crate, so that the crates below are proved once.
#![tactic(auto)]

#[cfg(test)]
mod faults;
#[cfg(test)]
mod openings;
#[cfg(test)]
mod records;
#[cfg(test)]
mod volumes;
