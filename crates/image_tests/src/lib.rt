//! Tests of the definitions on images, of what each kind of record does to the files, and of the texts of a
//! report and of faults. They stand in one crate, so that the crates below are proved once.
#![tactic(auto)]

#[cfg(test)]
mod effects;
#[cfg(test)]
mod fault_lines;
#[cfg(test)]
mod images;
#[cfg(test)]
mod reports;
#[cfg(test)]
mod volumes;
