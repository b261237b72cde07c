//! Tests of the devices, the streams and the blocks that pass through them: what no clause says, and
//! code over any device. They stand in one crate, so that the crates below are proved once.
#![tactic(auto)]

#[cfg(test)]
mod any_device;
#[cfg(test)]
mod blocks;
#[cfg(test)]
mod few_blocks;
#[cfg(test)]
mod memory_disk;
#[cfg(test)]
mod streams;
#[cfg(test)]
mod volume_file;
