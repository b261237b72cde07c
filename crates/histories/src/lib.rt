//! What a run owes its workload: definitions, and laws over them. There is no code here; the crates that run a workload cite these
//! definitions in their contracts.
//!
//! # What is proved
//!
//! - Nothing answered and nothing entered fits every workload; a device that stands still has the image of one front; the lines of a workload
//!   stand by phase, each in one of its phases. The laws of runs in `host_runs`, `cluster` and `jobs` stand on these.
#![tactic(auto)]
