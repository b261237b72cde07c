//! What a host has seen of the other hosts' slots: how often in a row a slot did not change. A host
//! whose slot stands still for long may be dead.
//!
//! # What is proved
//!
//! - `Watch::look`: a slot that is remembered was seen once more, any other once, and a free one is forgotten; the other hosts'
//!   looks stay. `count`, `seen`, `forget`, `new`: exact.
#![tactic(auto)]

mod watch;

pub use watch::{Look, Watch};
