//! A plain and slow program that reads an image in memory: what the definitions say of a small volume
//! can be run and looked at by it.

mod counting;
mod fields;
mod files;
mod journals;

pub use counting::{usage, uses};
pub use fields::{geometry, logical};
pub use files::{ReadNo, file};
