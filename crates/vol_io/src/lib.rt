//! Where bytes come from and go to: sources and sinks, each of whose failures has a cause that a
//! contract sees, and the loops that read a source to its end and write a whole text.
//!
//! # What is proved
//!
//! - `read_all`: Ok means that the source was read to its end and at most `limit` bytes were left; else a front of at most
//!   `limit + 1` bytes was taken; `Long` exactly where `limit + 1` were; `Failed` only where the source's count of faults rose.
//! - `write_all`: Ok means that exactly the text was taken; else a proper front of it was; `Failed` only where the sink's count of
//!   faults rose; `Stuck` only where its second count rose, and that count stays at every other answer. It takes no memory.
//! - `MemSource`, `MemSink`: a call fails exactly where its number is in the list of calls that are to fail; what is given or
//!   taken is exact. `SureSource`, `SureSink` never fail. A text that fits a sink's room never ends in `Stuck`.
//! - `StdSource`, `StdSink`: the count rises at each `Err` of the reader or writer and stays at each other answer. Not proved:
//!   that the adapter hands the whole piece to the writer (std's contract cannot tell); tested.
#![tactic(auto)]

mod adapters;
mod memory;
mod reading;
mod sure;
mod writing;

pub use adapters::{StdSink, StdSource};
pub use memory::{MemSink, MemSource};
pub use reading::{Failed, ReadNo, Source, read_all};
pub use sure::{SureSink, SureSource};
pub use writing::{Sink, WriteNo, write_all};
