// An outcome is told.
ghost use Rattle.jobs.specs.Seen.{sink_by};
ghost use Rattle.jobs.specs.Endings.{IsTold};

use crate::outcome::Outcome;
use crate::status::Status;
use crate::texts::text_of;
use std::alloc::Global;
use vol_base::NoMemory;
use vol_io::{Sink, write_all};

/// Writes the text of an outcome, and answers its status. It answers `WriteFault` where the sink failed
/// or took nothing, behind a front of the text; and `Memory` where the text could not be made, and then
/// nothing is written.
pub fn tell<K: Sink>(alloc: Global, sink: &mut K, outcome: Outcome) -> Status
    ensures { IsTold
        (sink_by K.Sink sink.old)
        (sink_by K.Sink sink.new)
        outcome result }
{
    let status = outcome.status();
    match text_of(alloc, outcome) {
        Ok(text) => match write_all(sink, &text) {
            Ok(()) => status,
            Err(_) => Status::WriteFault,
        },
        Err(NoMemory) => Status::Memory,
    }
}
