// The job that writes a generated workload.
ghost use Rattle.std.specs.Prelude.{◌≤◌};
ghost use Rattle.jobs.specs.Generations.{GenDecides, GenEnds};
ghost use Rattle.jobs.specs.Seen.{sink_by};

use crate::outcome::Outcome;
use crate::status::Status;
use crate::telling::tell;
use gen_load::gen_text;
use std::alloc::Global;
use vol_base::NoMemory;
use vol_io::Sink;

/// Writes the generated workload of so many rounds, from 1 to 100. `docs/COMMANDS.md`, "The generated workload", has its lines.
pub fn generate<K: Sink>(alloc: Global, sink: &mut K, rounds: u32) -> Status
    requires some { 1 ≤ rounds }
    requires few { rounds ≤ 100 }
    ensures ends { GenEnds rounds (sink_by K.Sink sink.old) (sink_by K.Sink sink.new) result }
{
    let outcome = decide(alloc, rounds);
    tell(alloc, sink, outcome)
}

fn decide(alloc: Global, rounds: u32) -> Outcome
    requires some { 1 ≤ rounds }
    requires few { rounds ≤ 100 }
    ensures decided { GenDecides rounds result }
{
    match gen_text(alloc, rounds) {
        Ok(text) => Outcome::Done(text),
        Err(NoMemory) => Outcome::Memory,
    }
}
