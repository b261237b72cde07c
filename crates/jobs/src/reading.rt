// The workload that a source gives.
ghost use Rattle.std.specs.Prelude.{◌≡◌, ◌+◌, All, IfErr, IfOk};
ghost use Rattle.cluster.specs.Agreements.{IsKnownLine};
ghost use Rattle.workload.specs.Grammar.{most_bytes, workload_of};
ghost use Rattle.workload.specs.Workloads.{IsWorkload};
ghost use Rattle.jobs.specs.Seen.{source_by};
ghost use Rattle.jobs.specs.Readings.{IsReadingOf};
ghost use Rattle.jobs.specs.Sources.{IsRead, StopsReading, TakesAtMost};

use crate::outcome::Outcome;
use std::alloc::Global;
use vol_io::{ReadNo, Source, read_all};
use workload::{ParseNo, Workload, WorkloadNo, parse};

// The most bytes of a workload's text.
const MOST_BYTES: usize = 1_048_576;

// Reads the source to its end, and gives the workload of its text; or else the outcome with which the job ends.
pub fn read_workload<S: Source>(alloc: Global, source: &mut S) -> Result<Workload, Outcome>
    ensures ok { IfOk result (IsRead (source_by S.Source source.old)
        (source_by S.Source source.new)) }
    ensures err { IfErr result (StopsReading (source_by S.Source source.old)
        (source_by S.Source source.new)) }
    ensures taken { TakesAtMost (most_bytes + 1) (source_by S.Source source.old) (source_by S.Source source.new) }
    ensures workload { IfOk result IsWorkload }
    ensures known { IfOk result (λ workload. All IsKnownLine workload.lines) }
{
    let text = match read_all(alloc, source, MOST_BYTES) {
        Ok(text) => text,
        Err(ReadNo::Failed) => return Err(Outcome::ReadFault),
        Err(ReadNo::Long) => return Err(refused(0, WorkloadNo::Long)),
        Err(ReadNo::NoMemory) => return Err(Outcome::Memory),
    };
    parsed(alloc, &text)
}

fn refused(line: u32, cause: WorkloadNo) -> Outcome
    ensures { result ≡ Outcome.Workload line cause }
{
    Outcome::Workload { line, cause }
}

// The workload of a text.
fn parsed(alloc: Global, text: &[u8]) -> Result<Workload, Outcome>
    ensures is { IsReadingOf (workload_of text.now) result }
    ensures workload { IfOk result IsWorkload }
    ensures known { IfOk result (λ workload. All IsKnownLine workload.lines) }
{
    match parse(alloc, text) {
        Ok(workload) => Ok(workload),
        Err(ParseNo::Refused { line, cause }) => Err(refused(line, cause)),
        Err(ParseNo::NoMemory) => Err(Outcome::Memory),
    }
}
