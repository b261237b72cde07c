// The job that runs a workload.
ghost use Rattle.std.specs.Prelude.{◌≡◌, ◌+◌};
ghost use Rattle.shared_disk.specs.Seen.{seen_by};
ghost use Rattle.jobs.specs.Seen.{sink_by, source_by, seen};
ghost use Rattle.workload.specs.Grammar.{most_bytes};
ghost use Rattle.jobs.specs.Sources.{TakesAtMost};
ghost use Rattle.jobs.specs.Runs.{ByWords};
ghost use Rattle.jobs.specs.Simulations.{SimDecides, SimEnds};

use crate::outcome::Outcome;
use crate::reading::read_workload;
use crate::running::run_workload;
use crate::status::Status;
use crate::telling::tell;
use shared_disk::Device;
use std::alloc::Global;
use vol_base::HostNo;
use vol_io::{Sink, Source};

/// Runs the workload whose text the source gives, by the schedule of these hosts, and writes its report; or else why it was not run. A blank device becomes an
/// empty volume first.
pub fn sim<S: Source, K: Sink, D: Device>(
    alloc: Global,
    hosts: &[HostNo],
    source: &mut S,
    sink: &mut K,
    disk: D,
) -> (Status, D)
    ensures ends { SimEnds (ByWords hosts.now)
        (seen (source_by S.Source source.old) (seen_by D.Device disk) (sink_by K.Sink sink.old))
        (seen (source_by S.Source source.new) (seen_by D.Device result.1) (sink_by K.Sink sink.new))
        result.0 }
{
    let (outcome, disk) = decide(alloc, hosts, source, disk);
    let status = tell(alloc, sink, outcome);
    (status, disk)
}

// What is decided before a byte is written.
fn decide<S: Source, D: Device>(
    alloc: Global,
    hosts: &[HostNo],
    source: &mut S,
    disk: D,
) -> (Outcome, D)
    ensures decided { SimDecides (ByWords hosts.now)
        (source_by S.Source source.old) (source_by S.Source source.new)
        (seen_by D.Device disk) (seen_by D.Device result.1)
        result.0 }
    ensures taken { TakesAtMost (most_bytes + 1) (source_by S.Source source.old) (source_by S.Source source.new) }
    ensures blocks { (D.state result.1).blocks ≡ (D.state disk).blocks }
{
    match read_workload(alloc, source) {
        Ok(workload) => run_workload(alloc, disk, workload, hosts),
        Err(outcome) => (outcome, disk),
    }
}
