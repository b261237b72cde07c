// The run of a workload, once it is read.
ghost use Rattle.std.specs.Prelude.{◌≡◌, ◌<◌, All, IfSome, IsSome, None, Some, length};
ghost use Rattle.cluster.specs.Agreements.{IsKnownLine};
ghost use Rattle.cluster.specs.Views.{disk_of};
ghost use Rattle.image_view.specs.Valid.{IsValid};
ghost use Rattle.report.specs.Reports.{report};
ghost use Rattle.shared_disk.specs.Seen.{seen_by};
ghost use Rattle.workload.specs.Workloads.{IsWorkload};
ghost use Rattle.jobs.specs.Runs.{ByWords, Concludes, HasEnded, IsReportOr, IsReportWithoutOr, RunDecides, unopened};

use crate::outcome::{AfterRun, Outcome, VolumeNo};
use cluster::Cluster;
use image_view::{SurveyNo, Usage};
use plain_files::Placed;
use schedule::play;
use shared_disk::{Device, LAST_COUNTER};
use std::alloc::Global;
use vol_base::{Answer, HostNo, NoMemory};
use volume_check::survey;
use volume_opening::OpenNo;
use workload::Workload;

/// Opens a device, runs a workload on it by the schedule of these hosts, and surveys the volume that the run
/// left; the device is handed back.
pub fn run_workload<D: Device>(
    alloc: Global,
    disk: D,
    workload: Workload,
    hosts: &[HostNo],
) -> (Outcome, D)
    requires workload { IsWorkload workload }
    requires known { All IsKnownLine workload.lines }
    ensures decided { RunDecides workload (ByWords hosts.now) (seen_by D.Device disk) (seen_by D.Device result.1) result.0 }
    ensures blocks { (D.state result.1).blocks ≡ (D.state disk).blocks }
{
    let mut cluster = match Cluster::start(alloc, disk, workload) {
        Ok(cluster) => cluster,
        Err((refusal, disk)) => return (unopened(refusal), disk),
    };
    match play(&mut cluster, hosts) {
        Ok(()) => finish(alloc, cluster),
        Err(NoMemory) => (Outcome::Memory, cluster.close().disk),
    }
}

// What a refused opening decides.
pub fn unopened(refusal: OpenNo) -> Outcome
    ensures { result ≡ unopened refusal }
{
    match refusal {
        OpenNo::Geometry { given, found } => Outcome::Geometry { given, found },
        OpenNo::Faults(faults) => Outcome::Volume(VolumeNo::Faults(faults)),
        OpenNo::NoKeys => Outcome::Volume(VolumeNo::NoKeys(LAST_COUNTER)),
        OpenNo::Failed => Outcome::DiskFault,
        OpenNo::NoMemory => Outcome::Memory,
    }
}

// Closes a cluster whose run is at its end, and concludes.
pub fn finish<D: Device>(alloc: Global, cluster: Cluster<D>) -> (Outcome, D)
    requires ended { HasEnded cluster.parts }
    ensures concluded { Concludes cluster.parts.workload cluster.parts.ledger.answers cluster.parts.ledger.history
        (disk_of cluster.parts) (seen_by D.Device result.1) result.0 }
    ensures told { (D.state result.1).told ≡ (disk_of cluster.parts).state.told }
    ensures blocks { (D.state result.1).blocks ≡ (disk_of cluster.parts).state.blocks }
{
    let closed = cluster.close();
    let mut disk = closed.disk;
    let outcome = conclude(
        alloc,
        &mut disk,
        &closed.workload,
        &closed.answers,
        &closed.history,
    );
    (outcome, disk)
}

// Surveys the volume behind the last line, and makes the report.
fn conclude<D: Device>(
    alloc: Global,
    disk: &mut D,
    workload: &Workload,
    answers: &[Option<Answer>],
    history: &[Placed],
) -> Outcome
    requires volume { IfSome (D.state disk.old).told (λ told. IsValid workload.now.geometry (D.state disk.old).counter told.image) }
    requires positions { length answers.now ≡ length workload.now.lines }
    requires answered { All (λ answer. IsSome answer) answers.now }
    requires placed { All (λ entry. entry.line < length workload.now.lines) history.now }
    ensures concluded { Concludes workload.now answers.now history.now (seen_by D.Device disk.old) (seen_by D.Device disk.new) result }
    ensures told { (D.state disk.new).told ≡ (D.state disk.old).told }
    ensures blocks { (D.state disk.new).blocks ≡ (D.state disk.old).blocks }
{
    match survey(alloc, disk, Some(workload.geometry)) {
        Ok(usage) => report_with(alloc, workload, answers, history, &usage),
        Err(SurveyNo::NoMemory) => Outcome::Memory,
        Err(SurveyNo::Failed) => {
            report_without(alloc, workload, answers, history, AfterRun::DiskFault)
        }
        Err(SurveyNo::NoKeys) => {
            let cause = AfterRun::NoKeys(LAST_COUNTER);
            report_without(alloc, workload, answers, history, cause)
        }
        Err(SurveyNo::Bad(place)) => {
            report_without(alloc, workload, answers, history, AfterRun::Misread(place))
        }
    }
}

fn report_with(
    alloc: Global,
    workload: &Workload,
    answers: &[Option<Answer>],
    history: &[Placed],
    usage: &Usage,
) -> Outcome
    requires positions { length answers.now ≡ length workload.now.lines }
    requires answered { All (λ answer. IsSome answer) answers.now }
    requires placed { All (λ entry. entry.line < length workload.now.lines) history.now }
    ensures { IsReportOr (report workload.now answers.now history.now (Some usage.now)) result }
{
    match report::text(alloc, workload, answers, history, Some(usage)) {
        Ok(report) => Outcome::Done(report),
        Err(NoMemory) => Outcome::Memory,
    }
}

fn report_without(
    alloc: Global,
    workload: &Workload,
    answers: &[Option<Answer>],
    history: &[Placed],
    cause: AfterRun,
) -> Outcome
    requires positions { length answers.now ≡ length workload.now.lines }
    requires answered { All (λ answer. IsSome answer) answers.now }
    requires placed { All (λ entry. entry.line < length workload.now.lines) history.now }
    ensures { IsReportWithoutOr (report workload.now answers.now history.now None) cause result }
{
    match report::text(alloc, workload, answers, history, None) {
        Ok(report) => Outcome::Unsurveyed { report, cause },
        Err(NoMemory) => Outcome::Memory,
    }
}
