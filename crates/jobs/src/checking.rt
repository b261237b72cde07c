// The job that checks a volume.
ghost use Rattle.std.specs.Prelude.{◌≡◌, ◌≤◌, IfOk, IfSome, IsNone};
ghost use Rattle.image_view.specs.Valid.{IsVolume};
ghost use Rattle.shared_disk.specs.Visits.{IsVisiting, after_visit};
ghost use Rattle.shared_disk.specs.Seen.{seen_by};
ghost use Rattle.jobs.specs.Seen.{sink_by};
ghost use Rattle.jobs.specs.Checks.{AreVisits, CheckDecides, JudgeDecides, SurveyDecides, valid_text};
ghost use Rattle.jobs.specs.Commands.{CheckEnds};

use crate::outcome::{Outcome, VolumeNo};
use crate::status::Status;
use crate::telling::tell;
use image_view::{SurveyNo, Usage};
use report::write_usage_line;
use shared_disk::{Device, LAST_COUNTER};
use std::alloc::Global;
use vol_base::NoMemory;
use vol_io::Sink;
use volume_check::{CheckNo, survey};

/// Checks the volume on a device: writes `valid` and how much of the volume is used, or else what is
/// wrong with it. It registers a key for host 0, and a second one where the volume is valid, fences each,
/// and writes nothing to the device.
pub fn check<K: Sink, D: Device>(alloc: Global, sink: &mut K, disk: D) -> (Status, D)
    ensures ends { CheckEnds
        (seen_by D.Device disk) (seen_by D.Device result.1)
        (sink_by K.Sink sink.old) (sink_by K.Sink sink.new)
        result.0 }
{
    let mut disk = disk;
    let outcome = decide(alloc, &mut disk);
    let status = tell(alloc, sink, outcome);
    (status, disk)
}

// What the check and the survey find.
fn decide<D: Device>(alloc: Global, disk: &mut D) -> Outcome
    ensures decided { CheckDecides (seen_by D.Device disk.old) (seen_by D.Device disk.new) result }
    ensures told { (D.state disk.new).told ≡ (D.state disk.old).told }
    ensures visits { AreVisits (D.state disk.old) (D.state disk.new) }
    ensures blocks { (D.state disk.new).blocks ≡ (D.state disk.old).blocks }
{
    match judge(alloc, disk) {
        Some(outcome) => outcome,
        None => decide_valid(alloc, disk),
    }
}

/// What the check of a volume decides where it does not find it valid. It registers a key for host 0 and fences it.
pub fn judge<D: Device>(alloc: Global, disk: &mut D) -> Option<Outcome>
    ensures refused { IfSome result (JudgeDecides (seen_by D.Device disk.old) (seen_by D.Device disk.new)) }
    ensures valid { IsNone result → IfSome (D.state disk.new).told (λ told. IsVolume (D.state disk.new).counter told.image) }
    ensures left { IsNone result → D.state disk.new ≡ after_visit (D.state disk.old) }
    ensures told { (D.state disk.new).told ≡ (D.state disk.old).told }
    ensures visiting { IsVisiting (D.state disk.old) (D.state disk.new) }
    ensures blocks { (D.state disk.new).blocks ≡ (D.state disk.old).blocks }
    ensures later { D.faults disk.old ≤ D.faults disk.new }
{
    let faults = match volume_check::check(alloc, disk) {
        Ok(faults) => faults,
        Err(CheckNo::Blank) => return Some(Outcome::Volume(VolumeNo::Blank)),
        Err(CheckNo::Failed) => return Some(Outcome::DiskFault),
        Err(CheckNo::NoKeys) => return Some(Outcome::Volume(VolumeNo::NoKeys(LAST_COUNTER))),
        Err(CheckNo::NoMemory) => return Some(Outcome::Memory),
    };
    if faults.is_empty() {
        None
    } else {
        Some(Outcome::Volume(VolumeNo::Faults(faults)))
    }
}

// What the survey of a valid volume finds.
fn decide_valid<D: Device>(alloc: Global, disk: &mut D) -> Outcome
    requires { IfSome (D.state disk.old).told (λ told. IsVolume (D.state disk.old).counter told.image) }
    ensures decided { SurveyDecides (seen_by D.Device disk.old) (seen_by D.Device disk.new) result }
    ensures told { (D.state disk.new).told ≡ (D.state disk.old).told }
    ensures visits { IsVisiting (D.state disk.old) (D.state disk.new) }
    ensures blocks { (D.state disk.new).blocks ≡ (D.state disk.old).blocks }
{
    let usage = match survey(alloc, disk, None) {
        Ok(usage) => usage,
        Err(SurveyNo::Bad(place)) => return Outcome::Volume(VolumeNo::Misread(place)),
        Err(SurveyNo::Failed) => return Outcome::DiskFault,
        Err(SurveyNo::NoKeys) => return Outcome::Volume(VolumeNo::NoKeys(LAST_COUNTER)),
        Err(SurveyNo::NoMemory) => return Outcome::Memory,
    };
    match valid_text(alloc, &usage) {
        Ok(report) => Outcome::Done(report),
        Err(NoMemory) => Outcome::Memory,
    }
}

fn valid_text(alloc: Global, usage: &Usage) -> Result<Vec<u8>, NoMemory>
    ensures { IfOk result (λ bytes. bytes.items ≡ valid_text usage.now) }
{
    let mut text = String::new(alloc);
    text.push_str("valid\n")?;
    write_usage_line(&mut text, usage)?;
    Ok(text.into_bytes())
}
