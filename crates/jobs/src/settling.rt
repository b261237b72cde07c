// The job that settles a volume.
ghost use Rattle.std.specs.Prelude.{◌≡◌, ◌≢◌, ◌≤◌, IfOk, IfSome, IsNone};
ghost use Rattle.call_effects.specs.Places.{KeepsFiles};
ghost use Rattle.disk_locks.specs.Sure.{BothTold};
ghost use Rattle.image_view.specs.Valid.{IsVolume};
ghost use Rattle.settle.specs.Passes.{Passes};
ghost use Rattle.shared_disk.specs.Seen.{seen_by};
ghost use Rattle.solo.specs.Settlings.{HasSettled};
ghost use Rattle.jobs.specs.Seen.{sink_by};
ghost use Rattle.jobs.specs.Settlings.{Concludes, SettleDecides, SettleEnds, refused_as, settled_text};

use crate::checking::judge;
use crate::outcome::{Outcome, VolumeNo};
use crate::status::Status;
use crate::telling::tell;
use image_view::{SurveyNo, Usage};
use report::write_usage_line;
use settle::{LoneNo, Settled};
use shared_disk::{Device, LAST_COUNTER};
use solo::settle_volume;
use std::alloc::Global;
use vol_base::NoMemory;
use vol_io::Sink;
use volume_check::survey;

/// Makes all equal live blocks of the volume on a device share one data block: writes how many places are live, how many different blocks they
/// hold, and how much of the volume is used; or else why the volume is refused. No other program uses the volume.
pub fn settle<K: Sink, D: Device>(alloc: Global, sink: &mut K, disk: D) -> (Status, D)
    ensures ends { SettleEnds
        (seen_by D.Device disk) (seen_by D.Device result.1)
        (sink_by K.Sink sink.old) (sink_by K.Sink sink.new)
        result.0 }
{
    let (outcome, disk) = decide(alloc, disk);
    let status = tell(alloc, sink, outcome);
    (status, disk)
}

// What settling comes to.
fn decide<D: Device>(alloc: Global, disk: D) -> (Outcome, D)
    ensures decided { SettleDecides (seen_by D.Device disk) (seen_by D.Device result.1) result.0 }
    ensures files { BothTold (D.state disk).told (D.state result.1).told KeepsFiles }
    ensures images { Passes (D.state disk) (D.state result.1) }
{
    let mut disk = disk;
    if let Some(outcome) = judge(alloc, &mut disk) {
        return (outcome, disk);
    }
    let (settled, mut disk) = settle_volume(alloc, disk);
    match settled {
        Ok(counts) => {
            let outcome = conclude(alloc, &mut disk, counts);
            (outcome, disk)
        }
        Err(why) => (refused(why), disk),
    }
}

// What the refusal of a host that is alone comes to.
fn refused(why: LoneNo) -> Outcome
    requires some { why ≢ LoneNo.Full }
    ensures { result ≡ refused_as why }
{
    match why {
        LoneNo::Failed => Outcome::DiskFault,
        LoneNo::Bad(place) => Outcome::Volume(VolumeNo::Misread(place)),
        LoneNo::Busy(key) => Outcome::Volume(VolumeNo::Busy(key)),
        LoneNo::NoKeys => Outcome::Volume(VolumeNo::NoKeys(LAST_COUNTER)),
        LoneNo::NoMemory => Outcome::Memory,
        LoneNo::Full => unreachable!(),
    }
}

// What the survey of a settled volume finds.
fn conclude<D: Device>(alloc: Global, disk: &mut D, counts: Settled) -> Outcome
    requires volume { IfSome (D.state disk.old).told (λ told. IsVolume (D.state disk.old).counter told.image) }
    ensures concluded { Concludes (seen_by D.Device disk.old) (seen_by D.Device disk.new) counts result }
    ensures told { (D.state disk.new).told ≡ (D.state disk.old).told }
    ensures counter { (D.state disk.old).counter ≤ (D.state disk.new).counter }
{
    let usage = match survey(alloc, disk, None) {
        Ok(usage) => usage,
        Err(SurveyNo::Bad(place)) => return Outcome::Volume(VolumeNo::Misread(place)),
        Err(SurveyNo::Failed) => return Outcome::DiskFault,
        Err(SurveyNo::NoKeys) => return Outcome::Volume(VolumeNo::NoKeys(LAST_COUNTER)),
        Err(SurveyNo::NoMemory) => return Outcome::Memory,
    };
    match settled_text(alloc, counts, &usage) {
        Ok(report) => Outcome::Done(report),
        Err(NoMemory) => Outcome::Memory,
    }
}

fn settled_text(alloc: Global, counts: Settled, usage: &Usage) -> Result<Vec<u8>, NoMemory>
    ensures { IfOk result (λ bytes. bytes.items ≡ settled_text counts usage.now) }
{
    let Settled { live, distinct } = counts;
    let mut text = String::new(alloc);
    write!(text, "settled {live} {distinct}\n")?;
    write_usage_line(&mut text, usage)?;
    Ok(text.into_bytes())
}
