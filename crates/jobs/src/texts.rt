// The text of each outcome.
ghost use Rattle.std.specs.Prelude.{◌≡◌, ◌++◌, ◌∷◌, [], IfOk};
ghost use Rattle.jobs.specs.Outcomes.{busy_line, cause_word, geometry_line, keys_line, outcome_text, refusal_text, spelling_line, survey_text, workload_line};

use crate::outcome::{AfterRun, Outcome, VolumeNo};
use std::alloc::Global;
use vol_base::NoMemory;
use volume_faults::{Fault, FaultKind};
use workload::WorkloadNo;

// The whole text of an outcome.
pub fn text_of(alloc: Global, outcome: Outcome) -> Result<Vec<u8>, NoMemory>
    ensures { IfOk result (λ bytes. bytes.items ≡ outcome_text outcome) }
{
    match outcome {
        Outcome::Done(report) => Ok(report),
        Outcome::Unsurveyed { report, cause } => unsurveyed_text(alloc, report, cause),
        Outcome::Usage => line(alloc, "usage: dede VOLUME JOB [ARGS]"),
        Outcome::Workload { line, cause } => workload_line(alloc, line, cause),
        Outcome::Volume(refusal) => refusal_text(alloc, refusal),
        Outcome::DiskFault => line(alloc, "disk fault"),
        Outcome::ReadFault => line(alloc, "read fault"),
        Outcome::Memory => Ok(Vec::new(alloc)),
        Outcome::Geometry { given, found } => geometry_line(alloc, given, found),
    }
}

fn refusal_text(alloc: Global, refusal: VolumeNo) -> Result<Vec<u8>, NoMemory>
    ensures { IfOk result (λ bytes. bytes.items ≡ refusal_text refusal) }
{
    match refusal {
        VolumeNo::Faults(faults) => volume_faults::text(alloc, &faults),
        VolumeNo::Blank => line(alloc, "volume block 0: blank"),
        VolumeNo::NoKeys(counter) => keys_line(alloc, counter),
        VolumeNo::Busy(key) => busy_line(alloc, key.0),
        VolumeNo::Misread(place) => spelling_line(alloc, place),
    }
}

// A report, and behind it why the survey was refused.
fn unsurveyed_text(alloc: Global, report: Vec<u8>, cause: AfterRun) -> Result<Vec<u8>, NoMemory>
    ensures { IfOk result (λ bytes. bytes.items ≡ report.items ++ survey_text cause) }
{
    let mut text = report;
    let more = survey_text(alloc, cause)?;
    match text.extend_from_slice(&more) {
        Ok(()) => Ok(text),
        Err(_) => Err(NoMemory),
    }
}

fn survey_text(alloc: Global, cause: AfterRun) -> Result<Vec<u8>, NoMemory>
    ensures { IfOk result (λ bytes. bytes.items ≡ survey_text cause) }
{
    match cause {
        AfterRun::DiskFault => line(alloc, "disk fault"),
        AfterRun::NoKeys(counter) => keys_line(alloc, counter),
        AfterRun::Misread(place) => spelling_line(alloc, place),
    }
}

fn spelling_line(alloc: Global, place: u64) -> Result<Vec<u8>, NoMemory>
    ensures { IfOk result (λ bytes. bytes.items ≡ spelling_line place) }
{
    let kind = FaultKind::Spelling;
    volume_faults::text(alloc, &[Fault { place, kind }])
}

fn line(alloc: Global, words: &str) -> Result<Vec<u8>, NoMemory>
    ensures { IfOk result (λ bytes. bytes.items ≡ words.now ++ 10 ∷ []) }
{
    let mut text = String::new(alloc);
    text.push_str(words)?;
    text.push_str("\n")?;
    Ok(text.into_bytes())
}

fn workload_line(alloc: Global, line: u32, cause: WorkloadNo) -> Result<Vec<u8>, NoMemory>
    ensures { IfOk result (λ bytes. bytes.items ≡ workload_line line cause) }
{
    let mut text = String::new(alloc);
    write!(text, "workload line {line}: ")?;
    text.push_str(cause_word(cause))?;
    text.push_str("\n")?;
    Ok(text.into_bytes())
}

fn cause_word(cause: WorkloadNo) -> &'static str
    ensures { result.now ≡ cause_word cause }
{
    match cause {
        WorkloadNo::Long => "long",
        WorkloadNo::Shape => "shape",
        WorkloadNo::Volume => "volume",
        WorkloadNo::Word => "word",
        WorkloadNo::Count => "count",
        WorkloadNo::Number => "number",
        WorkloadNo::Range => "range",
        WorkloadNo::Own => "own",
        WorkloadNo::Many => "many",
    }
}

fn keys_line(alloc: Global, counter: u64) -> Result<Vec<u8>, NoMemory>
    ensures { IfOk result (λ bytes. bytes.items ≡ keys_line counter) }
{
    let mut text = String::new(alloc);
    write!(text, "volume keys {counter}\n")?;
    Ok(text.into_bytes())
}

fn busy_line(alloc: Global, key: u64) -> Result<Vec<u8>, NoMemory>
    ensures { IfOk result (λ bytes. bytes.items ≡ busy_line key) }
{
    let mut text = String::new(alloc);
    write!(text, "volume busy {key}\n")?;
    Ok(text.into_bytes())
}

fn geometry_line(alloc: Global, given: u64, found: u64) -> Result<Vec<u8>, NoMemory>
    ensures { IfOk result (λ bytes. bytes.items ≡ geometry_line given found) }
{
    let mut text = String::new(alloc);
    write!(text, "geometry {given} {found}\n")?;
    Ok(text.into_bytes())
}
