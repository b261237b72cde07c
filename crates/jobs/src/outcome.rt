// What a job decides before it writes a byte.
ghost use Rattle.std.specs.Prelude.{◌≡◌};
ghost use Rattle.jobs.specs.Outcomes.{status_of, survey_status};

use crate::status::Status;
use vol_base::Key;
use volume_faults::Fault;
use workload::WorkloadNo;

/// Why a volume is refused.
#[derive(Debug, Drop)]
pub enum VolumeNo {
    /// The check lists these faults.
    Faults(Vec<Fault>),
    /// Block 0 is all zeros.
    Blank,
    /// The device's counter is this, its last one, so that it gives no key.
    NoKeys(u64),
    /// A slot or a lock is held under this key.
    Busy(Key),
    /// The block at this place was not of its kind when it was read after the check.
    Misread(u64),
}

/// Why the volume that a run left gives no usage.
#[derive(Clone, Copy, Debug, PartialEq, Eq)]
pub enum AfterRun {
    /// A call of the device failed.
    DiskFault,
    /// The device's counter is this, its last one, so that it gives no key.
    NoKeys(u64),
    /// The block at this place was not of its kind when it was read after the run.
    Misread(u64),
}

impl AfterRun {
    /// The status of a job that ends so.
    pub fn status(&self) -> Status
        ensures { result ≡ survey_status self.now }
    {
        match self {
            AfterRun::DiskFault => Status::DiskFault,
            AfterRun::NoKeys(_) | AfterRun::Misread(_) => Status::Volume,
        }
    }
}

/// How a job ends unless the sink fails: its status, and what its text says. `docs/COMMANDS.md`,
/// "Exit statuses", has the texts.
#[derive(Debug, Drop)]
pub enum Outcome {
    /// The job was done, and this is its report.
    Done(Vec<u8>),
    /// A workload was run, and this is its report without a usage: the survey behind it was refused for
    /// this cause, whose text follows the report.
    Unsurveyed { report: Vec<u8>, cause: AfterRun },
    /// The words are not of the form.
    Usage,
    /// The text that was read is no workload: its first faulty line, from 1, and the cause. A text that
    /// is too long is refused at line 0.
    Workload { line: u32, cause: WorkloadNo },
    /// The volume is refused.
    Volume(VolumeNo),
    /// A call of the device failed.
    DiskFault,
    /// The source failed.
    ReadFault,
    /// Memory was refused.
    Memory,
    /// The first number of the volume line that differs from the superblock's, and that one; or the
    /// blocks that the volume needs, and those that the device has.
    Geometry { given: u64, found: u64 },
}

impl Outcome {
    /// The status of a job that decided this.
    pub fn status(&self) -> Status
        ensures { result ≡ status_of self.now }
    {
        match self {
            Outcome::Done(_) => Status::Ok,
            Outcome::Unsurveyed { cause, .. } => cause.status(),
            Outcome::Usage => Status::Usage,
            Outcome::Workload { .. } => Status::Workload,
            Outcome::Volume(_) => Status::Volume,
            Outcome::DiskFault => Status::DiskFault,
            Outcome::ReadFault => Status::ReadFault,
            Outcome::Memory => Status::Memory,
            Outcome::Geometry { .. } => Status::Geometry,
        }
    }
}
