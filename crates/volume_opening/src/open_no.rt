// Why a device is not opened.
use shared_disk::DiskNo;
use thiserror::Error;
use volume_faults::Fault;

/// Why a device is not opened. Where several stand together, a device that gives no key comes first, and
/// a geometry that does not fit comes before the faults of a volume.
#[derive(Debug, PartialEq, Eq, Drop, Error)]
pub enum OpenNo {
    /// The volume does not fit the device. Where block 0 spells another geometry these are the first of
    /// the seven numbers that differ, a volume of version 1 having one table block a file; else the
    /// blocks that the volume needs and the fewer blocks that the device has.
    #[error("geometry {given} {found}")]
    Geometry { given: u64, found: u64 },
    /// The device is not blank and is no valid volume. These are all faults of the first stage of the
    /// check that has any, in the order of their places and entries.
    #[error("the volume has faults")]
    Faults(Vec<Fault>),
    /// The device's counter is at its end, so it gives no key.
    #[error("the device gives no key")]
    NoKeys,
    /// A call of the device failed.
    #[error("the device failed")]
    Failed,
    /// There was no memory for the check, or the device had none for a call.
    #[error("no memory")]
    NoMemory,
}

impl From<DiskNo> for OpenNo {
    ghost use Rattle.std.specs.Prelude.{◌≡◌};
    ghost use Rattle.volume_opening.specs.Refusals.{refusal_of};

    ghost from_gives = { λ refusal no. no ≡ refusal_of refusal };

    fn from(refusal: DiskNo) -> OpenNo {
        match refusal {
            DiskNo::NoKeys => OpenNo::NoKeys,
            DiskNo::NoMemory => OpenNo::NoMemory,
            DiskNo::Failed | DiskNo::Fenced => OpenNo::Failed,
        }
    }
}
