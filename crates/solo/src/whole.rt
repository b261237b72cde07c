// The settling of a whole volume, by a host that comes and leaves.
ghost use Rattle.std.specs.Prelude.{◌≡◌, ◌≤◌, IfErr, IfOk, IfSome, OnOk};
ghost use Rattle.call_effects.specs.Places.{KeepsFiles};
ghost use Rattle.disk_locks.specs.Sure.{BothTold};
ghost use Rattle.settle.specs.Passes.{Passes};
ghost use Rattle.shared_disk.specs.Seen.{seen_by};
ghost use Rattle.solo.specs.Settlings.{HasSettled, both_of};
ghost use Rattle.solo.specs.Starts.{HasStartCause, IsGiven, TellsVolume};

use crate::solo::Solo;
use settle::{LoneNo, Settled, settle};
use shared_disk::Device;
use std::alloc::Global;

/// Makes all equal live blocks of the volume on a device share one data block. No other program uses the volume. The device is handed back,
/// and no file changes, whatever is answered.
pub fn settle_volume<D: Device>(alloc: Global, disk: D) -> (Result<Settled, LoneNo>, D)
    requires volume { TellsVolume (D.state disk) }
    ensures settled { IfOk result.0 (λ counts. IfSome (D.state result.1).told (λ t. HasSettled counts t.image)) }
    ensures files { BothTold (D.state disk).told (D.state result.1).told KeepsFiles }
    ensures volume { TellsVolume (D.state result.1) }
    ensures later { OnOk result.0 (D.faults disk ≤ D.faults result.1) }
    ensures passes { Passes (D.state disk) (D.state result.1) }
    ensures given { IsGiven 2 (D.state disk) (D.state result.1) }
    ensures cause { IfErr result.0 (HasStartCause (seen_by D.Device disk) (seen_by D.Device result.1)) }
{
    let mut solo = match Solo::start(alloc, disk) {
        Ok(solo) => solo,
        Err((why, disk)) => return (Err(why), disk),
    };
    let settled = settle(alloc, &mut solo);
    let (disk, left) = solo.close();
    (both(settled, left), disk)
}

// A refusal of the work is told before one of the leave.
fn both(settled: Result<Settled, LoneNo>, left: Result<(), LoneNo>) -> Result<Settled, LoneNo>
    ensures { result ≡ both_of settled left }
{
    match settled {
        Ok(counts) => match left {
            Ok(()) => Ok(counts),
            Err(why) => Err(why),
        },
        Err(why) => Err(why),
    }
}
