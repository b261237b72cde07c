// Why a call of a lone host was refused.
ghost use Rattle.std.specs.Prelude.{◌≡◌, ◌≢◌, Some};
ghost use Rattle.solo.specs.Stops.{refusal_by, refusal_of};

use lock_store::StepNo;
use settle::LoneNo;
use shared_disk::DiskNo;

/// The refusal of a call by that of its last step. The key of a lone host is never taken off.
pub fn refusal_of(why: StepNo) -> LoneNo
    requires { why ≢ StepNo.Fenced }
    ensures { result ≡ refusal_of why }
{
    match why {
        StepNo::Fenced => unreachable!(),
        StepNo::Failed => LoneNo::Failed,
        StepNo::Bad(place) => LoneNo::Bad(place),
        StepNo::NoMemory => LoneNo::NoMemory,
    }
}

/// Notes what stopped a host, by the refusal of a step.
pub fn stop(stopped: &mut Option<LoneNo>, why: StepNo) -> LoneNo
    requires { why ≢ StepNo.Fenced }
    ensures no { result ≡ refusal_of why }
    ensures stopped { stopped.new ≡ Some result }
{
    let no = refusal_of(why);
    *stopped = Some(no);
    no
}

/// The refusal of a call by that of the device. A registration looks at no key.
pub fn refused(why: DiskNo) -> LoneNo
    ensures { result ≡ refusal_by why }
{
    match why {
        DiskNo::Fenced | DiskNo::Failed => LoneNo::Failed,
        DiskNo::NoKeys => LoneNo::NoKeys,
        DiskNo::NoMemory => LoneNo::NoMemory,
    }
}
