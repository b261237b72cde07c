// A share that is driven to its end.
ghost use Rattle.std.specs.Prelude.{◌≡◌, ◌≤◌, ◌+◌, IfErr, IfOk};
ghost use Rattle.solo.specs.Alone.{IsAlone};
ghost use Rattle.solo.specs.Shares.{HasBoth, HasShared, HasStopped};

use crate::reading::SOLO;
use lock_store::StepNo;
use meta_world::MetaWorld;
use share_plans::{Place, SharePlan, Shared};
use shared_disk::Device;
use vol_base::FileNo;

/// What the share of a file's block at an index with a source comes to.
pub fn shares<D: Device>(
    world: &mut MetaWorld<D>,
    file: FileNo,
    index: u32,
    source: Place,
) -> Result<Shared, StepNo>
    requires alone { IsAlone world.old }
    requires both { HasBoth world.old.locks.geometry file index source }
    ensures shared { IfOk result (HasShared world.old world.new file index source) }
    ensures stopped { IfErr result (HasStopped world.old world.new file index source) }
    ensures few { world.new.locks.disk.calls ≤ world.old.locks.disk.calls + 18 }
{
    let _geometry = world.locks().geometry();
    let mut plan = SharePlan::new(SOLO, file, index, source);
    loop {
        let _geometry = world.locks().geometry();
        match plan.next(world) {
            Ok(answer) => match answer {
                Some(shared) => return Ok(shared),
                None => {}
            },
            Err(why) => return Err(why),
        }
    }
}
