// The write hold of a file, which a lone host takes.
ghost use Rattle.std.specs.Prelude.{◌<◌, ◌+◌, IfErr, OnOk};
ghost use Rattle.solo.specs.Alone.{IsLater};
ghost use Rattle.solo.specs.Starts.{HasStartCause, IsTaking};

use crate::reading::SOLO;
use crate::refusal::refusal_of;
use meta_world::MetaWorld;
use plan_parts::{TakeWrite, Taking};
use settle::LoneNo;
use shared_disk::Device;
use vol_base::FileNo;

/// Takes the lock of a file, as a command does that has the file alone.
pub fn takes<D: Device>(world: &mut MetaWorld<D>, file: FileNo) -> Result<(), LoneNo>
    requires taking { IsTaking world.old file }
    requires file { file < world.old.locks.geometry.files }
    ensures later { IsLater 0 world.old world.new }
    ensures taken { OnOk result (IsTaking world.new (file + 1)) }
    ensures cause { IfErr result (HasStartCause world.old.locks.disk world.new.locks.disk) }
{
    let _geometry = world.locks().geometry();
    let mut take = TakeWrite::new(world, SOLO, file);
    loop {
        let _geometry = world.locks().geometry();
        match take.next(world, SOLO, file) {
            Ok(taking) => match taking {
                Taking::More(next) => take = next,
                Taking::Taken => return Ok(()),
                Taking::Busy(key) => return Err(LoneNo::Busy(key)),
            },
            Err(why) => return Err(refusal_of(why)),
        }
    }
}
