// Holds of files, taken and given back over as many steps as it takes.
ghost use Rattle.std.specs.Prelude.{◌≡◌, ◌<◌, None, false, true};
ghost use Rattle.lock_store.specs.Memories.{reads};
ghost use Rattle.lock_store.specs.Views.{host_at, told_of};
ghost use Rattle.plan_parts.specs.Holds.{IsOutside};
ghost use Rattle.vol_layout.specs.declared.kind.Resource.{Resource};

use lock_store::StepNo;
use meta_world::MetaWorld;
use plan_parts::{ReadTry, TakeWrite, Taking};
use shared_disk::Device;
use vol_base::{FileNo, HostNo, Key};

// More steps than a hold of two hosts takes.
const MOST: u8 = 8;

/// What came of the steps: the hold is as asked, or another host's key was shown, or more steps were left.
#[derive(Clone, Copy, Debug, PartialEq, Eq)]
pub enum Came {
    Taken,
    Busy(Key),
    Unended,
}

/// Takes a write hold.
#[tactic(auto, using(crate::proofs::WorldLaws::still, plan_parts::specs::laws::HoldStarts::write_starts))]
pub fn take_write<D: Device>(
    world: &mut MetaWorld<D>,
    host: HostNo,
    file: FileNo,
) -> Result<Came, StepNo>
    requires host { host < world.old.locks.geometry.hosts }
    requires outside { IsOutside world.old host file }
    requires untold { told_of world.old.locks ≡ None }
    ensures { told_of world.new.locks ≡ None }
{
    let _geometry = world.locks().geometry();
    let mut at = TakeWrite::new(world, host, file);
    for _step in 0..MOST {
        match at.next(world, host, file) {
            Ok(Taking::More(later)) => at = later,
            Ok(Taking::Taken) => return Ok(Came::Taken),
            Ok(Taking::Busy(key)) => return Ok(Came::Busy(key)),
            Err(why) => return Err(why),
        }
    }
    Ok(Came::Unended)
}

/// Takes a read hold.
#[tactic(auto, using(crate::proofs::WorldLaws::still, plan_parts::specs::laws::HoldStarts::read_starts))]
pub fn take_read<D: Device>(
    world: &mut MetaWorld<D>,
    host: HostNo,
    file: FileNo,
) -> Result<Came, StepNo>
    requires host { host < world.old.locks.geometry.hosts }
    requires outside { IsOutside world.old host file }
    requires unread { reads (host_at world.old.locks host) (Resource.File file) ≡ false }
    requires untold { told_of world.old.locks ≡ None }
    ensures { told_of world.new.locks ≡ None }
{
    let _geometry = world.locks().geometry();
    let mut at = ReadTry::new(world, host, file);
    for _step in 0..MOST {
        match at.take(world, host, file) {
            Ok(Taking::More(later)) => at = later,
            Ok(Taking::Taken) => return Ok(Came::Taken),
            Ok(Taking::Busy(key)) => return Ok(Came::Busy(key)),
            Err(why) => return Err(why),
        }
    }
    Ok(Came::Unended)
}

/// Gives a read hold back.
#[tactic(auto, using(crate::proofs::WorldLaws::still, plan_parts::specs::laws::HoldStarts::release_starts))]
pub fn give_back<D: Device>(
    world: &mut MetaWorld<D>,
    host: HostNo,
    file: FileNo,
) -> Result<Came, StepNo>
    requires host { host < world.old.locks.geometry.hosts }
    requires outside { IsOutside world.old host file }
    requires reads_it { reads (host_at world.old.locks host) (Resource.File file) ≡ true }
    requires untold { told_of world.old.locks ≡ None }
    ensures { told_of world.new.locks ≡ None }
{
    let _geometry = world.locks().geometry();
    let mut at = ReadTry::new(world, host, file);
    for _step in 0..MOST {
        match at.give_back(world, host, file) {
            Ok(Taking::More(later)) => at = later,
            Ok(Taking::Taken) => return Ok(Came::Taken),
            Ok(Taking::Busy(key)) => return Ok(Came::Busy(key)),
            Err(why) => return Err(why),
        }
    }
    Ok(Came::Unended)
}
