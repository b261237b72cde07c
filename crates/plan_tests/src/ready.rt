// Whether a host may begin a command.
ghost use Rattle.std.specs.Prelude.{◌≡◌, ◌≢◌, ◌<◌, ◌≤◌, [], Contains, IsTrue, None, drop, true};
ghost use Rattle.file_plans.specs.Calls.{file_of};
ghost use Rattle.lock_store.specs.Views.{key_at, told_of};
ghost use Rattle.plan_parts.specs.Steps.{IsReady};
ghost use Rattle.plan_parts.specs.TakenLocks.{IsTaking};

use file_plans::FileCall;
use lock_store::HostState;
use meta_world::MetaWorld;
use shared_disk::Device;
use vol_base::HostNo;

/// Whether the volume has the host.
pub fn has<D: Device>(world: &MetaWorld<D>, host: HostNo) -> bool
    ensures host { IsTrue result → host < world.now.locks.geometry.hosts }
    ensures small { IsTrue result → host < 16 }
{
    host < world.locks().geometry().hosts
}

/// Whether the volume has the file of the call.
pub fn has_file<D: Device>(world: &MetaWorld<D>, call: &FileCall) -> bool
    ensures { IsTrue result → file_of call.now < world.now.locks.geometry.files }
{
    call.file() < world.locks().geometry().files
}

/// Whether the volume has the part.
pub fn has_part<D: Device>(world: &MetaWorld<D>, part: u8) -> bool
    ensures { IsTrue result → part < world.now.locks.geometry.parts }
{
    part < world.locks().geometry().parts
}

/// Whether the host is joined, and holds no part and no group.
#[tactic(auto, using(crate::proofs::WorldLaws::none_stands))]
pub fn is_ready<D: Device>(world: &MetaWorld<D>, host: HostNo) -> bool
    requires untold { told_of world.now.locks ≡ None }
    ensures host { IsTrue result → host < world.now.locks.geometry.hosts }
    ensures ready { IsTrue result → IsReady world.now host }
{
    has(world, host) && world.locks().host(host).joined && takes_none(world, host)
}

/// Whether the host may begin a command on slots, on a volume of three hosts.
#[tactic(auto, using(crate::proofs::WorldLaws::none_stands))]
pub fn may_act<D: Device>(world: &MetaWorld<D>, host: HostNo) -> bool
    requires untold { told_of world.now.locks ≡ None }
    ensures host { IsTrue result → host < world.now.locks.geometry.hosts }
    ensures three { IsTrue result → world.now.locks.geometry.hosts ≡ 3 }
    ensures key { IsTrue result → key_at world.now.locks host ≢ 0 }
    ensures ready { IsTrue result → IsReady world.now host }
{
    if world.locks().geometry().hosts != 3 || !is_ready(world, host) {
        return false;
    }
    world.locks().host(host).number() != 0
}

/// Whether the host holds no part and no group, whose holds stand behind those of files.
pub fn takes_none<D: Device>(world: &MetaWorld<D>, host: HostNo) -> bool
    requires { host < world.now.locks.geometry.hosts }
    ensures { IsTrue result → IsTaking world.now host [] }
{
    has_none(world.locks().host(host), 64)
}

/// Whether no hold stands in memory from this number on.
pub fn has_none(memory: &HostState, from: usize) -> bool
    requires { from ≤ 144 }
    ensures { IsTrue result → Contains (drop from memory.now.held) true → ⊥ }
{
    !memory.held[from..].contains(&true)
}
