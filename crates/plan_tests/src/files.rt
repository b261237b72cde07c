// The plan of a command on files, from its first call to its answer.
ghost use Rattle.std.specs.Prelude.{◌≡◌, ◌<◌, IsNone, None};
ghost use Rattle.file_plans.specs.Bases.{IsCached};
ghost use Rattle.file_plans.specs.Calls.{file_of};
ghost use Rattle.file_plans.specs.Stands.{At};
ghost use Rattle.host_facts.specs.Others.{Others};
ghost use Rattle.lock_store.specs.Views.{told_of};
ghost use Rattle.plan_parts.specs.Steps.{IsReady};

use file_plans::{FileCall, FilePlan};
use fingerprint::digest_of;
use held_cache::HeldCache;
use meta_world::MetaWorld;
use shared_disk::Device;
use std::process::Abort;
use vol_base::{Answer, HostNo, Next};

/// The plan of a call, before its first step.
#[tactic(auto, using(file_plans::specs::laws::FirstLaws::begin_stands))]
pub fn begin<D: Device>(
    world: &MetaWorld<D>,
    cache: &HeldCache,
    host: HostNo,
    call: &FileCall,
) -> FilePlan
    requires host { host < world.now.locks.geometry.hosts }
    requires file { file_of call.now < world.now.locks.geometry.files }
    requires ready { IsReady world.now host }
    requires cached { IsCached world.now cache.now host }
    ensures host { result.core.host ≡ host }
    ensures stands { At world.now cache.now result.core result.stage }
{
    match call {
        FileCall::Plain(call) => FilePlan::new(host, call),
        FileCall::Close(file) => FilePlan::close_file(host, *file),
    }
}

/// Goes on with a plan to its answer, or by so many steps: `None`, and the plan still stands.
#[tactic(auto, using(crate::proofs::WorldLaws::still))]
pub fn advance<D: Device>(
    rt: &impl Abort,
    world: &mut MetaWorld<D>,
    cache: &mut HeldCache,
    plan: &mut FilePlan,
    most: u8,
) -> Option<Answer>
    requires stands { At world.old cache.old plan.old.core plan.old.stage }
    requires cached { IsCached world.old cache.old plan.old.core.host }
    requires untold { told_of world.old.locks ≡ None }
    ensures untold { told_of world.new.locks ≡ None }
    ensures cached { IsCached world.new cache.new plan.old.core.host }
    ensures others { Others plan.old.core.host world.old world.new }
    ensures host { IsNone result → plan.new.core.host ≡ plan.old.core.host }
    ensures stands { IsNone result → At world.new cache.new plan.new.core plan.new.stage }
{
    let _geometry = world.locks().geometry();
    for _step in 0..most {
        let step = plan
            .next(world, cache)
            .expect(rt, "there is memory for a step");
        match step.next {
            Next::Answered(answer) => return Some(answer),
            Next::Work(block) => plan.supply(digest_of(&block)),
            Next::More => {}
        }
    }
    None
}
