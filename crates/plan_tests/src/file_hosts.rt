// Three hosts of a volume, as a table of commands calls them.
ghost use Rattle.std.specs.Prelude.{◌≡◌, None};
ghost use Rattle.file_plans.specs.Bases.{IsCached};
ghost use Rattle.host_facts.specs.Others.{Others};
ghost use Rattle.lock_store.specs.Views.{told_of};
ghost use Rattle.plan_tests.specs.Caches.{AreCached};

use crate::caches::Caches;
use crate::collections::collect;
use crate::files;
use crate::ready::{has, has_file, has_part, is_ready, may_act};
use crate::slots::{Eyes, act, join};
use file_plans::FileCall;
use held_cache::HeldCache;
use meta_world::MetaWorld;
use shared_disk::Device;
use std::process::Abort;
use vol_base::{Answer, Command, HostNo, plain_call};

/// Runs a command of a host to its answer, or by so many steps. A host that leaves, collects, or is about to recover another one keeps no
/// tables any more.
pub fn run<D: Device>(
    rt: &impl Abort,
    world: &mut MetaWorld<D>,
    caches: &mut Caches,
    eyes: &mut Eyes,
    host: HostNo,
    command: Command,
    most: u8,
) -> Option<Answer>
    requires cached { AreCached world.old caches.old.zero caches.old.one caches.old.two }
    requires untold { told_of world.old.locks ≡ None }
    ensures cached { AreCached world.new caches.new.zero caches.new.one caches.new.two }
    ensures untold { told_of world.new.locks ≡ None }
{
    match host {
        0 => run_one(rt, world, &mut caches.zero, eyes, 0, command, most),
        1 => run_one(rt, world, &mut caches.one, eyes, 1, command, most),
        2 => run_one(rt, world, &mut caches.two, eyes, 2, command, most),
        _ => None,
    }
}

fn run_one<D: Device>(
    rt: &impl Abort,
    world: &mut MetaWorld<D>,
    cache: &mut HeldCache,
    eyes: &mut Eyes,
    host: HostNo,
    command: Command,
    most: u8,
) -> Option<Answer>
    requires cached { IsCached world.old cache.old host }
    requires untold { told_of world.old.locks ≡ None }
    ensures cached { IsCached world.new cache.new host }
    ensures untold { told_of world.new.locks ≡ None }
    ensures others { Others host world.old world.new }
{
    match command {
        Command::Join => rejoin(rt, world, cache, host, most),
        Command::Leave | Command::Look(_) | Command::Recover(_) => {
            assert!(rt; may_act(world, host));
            cache.forget_host(host);
            act(world, eyes, host, command, most)
        }
        Command::Collect(part) => {
            assert!(rt; is_ready(world, host));
            assert!(rt; has_part(world, part));
            cache.forget_host(host);
            collect(world, host, part, most)
        }
        _ => run_call(rt, world, cache, host, &call_of(rt, command), most),
    }
}

/// The call of a command on files.
pub fn call_of(rt: &impl Abort, command: Command) -> FileCall {
    match command {
        Command::Close(file) => FileCall::Close(file),
        _ => FileCall::Plain(plain_call(&command).expect(rt, "a command on files")),
    }
}

fn run_call<D: Device>(
    rt: &impl Abort,
    world: &mut MetaWorld<D>,
    cache: &mut HeldCache,
    host: HostNo,
    call: &FileCall,
    most: u8,
) -> Option<Answer>
    requires cached { IsCached world.old cache.old host }
    requires untold { told_of world.old.locks ≡ None }
    ensures cached { IsCached world.new cache.new host }
    ensures untold { told_of world.new.locks ≡ None }
    ensures others { Others host world.old world.new }
{
    assert!(rt; is_ready(world, host));
    assert!(rt; has_file(world, call));
    let mut plan = files::begin(world, cache, host, call);
    files::advance(rt, world, cache, &mut plan, most)
}

// A host that lost its memory joins.
fn rejoin<D: Device>(
    rt: &impl Abort,
    world: &mut MetaWorld<D>,
    cache: &mut HeldCache,
    host: HostNo,
    most: u8,
) -> Option<Answer>
    requires cached { IsCached world.old cache.old host }
    requires untold { told_of world.old.locks ≡ None }
    ensures cached { IsCached world.new cache.new host }
    ensures untold { told_of world.new.locks ≡ None }
    ensures others { Others host world.old world.new }
{
    assert!(rt; has(world, host));
    cache.forget_host(host);
    join(world, host, most)
}

/// Host 0 begins a call, and goes on with it once host 1 ran a whole command behind so many steps: the answers of both.
#[tactic(auto, using(file_plans::specs::laws::PlanStillLaws::plan_still))]
pub fn cross<D: Device>(
    rt: &impl Abort,
    world: &mut MetaWorld<D>,
    caches: &mut Caches,
    eyes: &mut Eyes,
    call: &FileCall,
    steps: u8,
    between: Command,
    most: u8,
) -> (Option<Answer>, Option<Answer>)
    requires cached { AreCached world.old caches.old.zero caches.old.one caches.old.two }
    requires untold { told_of world.old.locks ≡ None }
    ensures cached { AreCached world.new caches.new.zero caches.new.one caches.new.two }
    ensures untold { told_of world.new.locks ≡ None }
{
    assert!(rt; is_ready(world, 0));
    assert!(rt; has_file(world, call));
    let mut plan = files::begin(world, &caches.zero, 0, call);
    let early = files::advance(rt, world, &mut caches.zero, &mut plan, steps);
    assert!(rt; early.is_none());
    let _geometry = world.locks().geometry();
    let other = run_one(rt, world, &mut caches.one, eyes, 1, between, most);
    let own = files::advance(rt, world, &mut caches.zero, &mut plan, most);
    (own, other)
}
