// Commands of hosts with all their device calls and their answers, and how they are run.
ghost use Rattle.std.specs.Prelude.{◌≡◌, IfOk, None};
ghost use Rattle.lock_store.specs.Views.{told_of};
ghost use Rattle.plan_tests.specs.Caches.{AreCached};
ghost use Rattle.vol_layout.specs.Ranges.{IsGeometry};

use crate::caches::Caches;
use crate::file_hosts::{call_of, cross, run};
use crate::noting::Noting;
use crate::slots::Eyes;
use crate::trace::Trace;
use crate::untold::Untold;
use crate::volumes::{Volume, blocks_of};
use disk_locks::Locks;
use file_disk::{BLOCKS, StoredDisk};
use meta_world::MetaWorld;
use std::alloc::{AllocError, Global};
use std::process::Abort;
use std::test::Fail;
use vol_base::{Answer, Command, HostNo, NoMemory, PlainReply};

/// More steps than a command takes.
const MOST: u8 = 60;

/// A command, the text of its answer, and its calls, one line each.
pub struct Row {
    pub host: HostNo,
    pub command: Command,
    pub answer: &'static str,
    pub calls: &'static str,
}

/// Rows, and behind them a command of host 0 that host 1 crosses with a whole command behind so many steps. The calls are those of these
/// steps, those of host 1, and the rest.
pub struct Crossing {
    pub before: &'static [Row],
    pub command: Command,
    pub steps: u8,
    pub between: Command,
    pub answer: &'static str,
    pub answer_between: &'static str,
    pub calls: &'static str,
}

type Hosts = MetaWorld<Noting<StoredDisk<Untold>>>;

// The hosts of a volume, on a device that gave one key before.
fn hosts_of(rt: &impl Abort, alloc: Global, volume: &Volume) -> Result<Hosts, NoMemory>
    ensures untold { IfOk result (λ world. told_of world.locks ≡ None) }
    ensures geometry { IfOk result (λ world. world.locks.geometry ≡ volume.now.geometry) }
    ensures range { IfOk result (λ world. IsGeometry volume.now.geometry) }
{
    let geometry = volume.geometry;
    assert!(rt; geometry.is_in_range());
    assert!(rt; geometry.total() <= BLOCKS);
    let blocks = blocks_of(alloc, &geometry, volume.full_from, volume.numbers)?;
    let disk = StoredDisk::over(alloc, Untold { blocks }, 1)?;
    let trace = Trace::empty(alloc, &geometry);
    Ok(MetaWorld::new(Locks::new(Noting::over(disk, trace), geometry)))
}

/// Runs the commands in order, and compares each answer and all calls.
pub fn plays(rt: &impl Abort, alloc: Global, volume: &Volume, rows: &[Row]) -> Result<(), Fail> {
    let mut world = hosts_of(rt, alloc, volume)?;
    let mut caches = Caches::new(alloc, &volume.geometry)?;
    let mut expected = String::new(alloc);
    play(rt, alloc, &mut world, &mut caches, rows, &mut expected)?;
    finish(rt, world, &expected);
    Ok(())
}

/// The same of rows with crossings.
pub fn crosses(
    rt: &impl Abort,
    alloc: Global,
    volume: &Volume,
    crossings: &[Crossing],
) -> Result<(), Fail> {
    let mut world = hosts_of(rt, alloc, volume)?;
    let mut caches = Caches::new(alloc, &volume.geometry)?;
    let mut expected = String::new(alloc);
    for crossing in crossings {
        play(
            rt,
            alloc,
            &mut world,
            &mut caches,
            crossing.before,
            &mut expected,
        )?;
        play_crossing(rt, alloc, &mut world, &mut caches, crossing)?;
        expected.push_str(crossing.calls)?;
    }
    finish(rt, world, &expected);
    Ok(())
}

fn play_crossing(
    rt: &impl Abort,
    alloc: Global,
    world: &mut Hosts,
    caches: &mut Caches,
    crossing: &Crossing,
) -> Result<(), AllocError>
    requires cached { AreCached world.old caches.old.zero caches.old.one caches.old.two }
    requires untold { told_of world.old.locks ≡ None }
    ensures cached { AreCached world.new caches.new.zero caches.new.one caches.new.two }
    ensures untold { told_of world.new.locks ≡ None }
{
    let call = call_of(rt, crossing.command);
    let (own, other) = cross(
        rt,
        world,
        caches,
        &mut Eyes::new(),
        &call,
        crossing.steps,
        crossing.between,
        MOST,
    );
    compare(rt, alloc, own, crossing.answer)?;
    compare(rt, alloc, other, crossing.answer_between)
}

fn play(
    rt: &impl Abort,
    alloc: Global,
    world: &mut Hosts,
    caches: &mut Caches,
    rows: &[Row],
    expected: &mut String,
) -> Result<(), AllocError>
    requires cached { AreCached world.old caches.old.zero caches.old.one caches.old.two }
    requires untold { told_of world.old.locks ≡ None }
    ensures cached { AreCached world.new caches.new.zero caches.new.one caches.new.two }
    ensures untold { told_of world.new.locks ≡ None }
{
    let mut eyes = Eyes::new();
    for row in rows {
        let answer = run(rt, world, caches, &mut eyes, row.host, row.command, MOST);
        compare(rt, alloc, answer, row.answer)?;
        expected.push_str(row.calls)?;
    }
    Ok(())
}

fn finish(rt: &impl Abort, world: Hosts, expected: &String) {
    let text = world.close().into_text();
    assert_eq!(rt; text.as_str(), expected.as_str());
}

fn compare(
    rt: &impl Abort,
    alloc: Global,
    answer: Option<Answer>,
    expected: &str,
) -> Result<(), AllocError> {
    let text = answer_text(alloc, answer)?;
    assert_eq!(rt; text.as_str(), expected);
    Ok(())
}

fn answer_text(alloc: Global, answer: Option<Answer>) -> Result<String, AllocError> {
    match answer {
        Some(Answer::Plain(reply)) => reply_text(alloc, &reply),
        Some(Answer::Joined(key)) => numbered(alloc, "joined", key.0),
        Some(Answer::Busy(key)) => numbered(alloc, "busy", key.0),
        Some(Answer::Seen(count)) => numbered(alloc, "seen", u64::from(count)),
        Some(Answer::Collected(count)) => numbered(alloc, "collected", u64::from(count)),
        Some(Answer::Fine) => String::from_str(alloc, "ok"),
        Some(Answer::Full) => String::from_str(alloc, "full"),
        Some(Answer::Recovered) => String::from_str(alloc, "recovered"),
        Some(_) => String::from_str(alloc, "another answer"),
        None => String::from_str(alloc, "no answer"),
    }
}

fn reply_text(alloc: Global, reply: &PlainReply) -> Result<String, AllocError> {
    match reply {
        PlainReply::Done => String::from_str(alloc, "ok"),
        PlainReply::Holds(block) => numbered(alloc, "=", block.u64_at(0)),
        PlainReply::NoFile => String::from_str(alloc, "nofile"),
        PlainReply::Exists => String::from_str(alloc, "exists"),
        PlainReply::Beyond(length) => numbered(alloc, "beyond", u64::from(*length)),
        PlainReply::TooLong => String::from_str(alloc, "toolong"),
    }
}

fn numbered(alloc: Global, word: &str, number: u64) -> Result<String, AllocError> {
    format!(in alloc; "{word} {number}")
}
