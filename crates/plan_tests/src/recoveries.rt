// Plans of commands on slots, each with the record of all device calls.
//
// Slots stand from place 1 on, journals from 4, and the five locks that a recovery sweeps from 7 to 11.
use crate::holds::Came;
use crate::noting::Call::{self, Fence, Found, Read, Register, Swap, Write};
use crate::slots::{Eyes, MOST};
use crate::steps::{FIRST, SECOND, expect, made};
use crate::transactions::Created;
use crate::worlds::Worlds;
use recover_plan::LoneEnd;
use std::process::Abort;
use std::test::Fail;
use vol_base::Answer::{self, Alive, Busy, Cut, Fine, Free, Joined, Recovered, Seen};
use vol_base::Command::{self, Beat, Leave, Look, Recover};
use vol_base::{CutBy, FileNo, HostNo, Key};

/// A host joins from a free slot, and comes to this key.
pub fn joins(rt: &impl Abort, worlds: &mut Worlds, host: HostNo, key: Key) {
    expect(rt, worlds.join(host, MOST), Some(Joined(key)));
}

/// Hosts 0 and 1 join, by the same four calls as in `steps`.
pub fn joined(rt: &impl Abort, worlds: &mut Worlds) {
    joins(rt, worlds, 0, FIRST);
    joins(rt, worlds, 1, SECOND);
}

/// A host takes a file that no other one holds.
pub fn locks(rt: &impl Abort, worlds: &mut Worlds, host: HostNo, file: FileNo) {
    expect(rt, worlds.take_write(host, file), Some(Ok(Came::Taken)));
}

/// A host runs a command to this answer.
pub fn answers(
    rt: &impl Abort,
    worlds: &mut Worlds,
    eyes: &mut Eyes,
    host: HostNo,
    command: Command,
    answer: Answer,
) {
    expect(rt, worlds.plan(eyes, host, command, MOST), Some(answer));
}

/// Three looks at a slot that stands still, of a host that remembers nothing of it.
pub fn looks(rt: &impl Abort, worlds: &mut Worlds, eyes: &mut Eyes, host: HostNo, of: HostNo) {
    answers(rt, worlds, eyes, host, Look(of), Seen(1));
    answers(rt, worlds, eyes, host, Look(of), Seen(2));
    answers(rt, worlds, eyes, host, Look(of), Seen(3));
}

// A beat begins the count of looks again, a free slot is not counted, and below three no call of a recovery is made.
const BEATS_AND_LEAVES: [Call; 17] = [
    // Host 1 sees host 0 two times; behind its beat once; and host 2 is not there.
    Read(1),
    Read(1),
    Write(1),
    Read(1),
    Read(3),
    // Host 0 takes two files. It leaves: they are freed in order, then its slot, and its key is taken off.
    Swap(8),
    Swap(7),
    Write(7),
    Write(8),
    Swap(1),
    Fence(FIRST),
    // Host 1 sees a free slot, and takes a file. Host 0 joins from the free slot, and leaves with nothing to free.
    Read(1),
    Swap(7),
    Register(0),
    Swap(1),
    Swap(1),
    Fence(Key(48)),
];

#[test]
fn a_host_beats_and_leaves(rt: HostRuntime) -> Result<(), Fail> {
    let mut worlds = Worlds::new(rt.alloc())?;
    joined(&rt, &mut worlds);
    let mut zero = Eyes::new();
    let mut one = Eyes::new();
    answers(&rt, &mut worlds, &mut one, 1, Look(0), Seen(1));
    answers(&rt, &mut worlds, &mut one, 1, Look(0), Seen(2));
    answers(&rt, &mut worlds, &mut one, 1, Recover(0), Alive(2));
    answers(&rt, &mut worlds, &mut zero, 0, Beat, Fine);
    answers(&rt, &mut worlds, &mut one, 1, Look(0), Seen(1));
    answers(&rt, &mut worlds, &mut one, 1, Look(2), Free);
    answers(&rt, &mut worlds, &mut one, 1, Recover(2), Alive(0));
    locks(&rt, &mut worlds, 0, 1);
    locks(&rt, &mut worlds, 0, 0);
    answers(&rt, &mut worlds, &mut zero, 0, Leave, Fine);
    expect(&rt, worlds.plan(&mut zero, 0, Beat, MOST), None);
    answers(&rt, &mut worlds, &mut one, 1, Look(0), Free);
    answers(&rt, &mut worlds, &mut one, 1, Recover(0), Alive(0));
    locks(&rt, &mut worlds, 1, 0);
    joins(&rt, &mut worlds, 0, Key(48));
    answers(&rt, &mut worlds, &mut zero, 0, Leave, Fine);
    made(&rt, worlds, &BEATS_AND_LEAVES);
    Ok(())
}

// A host is recovered that holds a file and a group, with a record of one edit in its journal.
const RECOVERY: [Call; 25] = [
    // Host 1 takes file 0 and group 0, reads their tables, writes its record, and is seen three times.
    Swap(7),
    Swap(10),
    Read(14),
    Read(12),
    Write(5),
    Read(2),
    Read(2),
    Read(2),
    // Its key is taken off, its slot claimed, and its record made again in the file's table.
    Fence(SECOND),
    Swap(2),
    Read(5),
    Read(12),
    Write(12),
    Write(5),
    // Each lock is freed where it shows the key, and then the slot.
    Swap(7),
    Found(8),
    Found(9),
    Swap(10),
    Found(11),
    Swap(2),
    // Host 0 sees a free slot, and takes the file. Host 1 joins again, and finds the file taken.
    Read(2),
    Swap(7),
    Register(1),
    Swap(2),
    Found(7),
];

#[test]
fn a_dead_host_is_recovered(rt: HostRuntime) -> Result<(), Fail> {
    let mut worlds = Worlds::new(rt.alloc())?;
    joined(&rt, &mut worlds);
    let mut zero = Eyes::new();
    locks(&rt, &mut worlds, 1, 0);
    expect(&rt, worlds.commit(1, 0, 0), Some(Ok(Created::Begun)));
    looks(&rt, &mut worlds, &mut zero, 0, 1);
    answers(&rt, &mut worlds, &mut zero, 0, Recover(1), Recovered);
    answers(&rt, &mut worlds, &mut zero, 0, Recover(1), Alive(0));
    answers(&rt, &mut worlds, &mut zero, 0, Look(1), Free);
    locks(&rt, &mut worlds, 0, 0);
    joins(&rt, &mut worlds, 1, Key(49));
    expect(&rt, worlds.take_write(1, 0), Some(Ok(Came::Busy(FIRST))));
    made(&rt, worlds, &RECOVERY);
    Ok(())
}

// A host that was joined, and has nothing in memory any more, recovers its own older key.
const OWN_RECOVERY: [Call; 29] = [
    // Host 0 takes file 1.
    Swap(8),
    // A free slot is tried first. The key that is found is recovered, and the slot entered from the claim.
    Register(0),
    Found(1),
    Fence(FIRST),
    Swap(1),
    Read(4),
    Found(7),
    Swap(8),
    Found(9),
    Found(10),
    Found(11),
    Swap(1),
    // It takes the file again, and its next join ends behind the claim.
    Swap(8),
    Register(0),
    Found(1),
    Fence(Key(48)),
    Swap(1),
    // So the slot is found with two of its older keys, and both are taken off.
    Register(0),
    Found(1),
    Fence(Key(48)),
    Fence(Key(64)),
    Swap(1),
    Read(4),
    Found(7),
    Swap(8),
    Found(9),
    Found(10),
    Found(11),
    Swap(1),
];

#[test]
fn a_join_recovers_an_own_older_key(rt: HostRuntime) -> Result<(), Fail> {
    let mut worlds = Worlds::new(rt.alloc())?;
    joined(&rt, &mut worlds);
    locks(&rt, &mut worlds, 0, 1);
    joins(&rt, &mut worlds, 0, Key(48));
    locks(&rt, &mut worlds, 0, 1);
    expect(&rt, worlds.join(0, 4), None);
    joins(&rt, &mut worlds, 0, Key(80));
    made(&rt, worlds, &OWN_RECOVERY);
    Ok(())
}

// A claim finds another slot than the one that was seen three times.
const LATER_SLOTS: [Call; 39] = [
    // Host 1 beats behind the looks: with the same key there is a second claim, from the slot that was found.
    Read(2),
    Read(2),
    Read(2),
    Write(2),
    Fence(SECOND),
    Found(2),
    Swap(2),
    Read(5),
    Found(7),
    Found(8),
    Found(9),
    Found(10),
    Found(11),
    Swap(2),
    // It was alive, and is cut by its next beat. It joins, is seen three times, and joins over its own slot.
    Write(2),
    Register(1),
    Swap(2),
    Read(2),
    Read(2),
    Read(2),
    Register(1),
    Found(2),
    Fence(Key(49)),
    Swap(2),
    Read(5),
    Found(7),
    Found(8),
    Found(9),
    Found(10),
    Found(11),
    Swap(2),
    // A live slot with another key was seen once by the claim. It is seen two times more.
    Fence(Key(49)),
    Found(2),
    Read(2),
    Read(2),
    // The host leaves, and the claim finds a free slot.
    Swap(2),
    Fence(Key(65)),
    Fence(Key(65)),
    Found(2),
];

#[test]
fn a_claim_finds_a_later_slot(rt: HostRuntime) -> Result<(), Fail> {
    let mut worlds = Worlds::new(rt.alloc())?;
    joined(&rt, &mut worlds);
    let mut zero = Eyes::new();
    let mut one = Eyes::new();
    looks(&rt, &mut worlds, &mut zero, 0, 1);
    answers(&rt, &mut worlds, &mut one, 1, Beat, Fine);
    answers(&rt, &mut worlds, &mut zero, 0, Recover(1), Recovered);
    answers(&rt, &mut worlds, &mut one, 1, Beat, Cut(CutBy::Fenced));
    expect(&rt, worlds.plan(&mut one, 1, Beat, MOST), None);
    joins(&rt, &mut worlds, 1, Key(49));
    looks(&rt, &mut worlds, &mut zero, 0, 1);
    joins(&rt, &mut worlds, 1, Key(65));
    answers(&rt, &mut worlds, &mut zero, 0, Recover(1), Alive(1));
    answers(&rt, &mut worlds, &mut zero, 0, Look(1), Seen(2));
    answers(&rt, &mut worlds, &mut zero, 0, Look(1), Seen(3));
    answers(&rt, &mut worlds, &mut one, 1, Leave, Fine);
    answers(&rt, &mut worlds, &mut zero, 0, Recover(1), Free);
    answers(&rt, &mut worlds, &mut zero, 0, Recover(1), Alive(0));
    made(&rt, worlds, &LATER_SLOTS);
    Ok(())
}

// A host dies in the midst of a recovery, behind the first lock, and a third host recovers both its claim and the dead host.
const SECOND_RECOVERY: [Call; 31] = [
    // Host 2 joins, and host 1 takes file 0; both others see it three times.
    Register(2),
    Swap(3),
    Swap(7),
    Read(2),
    Read(2),
    Read(2),
    Read(2),
    Read(2),
    Read(2),
    // Host 0 claims the slot and frees the lock. Host 1 finds its slot claimed, and so does host 2, which then has seen it once.
    Fence(SECOND),
    Swap(2),
    Read(5),
    Swap(7),
    Register(1),
    Found(2),
    Fence(SECOND),
    Found(2),
    // It sees the slot two times more, and takes both keys off.
    Read(2),
    Read(2),
    Fence(SECOND),
    Fence(FIRST),
    Swap(2),
    Read(5),
    Found(7),
    Found(8),
    Found(9),
    Found(10),
    Found(11),
    Swap(2),
    // Host 1 joins.
    Register(1),
    Swap(2),
];

#[test]
fn a_recovery_is_recovered(rt: HostRuntime) -> Result<(), Fail> {
    let mut worlds = Worlds::new(rt.alloc())?;
    joined(&rt, &mut worlds);
    let mut zero = Eyes::new();
    let mut two = Eyes::new();
    joins(&rt, &mut worlds, 2, Key(50));
    locks(&rt, &mut worlds, 1, 0);
    looks(&rt, &mut worlds, &mut zero, 0, 1);
    looks(&rt, &mut worlds, &mut two, 2, 1);
    expect(&rt, worlds.plan(&mut zero, 0, Recover(1), 4), None);
    expect(&rt, worlds.join(1, MOST), Some(Busy(FIRST)));
    answers(&rt, &mut worlds, &mut two, 2, Recover(1), Busy(FIRST));
    answers(&rt, &mut worlds, &mut two, 2, Look(1), Seen(2));
    answers(&rt, &mut worlds, &mut two, 2, Look(1), Seen(3));
    answers(&rt, &mut worlds, &mut two, 2, Recover(1), Recovered);
    joins(&rt, &mut worlds, 1, Key(81));
    made(&rt, worlds, &SECOND_RECOVERY);
    Ok(())
}

// A host dies behind its claim of another one's slot. Then that one is alone, and recovers both.
const ALONE: [Call; 34] = [
    // Host 0 takes file 1, is seen three times, and its slot is claimed.
    Swap(8),
    Read(1),
    Read(1),
    Read(1),
    Fence(FIRST),
    Swap(1),
    // It joins: its slot has an older key of its own and one of host 1, and both are taken off.
    Register(0),
    Found(1),
    Fence(FIRST),
    Fence(SECOND),
    Swap(1),
    Read(4),
    Found(7),
    Swap(8),
    Found(9),
    Found(10),
    Found(11),
    Swap(1),
    // It reads the slot of host 1 once, and recovers it; and it reads two free slots.
    Read(2),
    Fence(SECOND),
    Swap(2),
    Read(5),
    Found(7),
    Found(8),
    Found(9),
    Found(10),
    Found(11),
    Swap(2),
    Read(2),
    Read(3),
    // It joins once more over its own slot.
    Register(0),
    Found(1),
    Fence(Key(48)),
    Swap(1),
];

#[test]
fn a_lone_host_recovers_all(rt: HostRuntime) -> Result<(), Fail> {
    let mut worlds = Worlds::new(rt.alloc())?;
    joined(&rt, &mut worlds);
    let mut one = Eyes::new();
    locks(&rt, &mut worlds, 0, 1);
    looks(&rt, &mut worlds, &mut one, 1, 0);
    expect(&rt, worlds.plan(&mut one, 1, Recover(0), 2), None);
    let joined = Some(LoneEnd::Joined(Key(48)));
    expect(&rt, worlds.join_alone(0, MOST), joined);
    expect(
        &rt,
        worlds.recover_alone(0, 1, MOST),
        Some(LoneEnd::Recovered),
    );
    expect(&rt, worlds.recover_alone(0, 1, MOST), Some(LoneEnd::Free));
    expect(&rt, worlds.recover_alone(0, 2, MOST), Some(LoneEnd::Free));
    expect(&rt, worlds.join_alone(0, 4), None);
    expect(&rt, worlds.recover_alone(0, 1, MOST), None);
    made(&rt, worlds, &ALONE);
    Ok(())
}
