// Holds, a transaction and a search, each with the record of all device calls.
use crate::holds::Came;
use crate::noting::Call::{self, Found, Read, Register, Swap, Write};
use crate::noting::Noting;
use crate::transactions::{Created, Sought};
use crate::worlds::Worlds;
use lock_store::Claim;
use shared_disk::Device;
use std::fmt::Debug;
use std::process::Abort;
use std::test::Fail;
use vol_base::{HostNo, Key};

/// The keys of hosts 0 and 1 that register first and second: the counter times 16, and the host.
pub const FIRST: Key = Key(16);

/// See [`FIRST`].
pub const SECOND: Key = Key(33);

/// Compares an answer.
pub fn expect<T: Copy + PartialEq + Debug>(rt: &impl Abort, answer: T, expected: T) {
    assert_eq!(rt; answer, expected);
}

fn join(rt: &impl Abort, worlds: &mut Worlds, host: HostNo, key: Key) {
    expect(rt, worlds.register(host), Some(Ok(key)));
    expect(rt, worlds.enter(host), Some(Ok(Claim::Claimed)));
}

// Two hosts, joined by four calls: slots stand from place 1 on.
pub fn joined(rt: &impl Abort, worlds: &mut Worlds) {
    join(rt, worlds, 0, FIRST);
    join(rt, worlds, 1, SECOND);
}

const JOINED: [Call; 4] = [Register(0), Swap(1), Register(1), Swap(2)];

/// Compares all calls with those by which two hosts joined, and these behind them.
pub fn made(rt: &impl Abort, worlds: Worlds, calls: &[Call]) {
    let disk = worlds.close();
    compare(rt, &disk, 0, &JOINED);
    compare(rt, &disk, 4, calls);
    expect(rt, disk.call(calls.len().saturating_add(4)), None);
}

// Compares the calls from one number on.
fn compare<D: Device>(rt: &impl Abort, disk: &Noting<D>, from: usize, calls: &[Call]) {
    for (k, call) in calls.iter().enumerate() {
        expect(rt, disk.call(k.saturating_add(from)), Some(*call));
    }
}

// Locks of files stand from place 7 on. A word that is hoped for takes one call. A holder is shown by the first call, and a reader
// behind the read of its slot, until the slot is free: then the lock is taken from the word that was found.
#[test]
fn a_write_hold_passes_over_ended_readers(rt: HostRuntime) -> Result<(), Fail> {
    let mut worlds = Worlds::new(rt.alloc())?;
    joined(&rt, &mut worlds);
    expect(&rt, worlds.take_write(0, 0), Some(Ok(Came::Taken)));
    expect(&rt, worlds.take_write(1, 0), Some(Ok(Came::Busy(FIRST))));
    expect(&rt, worlds.take_read(0, 1), Some(Ok(Came::Taken)));
    expect(&rt, worlds.take_write(1, 1), Some(Ok(Came::Busy(FIRST))));
    expect(&rt, worlds.leave(0), None);
    expect(&rt, worlds.free_lock(0, 0), Some(Ok(())));
    expect(&rt, worlds.leave(0), Some(Ok(())));
    expect(&rt, worlds.take_write(1, 1), Some(Ok(Came::Taken)));
    expect(&rt, worlds.take_write(1, 1), None);
    let calls = [
        Swap(7),
        Found(7),
        Swap(8),
        Found(8),
        Read(1),
        Write(7),
        Swap(1),
        Found(8),
        Read(1),
        Swap(8),
    ];
    made(&rt, worlds, &calls);
    Ok(())
}

// A host that finds a reader joins it by its second try, and one that finds another reader leaves by its second. The last reader
// leaves by its first try, and then the file is held by one alone.
#[test]
fn a_read_hold_is_shared_and_given_back(rt: HostRuntime) -> Result<(), Fail> {
    let mut worlds = Worlds::new(rt.alloc())?;
    joined(&rt, &mut worlds);
    expect(&rt, worlds.take_read(0, 0), Some(Ok(Came::Taken)));
    expect(&rt, worlds.take_read(1, 0), Some(Ok(Came::Taken)));
    expect(&rt, worlds.confirm(0, 0), Some(Ok(())));
    expect(&rt, worlds.give_back(0, 0), Some(Ok(Came::Taken)));
    expect(&rt, worlds.confirm(0, 0), None);
    expect(&rt, worlds.give_back(1, 0), Some(Ok(Came::Taken)));
    expect(&rt, worlds.take_write(1, 0), Some(Ok(Came::Taken)));
    expect(&rt, worlds.take_read(0, 0), Some(Ok(Came::Busy(SECOND))));
    let calls = [
        Swap(7),
        Found(7),
        Swap(7),
        Read(7),
        Found(7),
        Swap(7),
        Swap(7),
        Swap(7),
        Found(7),
    ];
    made(&rt, worlds, &calls);
    Ok(())
}

// Locks of groups stand from place 10 on, tables of files from 12, of groups from 14, journals from 4.
#[test]
fn a_file_comes_to_be_in_eight_calls(rt: HostRuntime) -> Result<(), Fail> {
    let mut worlds = Worlds::new(rt.alloc())?;
    joined(&rt, &mut worlds);
    expect(&rt, worlds.create(0, 0, 0), None);
    expect(&rt, worlds.take_write(0, 0), Some(Ok(Came::Taken)));
    let made_one = Created::Made {
        tables: 1,
        locks: 1,
    };
    expect(&rt, worlds.create(0, 0, 0), Some(Ok(made_one)));
    let calls = [
        Swap(7),
        Swap(10),
        Read(14),
        Read(12),
        Write(4),
        Write(12),
        Write(4),
        Write(10),
    ];
    made(&rt, worlds, &calls);
    Ok(())
}

// Each host begins with the group of its number modulo 2, whose lowest block is the first free one of a blank volume. Host 2 begins
// with the group that host 0 holds, and host 0 makes no file under the group that host 1 holds.
#[test]
fn a_search_begins_with_the_own_group(rt: HostRuntime) -> Result<(), Fail> {
    let mut worlds = Worlds::new(rt.alloc())?;
    joined(&rt, &mut worlds);
    expect(&rt, worlds.search(1), Some(Ok(Sought::Found(1008))));
    expect(&rt, worlds.take_write(0, 0), Some(Ok(Came::Taken)));
    expect(&rt, worlds.create(0, 0, 1), Some(Ok(Created::Busy(SECOND))));
    expect(&rt, worlds.search(0), Some(Ok(Sought::Found(0))));
    expect(&rt, worlds.search(0), None);
    join(&rt, &mut worlds, 2, Key(50));
    expect(&rt, worlds.search(2), Some(Ok(Sought::Busy(FIRST))));
    let calls = [
        Swap(11),
        Read(15),
        Swap(7),
        Found(11),
        Swap(10),
        Read(14),
        Register(2),
        Swap(3),
        Found(10),
    ];
    made(&rt, worlds, &calls);
    Ok(())
}

// Behind a full group the search goes on with the next one, going round, and it ends where each group is full.
#[test]
fn a_search_goes_round_full_groups(rt: HostRuntime) -> Result<(), Fail> {
    let calls = [Swap(11), Read(15), Swap(10), Read(14)];
    let mut worlds = Worlds::full_from(rt.alloc(), 1)?;
    joined(&rt, &mut worlds);
    expect(&rt, worlds.search(1), Some(Ok(Sought::Found(0))));
    made(&rt, worlds, &calls);
    let mut worlds = Worlds::full_from(rt.alloc(), 0)?;
    joined(&rt, &mut worlds);
    expect(&rt, worlds.search(1), Some(Ok(Sought::Full)));
    made(&rt, worlds, &calls);
    Ok(())
}
