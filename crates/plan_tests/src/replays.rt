// Recoveries of a host whose record of two tables stands, each with the record of all device calls.
//
// Slots stand from place 1 on, journals from 4, locks from 7, the table of file 0 at 12 and the one of group 0 at 14.
use crate::noting::Call::{self, Fence, Found, Read, Register, Swap, Write};
use crate::recoveries::{answers, joined, joins, locks, looks};
use crate::slots::Eyes;
use crate::steps::{FIRST, SECOND, expect, made};
use crate::transactions::{Created, Sought};
use crate::worlds::Worlds;
use std::test::Fail;
use vol_base::Answer::Recovered;
use vol_base::Command::Recover;
use vol_base::Key;

// A host is recovered that holds a file and a group, with a record of four edits in its journal, two of each table.
const TWO_TABLES: [Call; 24] = [
    // Host 1 takes file 0 and group 0, reads the table of the group, writes its record, and is seen three times.
    Swap(7),
    Swap(10),
    Read(14),
    Write(5),
    Read(2),
    Read(2),
    Read(2),
    // Its slot is claimed. In the order of the record's first edits each table is read, and written once.
    Fence(SECOND),
    Swap(2),
    Read(5),
    Read(12),
    Write(12),
    Read(14),
    Write(14),
    Write(5),
    Swap(7),
    Found(8),
    Found(9),
    Swap(10),
    Found(11),
    Swap(2),
    // Host 0 finds the first two data blocks of the group taken, and takes the file.
    Swap(10),
    Read(14),
    Swap(7),
];

#[test]
fn a_record_of_two_tables_is_made_again(rt: HostRuntime) -> Result<(), Fail> {
    let mut worlds = Worlds::new(rt.alloc())?;
    joined(&rt, &mut worlds);
    let mut zero = Eyes::new();
    locks(&rt, &mut worlds, 1, 0);
    expect(&rt, worlds.commit_two(1, 0), Some(Ok(Created::Begun)));
    looks(&rt, &mut worlds, &mut zero, 0, 1);
    answers(&rt, &mut worlds, &mut zero, 0, Recover(1), Recovered);
    expect(&rt, worlds.search(0), Some(Ok(Sought::Found(2))));
    locks(&rt, &mut worlds, 0, 0);
    made(&rt, worlds, &TWO_TABLES);
    Ok(())
}

// A host dies in the midst of making that record again, behind the first table, and a third host makes the whole record again.
const TWO_TABLES_AGAIN: [Call; 35] = [
    // Host 2 joins, host 1 leaves its record standing, and host 0 writes the file's table and dies.
    Register(2),
    Swap(3),
    Swap(7),
    Swap(10),
    Read(14),
    Write(5),
    Read(2),
    Read(2),
    Read(2),
    Fence(SECOND),
    Swap(2),
    Read(5),
    Read(12),
    Write(12),
    // Host 2 sees the claimed slot three times, and takes both keys off. The journal stands still.
    Read(2),
    Read(2),
    Read(2),
    Fence(SECOND),
    Fence(FIRST),
    Swap(2),
    Read(5),
    Read(12),
    Write(12),
    Read(14),
    Write(14),
    Write(5),
    Swap(7),
    Found(8),
    Found(9),
    Swap(10),
    Found(11),
    Swap(2),
    // It finds the first two data blocks of the group taken, and takes the file.
    Swap(10),
    Read(14),
    Swap(7),
];

#[test]
fn a_record_is_made_again_twice(rt: HostRuntime) -> Result<(), Fail> {
    let mut worlds = Worlds::new(rt.alloc())?;
    joined(&rt, &mut worlds);
    let mut zero = Eyes::new();
    let mut two = Eyes::new();
    joins(&rt, &mut worlds, 2, Key(50));
    locks(&rt, &mut worlds, 1, 0);
    expect(&rt, worlds.commit_two(1, 0), Some(Ok(Created::Begun)));
    looks(&rt, &mut worlds, &mut zero, 0, 1);
    expect(&rt, worlds.plan(&mut zero, 0, Recover(1), 5), None);
    looks(&rt, &mut worlds, &mut two, 2, 1);
    answers(&rt, &mut worlds, &mut two, 2, Recover(1), Recovered);
    expect(&rt, worlds.search(2), Some(Ok(Sought::Found(2))));
    locks(&rt, &mut worlds, 2, 0);
    made(&rt, worlds, &TWO_TABLES_AGAIN);
    Ok(())
}
