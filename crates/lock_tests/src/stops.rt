// A host that stops after any of its calls, and the host that recovers it.
use crate::hosts::{Hosts, expect};
use crate::lock_calls::live;
use disk_locks::Got;
use lock_store::{Claim, Took};
use slot_lock_blocks::{LockWord, Slot};
use std::process::Abort;
use std::test::Fail;
use vol_base::{Block, Key, Packed};
use vol_layout::{Edit, Field, Resource, Table};

const POINTER: Field = Field::Pointer(0, 3);

const COUNT: Field = Field::Count(5);

const FILE: Table = Table::File(0);

const GROUP: Table = Table::Group(0);

// The calls of a write to a free data block, and how many there are up to the commit.
const CALLS: u32 = 9;

const COMMITTED: u32 = 6;

// The tables that the host keeps.
#[derive(Drop)]
struct Kept {
    file: Option<Packed<4>>,
    group: Option<Packed<4>>,
}

// Host 0 takes the locks, reads both tables, writes data block 5, commits the record that names it, writes both tables and takes the
// record out: call `k` of this.
fn call(hosts: &mut Hosts, kept: &mut Kept, k: u32) -> bool {
    match k {
        0 => hosts.try_write(0, 0, &LockWord::Free) == Some(Ok(Took::Took)),
        1 => hosts.try_lock(0, Resource::Group(0)) == Some(Ok(Got::Got)),
        2 => {
            kept.file = hosts.read_table(0, FILE).and_then(Result::ok);
            kept.file.is_some()
        }
        3 => {
            kept.group = hosts.read_table(0, GROUP).and_then(Result::ok);
            kept.group.is_some()
        }
        4 => hosts.write_fresh(0, 5, &Block([7; 4096])) == Some(Ok(())),
        5 => hosts.commit(0, edit(POINTER, 6), edit(COUNT, 1)) == Some(Ok(())),
        6 => advance(hosts, FILE, &kept.file),
        7 => advance(hosts, GROUP, &kept.group),
        _ => hosts.finish(0) == Some(Ok(())),
    }
}

fn advance(hosts: &mut Hosts, which: Table, kept: &Option<Packed<4>>) -> bool {
    match kept {
        Some(table) => hosts.advance(0, which, table) == Some(Ok(())),
        None => false,
    }
}

fn edit(field: Field, number: u32) -> Edit {
    Edit { field, number }
}

// Host 1 replays what host 0 left, and frees what it held.
fn recover(rt: &impl Abort, hosts: &mut Hosts) {
    expect(rt, hosts.fence(1, Key(16)), Some(Ok(())));
    expect(
        rt,
        hosts.claim_slot(1, 0, &live(16, 0)),
        Some(Ok(Claim::Claimed)),
    );
    if let Some(Ok(Some(entry))) = hosts.replay_journal(1, 0) {
        expect(rt, hosts.replay(1, 0, &entry, 0), Some(Ok(())));
        expect(rt, hosts.replay(1, 0, &entry, 1), Some(Ok(())));
        expect(rt, hosts.replay_clear(1, 0), Some(Ok(())));
    }
    expect(
        rt,
        hosts.free_lock_of(1, 0, Resource::File(0)),
        Some(Ok(())),
    );
    expect(
        rt,
        hosts.free_lock_of(1, 0, Resource::Group(0)),
        Some(Ok(())),
    );
    expect(rt, hosts.free_claimed(1, 0), Some(Ok(())));
}

// From the commit on the pointer names block 5, whose count is 1; before it both are 0.
#[test]
fn a_stopped_host_is_recovered(rt: HostRuntime) -> Result<(), Fail> {
    for stop in 0..CALLS + 1 {
        let mut hosts = Hosts::new(rt.alloc(), 0)?;
        expect(&rt, hosts.register(0), Some(Ok(Key(16))));
        expect(&rt, hosts.register(1), Some(Ok(Key(33))));
        expect(&rt, hosts.enter(0, &Slot::Free), Some(Ok(Claim::Claimed)));
        expect(&rt, hosts.enter(1, &Slot::Free), Some(Ok(Claim::Claimed)));
        let mut kept = Kept {
            file: None,
            group: None,
        };
        for k in 0..stop {
            assert!(rt; call(&mut hosts, &mut kept, k));
        }
        hosts.drop_host(0);
        recover(&rt, &mut hosts);
        let committed = stop >= COMMITTED;
        expect(
            &rt,
            hosts.try_write(1, 0, &LockWord::Free),
            Some(Ok(Took::Took)),
        );
        expect(
            &rt,
            hosts.try_lock(1, Resource::Group(0)),
            Some(Ok(Got::Got)),
        );
        let pointer = if committed { 6 } else { 0 };
        expect(&rt, hosts.number(1, POINTER), Some(Ok(pointer)));
        expect(&rt, hosts.number(1, COUNT), Some(Ok(u32::from(committed))));
    }
    Ok(())
}
