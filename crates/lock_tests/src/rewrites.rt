// Blocks of a file and hint blocks, each call of the world once.
use crate::hosts::{Hosts, expect};
use disk_locks::Got;
use lock_store::{Claim, Took};
use shared_disk::Device;
use slot_lock_blocks::{LockWord, Slot};
use std::process::Abort;
use std::test::Fail;
use vol_base::{Block, Key, Packed};
use vol_layout::{Edit, Field, Resource, Table};

const ONES: Block = Block([1; 4096]);

const TWOS: Block = Block([2; 4096]);

const POINTER: Field = Field::Pointer(0, 0);

const COUNT: Field = Field::Count(3);

const FILE: Table = Table::File(0);

const GROUP: Table = Table::Group(0);

// Host 0 joined, with file 0 and group 0 held.
fn join(rt: &impl Abort, hosts: &mut Hosts) {
    expect(rt, hosts.register(0), Some(Ok(Key(16))));
    expect(rt, hosts.enter(0, &Slot::Free), Some(Ok(Claim::Claimed)));
    expect(
        rt,
        hosts.try_write(0, 0, &LockWord::Free),
        Some(Ok(Took::Took)),
    );
    expect(
        rt,
        hosts.try_lock(0, Resource::Group(0)),
        Some(Ok(Got::Got)),
    );
}

// A table as host 0 reads it.
fn table(hosts: &mut Hosts, which: Table) -> Result<Packed<4>, Fail> {
    let read = hosts.read_table(0, which).and_then(Result::ok);
    Ok(read.ok_or("no table")?)
}

// Writes both tables and takes the record out.
fn settle(rt: &impl Abort, hosts: &mut Hosts) -> Result<(), Fail> {
    let file = table(hosts, FILE)?;
    expect(rt, hosts.advance(0, FILE, &file), Some(Ok(())));
    let group = table(hosts, GROUP)?;
    expect(rt, hosts.advance(0, GROUP, &group), Some(Ok(())));
    expect(rt, hosts.finish(0), Some(Ok(())));
    Ok(())
}

fn edit(field: Field, number: u32) -> Edit {
    Edit { field, number }
}

// Data block 3 at index 0 of a file: not rewritten while the file has no length, rewritten, and punched, after which it is a hole.
#[test]
fn a_block_is_rewritten_and_punched(rt: HostRuntime) -> Result<(), Fail> {
    let mut hosts = Hosts::new(rt.alloc(), 0)?;
    join(&rt, &mut hosts);
    expect(&rt, hosts.write_fresh(0, 3, &ONES), Some(Ok(())));
    let named = edit(POINTER, 4);
    expect(&rt, hosts.commit(0, named, edit(COUNT, 1)), Some(Ok(())));
    settle(&rt, &mut hosts)?;
    let file = table(&mut hosts, FILE)?;
    expect(&rt, hosts.rewrite(0, 0, 0, &file, &TWOS), Some(Ok(false)));
    expect(
        &rt,
        hosts.commit_one(0, edit(Field::Head(0), 2)),
        Some(Ok(())),
    );
    settle(&rt, &mut hosts)?;
    let file = table(&mut hosts, FILE)?;
    expect(&rt, hosts.rewrite(0, 0, 0, &file, &TWOS), Some(Ok(true)));
    expect(&rt, hosts.read_number(0, 0, 0, 3), Some(Ok(TWOS)));
    expect(&rt, hosts.write_own(0, 0, 0, 3, &ONES), Some(Ok(())));
    expect(&rt, hosts.read_number(0, 0, 0, 3), Some(Ok(ONES)));
    let group = table(&mut hosts, GROUP)?;
    expect(&rt, hosts.punch(0, 0, 0, 3, &file, &group), Some(Ok(())));
    expect(&rt, hosts.number(0, POINTER), Some(Ok(0)));
    expect(&rt, hosts.number(0, COUNT), Some(Ok(0)));
    expect(&rt, hosts.peek_slot(0, 7), Some(Ok(0)));
    let disk = hosts.close();
    expect(&rt, (disk.counter(), disk.calls()), (1, 31));
    Ok(())
}

// Host 1 writes the block between host 0's reading and its swap.
#[test]
fn a_changed_hint_is_not_swapped(rt: HostRuntime) -> Result<(), Fail> {
    let mut hosts = Hosts::new(rt.alloc(), 0)?;
    let zeros = Block::zeros();
    expect(&rt, hosts.read_hint(0, 0), None);
    expect(&rt, hosts.register(0), Some(Ok(Key(16))));
    expect(&rt, hosts.register(1), Some(Ok(Key(33))));
    expect(&rt, hosts.read_hint(0, 0), Some(Ok(zeros)));
    expect(&rt, hosts.write_hint(1, 0, &ONES), Some(Ok(())));
    expect(&rt, hosts.swap_hint(0, 0, &zeros, &TWOS), Some(Ok(false)));
    expect(&rt, hosts.read_hint(0, 0), Some(Ok(ONES)));
    expect(&rt, hosts.swap_hint(0, 0, &ONES, &TWOS), Some(Ok(true)));
    expect(&rt, hosts.read_hint(0, 0), Some(Ok(TWOS)));
    Ok(())
}
