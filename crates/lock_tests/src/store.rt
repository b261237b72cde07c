// The store alone, over a device in memory: what one host's calls answer, and what stands on the device then.
use crate::hosts::{GEOMETRY, expect};
use lock_store::{HostState, Purpose, StepNo, Store, Took};
use shared_disk::{Device, DiskNo, MemDisk};
use slot_lock_blocks::{LockWord, write_lock};
use std::test::Fail;
use vol_base::Key;
use vol_layout::{Kind, Resource};

const PART: Resource = Resource::Part(0);

// Gives host 0 a key where it has none.
fn register(store: &mut Store<MemDisk>) -> Option<Result<Key, DiskNo>> {
    if store.host(0).number() != 0 {
        return None;
    }
    Some(store.register(0))
}

// Tries the lock of the part under host 0's key.
fn take(store: &mut Store<MemDisk>, key: Key) -> Option<Result<Took, StepNo>> {
    if store.host(0).number() != key.0 || store.geometry().parts == 0 {
        return None;
    }
    let after = store.host(0).with_hold(PART, true);
    let held = LockWord::Held(key);
    let free = LockWord::Free;
    Some(store.try_lock(0, key, PART, Purpose::Share, &free, &held, &after))
}

// Writes a free lock of the part.
fn free(store: &mut Store<MemDisk>, key: Key) -> Option<Result<(), StepNo>> {
    if store.host(0).number() != key.0 || store.geometry().parts == 0 {
        return None;
    }
    let after = store.host(0).with_hold(PART, false);
    let block = write_lock(&LockWord::Free);
    Some(store.write(0, key, Kind::Lock(PART), &block, &after))
}

// The part's lock stands at place 9. A fresh block there is no lock: the host is dropped. A free lock is taken, and a lock of the
// own key is not found by a host that does not hold it.
#[test]
fn a_lock_is_taken_where_it_is_free(rt: HostRuntime) -> Result<(), Fail> {
    let disk = MemDisk::new(rt.alloc(), 1032)?;
    let mut store = Store::new(disk, GEOMETRY);
    store.known();
    expect(&rt, register(&mut store), Some(Ok(Key(16))));
    expect(&rt, take(&mut store, Key(16)), Some(Err(StepNo::Bad(9))));
    expect(&rt, store.host(0).key, None);
    expect(&rt, register(&mut store), Some(Ok(Key(32))));
    expect(&rt, free(&mut store, Key(32)), Some(Ok(())));
    expect(&rt, take(&mut store, Key(32)), Some(Ok(Took::Took)));
    assert!(rt; store.host(0).holds(PART));
    expect(&rt, take(&mut store, Key(32)), Some(Err(StepNo::Bad(9))));
    store.note(0, &HostState::registered(Key(32)));
    expect(&rt, store.host(0).key, Some(Key(32)));
    let disk = store.close();
    expect(&rt, (disk.calls(), disk.writes().len()), (6, 2));
    assert!(rt; disk.blocks() == 1032 && disk.block(9).same(&write_lock(&LockWord::Held(Key(32)))));
    Ok(())
}
