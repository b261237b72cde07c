// Locks of files, which hosts read together and hold alone.
use crate::hosts::{Asked, Hosts, expect};
use lock_store::{Claim, StepNo, Took};
use slot_lock_blocks::{LockWord, Readers, Slot};
use std::process::Abort;
use std::test::Fail;
use vol_base::Key;
use vol_layout::Resource;

// The keys of hosts 0 and 1 that register first and second: the counter times 16, and the host.
const FIRST: Key = Key(16);

const SECOND: Key = Key(33);

// Both hosts registered and entered.
fn join(rt: &impl Abort, hosts: &mut Hosts) {
    expect(rt, hosts.register(0), Some(Ok(FIRST)));
    expect(rt, hosts.register(1), Some(Ok(SECOND)));
    expect(rt, hosts.enter(0, &Slot::Free), Some(Ok(Claim::Claimed)));
    expect(rt, hosts.enter(1, &Slot::Free), Some(Ok(Claim::Claimed)));
}

// The lock that these hosts read.
fn read_by(first: Option<Key>, second: Option<Key>) -> LockWord {
    let mut readers = Readers::none();
    readers.set(0, first.filter(|key| key.0 % 16 == 0 && key.0 != 0));
    readers.set(1, second.filter(|key| key.0 % 16 == 1));
    LockWord::Read(readers)
}

const TOOK: Asked<Took> = Some(Ok(Took::Took));

fn found(word: LockWord) -> Asked<Took> {
    Some(Ok(Took::Found(word)))
}

#[test]
fn hosts_read_together_and_write_alone(rt: HostRuntime) -> Result<(), Fail> {
    let mut hosts = Hosts::new(rt.alloc(), 0)?;
    join(&rt, &mut hosts);
    let free = LockWord::Free;
    let one = read_by(Some(FIRST), None);
    let both = read_by(Some(FIRST), Some(SECOND));
    let other = read_by(None, Some(SECOND));
    let file = Resource::File(2);
    expect(&rt, hosts.try_read(0, 2, &free), TOOK);
    expect(&rt, hosts.try_read(1, 2, &free), found(one));
    expect(&rt, hosts.try_read(1, 2, &one), TOOK);
    assert!(rt; hosts.reads(0, 2) && hosts.reads(1, 2));
    expect(&rt, hosts.confirm(0, 2), Some(Ok(())));
    // No write hold over two readers.
    expect(&rt, hosts.try_write(1, 2, &free), found(both));
    expect(&rt, hosts.try_write(1, 2, &other), found(both));
    assert!(rt; hosts.reads(1, 2) && !hosts.holds(1, file));
    expect(&rt, hosts.release_read(0, 2, &one), found(both));
    expect(&rt, hosts.release_read(0, 2, &both), TOOK);
    assert!(rt; !hosts.reads(0, 2));
    expect(&rt, hosts.try_write(1, 2, &other), TOOK);
    assert!(rt; hosts.holds(1, file) && !hosts.reads(1, 2));
    // A held file is neither read nor held by another.
    let held = LockWord::Held(SECOND);
    expect(&rt, hosts.try_read(0, 2, &free), found(held));
    expect(&rt, hosts.try_write(0, 2, &free), found(held));
    expect(&rt, hosts.confirm(1, 2), Some(Ok(())));
    expect(&rt, hosts.unlock(1, file), Some(Ok(())));
    expect(&rt, hosts.try_write(0, 2, &free), TOOK);
    Ok(())
}

#[test]
fn an_ended_reader_is_passed_over(rt: HostRuntime) -> Result<(), Fail> {
    let mut hosts = Hosts::new(rt.alloc(), 0)?;
    join(&rt, &mut hosts);
    let one = read_by(Some(FIRST), None);
    let both = read_by(Some(FIRST), Some(SECOND));
    expect(&rt, hosts.try_read(0, 1, &LockWord::Free), TOOK);
    expect(&rt, hosts.try_read(1, 1, &one), TOOK);
    // After the fence the reader learns that it reads no more.
    expect(&rt, hosts.fence(1, FIRST), Some(Ok(())));
    expect(&rt, hosts.confirm(0, 1), Some(Err(StepNo::Fenced)));
    assert!(rt; !hosts.reads(0, 1));
    expect(&rt, hosts.key_of(0), None);
    // It has ended once its slot is free again. Its key stands in the lock still.
    let live = Slot::Live {
        key: FIRST,
        beat: 0,
    };
    expect(&rt, hosts.claim_slot(1, 0, &live), Some(Ok(Claim::Claimed)));
    expect(&rt, hosts.free_claimed(1, 0), Some(Ok(())));
    expect(&rt, hosts.try_write(1, 1, &both), TOOK);
    assert!(rt; hosts.holds(1, Resource::File(1)));
    // The host comes back under a new key, and finds the file held.
    expect(&rt, hosts.register(0), Some(Ok(Key(48))));
    expect(&rt, hosts.enter(0, &Slot::Free), Some(Ok(Claim::Claimed)));
    let held = LockWord::Held(SECOND);
    expect(&rt, hosts.try_read(0, 1, &LockWord::Free), found(held));
    Ok(())
}
