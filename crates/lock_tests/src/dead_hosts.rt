// Slots of live and of dead hosts, and what dead hosts held.
use crate::hosts::{Hosts, expect};
use crate::lock_calls::live;
use disk_locks::Got;
use lock_store::{Claim, StepNo, Took};
use shared_disk::DiskNo;
use slot_lock_blocks::{LockWord, Slot};
use std::test::Fail;
use vol_base::Key;
use vol_layout::Resource;

const PART: Resource = Resource::Part(0);

const CLAIMED: Option<Result<Claim, StepNo>> = Some(Ok(Claim::Claimed));

fn recovering(key: u64, by: u64) -> Slot {
    Slot::Recovering {
        key: Key(key),
        by: Key(by),
    }
}

fn found(slot: Slot) -> Option<Result<Claim, StepNo>> {
    Some(Ok(Claim::Found(slot)))
}

#[test]
fn slots_are_claimed_as_they_stand(rt: HostRuntime) -> Result<(), Fail> {
    let mut hosts = Hosts::new(rt.alloc(), 0)?;
    expect(&rt, hosts.register(0), Some(Ok(Key(16))));
    expect(&rt, hosts.register(1), Some(Ok(Key(33))));
    expect(&rt, hosts.read_slot_of(1, 0), Some(Ok(Slot::Free)));
    expect(&rt, hosts.enter(0, &Slot::Free), CLAIMED);
    expect(&rt, hosts.try_lock(0, PART), Some(Ok(Got::Got)));
    // A live host showed a beat since its slot was read: no claim.
    expect(&rt, hosts.read_slot_of(1, 0), Some(Ok(live(16, 0))));
    expect(&rt, hosts.beat(0), Some(Ok(())));
    expect(
        &rt,
        hosts.claim_slot(1, 0, &live(16, 0)),
        found(live(16, 1)),
    );
    expect(&rt, hosts.beat(0), Some(Ok(())));
    expect(&rt, hosts.read_slot_of(1, 0), Some(Ok(live(16, 2))));
    // A host that is joined does not claim its own slot.
    expect(&rt, hosts.claim_slot(0, 0, &live(16, 2)), None);
    expect(&rt, hosts.fence(1, Key(16)), Some(Ok(())));
    expect(&rt, hosts.claim_slot(1, 0, &live(16, 2)), CLAIMED);
    expect(&rt, hosts.beat(0), Some(Err(StepNo::Fenced)));
    // The slot shows the dead key while others recover it, and is claimed from one that died at it.
    expect(&rt, hosts.register(0), Some(Ok(Key(48))));
    expect(&rt, hosts.enter(0, &Slot::Free), found(recovering(16, 33)));
    expect(
        &rt,
        hosts.claim_slot(0, 0, &live(16, 2)),
        found(recovering(16, 33)),
    );
    expect(&rt, hosts.fence(0, Key(33)), Some(Ok(())));
    expect(&rt, hosts.claim_slot(0, 0, &recovering(16, 33)), CLAIMED);
    expect(&rt, hosts.read_slot_of(0, 0), Some(Ok(recovering(16, 48))));
    expect(&rt, hosts.free_claimed(1, 0), Some(Err(StepNo::Fenced)));
    // The host enters from its own claim, once what its old key held is free.
    expect(&rt, hosts.free_lock_of(0, 0, PART), Some(Ok(())));
    expect(&rt, hosts.enter(0, &recovering(16, 48)), CLAIMED);
    expect(&rt, hosts.read_slot_of(0, 0), Some(Ok(live(48, 0))));
    expect(&rt, hosts.try_lock(0, PART), Some(Ok(Got::Got)));
    Ok(())
}

#[test]
fn what_a_dead_host_held_is_freed(rt: HostRuntime) -> Result<(), Fail> {
    let mut hosts = Hosts::new(rt.alloc(), 0)?;
    let file = Resource::File(3);
    let free = LockWord::Free;
    let held = LockWord::Held(Key(16));
    expect(&rt, hosts.register(0), Some(Ok(Key(16))));
    expect(&rt, hosts.register(1), Some(Ok(Key(33))));
    expect(&rt, hosts.enter(0, &Slot::Free), CLAIMED);
    expect(&rt, hosts.enter(1, &Slot::Free), CLAIMED);
    expect(&rt, hosts.try_lock(0, PART), Some(Ok(Got::Got)));
    expect(&rt, hosts.try_write(0, 3, &free), Some(Ok(Took::Took)));
    expect(&rt, hosts.try_lock(1, PART), Some(Ok(Got::Held(Key(16)))));
    expect(
        &rt,
        hosts.try_read(1, 3, &free),
        Some(Ok(Took::Found(held))),
    );
    // Before the claim no lock of the other host is freed.
    expect(&rt, hosts.free_lock_of(1, 0, PART), None);
    expect(&rt, hosts.fence(1, Key(16)), Some(Ok(())));
    expect(&rt, hosts.claim_slot(1, 0, &live(16, 0)), CLAIMED);
    expect(&rt, hosts.free_lock_of(1, 0, PART), Some(Ok(())));
    expect(&rt, hosts.free_lock_of(1, 0, file), Some(Ok(())));
    expect(&rt, hosts.try_lock(1, PART), Some(Ok(Got::Got)));
    expect(&rt, hosts.try_write(1, 3, &free), Some(Ok(Took::Took)));
    // A lock of another key is left as it is.
    expect(&rt, hosts.free_lock_of(1, 0, file), Some(Ok(())));
    expect(&rt, hosts.confirm(1, 3), Some(Ok(())));
    expect(&rt, hosts.free_claimed(1, 0), Some(Ok(())));
    expect(&rt, hosts.read_slot_of(1, 0), Some(Ok(Slot::Free)));
    // A host leaves only once it holds nothing, and comes back under a new key.
    expect(&rt, hosts.leave(1), None);
    expect(&rt, hosts.unlock(1, PART), Some(Ok(())));
    expect(&rt, hosts.unlock(1, file), Some(Ok(())));
    expect(&rt, hosts.leave(1), Some(Ok(())));
    expect(&rt, hosts.read_slot_of(1, 1), Some(Ok(Slot::Free)));
    expect(&rt, hosts.enter(1, &Slot::Free), None);
    hosts.drop_host(1);
    expect(&rt, hosts.key_of(1), None);
    expect(&rt, hosts.register(1), Some(Ok(Key(49))));
    expect(&rt, hosts.key_of(1), Some(Key(49)));
    Ok(())
}

// The counter ends at 2^59 - 1, and the last key of host 0 is 2^63 - 16.
#[test]
fn the_counter_ends(rt: HostRuntime) -> Result<(), Fail> {
    let mut hosts = Hosts::new(rt.alloc(), 576_460_752_303_423_486)?;
    let last = Key(9_223_372_036_854_775_792);
    expect(&rt, hosts.register(0), Some(Ok(last)));
    expect(&rt, hosts.register(1), Some(Err(DiskNo::NoKeys)));
    expect(&rt, hosts.key_of(1), None);
    expect(&rt, hosts.enter(0, &Slot::Free), CLAIMED);
    expect(&rt, hosts.read_slot_of(0, 0), Some(Ok(live(last.0, 0))));
    Ok(())
}
