// Blocks that spell nothing, where a table or a journal is to stand: the host that reads one is dropped.
use crate::hosts::{Hosts, expect};
use crate::lock_calls::live;
use lock_store::{Claim, StepNo, Took};
use slot_lock_blocks::{LockWord, Slot};
use std::test::Fail;
use vol_base::Key;
use vol_layout::Field;

// The places of host 0's journal, of the table of file 0, and of that of the part.
const JOURNAL: u64 = 3;

const FILE_TABLE: u64 = 11;

const PART_TABLE: u64 = 16;

#[test]
fn a_spoiled_table_is_a_bad_block(rt: HostRuntime) -> Result<(), Fail> {
    let mut hosts = Hosts::spoiled(rt.alloc(), FILE_TABLE)?;
    expect(&rt, hosts.register(0), Some(Ok(Key(16))));
    expect(&rt, hosts.enter(0, &Slot::Free), Some(Ok(Claim::Claimed)));
    expect(
        &rt,
        hosts.try_write(0, 0, &LockWord::Free),
        Some(Ok(Took::Took)),
    );
    expect(
        &rt,
        hosts.number(0, Field::Head(0)),
        Some(Err(StepNo::Bad(FILE_TABLE))),
    );
    expect(&rt, hosts.key_of(0), None);
    let mut hosts = Hosts::spoiled(rt.alloc(), PART_TABLE)?;
    expect(&rt, hosts.register(0), Some(Ok(Key(16))));
    expect(&rt, hosts.enter(0, &Slot::Free), Some(Ok(Claim::Claimed)));
    expect(
        &rt,
        hosts.peek_slot(0, 7),
        Some(Err(StepNo::Bad(PART_TABLE))),
    );
    expect(&rt, hosts.key_of(0), None);
    Ok(())
}

#[test]
fn a_spoiled_journal_is_a_bad_block(rt: HostRuntime) -> Result<(), Fail> {
    let mut hosts = Hosts::spoiled(rt.alloc(), JOURNAL)?;
    expect(&rt, hosts.register(0), Some(Ok(Key(16))));
    expect(&rt, hosts.enter(0, &Slot::Free), Some(Ok(Claim::Claimed)));
    expect(&rt, hosts.register(1), Some(Ok(Key(33))));
    expect(&rt, hosts.enter(1, &Slot::Free), Some(Ok(Claim::Claimed)));
    expect(&rt, hosts.fence(1, Key(16)), Some(Ok(())));
    expect(
        &rt,
        hosts.claim_slot(1, 0, &live(16, 0)),
        Some(Ok(Claim::Claimed)),
    );
    match hosts.replay_journal(1, 0) {
        Some(Err(cause)) => expect(&rt, cause, StepNo::Bad(JOURNAL)),
        _ => panic!(rt; "the journal spells nothing"),
    }
    expect(&rt, hosts.key_of(1), None);
    Ok(())
}
