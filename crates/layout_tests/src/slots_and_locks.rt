// The bytes of slots and locks as the format's description has them.
use slot_lock_blocks::{LockWord, Readers, Slot, read_lock, read_slot, write_lock, write_slot};
use vol_base::{Block, Draft, Key};

const SLOT: [u8; 8] = [0x44, 0x45, 0x44, 0x45, 0x53, 0x4c, 0x4f, 0x54];

const LOCK: [u8; 8] = [0x44, 0x45, 0x44, 0x45, 0x4c, 0x4f, 0x43, 0x4b];

// A block of a magic, a state, a word, two numbers of eight bytes, and four more from byte 64 on.
fn block(magic: &[u8; 8], state: u32, word: u32, numbers: [u64; 2], behind: [u64; 4]) -> Block {
    let mut draft = Draft::new();
    draft.push_bytes(magic);
    draft.push_u32(state);
    draft.push_u32(word);
    let [key, second] = numbers;
    draft.push_u64(key);
    draft.push_u64(second);
    draft.skip_to(64);
    let [first, other, third, fourth] = behind;
    draft.push_u64(first);
    draft.push_u64(other);
    draft.push_u64(third);
    draft.push_u64(fourth);
    draft.finish()
}

// The readers 32 of host 0 and 51 of host 3.
fn two_readers() -> Readers {
    let mut readers = Readers::none();
    readers.set(0, Some(Key(32)));
    readers.set(1, Some(Key(17)));
    readers.set(3, Some(Key(51)));
    readers.set(1, None);
    readers
}

#[test]
fn a_live_slot_has_its_bytes(rt: HostRuntime) {
    let written = write_slot(&Slot::Live {
        key: Key(32),
        beat: 0,
    });
    let bytes = [
        0x44, 0x45, 0x44, 0x45, 0x53, 0x4c, 0x4f, 0x54, 0, 0, 0, 1, 0, 0, 0, 0, 0, 0, 0, 0, 0, 0,
        0, 0x20, 0, 0, 0, 0, 0, 0, 0, 0,
    ];
    for at in 0..32usize {
        assert_eq!(rt; written.0[at], bytes[at]);
    }
    assert!(rt; written.same(&block(&SLOT, 1, 0, [32, 0], [0; 4])));
}

#[test]
fn slots_have_one_spelling(rt: HostRuntime) {
    let live = Slot::Live {
        key: Key(32),
        beat: 7,
    };
    let recovering = Slot::Recovering {
        key: Key(32),
        by: Key(49),
    };
    let rows = [
        (SLOT, 0, 0, [0, 0], 0, Some(Slot::Free)),
        (SLOT, 1, 0, [32, 7], 0, Some(live)),
        (SLOT, 2, 0, [32, 49], 0, Some(recovering)),
        (LOCK, 1, 0, [32, 7], 0, None),
        (SLOT, 3, 0, [32, 7], 0, None),
        (SLOT, 1, 1, [32, 7], 0, None),
        (SLOT, 1, 0, [32, 7], 1, None),
        (SLOT, 0, 0, [32, 0], 0, None),
        (SLOT, 0, 0, [0, 7], 0, None),
        (SLOT, 1, 0, [0, 7], 0, None),
        (SLOT, 2, 0, [0, 49], 0, None),
        (SLOT, 2, 0, [32, 0], 0, None),
    ];
    for (magic, state, word, numbers, behind, slot) in rows {
        let found = block(&magic, state, word, numbers, [behind, 0, 0, 0]);
        assert_eq!(rt;
            read_slot(&found),
            slot,
            "{state} {word} {numbers:?} {behind}"
        );
    }
}

#[test]
fn locks_have_one_spelling(rt: HostRuntime) {
    let rows = [
        (0, [0, 0], [0, 0, 0, 0], Some(LockWord::Free)),
        (1, [32, 0], [0, 0, 0, 0], Some(LockWord::Held(Key(32)))),
        (
            2,
            [0, 0],
            [32, 0, 0, 51],
            Some(LockWord::Read(two_readers())),
        ),
        (3, [32, 0], [0, 0, 0, 0], None),
        (0, [32, 0], [0, 0, 0, 0], None),
        (0, [0, 0], [32, 0, 0, 0], None),
        (1, [0, 0], [0, 0, 0, 0], None),
        (1, [32, 1], [0, 0, 0, 0], None),
        (1, [32, 0], [32, 0, 0, 0], None),
        (2, [0, 0], [0, 0, 0, 0], None),
        (2, [32, 0], [32, 0, 0, 51], None),
        (2, [0, 0], [32, 0, 51, 0], None),
        (2, [0, 0], [51, 0, 0, 51], None),
    ];
    for (state, numbers, behind, word) in rows {
        let found = block(&LOCK, state, 0, numbers, behind);
        assert_eq!(rt; read_lock(&found), word, "{state} {numbers:?} {behind:?}");
    }
}

#[test]
fn a_read_lock_has_the_keys_of_its_readers(rt: HostRuntime) {
    let readers = two_readers();
    assert!(rt; !readers.is_empty());
    assert!(rt; Readers::none().is_empty());
    for (host, key) in [
        (0, Some(Key(32))),
        (1, None),
        (3, Some(Key(51))),
        (15, None),
    ] {
        assert_eq!(rt; readers.get(host), key);
    }
    let written = write_lock(&LockWord::Read(readers));
    assert!(rt; written.same(&block(&LOCK, 2, 0, [0, 0], [32, 0, 0, 51])));
}
