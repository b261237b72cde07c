// The bytes of journals as the format's description has them.
use journal_block::{Record, read_journal, write_journal};
use vol_base::{Block, Draft, Key};
use vol_layout::{Edit, Field, Geometry};

const MAGIC: [u8; 8] = [0x44, 0x45, 0x44, 0x45, 0x4a, 0x52, 0x4e, 0x4c];

// Two hosts, four files, one group and one part.
const SMALL: Geometry = Geometry {
    hosts: 2,
    files: 4,
    groups: 1,
    parts: 1,
    shards: 1,
    logs: 1,
    tables: 1,
};

// A block of a count, a word, a key, and eight numbers from byte 64 on.
fn block(count: u32, word: u32, key: u64, numbers: [u32; 8]) -> Block {
    let mut draft = Draft::new();
    draft.push_bytes(&MAGIC);
    draft.push_u32(count);
    draft.push_u32(word);
    draft.push_u64(key);
    draft.skip_to(64);
    let [kind, a, b, number, next_kind, next_a, next_b, next_number] = numbers;
    draft.push_u32(kind);
    draft.push_u32(a);
    draft.push_u32(b);
    draft.push_u32(number);
    draft.push_u32(next_kind);
    draft.push_u32(next_a);
    draft.push_u32(next_b);
    draft.push_u32(next_number);
    draft.finish()
}

// How many edits the block spells; nothing where it spells no journal.
fn spelled_edits(block: &Block) -> Option<u32> {
    if !SMALL.is_in_range() {
        return None;
    }
    match read_journal(block, &SMALL)? {
        None => Some(0),
        Some(record) => Some(record.count()),
    }
}

fn two_edits() -> Record {
    let mut record = Record::new(
        Key(32),
        Edit {
            field: Field::Slot(5),
            number: 7,
        },
    );
    let _added = record.add(Edit {
        field: Field::Count(6),
        number: 1,
    });
    record
}

#[test]
fn a_record_has_its_bytes(rt: HostRuntime) {
    let written = write_journal(Some(&two_edits()));
    let front = [
        0x44, 0x45, 0x44, 0x45, 0x4a, 0x52, 0x4e, 0x4c, 0, 0, 0, 2, 0, 0, 0, 0, 0, 0, 0, 0, 0, 0,
        0, 0x20,
    ];
    let edits = [
        0, 0, 0, 2, 0, 0, 0, 5, 0, 0, 0, 0, 0, 0, 0, 7, 0, 0, 0, 3, 0, 0, 0, 6, 0, 0, 0, 0, 0, 0,
        0, 1,
    ];
    for at in 0..24usize {
        assert_eq!(rt; written.0[at], front[at]);
    }
    for at in 0..32usize {
        assert_eq!(rt; written.0[64 + at], edits[at]);
    }
    assert!(rt; written.same(&block(2, 0, 32, [2, 5, 0, 7, 3, 6, 0, 1])));
    assert!(rt; write_journal(None).same(&block(0, 0, 0, [0; 8])));
}

#[test]
fn journals_have_one_spelling(rt: HostRuntime) {
    let rows = [
        (0, 0, 0, [0, 0, 0, 0, 0, 0, 0, 0], Some(0)),
        (1, 0, 32, [0, 0, 0, 1, 0, 0, 0, 0], Some(1)),
        (1, 0, 0, [0, 0, 0, 1, 0, 0, 0, 0], Some(1)),
        (2, 0, 32, [2, 5, 0, 7, 3, 6, 0, 1], Some(2)),
        (2, 0, 32, [1, 3, 1007, 0x8000_0001, 0, 3, 0, 1009], Some(2)),
        (0, 0, 32, [0, 0, 0, 0, 0, 0, 0, 0], None),
        (0, 0, 0, [0, 0, 0, 1, 0, 0, 0, 0], None),
        (1, 1, 32, [0, 0, 0, 1, 0, 0, 0, 0], None),
        (1, 0, 32, [0, 0, 0, 1, 0, 0, 0, 5], None),
        (1, 0, 32, [0, 0, 1, 1, 0, 0, 0, 0], None),
        (1, 0, 32, [0, 4, 0, 1, 0, 0, 0, 0], None),
        (1, 0, 32, [0, 256, 0, 1, 0, 0, 0, 0], None),
        (1, 0, 32, [0, 0, 0, 1010, 0, 0, 0, 0], None),
        (1, 0, 32, [1, 0, 1008, 1, 0, 0, 0, 0], None),
        (1, 0, 32, [1, 0, 0, 0x8000_0000, 0, 0, 0, 0], None),
        (1, 0, 32, [3, 0, 0, 80641, 0, 0, 0, 0], None),
        (1, 0, 32, [4, 0, 0, 1, 0, 0, 0, 0], None),
        (2, 0, 32, [2, 5, 0, 7, 2, 5, 0, 8], None),
        (9, 0, 32, [2, 5, 0, 7, 3, 6, 0, 1], None),
    ];
    for (count, word, key, numbers, edits) in rows {
        let found = block(count, word, key, numbers);
        assert_eq!(rt;
            spelled_edits(&found),
            edits,
            "{count} {word} {key} {numbers:?}"
        );
    }
}

#[test]
fn a_record_takes_eight_edits_of_eight_fields(rt: HostRuntime) {
    let mut record = two_edits();
    let again = Edit {
        field: Field::Slot(5),
        number: 8,
    };
    assert!(rt; record.add(again).is_none());
    for number in 7..13u32 {
        let edit = Edit {
            field: Field::Count(number),
            number: 0,
        };
        assert!(rt; record.add(edit).is_some());
    }
    let ninth = Edit {
        field: Field::Head(0),
        number: 1,
    };
    assert!(rt; record.add(ninth).is_none());
    assert_eq!(rt; record.key(), Key(32));
    assert_eq!(rt; record.count(), 8);
    let fields = [
        Field::Slot(5),
        Field::Count(6),
        Field::Count(7),
        Field::Count(8),
        Field::Count(9),
        Field::Count(10),
        Field::Count(11),
        Field::Count(12),
    ];
    for k in 0..record.count() {
        assert_eq!(rt; record.get(k).field, fields[k as usize]);
    }
}
