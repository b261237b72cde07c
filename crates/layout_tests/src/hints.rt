// Hint blocks as the format's description has them.
use hint_blocks::{Hint, HintTo, Hints, IndexEntry, LogEntry, Request, shard_of};
use std::process::Abort;
use vol_base::{Block, Digest, Draft};
use vol_layout::Geometry;

// Two hosts, four files of at most 1,008 blocks, one group and one part.
const SMALL: Geometry = Geometry {
    hosts: 2,
    files: 4,
    groups: 1,
    parts: 1,
    shards: 1,
    logs: 1,
    tables: 1,
};

// A volume of version 2, with files of at most 2,016 blocks.
const LONG: Geometry = Geometry {
    hosts: 2,
    files: 4,
    groups: 1,
    parts: 2,
    shards: 1,
    logs: 1,
    tables: 2,
};

const FIRST: Digest = Digest([1; 20]);

// A block with a magic, a count, a word, and an entry of the first digest.
fn block(magic: &[u8; 8], count: u32, word: u32, numbers: [u32; 3]) -> Block {
    let [first, second, third] = numbers;
    let mut draft = Draft::new();
    draft.push_bytes(magic);
    draft.push_u32(count);
    draft.push_u32(word);
    draft.skip_to(64);
    draft.push_bytes(&FIRST.0);
    draft.push_u32(first);
    draft.push_u32(second);
    draft.push_u32(third);
    draft.finish()
}

// The only hint of a block, if it has one, and whether its block is written so again.
fn only<T: Hint>(rt: &impl Abort, block: &Block, geometry: &Geometry) -> Option<(T, bool)> {
    assert!(rt; geometry.is_in_range());
    let hints: Hints<T> = Hints::of(block, geometry);
    if hints.count() != 1 {
        return None;
    }
    let hint = hints.get(0);
    Some((hint, hints.into_block().same(block)))
}

fn log(file: u8, index: u32) -> LogEntry {
    LogEntry {
        digest: FIRST,
        file,
        index,
    }
}

fn indexed(to: HintTo) -> IndexEntry {
    IndexEntry { digest: FIRST, to }
}

fn request(index: u32, slot: u32) -> Request {
    Request {
        digest: FIRST,
        index,
        slot,
    }
}

#[test]
fn entries_in_range_are_read(rt: HostRuntime) {
    let logs = [
        (
            b"DEDELOGS",
            1,
            0,
            [3, 1007, 0],
            SMALL,
            Some((log(3, 1007), true)),
        ),
        (
            b"DEDELOGS",
            1,
            0,
            [3, 2015, 0],
            LONG,
            Some((log(3, 2015), true)),
        ),
        (
            b"DEDELOGS",
            1,
            0,
            [3, 7, 9],
            SMALL,
            Some((log(3, 7), false)),
        ),
        (b"DEDELOGS", 1, 0, [0, 1008, 0], SMALL, None),
        (b"DEDELOGS", 1, 0, [0, 2016, 0], LONG, None),
        (b"DEDELOGS", 127, 0, [0, 0, 0], SMALL, None),
        (b"DEDEINDX", 1, 0, [0, 0, 0], SMALL, None),
        (b"DEDELOGS", u32::MAX, u32::MAX, [u32::MAX; 3], SMALL, None),
    ];
    for (magic, count, word, numbers, geometry, hint) in logs {
        let found = only::<LogEntry>(&rt, &block(magic, count, word, numbers), &geometry);
        assert_eq!(rt; found, hint, "log {count} {word} {numbers:?}");
    }
    let index = only::<IndexEntry>(&rt, &block(b"DEDEINDX", 1, 0, [1, 1007, 0]), &SMALL);
    assert_eq!(rt; index, Some((indexed(HintTo::Shared(1007)), true)));
    let asked = only::<Request>(&rt, &block(b"DEDEREQS", 1, 0, [1007, 7, 0]), &SMALL);
    assert_eq!(rt; asked, Some((request(1007, 7), true)));
}

#[test]
#[tactic(auto, unfolding(vol_layout::specs::Ranges::limit, vol_layout::specs::Ranges::arena_slots, vol_layout::specs::Ranges::per_table))]
fn hints_are_a_list_of_126(rt: HostRuntime) {
    assert!(rt; SMALL.is_in_range());
    let nothing = Request {
        digest: Digest([0; 20]),
        index: 0,
        slot: 0,
    };
    let last = Request {
        digest: Digest([2; 20]),
        index: 1007,
        slot: 8,
    };
    let mut hints: Hints<Request> = Hints::of(&block(b"DEDEREQS", 126, 0, [4, 5, 0]), &SMALL);
    assert_eq!(rt; hints.count(), 126);
    assert_eq!(rt; hints.get(0), request(4, 5));
    hints.push_over(last);
    assert_eq!(rt; hints.count(), 126);
    assert_eq!(rt; hints.get(0), nothing);
    assert_eq!(rt; hints.get(125), last);
    hints.drop_digest(&nothing.digest);
    assert_eq!(rt; hints.count(), 1);
    assert_eq!(rt; hints.get(0), last);
}

#[test]
fn a_digest_has_its_shard(rt: HostRuntime) {
    let digest = Digest([
        255, 0, 1, 2, 3, 4, 5, 6, 7, 8, 9, 10, 11, 12, 13, 14, 15, 16, 17, 18,
    ]);
    assert_eq!(rt; shard_of(&digest, 255), 3);
    assert_eq!(rt; shard_of(&digest, 1), 0);
}
