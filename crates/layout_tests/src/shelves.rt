// A shelf of two blocks, and a full one.
ghost use Rattle.std.specs.Prelude.{◌≡◌, ◌≤◌, ◌+◌, length};
ghost use Rattle.vol_layout.specs.Ranges.{IsGeometry};

use hint_blocks::{HintTo, Hints, IndexEntry};
use sorted_shard::Shelf;
use std::process::Abort;
use vol_base::{Block, Digest, Draft};
use vol_layout::Geometry;

// Two hosts, four files of at most 1,008 blocks, one group and one part.
const SMALL: Geometry = Geometry {
    hosts: 2,
    files: 4,
    groups: 1,
    parts: 1,
    shards: 2,
    logs: 1,
    tables: 1,
};

// An entry whose digest is one byte over and over.
fn shared(byte: u8, slot: u32) -> IndexEntry {
    IndexEntry {
        digest: Digest([byte; 20]),
        to: HintTo::Shared(slot),
    }
}

fn push(draft: &mut Draft, byte: u8, slot: u32)
    requires { length draft.old + 32 ≤ 4096 }
    ensures { length draft.new ≡ length draft.old + 32 }
{
    draft.push_bytes(&[byte; 20]);
    draft.push_u32(1);
    draft.push_u32(slot);
    draft.push_u32(0);
}

// A shard block with so many entries, of which the first three are given.
fn block(count: u32, entries: [(u8, u32); 3]) -> Block {
    let [(first, one), (second, two), (third, three)] = entries;
    let mut draft = Draft::new();
    draft.push_bytes(b"DEDEINDX");
    draft.push_u32(count);
    draft.skip_to(64);
    push(&mut draft, first, one);
    push(&mut draft, second, two);
    push(&mut draft, third, three);
    draft.finish()
}

fn assert_entries(rt: &impl Abort, found: &[IndexEntry], expected: &[(u8, u32)]) {
    assert_eq!(rt; found.len(), expected.len());
    for (entry, (byte, slot)) in found.iter().zip(expected) {
        assert_eq!(rt; *entry, shared(*byte, *slot));
    }
}

fn assert_hints(rt: &impl Abort, found: &Hints<IndexEntry>, expected: &[(u8, u32)]) {
    assert_eq!(rt; found.count() as usize, expected.len());
    for k in 0..found.count() {
        let (byte, slot) = expected[k as usize];
        assert_eq!(rt; found.get(k), shared(byte, slot));
    }
}

#[test]
#[tactic(auto, unfolding(vol_layout::specs::Ranges::arena_slots, vol_layout::specs::Ranges::per_table))]
fn entries_stand_by_digest(rt: HostRuntime) {
    assert!(rt; SMALL.is_in_range());
    let blocks = [
        block(3, [(5, 1), (3, 2), (5, 3)]),
        block(3, [(3, 4), (9, 5), (5, 6)]),
    ];
    let mut shelf = Shelf::of(&blocks, &SMALL);
    let sorted = [(3, 2), (3, 4), (5, 1), (5, 3), (5, 6), (9, 5)];
    assert_hints(&rt, &shelf.block(0), &sorted);
    assert_hints(&rt, &shelf.block(1), &[]);
    assert_entries(&rt, shelf.entries_of(&Digest([4; 20])), &[]);
    shelf.add(IndexEntry {
        digest: Digest([5; 20]),
        to: HintTo::Shared(7),
    });
    let fives = [(5, 1), (5, 3), (5, 6), (5, 7)];
    assert_entries(&rt, shelf.entries_of(&Digest([5; 20])), &fives);
    shelf.drop_digest(&Digest([5; 20]));
    assert_hints(&rt, &shelf.block(0), &[(3, 2), (3, 4), (9, 5)]);
}

#[test]
#[tactic(auto, unfolding(vol_layout::specs::Ranges::arena_slots, vol_layout::specs::Ranges::per_table))]
fn a_full_shelf_drops_its_first_entry(rt: HostRuntime) {
    assert!(rt; SMALL.is_in_range());
    let mut shelf = Shelf::of(&[block(126, [(5, 1), (5, 2), (5, 3)])], &SMALL);
    let blank = Digest([0; 20]);
    assert_eq!(rt; shelf.entries_of(&blank).len(), 123);
    shelf.add(IndexEntry {
        digest: Digest([5; 20]),
        to: HintTo::Shared(4),
    });
    assert_eq!(rt; shelf.entries_of(&blank).len(), 122);
    let fives = [(5, 1), (5, 2), (5, 3), (5, 4)];
    assert_entries(&rt, shelf.entries_of(&Digest([5; 20])), &fives);
}
