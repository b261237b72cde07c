// One call of each public function, at values from the formats.
ghost use Rattle.std.specs.Prelude.{◌<◌};

use std::process::Abort;
use vol_base::{Block, Command, Draft, Packed, PlainCall, number_block, plain_call};

const MAGIC: [u8; 8] = [68, 69, 68, 69, 70, 73, 76, 69];

// The block whose header has this magic, count and word.
fn headed(count: u32) -> Block {
    let mut draft = Draft::new();
    draft.push_bytes(&MAGIC);
    draft.push_u32(count);
    draft.push_u32(7);
    draft.skip_to(64);
    draft.push_u64(0x0102_0304_0506_0708);
    draft.finish()
}

#[test]
fn drafts_write_from_the_front(rt: HostRuntime) {
    let block = headed(2);
    assert_eq!(rt; block.0[0], 68);
    assert_eq!(rt; block.u32_at(8), 2);
    assert_eq!(rt; block.u32_at(12), 7);
    assert_eq!(rt; block.u64_at(16), 0);
    assert_eq!(rt; block.u64_at(64), 0x0102_0304_0506_0708);
    assert_eq!(rt; block.0[71], 8);
    assert!(rt; !block.is_zeros());
    assert!(rt; Block::zeros().is_zeros());
    assert!(rt; block.same(&Block::of_bytes(&block.0)));
    assert!(rt; !block.same(&headed(3)));
}

#[test]
fn number_blocks_repeat_the_number(rt: HostRuntime) {
    let block = number_block(0x0102_0304_0506_0708);
    for (at, byte) in [(0, 1), (1, 2), (7, 8), (8, 1), (4095, 8)] {
        assert_eq!(rt; block.0[at], byte);
    }
    assert!(rt; number_block(0).is_zeros());
}

#[test]
fn file_commands_are_plain_calls(rt: HostRuntime) {
    let cases = [
        (Command::Create(3), Some(PlainCall::Create(3))),
        (Command::Size(3, 9), Some(PlainCall::Size(3, 9))),
        (
            Command::Write(3, 9, 5),
            Some(PlainCall::Write(3, 9, number_block(5))),
        ),
        (Command::Read(3, 9), Some(PlainCall::Read(3, 9))),
        (Command::Punch(3, 9), Some(PlainCall::Punch(3, 9))),
        (Command::Remove(3), Some(PlainCall::Remove(3))),
        (Command::Close(3), None),
        (Command::Scan(3, 9), None),
        (Command::Join, None),
    ];
    for (command, call) in cases {
        assert_eq!(rt; plain_call(&command), call);
    }
}

// One entry, which is changed, and what its block reads as.
fn packs<const W: usize>(rt: &impl Abort, first: [u8; W], second: [u8; W])
    requires { 0 < W }
{
    let mut packed = Packed::<W>::empty(MAGIC);
    packed.set_word(7);
    assert!(rt; packed.push(first).is_some());
    packed.set(0, second);
    assert_eq!(rt; packed.word(), 7);
    assert_eq!(rt; packed.get(0), second);
    let block = packed.into_block();
    let read = Packed::<W>::of(block, MAGIC);
    assert!(rt; read.is_some_and(|again| again.count() == 1));
}

#[test]
fn packed_blocks_are_lists(rt: HostRuntime) {
    packs(&rt, [1; 4], [2; 4]);
    packs(&rt, [1; 32], [2; 32]);
}

#[test]
fn tables_are_numbers(rt: HostRuntime) {
    let mut table = Packed::<4>::empty(MAGIC);
    assert!(rt; table.push([0; 4]).is_some());
    table.set_number(0, 0x8000_0001);
    assert_eq!(rt; table.number(0), 0x8000_0001);
    assert_eq!(rt; table.get(0), [128, 0, 0, 1]);
    assert_eq!(rt; table.into_block().u32_at(64), 0x8000_0001);
}
