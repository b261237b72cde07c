// Two hosts who create one file, in rounds and by words.
use crate::turns::{Gave, gave_of, started};
use schedule::play;
use std::alloc::Global;
use std::test::Fail;
use vol_base::{Answer, HostNo};

const TEXT: &[u8] = b"volume 2 2 1 1 1 1
0 join
1 join
barrier
0 beat
barrier
0 create 0
1 create 0
";

// The joins take two turns each and the beat one, so that the last two words are turns of host 1 in the last phase; there is no host 7.
const WORDS: [HostNo; 8] = [0, 1, 0, 1, 0, 7, 1, 1];

// What the line at a position got, behind a schedule of these words.
fn given(alloc: Global, words: &[HostNo], position: usize) -> Gave {
    let Some(mut cluster) = started(alloc, TEXT) else {
        return Gave::Refused;
    };
    let Ok(()) = play(&mut cluster, words) else {
        return Gave::Refused;
    };
    let closed = cluster.close();
    gave_at(closed.answers.as_slice(), position)
}

fn gave_at(answers: &[Option<Answer>], position: usize) -> Gave {
    match answers.get(position) {
        Some(Some(answer)) => gave_of(answer),
        _ => Gave::Other,
    }
}

// Host 0 takes the lock of the file first, since each phase's rounds begin with it; the `beat` alone would leave host 1 as the next one.
#[test]
fn rounds_begin_anew_with_each_phase(rt: HostRuntime) -> Result<(), Fail> {
    let alloc = rt.alloc();
    assert_eq!(&rt; given(alloc, &WORDS[..0], 3), Gave::Done);
    assert_eq!(&rt; given(alloc, &WORDS[..0], 4), Gave::Busy(32));
    Ok(())
}

// Host 1 takes it with its first turn.
#[test]
fn words_come_before_rounds(rt: HostRuntime) -> Result<(), Fail> {
    let alloc = rt.alloc();
    assert_eq!(&rt; given(alloc, &WORDS, 3), Gave::Busy(49));
    assert_eq!(&rt; given(alloc, &WORDS, 4), Gave::Done);
    Ok(())
}
