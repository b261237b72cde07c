// Two hosts in rounds, who both want the one group of the volume.
use crate::turns::Gave::{Busy, Done, Joined, Moved, Work};
use crate::turns::{Row, compare, left_behind};
use std::test::Fail;

const TEXT: &[u8] = b"volume 2 2 1 1 1 1
0 join
1 join
0 create 0
0 size 0 1
1 create 1
1 size 1 1
barrier
0 write 0 0 1
1 write 1 0 2
barrier
1 write 1 0 2
";

// A `join` makes two calls, a `create` of a file that is not held five, a `size` of one that is three, and a `write` to a hole eight. An
// entry comes with the write of the journal.
const ROWS: [Row; 41] = [
    (0, Moved, 1, 0),
    (1, Moved, 2, 0),
    (0, Joined(32), 3, 0),
    (1, Joined(49), 4, 0),
    (0, Moved, 5, 0),
    (1, Moved, 6, 0),
    (0, Moved, 7, 0),
    (1, Moved, 8, 0),
    (0, Moved, 9, 1),
    (1, Moved, 10, 2),
    (0, Moved, 11, 2),
    (1, Moved, 12, 2),
    (0, Done, 13, 2),
    (1, Done, 14, 2),
    (0, Moved, 15, 3),
    (1, Moved, 16, 4),
    (0, Moved, 17, 4),
    (1, Moved, 18, 4),
    (0, Done, 19, 4),
    (1, Done, 20, 4),
    // The second phase: host 1 finds the group locked.
    (0, Work, 20, 4),
    (1, Work, 20, 4),
    (0, Moved, 21, 4),
    (1, Busy(32), 22, 4),
    (0, Moved, 23, 4),
    (0, Moved, 24, 4),
    (0, Moved, 25, 5),
    (0, Moved, 26, 5),
    (0, Moved, 27, 5),
    (0, Moved, 28, 5),
    (0, Done, 29, 5),
    // The third one.
    (1, Work, 29, 5),
    (1, Moved, 30, 5),
    (1, Moved, 31, 5),
    (1, Moved, 32, 5),
    (1, Moved, 33, 6),
    (1, Moved, 34, 6),
    (1, Moved, 35, 6),
    (1, Moved, 36, 6),
    (1, Done, 37, 6),
    (1, crate::turns::Gave::Idle, 37, 6),
];

#[test]
fn two_hosts_want_one_group(rt: HostRuntime) -> Result<(), Fail> {
    compare(&rt, rt.alloc(), TEXT, &ROWS);
    Ok(())
}

// A line without an answer has 268,435,456 turns, less those that were made of it. The first phase has six lines, the second one two, and
// the last one the third of host 1.
#[test]
fn each_turn_leaves_fewer(rt: HostRuntime) -> Result<(), Fail> {
    let alloc = rt.alloc();
    assert_eq!(&rt; left_behind(alloc, TEXT, &ROWS[..0]), 1_610_612_736);
    assert_eq!(&rt; left_behind(alloc, TEXT, &ROWS[..1]), 1_610_612_735);
    assert_eq!(&rt; left_behind(alloc, TEXT, &ROWS[..2]), 1_610_612_734);
    assert_eq!(&rt; left_behind(alloc, TEXT, &ROWS[..3]), 1_342_177_279);
    assert_eq!(&rt; left_behind(alloc, TEXT, &ROWS[..4]), 1_073_741_824);
    assert_eq!(&rt; left_behind(alloc, TEXT, &ROWS[..20]), 0);
    assert_eq!(&rt; left_behind(alloc, TEXT, &ROWS[..21]), 536_870_911);
    assert_eq!(&rt; left_behind(alloc, TEXT, &ROWS), 0);
    Ok(())
}
