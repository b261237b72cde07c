// A host dies behind the write of its journal, and another one recovers it.
use crate::turns::Gave::{Died, Done, Fine, Joined, Moved, Recovered, Seen, Zeros};
use crate::turns::{Row, compare};
use std::test::Fail;

const TEXT: &[u8] = b"volume 2 2 1 1 1 1
0 join
1 join
barrier
0 create 0
0 die 2
0 size 0 1
barrier
1 look 0
1 look 0
1 look 0
1 recover 0
1 read 0 0
";

const ROWS: [Row; 28] = [
    (0, Moved, 1, 0),
    (1, Moved, 2, 0),
    (0, Joined(32), 3, 0),
    (1, Joined(49), 4, 0),
    (0, Moved, 5, 0),
    (0, Moved, 6, 0),
    (0, Moved, 7, 1),
    (0, Moved, 8, 1),
    (0, Done, 9, 1),
    (0, Fine, 9, 1),
    // The `size` has its place with its record; the host dies with the write of the table.
    (0, Moved, 10, 2),
    (0, Died, 11, 2),
    (1, Seen(1), 12, 2),
    (1, Seen(2), 13, 2),
    (1, Seen(3), 14, 2),
    // The fence, the claim, the journal, the one table read and written, and the journal emptied; then the locks of two files, a part and a
    // group, and the slot.
    (1, Moved, 15, 2),
    (1, Moved, 16, 2),
    (1, Moved, 17, 2),
    (1, Moved, 18, 2),
    (1, Moved, 19, 2),
    (1, Moved, 20, 2),
    (1, Moved, 21, 2),
    (1, Moved, 22, 2),
    (1, Moved, 23, 2),
    (1, Moved, 24, 2),
    (1, Recovered, 25, 2),
    // The new length stands.
    (1, Moved, 26, 2),
    (1, Zeros, 27, 3),
];

#[test]
fn a_dead_host_is_recovered(rt: HostRuntime) -> Result<(), Fail> {
    compare(&rt, rt.alloc(), TEXT, &ROWS);
    Ok(())
}
