// The emptying of slots whose data blocks nothing else names: group by group, four slots a record.
use crate::rows::{Crossing, Row};
use crate::volumes::{MARK, THREE_GROUPS, Volume};
use vol_base::Command::{Collect, Create, Join, Size, Write};
use vol_layout::Field::{Count, Head, Pointer, Slot};

pub const ARENA: Volume = Volume {
    geometry: THREE_GROUPS,
    full_from: 3,
    numbers: &[
        (Head(0), 3),
        (Pointer(0, 0), MARK + 1),
        (Pointer(0, 1), MARK + 2017),
        (Slot(1), 3),
        (Slot(2), 1),
        (Slot(4), 2),
        (Slot(7), 2018),
        (Slot(8), 9),
        (Slot(9), 8),
        (Slot(10), 6),
        (Slot(11), 2017),
        (Slot(1009), 4),
        (Count(0), 2),
        (Count(1), 1),
        (Count(2), 1),
        (Count(3), 1),
        (Count(5), 1),
        (Count(7), 1),
        (Count(8), 1),
        (Count(2016), 2),
        (Count(2017), 1),
    ],
};

// Slots 2 and 11 name blocks that a file names too, and stay. The part is collected again, and then the other part.
pub const COLLECTIONS: [Row; 4] = [
    Row {
        host: 0,
        command: Join,
        answer: "joined 32",
        calls: "\
host 0 registers
32 sets slot 0: free to live 32 0
",
    },
    Row {
        host: 0,
        command: Collect(0),
        answer: "collected 6",
        calls: "\
32 sets part 0: free to held 32
32 reads arena 0: 0, 1 = 3, 2 = 1, 4 = 2, 7 = 2018, 8 = 9, 9 = 8, 10 = 6, 11 = 2017
32 sets group 0: free to held 32
32 reads counts 0: 0, 0 = 2, 1 to 3 = 1, 5 = 1, 7 to 8 = 1
32 writes journal 0: 32, slot 1 = 0, slot 4 = 0, slot 8 = 0, slot 9 = 0, count 1 = 0, count 2 = 0, count 7 = 0, count 8 = 0
32 writes arena 0: 0, 2 = 1, 7 = 2018, 10 = 6, 11 = 2017
32 writes counts 0: 0, 0 = 2, 3 = 1, 5 = 1
32 writes journal 0: empty
32 writes journal 0: 32, slot 10 = 0, count 5 = 0
32 writes arena 0: 0, 2 = 1, 7 = 2018, 11 = 2017
32 writes counts 0: 0, 0 = 2, 3 = 1
32 writes journal 0: empty
32 writes group 0: free
32 sets group 2: free to held 32
32 reads counts 2: 0, 0 = 2, 1 = 1
32 writes journal 0: 32, slot 7 = 0, count 2017 = 0
32 writes arena 0: 0, 2 = 1, 11 = 2017
32 writes counts 2: 0, 0 = 2
32 writes journal 0: empty
32 writes group 2: free
32 writes part 0: free
",
    },
    Row {
        host: 0,
        command: Collect(0),
        answer: "collected 0",
        calls: "\
32 sets part 0: free to held 32
32 reads arena 0: 0, 2 = 1, 11 = 2017
32 sets group 0: free to held 32
32 reads counts 0: 0, 0 = 2, 3 = 1
32 writes group 0: free
32 sets group 2: free to held 32
32 reads counts 2: 0, 0 = 2
32 writes group 2: free
32 writes part 0: free
",
    },
    Row {
        host: 0,
        command: Collect(1),
        answer: "collected 1",
        calls: "\
32 sets part 1: free to held 32
32 reads arena 1: 0, 1 = 4
32 sets group 0: free to held 32
32 reads counts 0: 0, 0 = 2, 3 = 1
32 writes journal 0: 32, slot 1009 = 0, count 3 = 0
32 writes arena 1: 0
32 writes counts 0: 0, 0 = 2
32 writes journal 0: empty
32 writes group 0: free
32 writes part 1: free
",
    },
];

// On a formatted volume no slot names anything, and no group is locked.
pub const EMPTY_ARENA: [Row; 2] = [
    Row {
        host: 0,
        command: Join,
        answer: "joined 32",
        calls: "\
host 0 registers
32 sets slot 0: free to live 32 0
",
    },
    Row {
        host: 0,
        command: Collect(1),
        answer: "collected 0",
        calls: "\
32 sets part 1: free to held 32
32 reads arena 1: 0
32 writes part 1: free
",
    },
];

pub const BUSY_ARENA: Volume = Volume {
    geometry: THREE_GROUPS,
    full_from: 3,
    numbers: &[(Slot(5), 9), (Count(8), 1)],
};

// Another host has the group: the part's lock is freed, and the slot stays.
pub const BUSY_COLLECTION: [Crossing; 1] = [Crossing {
    before: &[
        Row {
            host: 0,
            command: Join,
            answer: "joined 32",
            calls: "\
host 0 registers
32 sets slot 0: free to live 32 0
",
        },
        Row {
            host: 1,
            command: Join,
            answer: "joined 49",
            calls: "\
host 1 registers
49 sets slot 1: free to live 49 0
",
        },
        Row {
            host: 0,
            command: Create(0),
            answer: "ok",
            calls: "\
32 sets file 0: free to held 32
32 reads table 0.0: 0
32 writes journal 0: 32, head 0 = 1
32 writes table 0.0: 1
32 writes journal 0: empty
",
        },
        Row {
            host: 0,
            command: Size(0, 1),
            answer: "ok",
            calls: "\
32 writes journal 0: 32, head 0 = 2
32 writes table 0.0: 2
32 writes journal 0: empty
",
        },
    ],
    command: Write(0, 0, 5),
    steps: 3,
    between: Collect(0),
    answer: "ok",
    answer_between: "busy 32",
    calls: "\
32 sets group 0: free to held 32
32 reads counts 0: 0, 8 = 1
49 sets part 0: free to held 49
49 reads arena 0: 0, 5 = 9
49 sets group 0: free to held 49, found held 32
49 writes part 0: free
32 writes data 0: 5
32 writes journal 0: 32, pointer 0 0 = 1, count 0 = 1
32 writes table 0.0: 2, 0 = 1
32 writes counts 0: 0, 0 = 1, 8 = 1
32 writes journal 0: empty
32 writes group 0: free
",
}];
