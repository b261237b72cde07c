// Writes through a mark, by which two pointers name one data block: a free block is taken, and the count of the shared one falls.
use crate::rows::Row;
use crate::volumes::{MARK, ONE_GROUP, THREE_GROUPS, Volume};
use vol_base::Command::{Close, Join, Punch, Read, Write};
use vol_layout::Field::{Count, Head, Pointer};

pub const SHARED_VOLUME: Volume = Volume {
    geometry: THREE_GROUPS,
    full_from: 3,
    numbers: &[
        (Head(0), 6),
        (Pointer(0, 0), MARK + 1),
        (Pointer(0, 1), MARK + 1009),
        (Pointer(0, 2), MARK + 1),
        (Pointer(0, 3), 3),
        (Head(1), 2),
        (Pointer(1, 0), MARK + 1009),
        (Count(0), 2),
        (Count(2), 1),
        (Count(1008), 2),
    ],
};

// Three groups: the shared block is of the group that the search began with, or of one behind it.
pub const SHARED: [Row; 10] = [
    Row {
        host: 0,
        command: Join,
        answer: "joined 32",
        calls: "\
host 0 registers
32 sets slot 0: free to live 32 0
",
    },
    Row {
        host: 0,
        command: Write(0, 0, 5),
        answer: "ok",
        calls: "\
32 sets file 0: free to held 32
32 reads table 0.0: 6, 0 = 2147483649, 1 = 2147484657, 2 = 2147483649, 3 = 3
32 sets group 0: free to held 32
32 reads counts 0: 0, 0 = 2, 2 = 1
32 writes data 1: 5
32 writes journal 0: 32, pointer 0 0 = 2, count 0 = 1, count 1 = 1
32 writes table 0.0: 6, 0 = 2, 1 = 2147484657, 2 = 2147483649, 3 = 3
32 writes counts 0: 0, 0 to 2 = 1
32 writes journal 0: empty
32 writes group 0: free
",
    },
    Row {
        host: 0,
        command: Write(0, 0, 6),
        answer: "ok",
        calls: "\
32 writes data 1: 6
",
    },
    Row {
        host: 0,
        command: Write(0, 1, 7),
        answer: "ok",
        calls: "\
32 sets group 0: free to held 32
32 reads counts 0: 0, 0 to 2 = 1
32 sets group 1: free to held 32
32 reads counts 1: 0, 0 = 2
32 writes data 3: 7
32 writes journal 0: 32, pointer 0 1 = 4, count 3 = 1, count 1008 = 1
32 writes table 0.0: 6, 0 = 2, 1 = 4, 2 = 2147483649, 3 = 3
32 writes counts 0: 0, 0 to 3 = 1
32 writes counts 1: 0, 0 = 1
32 writes journal 0: empty
32 writes group 1: free
32 writes group 0: free
",
    },
    Row {
        host: 0,
        command: Read(0, 2),
        answer: "= 0",
        calls: "\
32 reads data 0: 0
",
    },
    Row {
        host: 0,
        command: Punch(0, 2),
        answer: "ok",
        calls: "\
32 sets group 0: free to held 32
32 reads counts 0: 0, 0 to 3 = 1
32 writes journal 0: 32, pointer 0 2 = 0, count 0 = 0
32 writes table 0.0: 6, 0 = 2, 1 = 4, 3 = 3
32 writes counts 0: 0, 1 to 3 = 1
32 writes journal 0: empty
32 writes group 0: free
",
    },
    Row {
        host: 0,
        command: Close(0),
        answer: "ok",
        calls: "\
32 writes file 0: free
",
    },
    Row {
        host: 1,
        command: Join,
        answer: "joined 49",
        calls: "\
host 1 registers
49 sets slot 1: free to live 49 0
",
    },
    Row {
        host: 1,
        command: Read(1, 0),
        answer: "= 0",
        calls: "\
49 sets file 1: free to read 49
49 reads table 1.0: 2, 0 = 2147484657
49 reads data 1008: 0
",
    },
    Row {
        host: 1,
        command: Write(1, 0, 9),
        answer: "ok",
        calls: "\
49 sets file 1: read 49 to held 49
49 reads table 1.0: 2, 0 = 2147484657
49 sets group 1: free to held 49
49 reads counts 1: 0, 0 = 1
49 writes data 1009: 9
49 writes journal 1: 49, pointer 1 0 = 1010, count 1008 = 0, count 1009 = 1
49 writes table 1.0: 2, 0 = 1010
49 writes counts 1: 0, 1 = 1
49 writes journal 1: empty
49 writes group 1: free
",
    },
];

pub const TWO_SHARERS: Volume = Volume {
    geometry: ONE_GROUP,
    full_from: 1,
    numbers: &[
        (Head(0), 3),
        (Pointer(0, 0), MARK + 1),
        (Pointer(0, 1), MARK + 1),
        (Count(0), 2),
    ],
};

pub const SHARED_IN_ONE_GROUP: [Row; 5] = [
    Row {
        host: 0,
        command: Join,
        answer: "joined 32",
        calls: "\
host 0 registers
32 sets slot 0: free to live 32 0
",
    },
    Row {
        host: 0,
        command: Write(0, 0, 5),
        answer: "ok",
        calls: "\
32 sets file 0: free to held 32
32 reads table 0.0: 3, 0 to 1 = 2147483649
32 sets group 0: free to held 32
32 reads counts 0: 0, 0 = 2
32 writes data 1: 5
32 writes journal 0: 32, pointer 0 0 = 2, count 0 = 1, count 1 = 1
32 writes table 0.0: 3, 0 = 2, 1 = 2147483649
32 writes counts 0: 0, 0 to 1 = 1
32 writes journal 0: empty
32 writes group 0: free
",
    },
    Row {
        host: 0,
        command: Write(0, 1, 6),
        answer: "ok",
        calls: "\
32 sets group 0: free to held 32
32 reads counts 0: 0, 0 to 1 = 1
32 writes data 2: 6
32 writes journal 0: 32, pointer 0 1 = 3, count 0 = 0, count 2 = 1
32 writes table 0.0: 3, 0 = 2, 1 = 3
32 writes counts 0: 0, 1 to 2 = 1
32 writes journal 0: empty
32 writes group 0: free
",
    },
    Row {
        host: 0,
        command: Write(0, 1, 7),
        answer: "ok",
        calls: "\
32 writes data 2: 7
",
    },
    Row {
        host: 0,
        command: Read(0, 1),
        answer: "= 7",
        calls: "\
32 reads data 2: 7
",
    },
];

pub const TWO_SHARERS_OF_THREE_GROUPS: Volume = Volume {
    geometry: THREE_GROUPS,
    full_from: 3,
    numbers: &[
        (Head(0), 3),
        (Pointer(0, 0), MARK + 1),
        (Pointer(0, 1), MARK + 1),
        (Count(0), 2),
    ],
};

// The edits and the tables stand by number, and the locks are freed by their turn.
pub const SHARED_IN_A_LOWER_GROUP: [Row; 2] = [
    Row {
        host: 1,
        command: Join,
        answer: "joined 33",
        calls: "\
host 1 registers
33 sets slot 1: free to live 33 0
",
    },
    Row {
        host: 1,
        command: Write(0, 0, 5),
        answer: "ok",
        calls: "\
33 sets file 0: free to held 33
33 reads table 0.0: 3, 0 to 1 = 2147483649
33 sets group 1: free to held 33
33 reads counts 1: 0
33 sets group 0: free to held 33
33 reads counts 0: 0, 0 = 2
33 writes data 1008: 5
33 writes journal 1: 33, pointer 0 0 = 1009, count 0 = 1, count 1008 = 1
33 writes table 0.0: 3, 0 = 1009, 1 = 2147483649
33 writes counts 0: 0, 0 = 1
33 writes counts 1: 0, 0 = 1
33 writes journal 1: empty
33 writes group 0: free
33 writes group 1: free
",
    },
];

pub const SHARERS_IN_A_FULL_GROUP: Volume = Volume {
    geometry: THREE_GROUPS,
    full_from: 1,
    numbers: &[
        (Head(0), 3),
        (Pointer(0, 0), MARK + 1009),
        (Pointer(0, 1), MARK + 1009),
        (Count(1008), 2),
    ],
};

// The search locked the group of the shared block already.
pub const SHARED_IN_A_SEARCHED_GROUP: [Row; 2] = [
    Row {
        host: 1,
        command: Join,
        answer: "joined 33",
        calls: "\
host 1 registers
33 sets slot 1: free to live 33 0
",
    },
    Row {
        host: 1,
        command: Write(0, 0, 5),
        answer: "ok",
        calls: "\
33 sets file 0: free to held 33
33 reads table 0.0: 3, 0 to 1 = 2147484657
33 sets group 1: free to held 33
33 reads counts 1: 0, 0 = 2, 1 to 1007 = 1
33 sets group 2: free to held 33
33 reads counts 2: 0, 0 to 1007 = 1
33 sets group 0: free to held 33
33 reads counts 0: 0
33 writes data 0: 5
33 writes journal 1: 33, pointer 0 0 = 1, count 0 = 1, count 1008 = 1
33 writes table 0.0: 3, 0 = 1, 1 = 2147484657
33 writes counts 0: 0, 0 = 1
33 writes counts 1: 0, 0 to 1007 = 1
33 writes journal 1: empty
33 writes group 0: free
33 writes group 2: free
33 writes group 1: free
",
    },
];
