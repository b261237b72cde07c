// Searches that meet groups without a free data block.
use crate::rows::Row;
use crate::volumes::{MARK, ONE_HOST, THREE_GROUPS, Volume};
use vol_base::Command::{Close, Create, Join, Punch, Read, Size, Write};
use vol_layout::Field::{Count, Head, Pointer};

pub const ONE_FREE_BLOCK: Volume = Volume {
    geometry: ONE_HOST,
    full_from: 0,
    numbers: &[(Head(0), 1009), (Pointer(0, 5), 6), (Count(1007), 0)],
};

// One group with one free block: it is taken, nothing is free, and a block that is given back is taken again.
pub const FULL: [Row; 9] = [
    Row {
        host: 0,
        command: Join,
        answer: "joined 32",
        calls: "\
host 0 registers
32 sets slot 0: free to live 32 0
",
    },
    Row {
        host: 0,
        command: Punch(0, 6),
        answer: "ok",
        calls: "\
32 sets file 0: free to held 32
32 reads table 0.0: 1009, 5 = 6
",
    },
    Row {
        host: 0,
        command: Read(0, 1007),
        answer: "= 0",
        calls: "\
32 reads file 0: held 32
",
    },
    Row {
        host: 0,
        command: Create(1),
        answer: "ok",
        calls: "\
32 sets file 1: free to held 32
32 reads table 1.0: 0
32 writes journal 0: 32, head 1 = 1
32 writes table 1.0: 1
32 writes journal 0: empty
",
    },
    Row {
        host: 0,
        command: Size(1, 2),
        answer: "ok",
        calls: "\
32 writes journal 0: 32, head 1 = 3
32 writes table 1.0: 3
32 writes journal 0: empty
",
    },
    Row {
        host: 0,
        command: Write(1, 0, 1),
        answer: "ok",
        calls: "\
32 sets group 0: free to held 32
32 reads counts 0: 0, 0 to 1006 = 1
32 writes data 1007: 1
32 writes journal 0: 32, pointer 1 0 = 1008, count 1007 = 1
32 writes table 1.0: 3, 0 = 1008
32 writes counts 0: 0, 0 to 1007 = 1
32 writes journal 0: empty
32 writes group 0: free
",
    },
    Row {
        host: 0,
        command: Write(1, 1, 2),
        answer: "full",
        calls: "\
32 sets group 0: free to held 32
32 reads counts 0: 0, 0 to 1007 = 1
32 writes group 0: free
",
    },
    Row {
        host: 0,
        command: Punch(0, 5),
        answer: "ok",
        calls: "\
32 sets group 0: free to held 32
32 reads counts 0: 0, 0 to 1007 = 1
32 writes journal 0: 32, pointer 0 5 = 0, count 5 = 0
32 writes table 0.0: 1009
32 writes counts 0: 0, 0 to 4 = 1, 6 to 1007 = 1
32 writes journal 0: empty
32 writes group 0: free
",
    },
    Row {
        host: 0,
        command: Write(1, 1, 2),
        answer: "ok",
        calls: "\
32 sets group 0: free to held 32
32 reads counts 0: 0, 0 to 4 = 1, 6 to 1007 = 1
32 writes data 5: 2
32 writes journal 0: 32, pointer 1 1 = 6, count 5 = 1
32 writes table 1.0: 3, 0 = 1008, 1 = 6
32 writes counts 0: 0, 0 to 1007 = 1
32 writes journal 0: empty
32 writes group 0: free
",
    },
];

pub const ALL_FULL: Volume = Volume {
    geometry: THREE_GROUPS,
    full_from: 0,
    numbers: &[(Head(0), 3), (Pointer(0, 1), MARK + 1)],
};

// Three full groups: all are locked, and freed in the other order.
pub const FULL_GROUPS: [Row; 5] = [
    Row {
        host: 1,
        command: Join,
        answer: "joined 33",
        calls: "\
host 1 registers
33 sets slot 1: free to live 33 0
",
    },
    Row {
        host: 1,
        command: Write(0, 0, 5),
        answer: "full",
        calls: "\
33 sets file 0: free to held 33
33 reads table 0.0: 3, 1 = 2147483649
33 sets group 1: free to held 33
33 reads counts 1: 0, 0 to 1007 = 1
33 sets group 2: free to held 33
33 reads counts 2: 0, 0 to 1007 = 1
33 sets group 0: free to held 33
33 reads counts 0: 0, 0 to 1007 = 1
33 writes group 0: free
33 writes group 2: free
33 writes group 1: free
",
    },
    Row {
        host: 1,
        command: Write(0, 0, 5),
        answer: "full",
        calls: "\
33 sets group 1: free to held 33
33 reads counts 1: 0, 0 to 1007 = 1
33 sets group 2: free to held 33
33 reads counts 2: 0, 0 to 1007 = 1
33 sets group 0: free to held 33
33 reads counts 0: 0, 0 to 1007 = 1
33 writes group 0: free
33 writes group 2: free
33 writes group 1: free
",
    },
    Row {
        host: 1,
        command: Write(0, 1, 5),
        answer: "full",
        calls: "\
33 sets group 1: free to held 33
33 reads counts 1: 0, 0 to 1007 = 1
33 sets group 2: free to held 33
33 reads counts 2: 0, 0 to 1007 = 1
33 sets group 0: free to held 33
33 reads counts 0: 0, 0 to 1007 = 1
33 writes group 0: free
33 writes group 2: free
33 writes group 1: free
",
    },
    Row {
        host: 1,
        command: Close(0),
        answer: "ok",
        calls: "\
33 writes file 0: free
",
    },
];

pub const FIRST_FREE: Volume = Volume {
    geometry: THREE_GROUPS,
    full_from: 1,
    numbers: &[(Head(0), 2)],
};

// The host begins with a full group, and goes round to a free block.
pub const FULL_FURTHER_GROUPS: [Row; 2] = [
    Row {
        host: 1,
        command: Join,
        answer: "joined 33",
        calls: "\
host 1 registers
33 sets slot 1: free to live 33 0
",
    },
    Row {
        host: 1,
        command: Write(0, 0, 5),
        answer: "ok",
        calls: "\
33 sets file 0: free to held 33
33 reads table 0.0: 2
33 sets group 1: free to held 33
33 reads counts 1: 0, 0 to 1007 = 1
33 sets group 2: free to held 33
33 reads counts 2: 0, 0 to 1007 = 1
33 sets group 0: free to held 33
33 reads counts 0: 0
33 writes data 0: 5
33 writes journal 1: 33, pointer 0 0 = 1, count 0 = 1
33 writes table 0.0: 2, 0 = 1
33 writes counts 0: 0, 0 = 1
33 writes journal 1: empty
33 writes group 0: free
33 writes group 2: free
33 writes group 1: free
",
    },
];
