// Pointers behind the end of a file: they become holes before the file grows over them, and before it is closed. A record has up to four
// of one group, those of the group of the lowest first.
use crate::rows::Row;
use crate::volumes::{MARK, ONE_GROUP, THREE_GROUPS, Volume};
use vol_base::Command::{Close, Join, Punch, Size};
use vol_layout::Field::{Count, Head, Pointer};

pub const REMAINS: Volume = Volume {
    geometry: THREE_GROUPS,
    full_from: 3,
    numbers: &[
        (Head(0), 2),
        (Pointer(0, 1), 1),
        (Pointer(0, 2), 2),
        (Pointer(0, 3), 1009),
        (Pointer(0, 4), 3),
        (Pointer(0, 5), 4),
        (Pointer(0, 6), 5),
        (Pointer(0, 7), MARK + 6),
        (Pointer(0, 8), MARK + 6),
        (Pointer(0, 20), 1010),
        (Count(0), 1),
        (Count(1), 1),
        (Count(2), 1),
        (Count(3), 1),
        (Count(4), 1),
        (Count(5), 2),
        (Count(1008), 1),
        (Count(1009), 1),
    ],
};

pub const PURGES: [Row; 3] = [
    Row {
        host: 0,
        command: Join,
        answer: "joined 32",
        calls: "\
host 0 registers
32 sets slot 0: free to live 32 0
",
    },
    Row {
        host: 0,
        command: Size(0, 10),
        answer: "ok",
        calls: "\
32 sets file 0: free to held 32
32 reads table 0.0: 2, 1 = 1, 2 = 2, 3 = 1009, 4 = 3, 5 = 4, 6 = 5, 7 to 8 = 2147483654, 20 = 1010
32 sets group 0: free to held 32
32 reads counts 0: 0, 0 to 4 = 1, 5 = 2
32 writes journal 0: 32, pointer 0 1 = 0, pointer 0 2 = 0, pointer 0 4 = 0, pointer 0 5 = 0, count 0 = 0, count 1 = 0, count 2 = 0, count 3 = 0
32 writes table 0.0: 2, 3 = 1009, 6 = 5, 7 to 8 = 2147483654, 20 = 1010
32 writes counts 0: 0, 4 = 1, 5 = 2
32 writes journal 0: empty
32 writes group 0: free
32 sets group 1: free to held 32
32 reads counts 1: 0, 0 to 1 = 1
32 writes journal 0: 32, pointer 0 3 = 0, count 1008 = 0
32 writes table 0.0: 2, 6 = 5, 7 to 8 = 2147483654, 20 = 1010
32 writes counts 1: 0, 1 = 1
32 writes journal 0: empty
32 writes group 1: free
32 sets group 0: free to held 32
32 reads counts 0: 0, 4 = 1, 5 = 2
32 writes journal 0: 32, pointer 0 6 = 0, pointer 0 7 = 0, pointer 0 8 = 0, count 4 = 0, count 5 = 0
32 writes table 0.0: 2, 20 = 1010
32 writes counts 0: 0
32 writes journal 0: empty
32 writes group 0: free
32 writes journal 0: 32, head 0 = 11
32 writes table 0.0: 11, 20 = 1010
32 writes journal 0: empty
",
    },
    Row {
        host: 0,
        command: Close(0),
        answer: "ok",
        calls: "\
32 sets group 1: free to held 32
32 reads counts 1: 0, 1 = 1
32 writes journal 0: 32, pointer 0 20 = 0, count 1009 = 0
32 writes table 0.0: 11
32 writes counts 1: 0
32 writes journal 0: empty
32 writes group 1: free
32 writes file 0: free
",
    },
];

pub const REMAINS_IN_ONE_GROUP: Volume = Volume {
    geometry: ONE_GROUP,
    full_from: 1,
    numbers: &[
        (Pointer(0, 0), 1),
        (Pointer(0, 1), 2),
        (Pointer(0, 2), 3),
        (Pointer(0, 3), 4),
        (Pointer(0, 4), 5),
        (Count(0), 1),
        (Count(1), 1),
        (Count(2), 1),
        (Count(3), 1),
        (Count(4), 1),
    ],
};

pub const PURGES_IN_ONE_GROUP: [Row; 3] = [
    Row {
        host: 0,
        command: Join,
        answer: "joined 32",
        calls: "\
host 0 registers
32 sets slot 0: free to live 32 0
",
    },
    Row {
        host: 0,
        command: Punch(0, 0),
        answer: "nofile",
        calls: "\
32 sets file 0: free to held 32
32 reads table 0.0: 0, 0 = 1, 1 = 2, 2 = 3, 3 = 4, 4 = 5
",
    },
    Row {
        host: 0,
        command: Close(0),
        answer: "ok",
        calls: "\
32 sets group 0: free to held 32
32 reads counts 0: 0, 0 to 4 = 1
32 writes journal 0: 32, pointer 0 0 = 0, pointer 0 1 = 0, pointer 0 2 = 0, pointer 0 3 = 0, count 0 = 0, count 1 = 0, count 2 = 0, count 3 = 0
32 writes table 0.0: 0, 4 = 5
32 writes counts 0: 0, 4 = 1
32 writes journal 0: empty
32 writes group 0: free
32 sets group 0: free to held 32
32 reads counts 0: 0, 4 = 1
32 writes journal 0: 32, pointer 0 4 = 0, count 4 = 0
32 writes table 0.0: 0
32 writes counts 0: 0
32 writes journal 0: empty
32 writes group 0: free
32 writes file 0: free
",
    },
];
