// A file of three table blocks of which its host keeps none, or not all: a command reads those that it needs.
use crate::rows::Row;
use crate::volumes::{THREE_TABLES, Volume};
use vol_base::Command::{Close, Join, Punch, Read, Remove, Size, Write};
use vol_layout::Field::{Count, Head, Pointer};

pub const THREE_PARTS: Volume = Volume {
    geometry: THREE_TABLES,
    full_from: 3,
    numbers: &[
        (Head(0), 3001),
        (Pointer(0, 0), 1),
        (Pointer(0, 1008), 2),
        (Pointer(0, 2500), 3),
        (Count(0), 1),
        (Count(1), 1),
        (Count(2), 1),
    ],
};

pub const TABLES_NOT_KEPT: [Row; 24] = [
    Row {
        host: 0,
        command: Join,
        answer: "joined 32",
        calls: "\
host 0 registers
32 sets slot 0: free to live 32 0
",
    },
    Row {
        host: 0,
        command: Read(0, 1008),
        answer: "= 0",
        calls: "\
32 sets file 0: free to read 32
32 reads table 0.0: 3001, 0 = 1
32 reads table 0.1: 0, 0 = 2
32 reads data 1: 0
",
    },
    Row {
        host: 0,
        command: Close(0),
        answer: "ok",
        calls: "\
32 sets file 0: read 32 to free
",
    },
    Row {
        host: 0,
        command: Read(0, 2016),
        answer: "= 0",
        calls: "\
32 sets file 0: free to read 32
32 reads table 0.0: 3001, 0 = 1
32 reads table 0.2: 0, 484 = 3
",
    },
    Row {
        host: 0,
        command: Close(0),
        answer: "ok",
        calls: "\
32 sets file 0: read 32 to free
",
    },
    Row {
        host: 0,
        command: Read(0, 3000),
        answer: "beyond 3000",
        calls: "\
32 sets file 0: free to read 32
32 reads table 0.0: 3001, 0 = 1
",
    },
    Row {
        host: 0,
        command: Close(0),
        answer: "ok",
        calls: "\
32 sets file 0: read 32 to free
",
    },
    Row {
        host: 0,
        command: Write(0, 2500, 9),
        answer: "ok",
        calls: "\
32 sets file 0: free to held 32
32 reads table 0.0: 3001, 0 = 1
32 reads table 0.2: 0, 484 = 3
32 writes data 2: 9
",
    },
    Row {
        host: 0,
        command: Close(0),
        answer: "ok",
        calls: "\
32 writes file 0: free
",
    },
    Row {
        host: 0,
        command: Write(0, 1500, 4),
        answer: "ok",
        calls: "\
32 sets file 0: free to held 32
32 reads table 0.0: 3001, 0 = 1
32 reads table 0.1: 0, 0 = 2
32 sets group 0: free to held 32
32 reads counts 0: 0, 0 to 2 = 1
32 writes data 3: 4
32 writes journal 0: 32, pointer 0 1500 = 4, count 3 = 1
32 writes table 0.1: 0, 0 = 2, 492 = 4
32 writes counts 0: 0, 0 to 3 = 1
32 writes journal 0: empty
32 writes group 0: free
",
    },
    Row {
        host: 0,
        command: Close(0),
        answer: "ok",
        calls: "\
32 reads table 0.2: 0, 484 = 3
32 writes file 0: free
",
    },
    Row {
        host: 0,
        command: Punch(0, 1008),
        answer: "ok",
        calls: "\
32 sets file 0: free to held 32
32 reads table 0.0: 3001, 0 = 1
32 reads table 0.1: 0, 0 = 2, 492 = 4
32 sets group 0: free to held 32
32 reads counts 0: 0, 0 to 3 = 1
32 writes journal 0: 32, pointer 0 1008 = 0, count 1 = 0
32 writes table 0.1: 0, 492 = 4
32 writes counts 0: 0, 0 = 1, 2 to 3 = 1
32 writes journal 0: empty
32 writes group 0: free
",
    },
    Row {
        host: 0,
        command: Punch(0, 1009),
        answer: "ok",
        calls: "\
32 reads file 0: held 32
",
    },
    Row {
        host: 0,
        command: Punch(0, 2016),
        answer: "ok",
        calls: "\
32 reads table 0.2: 0, 484 = 3
",
    },
    Row {
        host: 0,
        command: Size(0, 3000),
        answer: "ok",
        calls: "\
32 reads file 0: held 32
",
    },
    Row {
        host: 0,
        command: Close(0),
        answer: "ok",
        calls: "\
32 writes file 0: free
",
    },
    Row {
        host: 0,
        command: Size(0, 1500),
        answer: "ok",
        calls: "\
32 sets file 0: free to held 32
32 reads table 0.0: 3001, 0 = 1
32 writes journal 0: 32, head 0 = 1501
32 writes table 0.0: 1501, 0 = 1
32 writes journal 0: empty
",
    },
    Row {
        host: 0,
        command: Size(0, 1600),
        answer: "ok",
        calls: "\
32 reads table 0.1: 0, 492 = 4
32 sets group 0: free to held 32
32 reads counts 0: 0, 0 = 1, 2 to 3 = 1
32 writes journal 0: 32, pointer 0 1500 = 0, count 3 = 0
32 writes table 0.1: 0
32 writes counts 0: 0, 0 = 1, 2 = 1
32 writes journal 0: empty
32 writes group 0: free
32 writes journal 0: 32, head 0 = 1601
32 writes table 0.0: 1601, 0 = 1
32 writes journal 0: empty
",
    },
    Row {
        host: 0,
        command: Close(0),
        answer: "ok",
        calls: "\
32 reads table 0.2: 0, 484 = 3
32 sets group 0: free to held 32
32 reads counts 0: 0, 0 = 1, 2 = 1
32 writes journal 0: 32, pointer 0 2500 = 0, count 2 = 0
32 writes table 0.2: 0
32 writes counts 0: 0, 0 = 1
32 writes journal 0: empty
32 writes group 0: free
32 writes file 0: free
",
    },
    Row {
        host: 0,
        command: Size(0, 2016),
        answer: "ok",
        calls: "\
32 sets file 0: free to held 32
32 reads table 0.0: 1601, 0 = 1
32 reads table 0.1: 0
32 writes journal 0: 32, head 0 = 2017
32 writes table 0.0: 2017, 0 = 1
32 writes journal 0: empty
",
    },
    Row {
        host: 0,
        command: Size(0, 2017),
        answer: "ok",
        calls: "\
32 reads table 0.2: 0
32 writes journal 0: 32, head 0 = 2018
32 writes table 0.0: 2018, 0 = 1
32 writes journal 0: empty
",
    },
    Row {
        host: 0,
        command: Close(0),
        answer: "ok",
        calls: "\
32 writes file 0: free
",
    },
    Row {
        host: 0,
        command: Remove(0),
        answer: "ok",
        calls: "\
32 sets file 0: free to held 32
32 reads table 0.0: 2018, 0 = 1
32 writes journal 0: 32, head 0 = 0
32 writes table 0.0: 0, 0 = 1
32 writes journal 0: empty
",
    },
    Row {
        host: 0,
        command: Close(0),
        answer: "ok",
        calls: "\
32 reads table 0.1: 0
32 reads table 0.2: 0
32 sets group 0: free to held 32
32 reads counts 0: 0, 0 = 1
32 writes journal 0: 32, pointer 0 0 = 0, count 0 = 0
32 writes table 0.0: 0
32 writes counts 0: 0
32 writes journal 0: empty
32 writes group 0: free
32 writes file 0: free
",
    },
];
