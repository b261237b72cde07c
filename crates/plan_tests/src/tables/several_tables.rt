// A file of three table blocks: a table is read where it is first needed, and behind the first one.
use crate::rows::Row;
use vol_base::Command::{Close, Create, Join, Read, Size, Write};

pub const SEVERAL_TABLES: [Row; 16] = [
    Row {
        host: 0,
        command: Join,
        answer: "joined 32",
        calls: "\
host 0 registers
32 sets slot 0: free to live 32 0
",
    },
    Row {
        host: 0,
        command: Create(0),
        answer: "ok",
        calls: "\
32 sets file 0: free to held 32
32 reads table 0.0: 0
32 writes journal 0: 32, head 0 = 1
32 writes table 0.0: 1
32 writes journal 0: empty
",
    },
    Row {
        host: 0,
        command: Size(0, 3000),
        answer: "ok",
        calls: "\
32 reads table 0.1: 0
32 reads table 0.2: 0
32 writes journal 0: 32, head 0 = 3001
32 writes table 0.0: 3001
32 writes journal 0: empty
",
    },
    Row {
        host: 0,
        command: Write(0, 0, 1),
        answer: "ok",
        calls: "\
32 sets group 0: free to held 32
32 reads counts 0: 0
32 writes data 0: 1
32 writes journal 0: 32, pointer 0 0 = 1, count 0 = 1
32 writes table 0.0: 3001, 0 = 1
32 writes counts 0: 0, 0 = 1
32 writes journal 0: empty
32 writes group 0: free
",
    },
    Row {
        host: 0,
        command: Write(0, 1008, 2),
        answer: "ok",
        calls: "\
32 sets group 0: free to held 32
32 reads counts 0: 0, 0 = 1
32 writes data 1: 2
32 writes journal 0: 32, pointer 0 1008 = 2, count 1 = 1
32 writes table 0.1: 0, 0 = 2
32 writes counts 0: 0, 0 to 1 = 1
32 writes journal 0: empty
32 writes group 0: free
",
    },
    Row {
        host: 0,
        command: Write(0, 2500, 3),
        answer: "ok",
        calls: "\
32 sets group 0: free to held 32
32 reads counts 0: 0, 0 to 1 = 1
32 writes data 2: 3
32 writes journal 0: 32, pointer 0 2500 = 3, count 2 = 1
32 writes table 0.2: 0, 484 = 3
32 writes counts 0: 0, 0 to 2 = 1
32 writes journal 0: empty
32 writes group 0: free
",
    },
    Row {
        host: 0,
        command: Read(0, 1008),
        answer: "= 2",
        calls: "\
32 reads data 1: 2
",
    },
    Row {
        host: 0,
        command: Read(0, 2016),
        answer: "= 0",
        calls: "\
32 reads file 0: held 32
",
    },
    Row {
        host: 0,
        command: Size(0, 1),
        answer: "ok",
        calls: "\
32 writes journal 0: 32, head 0 = 2
32 writes table 0.0: 2, 0 = 1
32 writes journal 0: empty
",
    },
    Row {
        host: 0,
        command: Size(0, 2600),
        answer: "ok",
        calls: "\
32 sets group 0: free to held 32
32 reads counts 0: 0, 0 to 2 = 1
32 writes journal 0: 32, pointer 0 1008 = 0, count 1 = 0
32 writes table 0.1: 0
32 writes counts 0: 0, 0 = 1, 2 = 1
32 writes journal 0: empty
32 writes group 0: free
32 sets group 0: free to held 32
32 reads counts 0: 0, 0 = 1, 2 = 1
32 writes journal 0: 32, pointer 0 2500 = 0, count 2 = 0
32 writes table 0.2: 0
32 writes counts 0: 0, 0 = 1
32 writes journal 0: empty
32 writes group 0: free
32 writes journal 0: 32, head 0 = 2601
32 writes table 0.0: 2601, 0 = 1
32 writes journal 0: empty
",
    },
    Row {
        host: 0,
        command: Read(0, 2500),
        answer: "= 0",
        calls: "\
32 reads file 0: held 32
",
    },
    Row {
        host: 0,
        command: Write(0, 2500, 4),
        answer: "ok",
        calls: "\
32 sets group 0: free to held 32
32 reads counts 0: 0, 0 = 1
32 writes data 1: 4
32 writes journal 0: 32, pointer 0 2500 = 2, count 1 = 1
32 writes table 0.2: 0, 484 = 2
32 writes counts 0: 0, 0 to 1 = 1
32 writes journal 0: empty
32 writes group 0: free
",
    },
    Row {
        host: 0,
        command: Write(0, 1500, 5),
        answer: "ok",
        calls: "\
32 sets group 0: free to held 32
32 reads counts 0: 0, 0 to 1 = 1
32 writes data 2: 5
32 writes journal 0: 32, pointer 0 1500 = 3, count 2 = 1
32 writes table 0.1: 0, 492 = 3
32 writes counts 0: 0, 0 to 2 = 1
32 writes journal 0: empty
32 writes group 0: free
",
    },
    Row {
        host: 0,
        command: Size(0, 10),
        answer: "ok",
        calls: "\
32 writes journal 0: 32, head 0 = 11
32 writes table 0.0: 11, 0 = 1
32 writes journal 0: empty
",
    },
    Row {
        host: 0,
        command: Close(0),
        answer: "ok",
        calls: "\
32 sets group 0: free to held 32
32 reads counts 0: 0, 0 to 2 = 1
32 writes journal 0: 32, pointer 0 1500 = 0, count 2 = 0
32 writes table 0.1: 0
32 writes counts 0: 0, 0 to 1 = 1
32 writes journal 0: empty
32 writes group 0: free
32 sets group 0: free to held 32
32 reads counts 0: 0, 0 to 1 = 1
32 writes journal 0: 32, pointer 0 2500 = 0, count 1 = 0
32 writes table 0.2: 0
32 writes counts 0: 0, 0 = 1
32 writes journal 0: empty
32 writes group 0: free
32 writes file 0: free
",
    },
    Row {
        host: 0,
        command: Read(0, 0),
        answer: "= 1",
        calls: "\
32 sets file 0: free to read 32
32 reads table 0.0: 11, 0 = 1
32 reads data 0: 1
",
    },
];
