// A file that is closed behind each command: the next one takes its lock and reads its table.
use crate::rows::Row;
use vol_base::Command::{Close, Create, Join, Punch, Read, Remove, Size, Write};

pub const NOT_HELD: [Row; 29] = [
    Row {
        host: 0,
        command: Join,
        answer: "joined 32",
        calls: "\
host 0 registers
32 sets slot 0: free to live 32 0
",
    },
    Row {
        host: 0,
        command: Create(0),
        answer: "ok",
        calls: "\
32 sets file 0: free to held 32
32 reads table 0.0: 0
32 writes journal 0: 32, head 0 = 1
32 writes table 0.0: 1
32 writes journal 0: empty
",
    },
    Row {
        host: 0,
        command: Size(0, 4),
        answer: "ok",
        calls: "\
32 writes journal 0: 32, head 0 = 5
32 writes table 0.0: 5
32 writes journal 0: empty
",
    },
    Row {
        host: 0,
        command: Write(0, 0, 7),
        answer: "ok",
        calls: "\
32 sets group 0: free to held 32
32 reads counts 0: 0
32 writes data 0: 7
32 writes journal 0: 32, pointer 0 0 = 1, count 0 = 1
32 writes table 0.0: 5, 0 = 1
32 writes counts 0: 0, 0 = 1
32 writes journal 0: empty
32 writes group 0: free
",
    },
    Row {
        host: 0,
        command: Write(0, 1, 8),
        answer: "ok",
        calls: "\
32 sets group 0: free to held 32
32 reads counts 0: 0, 0 = 1
32 writes data 1: 8
32 writes journal 0: 32, pointer 0 1 = 2, count 1 = 1
32 writes table 0.0: 5, 0 = 1, 1 = 2
32 writes counts 0: 0, 0 to 1 = 1
32 writes journal 0: empty
32 writes group 0: free
",
    },
    Row {
        host: 0,
        command: Write(0, 0, 9),
        answer: "ok",
        calls: "\
32 writes data 0: 9
",
    },
    Row {
        host: 0,
        command: Close(0),
        answer: "ok",
        calls: "\
32 writes file 0: free
",
    },
    Row {
        host: 0,
        command: Read(0, 0),
        answer: "= 9",
        calls: "\
32 sets file 0: free to read 32
32 reads table 0.0: 5, 0 = 1, 1 = 2
32 reads data 0: 9
",
    },
    Row {
        host: 0,
        command: Close(0),
        answer: "ok",
        calls: "\
32 sets file 0: read 32 to free
",
    },
    Row {
        host: 0,
        command: Read(0, 3),
        answer: "= 0",
        calls: "\
32 sets file 0: free to read 32
32 reads table 0.0: 5, 0 = 1, 1 = 2
",
    },
    Row {
        host: 0,
        command: Close(0),
        answer: "ok",
        calls: "\
32 sets file 0: read 32 to free
",
    },
    Row {
        host: 0,
        command: Punch(0, 3),
        answer: "ok",
        calls: "\
32 sets file 0: free to held 32
32 reads table 0.0: 5, 0 = 1, 1 = 2
",
    },
    Row {
        host: 0,
        command: Close(0),
        answer: "ok",
        calls: "\
32 writes file 0: free
",
    },
    Row {
        host: 0,
        command: Punch(0, 1),
        answer: "ok",
        calls: "\
32 sets file 0: free to held 32
32 reads table 0.0: 5, 0 = 1, 1 = 2
32 sets group 0: free to held 32
32 reads counts 0: 0, 0 to 1 = 1
32 writes journal 0: 32, pointer 0 1 = 0, count 1 = 0
32 writes table 0.0: 5, 0 = 1
32 writes counts 0: 0, 0 = 1
32 writes journal 0: empty
32 writes group 0: free
",
    },
    Row {
        host: 0,
        command: Close(0),
        answer: "ok",
        calls: "\
32 writes file 0: free
",
    },
    Row {
        host: 0,
        command: Size(0, 4),
        answer: "ok",
        calls: "\
32 sets file 0: free to held 32
32 reads table 0.0: 5, 0 = 1
",
    },
    Row {
        host: 0,
        command: Close(0),
        answer: "ok",
        calls: "\
32 writes file 0: free
",
    },
    Row {
        host: 0,
        command: Size(0, 1),
        answer: "ok",
        calls: "\
32 sets file 0: free to held 32
32 reads table 0.0: 5, 0 = 1
32 writes journal 0: 32, head 0 = 2
32 writes table 0.0: 2, 0 = 1
32 writes journal 0: empty
",
    },
    Row {
        host: 0,
        command: Close(0),
        answer: "ok",
        calls: "\
32 writes file 0: free
",
    },
    Row {
        host: 0,
        command: Size(0, 3),
        answer: "ok",
        calls: "\
32 sets file 0: free to held 32
32 reads table 0.0: 2, 0 = 1
32 writes journal 0: 32, head 0 = 4
32 writes table 0.0: 4, 0 = 1
32 writes journal 0: empty
",
    },
    Row {
        host: 0,
        command: Close(0),
        answer: "ok",
        calls: "\
32 writes file 0: free
",
    },
    Row {
        host: 0,
        command: Write(0, 9, 1),
        answer: "beyond 3",
        calls: "\
32 sets file 0: free to held 32
32 reads table 0.0: 4, 0 = 1
",
    },
    Row {
        host: 0,
        command: Close(0),
        answer: "ok",
        calls: "\
32 writes file 0: free
",
    },
    Row {
        host: 0,
        command: Create(0),
        answer: "exists",
        calls: "\
32 sets file 0: free to held 32
32 reads table 0.0: 4, 0 = 1
",
    },
    Row {
        host: 0,
        command: Close(0),
        answer: "ok",
        calls: "\
32 writes file 0: free
",
    },
    Row {
        host: 0,
        command: Remove(0),
        answer: "ok",
        calls: "\
32 sets file 0: free to held 32
32 reads table 0.0: 4, 0 = 1
32 writes journal 0: 32, head 0 = 0
32 writes table 0.0: 0, 0 = 1
32 writes journal 0: empty
",
    },
    Row {
        host: 0,
        command: Close(0),
        answer: "ok",
        calls: "\
32 sets group 0: free to held 32
32 reads counts 0: 0, 0 = 1
32 writes journal 0: 32, pointer 0 0 = 0, count 0 = 0
32 writes table 0.0: 0
32 writes counts 0: 0
32 writes journal 0: empty
32 writes group 0: free
32 writes file 0: free
",
    },
    Row {
        host: 0,
        command: Read(0, 0),
        answer: "nofile",
        calls: "\
32 sets file 0: free to read 32
32 reads table 0.0: 0
",
    },
    Row {
        host: 0,
        command: Close(0),
        answer: "ok",
        calls: "\
32 sets file 0: read 32 to free
",
    },
];
