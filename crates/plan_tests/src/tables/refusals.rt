// Plain refusals: behind a table that was read, and behind a lock that is confirmed.
use crate::rows::Row;
use crate::volumes::{ONE_GROUP, Volume};
use vol_base::Command::{Close, Join, Punch, Read, Remove, Size, Write};
use vol_layout::Field::Head;

pub const FOUR_HOLES: Volume = Volume {
    geometry: ONE_GROUP,
    full_from: 1,
    numbers: &[(Head(0), 5)],
};

pub const REFUSALS: [Row; 24] = [
    Row {
        host: 0,
        command: Join,
        answer: "joined 32",
        calls: "\
host 0 registers
32 sets slot 0: free to live 32 0
",
    },
    Row {
        host: 0,
        command: Size(1, 2),
        answer: "nofile",
        calls: "\
32 sets file 1: free to held 32
32 reads table 1.0: 0
",
    },
    Row {
        host: 0,
        command: Close(1),
        answer: "ok",
        calls: "\
32 writes file 1: free
",
    },
    Row {
        host: 0,
        command: Write(1, 0, 5),
        answer: "nofile",
        calls: "\
32 sets file 1: free to held 32
32 reads table 1.0: 0
",
    },
    Row {
        host: 0,
        command: Close(1),
        answer: "ok",
        calls: "\
32 writes file 1: free
",
    },
    Row {
        host: 0,
        command: Punch(1, 0),
        answer: "nofile",
        calls: "\
32 sets file 1: free to held 32
32 reads table 1.0: 0
",
    },
    Row {
        host: 0,
        command: Close(1),
        answer: "ok",
        calls: "\
32 writes file 1: free
",
    },
    Row {
        host: 0,
        command: Remove(1),
        answer: "nofile",
        calls: "\
32 sets file 1: free to held 32
32 reads table 1.0: 0
",
    },
    Row {
        host: 0,
        command: Close(1),
        answer: "ok",
        calls: "\
32 writes file 1: free
",
    },
    Row {
        host: 0,
        command: Punch(1, 0),
        answer: "nofile",
        calls: "\
32 sets file 1: free to held 32
32 reads table 1.0: 0
",
    },
    Row {
        host: 0,
        command: Size(1, 2),
        answer: "nofile",
        calls: "\
32 reads file 1: held 32
",
    },
    Row {
        host: 0,
        command: Write(1, 0, 5),
        answer: "nofile",
        calls: "\
32 reads file 1: held 32
",
    },
    Row {
        host: 0,
        command: Read(1, 0),
        answer: "nofile",
        calls: "\
32 reads file 1: held 32
",
    },
    Row {
        host: 0,
        command: Punch(1, 0),
        answer: "nofile",
        calls: "\
32 reads file 1: held 32
",
    },
    Row {
        host: 0,
        command: Remove(1),
        answer: "nofile",
        calls: "\
32 reads file 1: held 32
",
    },
    Row {
        host: 0,
        command: Read(0, 4),
        answer: "beyond 4",
        calls: "\
32 sets file 0: free to read 32
32 reads table 0.0: 5
",
    },
    Row {
        host: 0,
        command: Close(0),
        answer: "ok",
        calls: "\
32 sets file 0: read 32 to free
",
    },
    Row {
        host: 0,
        command: Punch(0, 9),
        answer: "beyond 4",
        calls: "\
32 sets file 0: free to held 32
32 reads table 0.0: 5
",
    },
    Row {
        host: 0,
        command: Close(0),
        answer: "ok",
        calls: "\
32 writes file 0: free
",
    },
    Row {
        host: 0,
        command: Size(0, 1009),
        answer: "toolong",
        calls: "\
32 sets file 0: free to held 32
32 reads table 0.0: 5
",
    },
    Row {
        host: 0,
        command: Read(0, 4),
        answer: "beyond 4",
        calls: "\
32 reads file 0: held 32
",
    },
    Row {
        host: 0,
        command: Punch(0, 4),
        answer: "beyond 4",
        calls: "\
32 reads file 0: held 32
",
    },
    Row {
        host: 0,
        command: Write(0, 4, 1),
        answer: "beyond 4",
        calls: "\
32 reads file 0: held 32
",
    },
    Row {
        host: 0,
        command: Size(0, 1008),
        answer: "ok",
        calls: "\
32 writes journal 0: 32, head 0 = 1009
32 writes table 0.0: 1009
32 writes journal 0: empty
",
    },
];
