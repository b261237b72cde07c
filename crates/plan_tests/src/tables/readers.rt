// Files that several hosts read: each puts its key into the lock word, and takes it out by `close`.
use crate::rows::Row;
use vol_base::Command::{Close, Create, Join, Leave, Look, Read, Recover, Size, Write};

pub const READ_HOLDS: [Row; 17] = [
    Row {
        host: 0,
        command: Join,
        answer: "joined 32",
        calls: "\
host 0 registers
32 sets slot 0: free to live 32 0
",
    },
    Row {
        host: 1,
        command: Join,
        answer: "joined 49",
        calls: "\
host 1 registers
49 sets slot 1: free to live 49 0
",
    },
    Row {
        host: 2,
        command: Join,
        answer: "joined 66",
        calls: "\
host 2 registers
66 sets slot 2: free to live 66 0
",
    },
    Row {
        host: 0,
        command: Create(0),
        answer: "ok",
        calls: "\
32 sets file 0: free to held 32
32 reads table 0.0: 0
32 writes journal 0: 32, head 0 = 1
32 writes table 0.0: 1
32 writes journal 0: empty
",
    },
    Row {
        host: 0,
        command: Size(0, 2),
        answer: "ok",
        calls: "\
32 writes journal 0: 32, head 0 = 3
32 writes table 0.0: 3
32 writes journal 0: empty
",
    },
    Row {
        host: 0,
        command: Write(0, 0, 7),
        answer: "ok",
        calls: "\
32 sets group 0: free to held 32
32 reads counts 0: 0
32 writes data 0: 7
32 writes journal 0: 32, pointer 0 0 = 1, count 0 = 1
32 writes table 0.0: 3, 0 = 1
32 writes counts 0: 0, 0 = 1
32 writes journal 0: empty
32 writes group 0: free
",
    },
    Row {
        host: 0,
        command: Close(0),
        answer: "ok",
        calls: "\
32 writes file 0: free
",
    },
    Row {
        host: 1,
        command: Read(0, 0),
        answer: "= 7",
        calls: "\
49 sets file 0: free to read 49
49 reads table 0.0: 3, 0 = 1
49 reads data 0: 7
",
    },
    Row {
        host: 2,
        command: Read(0, 0),
        answer: "= 7",
        calls: "\
66 sets file 0: free to read 66, found read 49
66 sets file 0: read 49 to read 49 66
66 reads table 0.0: 3, 0 = 1
66 reads data 0: 7
",
    },
    Row {
        host: 0,
        command: Write(0, 0, 8),
        answer: "busy 49",
        calls: "\
32 sets file 0: free to held 32, found read 49 66
32 reads slot 1: live 49 0
",
    },
    Row {
        host: 1,
        command: Write(0, 0, 9),
        answer: "busy 66",
        calls: "\
49 sets file 0: read 49 to held 49, found read 49 66
49 reads slot 2: live 66 0
",
    },
    Row {
        host: 1,
        command: Close(0),
        answer: "ok",
        calls: "\
49 sets file 0: read 49 to free, found read 49 66
49 sets file 0: read 49 66 to read 66
",
    },
    Row {
        host: 2,
        command: Write(0, 0, 5),
        answer: "ok",
        calls: "\
66 sets file 0: read 66 to held 66
66 reads table 0.0: 3, 0 = 1
66 writes data 0: 5
",
    },
    Row {
        host: 2,
        command: Read(0, 0),
        answer: "= 5",
        calls: "\
66 reads data 0: 5
",
    },
    Row {
        host: 0,
        command: Read(0, 0),
        answer: "busy 66",
        calls: "\
32 sets file 0: free to read 32, found held 66
",
    },
    Row {
        host: 2,
        command: Close(0),
        answer: "ok",
        calls: "\
66 writes file 0: free
",
    },
    Row {
        host: 0,
        command: Read(0, 0),
        answer: "= 5",
        calls: "\
32 sets file 0: free to read 32
32 reads table 0.0: 3, 0 = 1
32 reads data 0: 5
",
    },
];

// A reader that left, and one that died and was recovered, keep no host from the file.
pub const ENDED_READERS: [Row; 17] = [
    Row {
        host: 0,
        command: Join,
        answer: "joined 32",
        calls: "\
host 0 registers
32 sets slot 0: free to live 32 0
",
    },
    Row {
        host: 1,
        command: Join,
        answer: "joined 49",
        calls: "\
host 1 registers
49 sets slot 1: free to live 49 0
",
    },
    Row {
        host: 2,
        command: Join,
        answer: "joined 66",
        calls: "\
host 2 registers
66 sets slot 2: free to live 66 0
",
    },
    Row {
        host: 0,
        command: Create(0),
        answer: "ok",
        calls: "\
32 sets file 0: free to held 32
32 reads table 0.0: 0
32 writes journal 0: 32, head 0 = 1
32 writes table 0.0: 1
32 writes journal 0: empty
",
    },
    Row {
        host: 0,
        command: Size(0, 2),
        answer: "ok",
        calls: "\
32 writes journal 0: 32, head 0 = 3
32 writes table 0.0: 3
32 writes journal 0: empty
",
    },
    Row {
        host: 0,
        command: Write(0, 0, 7),
        answer: "ok",
        calls: "\
32 sets group 0: free to held 32
32 reads counts 0: 0
32 writes data 0: 7
32 writes journal 0: 32, pointer 0 0 = 1, count 0 = 1
32 writes table 0.0: 3, 0 = 1
32 writes counts 0: 0, 0 = 1
32 writes journal 0: empty
32 writes group 0: free
",
    },
    Row {
        host: 0,
        command: Close(0),
        answer: "ok",
        calls: "\
32 writes file 0: free
",
    },
    Row {
        host: 1,
        command: Read(0, 0),
        answer: "= 7",
        calls: "\
49 sets file 0: free to read 49
49 reads table 0.0: 3, 0 = 1
49 reads data 0: 7
",
    },
    Row {
        host: 1,
        command: Leave,
        answer: "ok",
        calls: "\
49 sets slot 1: live 49 0 to free
49 fences 49
",
    },
    Row {
        host: 2,
        command: Write(0, 0, 5),
        answer: "ok",
        calls: "\
66 sets file 0: free to held 66, found read 49
66 reads slot 1: free
66 sets file 0: read 49 to held 66
66 reads table 0.0: 3, 0 = 1
66 writes data 0: 5
",
    },
    Row {
        host: 1,
        command: Join,
        answer: "joined 81",
        calls: "\
host 1 registers
81 sets slot 1: free to live 81 0
",
    },
    Row {
        host: 1,
        command: Read(1, 0),
        answer: "nofile",
        calls: "\
81 sets file 1: free to read 81
81 reads table 1.0: 0
",
    },
    Row {
        host: 0,
        command: Look(1),
        answer: "seen 1",
        calls: "\
32 reads slot 1: live 81 0
",
    },
    Row {
        host: 0,
        command: Look(1),
        answer: "seen 2",
        calls: "\
32 reads slot 1: live 81 0
",
    },
    Row {
        host: 0,
        command: Look(1),
        answer: "seen 3",
        calls: "\
32 reads slot 1: live 81 0
",
    },
    Row {
        host: 0,
        command: Recover(1),
        answer: "recovered",
        calls: "\
32 fences 81
32 sets slot 1: live 81 0 to recovering 81 32
32 reads journal 1: empty
32 sets file 0: held 81 to free, found held 66
32 sets file 1: held 81 to free, found read 81
32 sets file 2: held 81 to free, found free
32 sets file 3: held 81 to free, found free
32 sets part 0: held 81 to free, found free
32 sets group 0: held 81 to free, found free
32 sets slot 1: recovering 81 32 to free
",
    },
    Row {
        host: 0,
        command: Create(1),
        answer: "ok",
        calls: "\
32 sets file 1: free to held 32, found read 81
32 reads slot 1: free
32 sets file 1: read 81 to held 32
32 reads table 1.0: 0
32 writes journal 0: 32, head 1 = 1
32 writes table 1.0: 1
32 writes journal 0: empty
",
    },
];
