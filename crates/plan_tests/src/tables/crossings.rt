// Commands of two hosts at once: host 1 finds a lock of host 0, or ends what host 0 has found.
use crate::rows::{Crossing, Row};
use crate::volumes::{MARK, THREE_GROUPS, Volume};
use vol_base::Command::{Close, Create, Join, Leave, Punch, Read, Size, Write};
use vol_layout::Field::{Count, Head, Pointer};

// One group.
pub const BUSY_GROUP: [Crossing; 1] = [Crossing {
    before: &[
        Row {
            host: 0,
            command: Join,
            answer: "joined 32",
            calls: "\
host 0 registers
32 sets slot 0: free to live 32 0
",
        },
        Row {
            host: 1,
            command: Join,
            answer: "joined 49",
            calls: "\
host 1 registers
49 sets slot 1: free to live 49 0
",
        },
        Row {
            host: 0,
            command: Create(0),
            answer: "ok",
            calls: "\
32 sets file 0: free to held 32
32 reads table 0.0: 0
32 writes journal 0: 32, head 0 = 1
32 writes table 0.0: 1
32 writes journal 0: empty
",
        },
        Row {
            host: 0,
            command: Size(0, 2),
            answer: "ok",
            calls: "\
32 writes journal 0: 32, head 0 = 3
32 writes table 0.0: 3
32 writes journal 0: empty
",
        },
        Row {
            host: 1,
            command: Create(0),
            answer: "busy 32",
            calls: "\
49 sets file 0: free to held 49, found held 32
",
        },
        Row {
            host: 1,
            command: Create(1),
            answer: "ok",
            calls: "\
49 sets file 1: free to held 49
49 reads table 1.0: 0
49 writes journal 1: 49, head 1 = 1
49 writes table 1.0: 1
49 writes journal 1: empty
",
        },
        Row {
            host: 1,
            command: Size(1, 2),
            answer: "ok",
            calls: "\
49 writes journal 1: 49, head 1 = 3
49 writes table 1.0: 3
49 writes journal 1: empty
",
        },
    ],
    command: Write(0, 0, 1),
    steps: 3,
    between: Write(1, 0, 2),
    answer: "ok",
    answer_between: "busy 32",
    calls: "\
32 sets group 0: free to held 32
32 reads counts 0: 0
49 sets group 0: free to held 49, found held 32
32 writes data 0: 1
32 writes journal 0: 32, pointer 0 0 = 1, count 0 = 1
32 writes table 0.0: 3, 0 = 1
32 writes counts 0: 0, 0 = 1
32 writes journal 0: empty
32 writes group 0: free
",
}];

pub const BUSY_VOLUME: Volume = Volume {
    geometry: THREE_GROUPS,
    full_from: 1,
    numbers: &[
        (Head(0), 6),
        (Head(1), 4),
        (Pointer(1, 1), MARK + 1),
        (Pointer(1, 2), 2),
        (Pointer(1, 5), 3),
        (Count(0), 1),
        (Count(1), 1),
        (Count(2), 1),
    ],
};

// Three groups, of which two are full: what was locked is freed, last taken first. So do a punch, a growth and a close meet the lock.
pub const BUSY_GROUPS: [Crossing; 4] = [
    Crossing {
        before: &[
            Row {
                host: 0,
                command: Join,
                answer: "joined 32",
                calls: "\
host 0 registers
32 sets slot 0: free to live 32 0
",
            },
            Row {
                host: 1,
                command: Join,
                answer: "joined 49",
                calls: "\
host 1 registers
49 sets slot 1: free to live 49 0
",
            },
            Row {
                host: 0,
                command: Punch(0, 0),
                answer: "ok",
                calls: "\
32 sets file 0: free to held 32
32 reads table 0.0: 6
",
            },
            Row {
                host: 1,
                command: Punch(1, 0),
                answer: "ok",
                calls: "\
49 sets file 1: free to held 49
49 reads table 1.0: 4, 1 = 2147483649, 2 = 2, 5 = 3
",
            },
        ],
        command: Write(0, 0, 5),
        steps: 3,
        between: Write(1, 0, 9),
        answer: "ok",
        answer_between: "busy 32",
        calls: "\
32 sets group 0: free to held 32
32 reads counts 0: 0, 0 to 2 = 1
49 sets group 1: free to held 49
49 reads counts 1: 0, 0 to 1007 = 1
49 sets group 2: free to held 49
49 reads counts 2: 0, 0 to 1007 = 1
49 sets group 0: free to held 49, found held 32
49 writes group 2: free
49 writes group 1: free
32 writes data 3: 5
32 writes journal 0: 32, pointer 0 0 = 4, count 3 = 1
32 writes table 0.0: 6, 0 = 4
32 writes counts 0: 0, 0 to 3 = 1
32 writes journal 0: empty
32 writes group 0: free
",
    },
    Crossing {
        before: &[],
        command: Write(0, 1, 6),
        steps: 3,
        between: Punch(1, 2),
        answer: "ok",
        answer_between: "busy 32",
        calls: "\
32 sets group 0: free to held 32
32 reads counts 0: 0, 0 to 3 = 1
49 sets group 0: free to held 49, found held 32
32 writes data 4: 6
32 writes journal 0: 32, pointer 0 1 = 5, count 4 = 1
32 writes table 0.0: 6, 0 = 4, 1 = 5
32 writes counts 0: 0, 0 to 4 = 1
32 writes journal 0: empty
32 writes group 0: free
",
    },
    Crossing {
        before: &[],
        command: Write(0, 2, 7),
        steps: 3,
        between: Size(1, 10),
        answer: "ok",
        answer_between: "busy 32",
        calls: "\
32 sets group 0: free to held 32
32 reads counts 0: 0, 0 to 4 = 1
49 sets group 0: free to held 49, found held 32
32 writes data 5: 7
32 writes journal 0: 32, pointer 0 2 = 6, count 5 = 1
32 writes table 0.0: 6, 0 = 4, 1 = 5, 2 = 6
32 writes counts 0: 0, 0 to 5 = 1
32 writes journal 0: empty
32 writes group 0: free
",
    },
    Crossing {
        before: &[],
        command: Write(0, 3, 8),
        steps: 3,
        between: Close(1),
        answer: "ok",
        answer_between: "busy 32",
        calls: "\
32 sets group 0: free to held 32
32 reads counts 0: 0, 0 to 5 = 1
49 sets group 0: free to held 49, found held 32
32 writes data 6: 8
32 writes journal 0: 32, pointer 0 3 = 7, count 6 = 1
32 writes table 0.0: 6, 0 = 4, 1 = 5, 2 = 6, 3 = 7
32 writes counts 0: 0, 0 to 6 = 1
32 writes journal 0: empty
32 writes group 0: free
",
    },
];

pub const BUSY_SHARED_VOLUME: Volume = Volume {
    geometry: THREE_GROUPS,
    full_from: 3,
    numbers: &[
        (Head(0), 2),
        (Head(1), 3),
        (Pointer(1, 1), MARK + 1),
        (Count(0), 1),
    ],
};

// The group of a shared block is locked behind that of the free one.
pub const BUSY_SHARED: [Crossing; 1] = [Crossing {
    before: &[
        Row {
            host: 0,
            command: Join,
            answer: "joined 32",
            calls: "\
host 0 registers
32 sets slot 0: free to live 32 0
",
        },
        Row {
            host: 1,
            command: Join,
            answer: "joined 49",
            calls: "\
host 1 registers
49 sets slot 1: free to live 49 0
",
        },
        Row {
            host: 0,
            command: Punch(0, 0),
            answer: "ok",
            calls: "\
32 sets file 0: free to held 32
32 reads table 0.0: 2
",
        },
        Row {
            host: 1,
            command: Punch(1, 0),
            answer: "ok",
            calls: "\
49 sets file 1: free to held 49
49 reads table 1.0: 3, 1 = 2147483649
",
        },
    ],
    command: Write(0, 0, 5),
    steps: 3,
    between: Write(1, 1, 9),
    answer: "ok",
    answer_between: "busy 32",
    calls: "\
32 sets group 0: free to held 32
32 reads counts 0: 0, 0 = 1
49 sets group 1: free to held 49
49 reads counts 1: 0
49 sets group 0: free to held 49, found held 32
49 writes group 1: free
32 writes data 1: 5
32 writes journal 0: 32, pointer 0 0 = 2, count 1 = 1
32 writes table 0.0: 2, 0 = 2
32 writes counts 0: 0, 0 to 1 = 1
32 writes journal 0: empty
32 writes group 0: free
",
}];

// A reader that closes or leaves while another host tries for the file: the last word that was found is tried from, or its reader shown.
pub const CROSSED_HOLDS: [Crossing; 4] = [
    Crossing {
        before: &[
            Row {
                host: 0,
                command: Join,
                answer: "joined 32",
                calls: "\
host 0 registers
32 sets slot 0: free to live 32 0
",
            },
            Row {
                host: 1,
                command: Join,
                answer: "joined 49",
                calls: "\
host 1 registers
49 sets slot 1: free to live 49 0
",
            },
            Row {
                host: 1,
                command: Read(2, 0),
                answer: "nofile",
                calls: "\
49 sets file 2: free to read 49
49 reads table 2.0: 0
",
            },
        ],
        command: Read(2, 0),
        steps: 1,
        between: Close(2),
        answer: "nofile",
        answer_between: "ok",
        calls: "\
32 sets file 2: free to read 32, found read 49
49 sets file 2: read 49 to free
32 sets file 2: read 49 to read 32 49, found free
32 sets file 2: free to read 32
32 reads table 2.0: 0
",
    },
    Crossing {
        before: &[Row {
            host: 1,
            command: Read(2, 0),
            answer: "nofile",
            calls: "\
49 sets file 2: free to read 49, found read 32
49 sets file 2: read 32 to read 32 49
49 reads table 2.0: 0
",
        }],
        command: Close(2),
        steps: 1,
        between: Close(2),
        answer: "busy 49",
        answer_between: "ok",
        calls: "\
32 sets file 2: read 32 to free, found read 32 49
49 sets file 2: read 49 to free, found read 32 49
49 sets file 2: read 32 49 to read 32
32 sets file 2: read 32 49 to read 49, found read 32
",
    },
    Crossing {
        before: &[
            Row {
                host: 0,
                command: Close(2),
                answer: "ok",
                calls: "\
32 sets file 2: read 32 to free
",
            },
            Row {
                host: 1,
                command: Read(2, 0),
                answer: "nofile",
                calls: "\
49 sets file 2: free to read 49
49 reads table 2.0: 0
",
            },
        ],
        command: Create(2),
        steps: 1,
        between: Close(2),
        answer: "busy 49",
        answer_between: "ok",
        calls: "\
32 sets file 2: free to held 32, found read 49
49 sets file 2: read 49 to free
32 reads slot 1: live 49 0
",
    },
    Crossing {
        before: &[Row {
            host: 1,
            command: Read(2, 0),
            answer: "nofile",
            calls: "\
49 sets file 2: free to read 49
49 reads table 2.0: 0
",
        }],
        command: Create(2),
        steps: 1,
        between: Leave,
        answer: "ok",
        answer_between: "ok",
        calls: "\
32 sets file 2: free to held 32, found read 49
49 sets slot 1: live 49 0 to free
49 fences 49
32 reads slot 1: free
32 sets file 2: read 49 to held 32
32 reads table 2.0: 0
32 writes journal 0: 32, head 2 = 1
32 writes table 2.0: 1
32 writes journal 0: empty
",
    },
];
