// Commands that are cut behind each of their device calls in turn, by the death of their host.
use crate::cases::{expect_valid, simulate};
use shared_disk::MemDisk;
use std::alloc::{AllocError, Global};
use std::process::Abort;
use std::test::Fail;

/// A command of a host that dies behind each of its calls in turn. The parts are those of a script: what stands before the `die`, behind the
/// command that is cut, and at the end, where it counts as undone or as done.
struct Deaths {
    shows: &'static str,
    blocks: u64,
    host: u8,
    command: &'static str,
    /// The calls that the command makes.
    calls: u32,
    /// The first call behind which it counts as done.
    place: u32,
    before: &'static str,
    behind: &'static str,
    undone: &'static str,
    done: &'static str,
}

const RECOVERS: &str = "\
barrier
1 look 0 -> seen 1
1 look 0 -> seen 2
1 look 0 -> seen 3
1 recover 0 -> recovered
";

static OF_A_WRITE_TO_A_HOLE: Deaths = Deaths {
    shows: "a write to a hole",
    blocks: 1032,
    host: 0,
    command: "write 0 0 7",
    calls: 10,
    place: 6,
    before: "\
volume 2 4 1 1 1 1
0 join -> joined 32
1 join -> joined 49
barrier
0 create 0 -> ok
0 size 0 1 -> ok
0 close 0 -> ok
",
    behind: RECOVERS,
    undone: "\
1 read 0 0 -> = 0

history 5 6 15
used 0 mapped 0
",
    done: "\
1 read 0 0 -> = 7

history 5 6 9 15
used 1 mapped 1
",
};

const ONE_BLOCK: &str = "\
volume 2 4 1 1 1 1
0 join -> joined 32
1 join -> joined 49
barrier
0 create 0 -> ok
0 size 0 1 -> ok
0 write 0 0 7 -> ok
0 close 0 -> ok
";

const STILL_SEVEN: &str = "\
1 read 0 0 -> = 7

history 5 6 7 16
used 1 mapped 1
";

static OF_A_WRITE_IN_PLACE: Deaths = Deaths {
    shows: "a write in place",
    blocks: 1032,
    host: 0,
    command: "write 0 0 8",
    calls: 3,
    place: 3,
    before: ONE_BLOCK,
    behind: RECOVERS,
    undone: STILL_SEVEN,
    done: "\
1 read 0 0 -> = 8

history 5 6 7 10 16
used 1 mapped 1
",
};

static OF_A_PUNCH: Deaths = Deaths {
    shows: "a punch of a block",
    blocks: 1032,
    host: 0,
    command: "punch 0 0",
    calls: 9,
    place: 5,
    before: ONE_BLOCK,
    behind: RECOVERS,
    undone: STILL_SEVEN,
    done: "\
1 read 0 0 -> = 0

history 5 6 7 10 16
used 0 mapped 0
",
};

// What a removed file had is still used: a `remove` changes its head alone.
static OF_A_REMOVE: Deaths = Deaths {
    shows: "a remove",
    blocks: 1032,
    host: 0,
    command: "remove 0",
    calls: 5,
    place: 3,
    before: ONE_BLOCK,
    behind: RECOVERS,
    undone: STILL_SEVEN,
    done: "\
1 read 0 0 -> nofile

history 5 6 7 10 16
used 1 mapped 1
",
};

// The block 20 has the requests of file 0. Its one request names an empty slot, and stays until the last call, so another host finds it.
static OF_A_SERVE: Deaths = Deaths {
    shows: "a serve",
    blocks: 1032,
    host: 0,
    command: "serve",
    calls: 4,
    place: 4,
    before: "\
volume 2 4 1 1 1 1
0 join -> joined 32
1 join -> joined 49
barrier
0 create 0 -> ok
0 size 0 1 -> ok
0 write 0 0 7 -> ok
0 scribble 20 5 0 -> ok
",
    behind: RECOVERS,
    undone: "\
1 size 0 1 -> ok
1 serve -> served 0 0 0 1
1 read 0 0 -> = 7

history 5 6 7 16 18
used 1 mapped 1
",
    done: "\
1 size 0 1 -> ok
1 serve -> served 0 0 0 0
1 read 0 0 -> = 7

history 5 6 7 16 18
used 1 mapped 1
",
};

// The first host dies behind its record, so its write stands wherever the second one dies. Behind the last call of its recovery the slot of
// the first is free.
static OF_A_RECOVERY: Deaths = Deaths {
    shows: "a recovery",
    blocks: 1035,
    host: 1,
    command: "recover 0",
    calls: 15,
    place: 15,
    before: "\
volume 3 4 1 1 1 1
0 join -> joined 32
1 join -> joined 49
2 join -> joined 66
barrier
0 create 0 -> ok
0 size 0 1 -> ok
0 close 0 -> ok
0 die 6 -> ok
0 write 0 0 7 -> cut died
barrier
1 look 0 -> seen 1
1 look 0 -> seen 2
1 look 0 -> seen 3
",
    behind: "barrier\n",
    undone: "\
2 look 0 -> seen 1
2 look 0 -> seen 2
2 look 0 -> seen 3
2 recover 0 -> recovered
2 look 1 -> seen 1
2 look 1 -> seen 2
2 look 1 -> seen 3
2 recover 1 -> recovered
2 read 0 0 -> = 7

history 6 7 10 26
used 1 mapped 1
",
    done: "\
2 look 0 -> free
2 look 0 -> free
2 look 0 -> free
2 recover 0 -> alive 0
2 look 1 -> seen 1
2 look 1 -> seen 2
2 look 1 -> seen 3
2 recover 1 -> recovered
2 read 0 0 -> = 7

history 6 7 10 26
used 1 mapped 1
",
};

// A host dies in a merge in which one entry is stale, one alone, and one linked, and joins again.
static OF_A_MERGE: Deaths = Deaths {
    shows: "a merge",
    blocks: 3062,
    host: 1,
    command: "merge",
    calls: 28,
    place: 17,
    before: "\
volume 3 4 3 2 3 2
0 join -> joined 32
1 join -> joined 49
2 join -> joined 66
barrier
0 create 0 -> ok
0 size 0 5 -> ok
0 write 0 0 3 -> ok
0 write 0 1 4 -> ok
0 size 0 2 -> ok
0 create 1 -> ok
0 size 1 4 -> ok
0 write 1 2 6 -> ok
1 create 2 -> ok
1 size 2 3 -> ok
1 write 2 1 8 -> ok
1 size 2 1 -> ok
0 write 0 0 6 -> ok
0 write 1 0 6 -> ok
0 log -> logged 5
0 merge -> merged 1 2 2 0 0 0 0 0 0
0 write 1 1 6 -> ok
0 log -> logged 1
0 merge -> merged 0 0 1 0 0 0 0 0 0
1 size 2 3 -> ok
1 write 2 0 6 -> ok
1 write 2 2 8 -> ok
1 log -> logged 3
barrier
",
    behind: "\
barrier
1 join -> joined 81
barrier
2 read 0 0 -> busy 32
2 read 0 1 -> busy 32
2 read 0 2 -> busy 32
2 read 1 0 -> busy 32
2 read 1 1 -> busy 32
2 read 1 2 -> busy 32
2 read 2 0 -> = 6
2 read 2 1 -> = 0
2 read 2 2 -> = 8
2 close 0 -> ok
2 close 1 -> ok
2 close 2 -> ok
",
    undone: "
history 6 14 7 15 8 16 17 9 10 25 11 12 26 13 27 18 19 22 41 42 43
used 4 mapped 8
",
    done: "
history 6 14 7 15 8 16 17 9 10 25 11 12 26 13 27 18 19 22 41 42 43
used 3 mapped 8
",
};

// Runs the command with each number of calls, and checks the volume behind each run.
fn die_at_each_call(rt: &impl Abort, alloc: Global, deaths: &Deaths) -> Result<(), Fail> {
    for calls in 1..=deaths.calls {
        let end = if calls < deaths.place {
            deaths.undone
        } else {
            deaths.done
        };
        let script = script_with(alloc, deaths, calls, end)?;
        let disk = MemDisk::new(alloc, deaths.blocks)?;
        let disk = simulate(rt, alloc, script.as_str(), disk, deaths.shows)?;
        expect_valid(rt, alloc, usage_of(end), disk, deaths.shows)?;
    }
    Ok(())
}

// The script in which the host dies behind so many calls.
fn script_with(
    alloc: Global,
    deaths: &Deaths,
    calls: u32,
    end: &str,
) -> Result<String, AllocError> {
    let mut script = String::from_str(alloc, deaths.before)?;
    let (host, command) = (deaths.host, deaths.command);
    write!(
        script,
        "{host} die {calls} -> ok\n{host} {command} -> cut died\n"
    )?;
    script.push_str(deaths.behind)?;
    script.push_str(end)?;
    Ok(script)
}

// The last line of a script's end.
fn usage_of(end: &str) -> &str {
    match end.find("used ") {
        Some(at) => end.get(at..).unwrap_or(""),
        None => "",
    }
}

#[test]
fn a_host_dies_at_each_call(rt: HostRuntime) -> Result<(), Fail> {
    let alloc = rt.alloc();
    for deaths in [
        &OF_A_WRITE_TO_A_HOLE,
        &OF_A_WRITE_IN_PLACE,
        &OF_A_PUNCH,
        &OF_A_REMOVE,
        &OF_A_SERVE,
        &OF_A_RECOVERY,
        &OF_A_MERGE,
    ] {
        die_at_each_call(&rt, alloc, deaths)?;
    }
    Ok(())
}
