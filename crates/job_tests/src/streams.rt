// Sources and sinks that fail, and those that have just enough room.
use crate::cases::{CHECK, FIRST, FIRST_REPORT, Job, SIM, call, compare};
use crate::devices::{Number, holds};
use jobs::Status;
use shared_disk::MemDisk;
use std::alloc::Global;
use std::process::Abort;
use std::test::Fail;
use vol_io::{MemSink, MemSource};

// A job on a blank device, over a source and a sink of which calls of these numbers fail, where the first is 1, and a sink with so much
// room. What it writes is what the sink has taken.
struct Streams {
    shows: &'static str,
    source_fails: &'static [u64],
    room: usize,
    sink_fails: &'static [u64],
    job: Job<'static>,
    holds: &'static [Number],
}

// No block is written.
const BLANK: &[Number] = &[(0, 0, 0)];

// File 0 has two blocks, of which the first is data block 0 and is filled with 7.
const WRITTEN: &[Number] = &[(0, 0, 0x4445_4445), (11, 12, 3), (11, 64, 1), (27, 4, 7)];

static CASES: [Streams; 5] = [
    Streams {
        shows: "a sink with room for the report and no more",
        source_fails: &[],
        room: FIRST_REPORT.len(),
        sink_fails: &[],
        job: Job {
            words: SIM,
            text: FIRST,
            status: Status::Ok,
            written: FIRST_REPORT,
        },
        holds: WRITTEN,
    },
    Streams {
        shows: "a source that fails behind the text",
        source_fails: &[2],
        room: 200,
        sink_fails: &[],
        job: Job {
            words: SIM,
            text: FIRST,
            status: Status::ReadFault,
            written: "read fault\n",
        },
        holds: BLANK,
    },
    Streams {
        shows: "a sink without room, behind a run",
        source_fails: &[],
        room: 0,
        sink_fails: &[],
        job: Job {
            words: SIM,
            text: FIRST,
            status: Status::WriteFault,
            written: "",
        },
        holds: WRITTEN,
    },
    Streams {
        shows: "a sink that fails",
        source_fails: &[],
        room: 200,
        sink_fails: &[1],
        job: Job {
            words: CHECK,
            text: "",
            status: Status::WriteFault,
            written: "",
        },
        holds: BLANK,
    },
    Streams {
        shows: "a sink with room for the front of a text",
        source_fails: &[],
        room: 6,
        sink_fails: &[],
        job: Job {
            words: CHECK,
            text: "",
            status: Status::WriteFault,
            written: "volume",
        },
        holds: BLANK,
    },
];

static TOO_LONG: Streams = Streams {
    shows: "a text with a byte too many",
    source_fails: &[],
    room: 200,
    sink_fails: &[],
    job: Job {
        words: SIM,
        text: "",
        status: Status::Workload,
        written: "workload line 0: long\n",
    },
    holds: BLANK,
};

// Does the job over a source with this text.
fn run(rt: &impl Abort, alloc: Global, text: Vec<u8>, streams: &Streams) -> Result<(), Fail> {
    let mut source = MemSource::new(text, Vec::from_slice(alloc, streams.source_fails)?);
    let fails = Vec::from_slice(alloc, streams.sink_fails)?;
    let mut sink = MemSink::new(alloc, streams.room, fails)?;
    let disk = MemDisk::new(alloc, 1035)?;
    let (status, disk) = call(alloc, streams.job.words, &mut source, &mut sink, disk)?;
    compare(rt, status, sink.taken(), &streams.job, streams.shows);
    holds(rt, &disk, streams.holds, streams.shows);
    Ok(())
}

#[test]
fn jobs_over_streams(rt: HostRuntime) -> Result<(), Fail> {
    let alloc = rt.alloc();
    for streams in &CASES {
        run(
            &rt,
            alloc,
            Vec::from_slice(alloc, streams.job.text.as_bytes())?,
            streams,
        )?;
    }
    run(&rt, alloc, vec![in alloc; 0; 1_048_577]?, &TOO_LONG)
}
