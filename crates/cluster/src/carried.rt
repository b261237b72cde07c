// What a host keeps beside its plan.
ghost use Rattle.std.specs.Prelude.{◌≡◌, IfOk, Some};
ghost use Rattle.cluster.specs.Carries.{IsFresh, MayNote, hints_behind, looks_behind, loses, written};
ghost use Rattle.vol_layout.specs.Ranges.{IsGeometry};

use hint_blocks::{Hints, LogEntry};
use merge_plan::MergeRoom;
use std::alloc::{AllocError, Global};
use vol_base::{Answer, Command, Digest, Next, PlainReply};
use vol_layout::Geometry;
use watch::Watch;

/// What a host keeps beside its plan, and loses where it is dropped.
#[derive(Drop)]
pub struct Carried {
    /// What it remembers of the slots of other hosts.
    pub watch: Watch,
    /// Its pending hints: at most 126, the newest, in order.
    pub pending: Hints<LogEntry>,
    /// The digest that was handed in to its last `write`.
    pub digest: Option<Digest>,
    /// What its last merge read. No turn moves it, and each merge begins with clearing it.
    pub room: MergeRoom,
}

impl Carried {
    /// That of a host that has not begun.
    pub fn new(alloc: Global, geometry: &Geometry) -> Result<Carried, AllocError>
        requires { IsGeometry geometry.now }
        ensures { IfOk result (IsFresh geometry.now) }
    {
        Ok(Carried {
            watch: Watch::new(),
            pending: Hints::empty(geometry),
            digest: None,
            room: MergeRoom::new(alloc, geometry)?,
        })
    }

    /// A host that is dropped has it as one that has not begun.
    pub fn forget(&mut self, geometry: &Geometry)
        requires { IsGeometry geometry.now }
        ensures { IsFresh geometry.now self.new }
    {
        self.watch = Watch::new();
        self.pending = Hints::empty(geometry);
        self.digest = None;
    }

    /// The pending hints behind a step of a command that is none on hints: one more behind a `write` that is done, and none behind an answer
    /// by which the host is dropped or has joined.
    pub fn note(&mut self, command: &Command, next: &Next, geometry: &Geometry)
        requires geometry { IsGeometry geometry.now }
        requires volume { self.old.pending.geometry ≡ geometry.now }
        requires may { MayNote geometry.now command.now next.now }
        ensures { self.new ≡ record self.old { pending = hints_behind command.now next.now self.old.digest self.old.pending } }
    {
        match next {
            Next::Answered(Answer::Plain(PlainReply::Done)) => self.push(command),
            Next::Answered(answer) => {
                if loses(answer, command) {
                    self.pending = Hints::empty(geometry);
                }
            }
            Next::More | Next::Work(_) => {}
        }
    }

    // The hint of a `write` that is done.
    fn push(&mut self, command: &Command)
        requires { MayNote self.old.pending.geometry command.now (Next.Answered (Answer.Plain PlainReply.Done)) }
        ensures { self.new ≡ record self.old { pending = written command.now self.old.digest self.old.pending } }
    {
        if let (Command::Write(file, index, _), Some(digest)) = (command, self.digest) {
            self.pending.push_over(LogEntry {
                digest,
                file: *file,
                index: *index,
            });
        }
    }

    /// A host that was cut remembers no slot.
    pub fn forget_slots(&mut self, next: &Next)
        ensures { self.new ≡ record self.old { watch = looks_behind next.now self.old.watch } }
    {
        if let Next::Answered(Answer::Cut(_)) = next {
            self.watch = Watch::new();
        }
    }
}

// Whether a host has no pending hints behind this answer: it was dropped, or has joined.
fn loses(answer: &Answer, command: &Command) -> bool
    ensures { result ≡ loses answer.now command.now }
{
    match answer {
        Answer::Joined(_) | Answer::Cut(_) => true,
        Answer::Fine => match command {
            Command::Leave => true,
            Command::Die(calls) => *calls == 0,
            _ => false,
        },
        Answer::Busy(_) | Answer::NoKeys => matches!(command, Command::Join),
        _ => false,
    }
}
