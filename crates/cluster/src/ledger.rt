// What came to be known in a run: the answers, the history, and both in the order in which they came.
ghost use Rattle.std.specs.Prelude.{◌≡◌, ◌*◌, ◌++◌, ◌∷◌, ◌<◌, ◌≤◌, IfOk, None, Some, [], length, replicate, slice_get, slice_set};
ghost use Rattle.host_runs.specs.RunStates as runs;
ghost use Rattle.host_runs.specs.RunStates.{answered, entry_at, events_at};

use crate::mark::Mark;
use crate::seat::Done;
use plain_files::Placed;
use std::alloc::{AllocError, Global};
use std::marker::Model;
use vol_base::Answer;

/// The answers of a workload's lines by position, the history, and the entries and answers in the order in which they came, of which it
/// keeps marks alone. Its room is taken when it is made.
#[derive(Drop)]
pub struct Ledger {
    answers: Vec<Option<Answer>>,
    history: Vec<Placed>,
    marks: Vec<Mark>,
}

impl Model for Ledger {
    ghost use Rattle.std.specs.Prelude.{◌*◌, ◌<◌, ◌≤◌, All, length, vec_capacity};
    ghost use Rattle.cluster.specs.Events.{IsMark, ledger_of};
    ghost use Rattle.cluster.specs.Views.{LedgerView};

    ghost Value = { LedgerView };

    ghost view = { λ ledger. ledger_of ledger.answers.items ledger.history.items ledger.marks.items };

    ghost invariant = { λ ledger. (length ledger.answers.items < 4294967296) × (length ledger.answers.items ≤ vec_capacity ledger.history) × (2 * length ledger.answers.items ≤ vec_capacity ledger.marks) × All (IsMark ledger.answers.items ledger.history.items) ledger.marks.items };
}

impl Ledger {
    /// The ledger of so many lines, of which none has an answer.
    pub fn new(alloc: Global, lines: usize) -> Result<Ledger, AllocError>
        requires { lines < 4294967296 }
        ensures { IfOk result (λ ledger. ledger ≡ record { answers = replicate lines None; history = []; events = [] }) }
    {
        Ok(Ledger {
            answers: vec![in alloc; None; lines]?,
            history: Vec::with_capacity(alloc, lines)?,
            marks: Vec::with_capacity(alloc, 2 * lines)?,
        })
    }

    /// The answers by position.
    pub fn answers(&self) -> &[Option<Answer>]
        ensures { result.now ≡ self.now.answers }
    {
        self.answers.as_slice()
    }

    /// The history.
    pub fn history(&self) -> &[Placed]
        ensures { result.now ≡ self.now.history }
    {
        self.history.as_slice()
    }

    /// The number of events.
    pub fn events(&self) -> u64
        ensures { result ≡ length self.now.events }
    {
        self.marks.len() as u64
    }

    /// Notes what a turn did for the line at a position, which has no answer: its entry, and then its answer. It takes no memory.
    pub fn note(&mut self, position: u32, done: &Done)
        requires without { slice_get self.old.answers position ≡ Some None }
        requires entries { length (self.old.history ++ entry_at position done.now.placed) ≤ length self.old.answers }
        requires events { length (self.old.events ++ events_at position done.now.placed done.now.ended) ≤ 2 * length self.old.answers }
        ensures { self.new ≡ record { answers = answered position done.now.ended self.old.answers; history = self.old.history ++ entry_at position done.now.placed; events = self.old.events ++ events_at position done.now.placed done.now.ended } }
    {
        if let Some(reply) = done.placed {
            self.enter(Placed {
                line: position,
                reply,
            });
        }
        if let Some(answer) = done.ended {
            self.answer(position, answer);
        }
    }

    // The next entry of the history.
    fn enter(&mut self, entry: Placed)
        requires entries { length self.old.history < length self.old.answers }
        requires events { length self.old.events < 2 * length self.old.answers }
        ensures { self.new ≡ record self.old { history = self.old.history ++ entry ∷ []; events = self.old.events ++ runs.Entered entry ∷ [] } }
    {
        let number = self.history.as_slice().len() as u32;
        self.history.push_reserved(entry);
        self.marks.push_reserved(Mark::Entered(number));
    }

    // The answer at a position.
    fn answer(&mut self, position: u32, answer: Answer)
        requires without { slice_get self.old.answers position ≡ Some None }
        requires events { length self.old.events < 2 * length self.old.answers }
        ensures { self.new ≡ record self.old { answers = slice_set self.old.answers position (Some answer); events = self.old.events ++ runs.Answered position answer ∷ [] } }
    {
        self.answers[position as usize] = Some(answer);
        self.marks.push_reserved(Mark::Answered(position));
    }

    /// The answers and the history.
    pub fn into_lists(self) -> (Vec<Option<Answer>>, Vec<Placed>)
        ensures answers { result.0.items ≡ self.answers }
        ensures history { result.1.items ≡ self.history }
    {
        (self.answers, self.history)
    }
}
