// How many turns a phase has left at most.
ghost use Rattle.std.specs.Prelude.{◌≡◌, ◌*◌, ◌<◌, ◌^◌, IfOk, length, replicate, true};
ghost use Rattle.cluster.specs.Budgets.{CanCount, CanEnd, CanGoOn, counted, supplied_in, with_end, with_turn};
ghost use Rattle.cluster.specs.LinesLeft.{is_open, lines_left};

use std::alloc::{AllocError, Global};
use std::marker::Model;
use vol_base::{Answer, HostNo, Turn};
use workload::Line;

// No command has so many turns, the handing in of a digest among them.
const TURNS_OF_A_COMMAND: u64 = 268_435_456;

/// A number that each turn lowers by which a command begins, goes on or is answered: 2^28 for each line of the phase without an answer,
/// less the turns that the commands under way have used.
#[derive(Drop)]
pub struct Budget {
    // By host the turns that its command under way has used.
    used: Vec<u32>,
    left: u64,
}

impl Model for Budget {
    ghost use Rattle.cluster.specs.Views.{BudgetView};

    ghost Value = { BudgetView };

    ghost view = { λ budget. record { used = budget.used.items; left = budget.left } };
}

impl Budget {
    /// That of so many hosts, before a phase has begun.
    pub fn new(alloc: Global, hosts: HostNo) -> Result<Budget, AllocError>
        ensures { IfOk result (λ budget. budget ≡ record { used = replicate hosts 0; left = 0 }) }
    {
        Ok(Budget {
            used: vec![in alloc; 0; usize::from(hosts)]?,
            left: 0,
        })
    }

    /// The turns that are left.
    pub fn left(&self) -> u64
        ensures { result ≡ self.now.left }
    {
        self.left
    }

    /// A phase begins with so many lines.
    pub fn begin(&mut self, lines: u64)
        requires { lines < 4294967296 }
        ensures { self.new ≡ record self.old { left = lines * 2 ^ 28 } }
    {
        self.left = lines * TURNS_OF_A_COMMAND;
    }

    /// Counts a turn of a host.
    pub fn count(&mut self, host: HostNo, turn: &Turn)
        requires { CanCount self.old host turn.now }
        ensures { self.new ≡ counted self.old host turn.now }
    {
        match turn {
            Turn::Moved => self.go_on(host),
            Turn::Answered(_) => self.end(host),
            Turn::Work(_) | Turn::Idle => {}
        }
    }

    /// Counts a digest that is handed in, by which a command begins where the host waits for one.
    pub fn supply(&mut self, host: HostNo, waits: bool)
        requires { waits ≡ true → CanGoOn self.old host }
        ensures { self.new ≡ supplied_in self.old host waits }
    {
        if waits {
            self.go_on(host);
        }
    }

    // The command of a host begins or goes on.
    fn go_on(&mut self, host: HostNo)
        requires { CanGoOn self.old host }
        ensures { self.new ≡ with_turn self.old host }
    {
        self.used[usize::from(host)] += 1;
        self.left -= 1;
    }

    // It is answered, so no more of its turns are left.
    fn end(&mut self, host: HostNo)
        requires { CanEnd self.old host }
        ensures { self.new ≡ with_end self.old host }
    {
        let rest = TURNS_OF_A_COMMAND - u64::from(self.used[usize::from(host)]);
        self.used[usize::from(host)] = 0;
        self.left -= rest;
    }
}

/// How many lines of a phase have no answer.
pub fn lines_left(lines: &[Line], answers: &[Option<Answer>], phase: u32) -> u64
    requires few { length lines.now < 4294967296 }
    requires long { length answers.now ≡ length lines.now }
    ensures is { result ≡ lines_left lines.now answers.now phase }
    ensures few { result < 4294967296 }
{
    let mut left = 0;
    for (index, line) in lines.iter().enumerate() {
        if is_open(line, &answers[index], phase) {
            left += 1;
        }
    }
    left
}

// Whether it is a line of the phase, without an answer.
fn is_open(line: &Line, answer: &Option<Answer>, phase: u32) -> bool
    ensures { result ≡ is_open phase line.now answer.now }
{
    line.phase == phase && answer.is_none()
}
