// The words of the command line.
ghost use Rattle.std.specs.Prelude.{◌≤◌};

use std::alloc::Global;
use std::env::Args;

/// Which lock hands the value on.
#[derive(Clone, Copy, PartialEq, Eq)]
pub enum Lock {
    Turn,
    Mutex,
}

/// What is to be done: so many threads hold the value so often each.
#[derive(Drop)]
pub struct Work {
    pub lock: Lock,
    pub threads: u16,
    pub holds: u32,
    pub ghost some: { 1 ≤ threads },
}

impl Work {
    pub fn all_holds(&self) -> u64 {
        u64::from(self.threads) * u64::from(self.holds)
    }
}

/// The work that the words ask for: a lock, a number of threads above 0, and a number of holds.
pub fn read(mut words: Args<Global>) -> Option<Work> {
    let lock = match words.next()?.as_str() {
        "turn" => Lock::Turn,
        "mutex" => Lock::Mutex,
        _ => return None,
    };
    let threads = words.next()?.parse::<u16>().ok()?;
    let holds = words.next()?.parse::<u32>().ok()?;
    if threads == 0 || words.next().is_some() {
        return None;
    }
    Some(Work {
        lock,
        threads,
        holds,
    })
}
