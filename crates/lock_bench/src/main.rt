// Hands one value from thread to thread, by the turn lock or by std's lock, and prints nothing. Its
// words are `turn` or `mutex`, a number of threads, and how often each of them holds the value.
#![tactic(auto)]

mod by_mutex;
mod by_turn_lock;
mod tally;
mod words;

use anyhow::{Context, Result, bail};
use std::env;
use words::{Lock, Work};

fn main(rt: HostRuntime) -> Result<()> {
    let alloc = rt.alloc();
    let mut given = env::args(&rt)?;
    let _program = given.next();
    let work = words::read(given).context("usage: lock_bench turn|mutex THREADS HOLDS")?;
    let holds = match work.lock {
        Lock::Turn => by_turn_lock::hold_all(&rt, alloc, &work),
        Lock::Mutex => by_mutex::hold_all(&rt, alloc, &work),
    };
    match holds {
        Ok(holds) if holds == work.all_holds() => Ok(()),
        Ok(holds) => bail!("{holds} holds"),
        Err(_) => bail!("no memory"),
    }
}
