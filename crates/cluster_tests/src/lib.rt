//! Tests of `cluster` and `schedule`: runs of two hosts over a device in memory, turn by turn, and whole schedules.
#![tactic(auto)]

#[cfg(test)]
mod deaths;
#[cfg(test)]
mod rounds;
#[cfg(test)]
mod schedules;
#[cfg(test)]
mod turns;
