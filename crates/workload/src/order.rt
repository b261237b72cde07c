// The lines behind the first.
ghost use Rattle.std.specs.Prelude.{◌≡◌, ◌<◌, ◌^◌, Some, None, if◌then◌else◌, nat_lt, length, slice_index};
ghost use Rattle.std.specs.Option.{option_copied};
ghost use Rattle.workload.specs.Entries.{barrier_of, entry_of, order, order_of_arguments, order_of_words};
ghost use Rattle.workload.specs.Ranges.{is_in_range, is_own};
ghost use Rattle.workload.specs.Texts.{words_left};
ghost use Rattle.workload.specs.Verbs.{command_of};

use crate::cause::WorkloadNo;
use crate::entry::Entry;
use crate::number::{Numbers, read_number, read_numbers};
use crate::verb::Verb;
use crate::words::{count_words, is_shaped, split_word};
use vol_base::{Command, HostNo};
use vol_layout::Geometry;

const MOST_COMMANDS: usize = 16_384;

/// What a line says that stands behind `before` commands, or the first cause why it says nothing.
#[tactic(auto, unfolding(crate::specs::Entries::entry_of, crate::specs::Entries::entry_of_words))]
pub fn read_entry(geometry: &Geometry, before: usize, line: &[u8]) -> Result<Entry, WorkloadNo>
    ensures { result ≡ entry_of geometry.now before line.now }
{
    if !is_shaped(line) {
        return Err(WorkloadNo::Shape);
    }
    let (first, rest) = split_word(line);
    if first == b"barrier".as_slice() {
        return read_barrier(rest);
    }
    match read_number(first) {
        Some(host) => read_order(geometry, before, host, rest),
        None => Err(WorkloadNo::Number),
    }
}

fn read_barrier(left: Option<&[u8]>) -> Result<Entry, WorkloadNo>
    ensures { result ≡ barrier_of (words_left (option_copied left.entry)) }
{
    if count_words(left) == 0 {
        Ok(Entry::Barrier)
    } else {
        Err(WorkloadNo::Count)
    }
}

#[tactic(auto, unfolding(crate::specs::Entries::order_of_words))]
fn read_order(
    geometry: &Geometry,
    before: usize,
    host: u64,
    left: Option<&[u8]>,
) -> Result<Entry, WorkloadNo>
    ensures { result ≡ order_of_words geometry.now before host (words_left (option_copied left.entry)) }
{
    let Some(rest) = left else {
        return Err(WorkloadNo::Word);
    };
    let (name, args) = split_word(rest);
    match Verb::of(name) {
        Some(verb) => read_arguments(geometry, before, host, verb, args),
        None => Err(WorkloadNo::Word),
    }
}

#[tactic(auto, unfolding(crate::specs::Entries::order_of_arguments, crate::specs::Entries::order))]
fn read_arguments(
    geometry: &Geometry,
    before: usize,
    host: u64,
    verb: Verb,
    left: Option<&[u8]>,
) -> Result<Entry, WorkloadNo>
    ensures { result ≡ order_of_arguments geometry.now before host verb (words_left (option_copied left.entry)) }
{
    if count_words(left) != verb.arity() {
        return Err(WorkloadNo::Count);
    }
    match read_numbers(left) {
        Some(numbers) => allowed(geometry, before, host, verb, &numbers),
        None => Err(WorkloadNo::Number),
    }
}

#[tactic(auto, unfolding(crate::specs::Entries::order, crate::specs::Entries::most_commands))]
fn allowed(
    geometry: &Geometry,
    before: usize,
    host: u64,
    verb: Verb,
    numbers: &Numbers,
) -> Result<Entry, WorkloadNo>
    ensures { result ≡ order geometry.now before host (command_of verb (slice_index numbers.now 0) (slice_index numbers.now 1) (slice_index numbers.now 2)) }
{
    let Some(host) = below(host, geometry.hosts) else {
        return Err(WorkloadNo::Range);
    };
    let [first, second, third] = [numbers.at(0), numbers.at(1), numbers.at(2)];
    let Some(command) = command(geometry, verb, first, second, third) else {
        return Err(WorkloadNo::Range);
    };
    if is_own(host, &command) {
        Err(WorkloadNo::Own)
    } else if before < MOST_COMMANDS {
        Ok(Entry::Order(host, command))
    } else {
        Err(WorkloadNo::Many)
    }
}

// The command of a name and its arguments, or `None` where an argument is out of its range.
fn command(geometry: &Geometry, verb: Verb, first: u64, second: u64, third: u64) -> Option<Command>
    ensures { result ≡ (if is_in_range geometry.now (command_of verb first second third) then Some (command_of verb first second third) else None) }
{
    match verb {
        Verb::Join => Some(Command::Join),
        Verb::Leave => Some(Command::Leave),
        Verb::Create => Some(Command::Create(below(first, geometry.files)?)),
        Verb::Size => Some(Command::Size(below(first, geometry.files)?, narrow(second)?)),
        Verb::Write => Some(Command::Write(below(first, geometry.files)?, narrow(second)?, third)),
        Verb::Read => Some(Command::Read(below(first, geometry.files)?, narrow(second)?)),
        Verb::Punch => Some(Command::Punch(below(first, geometry.files)?, narrow(second)?)),
        Verb::Remove => Some(Command::Remove(below(first, geometry.files)?)),
        Verb::Close => Some(Command::Close(below(first, geometry.files)?)),
        Verb::Log => Some(Command::Log),
        Verb::Scan => Some(Command::Scan(below(first, geometry.files)?, narrow(second)?)),
        Verb::Merge => Some(Command::Merge),
        Verb::Serve => Some(Command::Serve),
        Verb::Collect => Some(Command::Collect(below(first, geometry.parts)?)),
        Verb::Beat => Some(Command::Beat),
        Verb::Look => Some(Command::Look(below(first, geometry.hosts)?)),
        Verb::Recover => Some(Command::Recover(below(first, geometry.hosts)?)),
        Verb::Die => Some(Command::Die(narrow(first)?)),
        Verb::Scribble => Some(Command::Scribble(first, second, narrow(third)?)),
    }
}

fn is_own(host: HostNo, command: &Command) -> bool
    ensures { result ≡ is_own host command.now }
{
    match *command {
        Command::Look(other) | Command::Recover(other) => host == other,
        _ => false,
    }
}

fn below(number: u64, limit: u8) -> Option<u8>
    ensures { result ≡ (if nat_lt number limit then Some number else None) }
{
    match u8::try_from(number) {
        Ok(narrow) if narrow < limit => Some(narrow),
        _ => None,
    }
}

fn narrow(number: u64) -> Option<u32>
    ensures { result ≡ (if nat_lt number (2 ^ 32) then Some number else None) }
{
    u32::try_from(number).ok()
}
