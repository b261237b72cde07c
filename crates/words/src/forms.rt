// The forms that words may have.
ghost use Rattle.std.specs.Prelude.{◌≡◌, ◌<◌, ◌≤◌, ◌∷◌, [], IfSome, is_some, map, string_bytes};
ghost use Rattle.std.specs.List.{list_all};
ghost use Rattle.words.specs.Words.{HasRounds, digit_of, generation_of, host_of, is_plain, is_schedule, job_named, job_of, rounds_of};

use vol_base::HostNo;

/// A job of the program.
#[derive(Clone, Copy, Debug, PartialEq, Eq)]
pub enum Job {
    /// Runs the workload that the source gives.
    Sim,
    /// Runs it with a thread for each host.
    Run,
    /// Checks the volume.
    Check,
    /// Makes all equal live blocks of the volume share one data block.
    Settle,
    /// Writes the generated workload of so many rounds, from 1 to 100.
    Gen(u32),
}

// The most words of a schedule.
const MOST_HOSTS: usize = 65_536;

/// The job of the words behind the program's name: `VOLUME sim HOST..`, `VOLUME run`, `VOLUME check`, `VOLUME settle` or `VOLUME gen N`, where
/// VOLUME is not empty and does not begin with `-`, each HOST is a number from `0` to `15`, and N one from `1` to `100`. For any
/// other words it answers `None`.
pub fn job_of(words: &[String]) -> Option<Job>
    ensures job { result ≡ job_of (map string_bytes words.now) }
    ensures rounds { IfSome result HasRounds }
{
    match words {
        [volume, name, ..] if is_plain(volume.as_str()) => job_named(name.as_str(), &words[2..]),
        _ => None,
    }
}

fn is_plain(word: &str) -> bool
    ensures { result ≡ is_plain word.now }
{
    match word.as_bytes().first() {
        Some(byte) => *byte != b'-',
        None => false,
    }
}

fn job_named(name: &str, rest: &[String]) -> Option<Job>
    ensures job { result ≡ job_named name.now (map string_bytes rest.now) }
    ensures rounds { IfSome result HasRounds }
{
    if name == "sim" && is_schedule(rest) {
        Some(Job::Sim)
    } else if name == "run" && rest.is_empty() {
        Some(Job::Run)
    } else if name == "check" && rest.is_empty() {
        Some(Job::Check)
    } else if name == "settle" && rest.is_empty() {
        Some(Job::Settle)
    } else if name == "gen" {
        generation_of(rest)
    } else {
        None
    }
}

fn generation_of(words: &[String]) -> Option<Job>
    ensures job { result ≡ generation_of (map string_bytes words.now) }
    ensures rounds { IfSome result HasRounds }
{
    match words {
        [word] => match rounds_of(word.as_str()) {
            Some(rounds) => Some(Job::Gen(rounds)),
            None => None,
        },
        _ => None,
    }
}

// The rounds that a word names.
fn rounds_of(word: &str) -> Option<u32>
    ensures rounds { result ≡ rounds_of word.now }
    ensures range { IfSome result (λ rounds. (1 ≤ rounds) × (rounds ≤ 100)) }
{
    match word.as_bytes() {
        [ones] => one_digit(*ones),
        [tens, ones] => two_digits(*tens, *ones),
        [b'1', b'0', b'0'] => Some(100),
        _ => None,
    }
}

fn one_digit(ones: u8) -> Option<u32>
    ensures rounds { result ≡ rounds_of (ones ∷ []) }
    ensures range { IfSome result (λ rounds. (1 ≤ rounds) × (rounds ≤ 100)) }
{
    if b'1' <= ones && ones <= b'9' {
        Some(u32::from(ones - b'0'))
    } else {
        None
    }
}

fn two_digits(tens: u8, ones: u8) -> Option<u32>
    ensures rounds { result ≡ rounds_of (tens ∷ ones ∷ []) }
    ensures range { IfSome result (λ rounds. (1 ≤ rounds) × (rounds ≤ 100)) }
{
    if b'1' <= tens && tens <= b'9' && b'0' <= ones && ones <= b'9' {
        Some(10 * u32::from(tens - b'0') + u32::from(ones - b'0'))
    } else {
        None
    }
}

fn is_schedule(words: &[String]) -> bool
    ensures { result ≡ is_schedule (map string_bytes words.now) }
{
    words.len() <= MOST_HOSTS && are_hosts(words)
}

fn are_hosts(words: &[String]) -> bool
    ensures { result ≡ list_all (λ word. is_some (host_of (string_bytes word))) words.now }
{
    words.iter().all(|word| host_of(word.as_str()).is_some())
}

/// The host that a word names.
pub(crate) fn host_of(word: &str) -> Option<HostNo>
    ensures { result ≡ host_of word.now }
{
    match word.as_bytes() {
        [digit] => digit_of(0, 9, *digit),
        [b'1', digit] => digit_of(10, 5, *digit),
        _ => None,
    }
}

// The number that a digit of at most this value makes of the tens before it.
fn digit_of(tens: u8, most: u8, digit: u8) -> Option<HostNo>
    requires tens { tens < 11 }
    requires most { most < 10 }
    ensures { result ≡ digit_of tens most digit }
{
    if b'0' <= digit && digit <= b'0' + most {
        Some(tens + (digit - b'0'))
    } else {
        None
    }
}
