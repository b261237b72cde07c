// A line: what words of a form ask for, as the parser of command lines gives it.
ghost use Rattle.std.specs.Prelude.{◌≡◌, [], List, ℕ, IfErr, IfOk, Some, codes, filter_map, map, string_bytes, true, unwrap_or};
ghost use Rattle.clap.specs.Words.{all_of, app_of, first_of, found_of, kind_of, rows_of};
ghost use Rattle.words.specs.Lines.{Asks, form, is_line, rows_of_words};
ghost use Rattle.words.specs.Words.{host_of};

use crate::forms::{Job, host_of, job_of};
use clap::error::ErrorKind;
use clap::{Arg, ArgMatches, Command, Error};
use std::alloc::{AllocError, Global};
use vol_base::{HostNo, NoMemory};

/// What words of a form ask for.
#[derive(Debug, Drop)]
pub struct Line<'a> {
    /// The job.
    pub job: Job,
    /// The path of the volume.
    pub volume: &'a str,
    /// The hosts of a schedule, in the order of their words.
    pub hosts: Vec<HostNo>,
}

/// Why words give no line.
#[derive(Clone, Copy, Debug, PartialEq, Eq)]
pub enum LineNo {
    /// They are of no form.
    Usage,
    /// Memory was refused.
    NoMemory,
}

/// What the words behind the program's name ask for. Words that are of no form are refused before they are parsed, and words
/// of a form for want of memory alone.
pub fn asked<'a>(alloc: Global, words: &'a [String]) -> Result<Line<'a>, LineNo>
    ensures { Asks (map string_bytes words.now) result }
{
    let Some(job) = job_of(words) else {
        return Err(LineNo::Usage);
    };
    let matches = parsed(alloc, words)?;
    match hosts_in(alloc, &matches) {
        Ok(hosts) => Ok(Line {
            job,
            volume: volume_in(&matches),
            hosts,
        }),
        Err(NoMemory) => Err(LineNo::NoMemory),
    }
}

// The matches of the words.
fn parsed<'a>(alloc: Global, words: &'a [String]) -> Result<ArgMatches<'a>, LineNo>
    ensures given { IfOk result (λ matches.
        is_line (map string_bytes words.now) ≡ true → rows_of (found_of matches) ≡ rows_of_words (map string_bytes words.now)) }
    ensures memory { IfErr result (λ no. is_line (map string_bytes words.now) ≡ true → no ≡ LineNo.NoMemory) }
{
    let Ok(form) = form(alloc) else {
        return Err(LineNo::NoMemory);
    };
    match form.try_get_matches_from(words) {
        Ok(matches) => Ok(matches),
        Err(error) => Err(refusal(&error)),
    }
}

// A volume, the name of a job, and any number of words.
fn form<'a>(alloc: Global) -> Result<Command<'a>, AllocError>
    ensures { IfOk result (λ command. app_of command ≡ form) }
{
    let volume = Arg::new(alloc, "volume").required(true);
    let job = Arg::new(alloc, "job").required(true);
    let args = Arg::new(alloc, "args").num_args(..);
    Command::new(alloc, "dede")
        .no_binary_name(true)
        .disable_help_flag(true)
        .arg(volume)?
        .arg(job)?
        .arg(args)
}

fn refusal(error: &Error) -> LineNo
    ensures { kind_of error.now ≡ ErrorKind.OutOfMemory → result ≡ LineNo.NoMemory }
{
    match error.kind() {
        ErrorKind::OutOfMemory => LineNo::NoMemory,
        _ => LineNo::Usage,
    }
}

fn volume_in<'a>(matches: &ArgMatches<'a>) -> &'a str
    ensures { (volume : List ℕ) → first_of (codes "volume") (rows_of (found_of matches.now)) ≡ Some volume → result.now ≡ volume }
{
    matches.get_str("volume").unwrap_or("")
}

fn hosts_in(alloc: Global, matches: &ArgMatches<'_>) -> Result<Vec<HostNo>, NoMemory>
    ensures { IfOk result (λ hosts.
        hosts.items ≡ filter_map host_of (unwrap_or (all_of (codes "args") (rows_of (found_of matches.now))) [])) }
{
    match matches.get_strs("args") {
        Some(words) => hosts_of(alloc, words),
        None => Ok(Vec::new(alloc)),
    }
}

fn hosts_of(alloc: Global, words: &[&str]) -> Result<Vec<HostNo>, NoMemory>
    ensures { IfOk result (λ hosts. hosts.items ≡ filter_map (λ word. host_of word.now) words.now) }
{
    let hosts = words
        .iter()
        .filter_map(|word| host_of(word))
        .collect(alloc)?;
    Ok(hosts)
}
