// Reading a text.
ghost use Rattle.std.specs.Prelude.{◌≡◌, ◌<◌, ◌≤◌, ◌+◌, ◌^◌, ◌++◌, ℕ, Ok, Err, IfOk, OnOk, length, vec_len};
ghost use Rattle.workload.specs.Grammar.{Gives, commands_in, line_of, most_bytes, phase_behind, workload_behind, workload_of};
ghost use Rattle.workload.specs.Printed.{text_lines};
ghost use Rattle.workload.specs.Texts.{lines_of};
ghost use Rattle.workload.specs.Workloads.{IsWorkload};

use crate::cause::{ParseNo, WorkloadNo};
use crate::entry::Entry;
use crate::line::{Line, Lines, Workload};
use crate::order::read_entry;
use crate::volume::read_volume;
use crate::words::split_line;
use std::alloc::Global;
use vol_base::NoMemory;
use vol_layout::Geometry;

const MOST_BYTES: usize = 1_048_576;

/// The workload of a text, or the first faulty line and its first cause. It takes memory for the
/// workload's lines alone.
pub fn parse(alloc: Global, text: &[u8]) -> Result<Workload, ParseNo>
    ensures ok { IfOk result (λ workload. workload_of text.now ≡ Ok workload) }
    // The text's lines are those that the workload is written as.
    ensures written { IfOk result (λ workload. lines_of text.now ≡ text_lines workload) }
    ensures in_range { IfOk result IsWorkload }
    // Each text of a workload in range is read as it.
    ensures complete { (workload : Workload) → IsWorkload workload → lines_of text.now ≡ text_lines workload
        → length text.now ≤ most_bytes → Gives (Ok workload) result }
    ensures refused { (line : ℕ) (cause : WorkloadNo) → result ≡ Err (ParseNo.Refused line cause) → workload_of text.now ≡ Err (line, cause) }
{
    read(alloc, text)
}

#[tactic(auto, unfolding(crate::specs::Grammar::workload_of, crate::specs::Grammar::most_bytes, crate::specs::Grammar::workload_of_lines))]
fn read(alloc: Global, text: &[u8]) -> Result<Workload, ParseNo>
    ensures { Gives (workload_of text.now) result }
{
    if text.len() > MOST_BYTES {
        return Err(refused(0, WorkloadNo::Long));
    }
    let Some((first, rest)) = split_line(text) else {
        return Err(refused(1, WorkloadNo::Volume));
    };
    match read_volume(first) {
        Ok(geometry) => read_lines(alloc, geometry, rest),
        Err(cause) => Err(refused(1, cause)),
    }
}

// The workload of a volume and of the text behind its first line.
fn read_lines(alloc: Global, geometry: Geometry, text: &[u8]) -> Result<Workload, ParseNo>
    requires { length text.now ≤ 1048576 }
    ensures { Gives (workload_behind geometry (lines_of text.now)) result }
{
    let mut lines = Vec::new(alloc);
    let mut at = 2;
    let mut phase = 0;
    let mut rest = text;
    while let Some((line, after)) = split_line(rest) {
        let entry = match read_entry(&geometry, lines.len(), line) {
            Ok(entry) => entry,
            Err(cause) => return Err(refused(at, cause)),
        };
        let Ok(next) = add(&mut lines, at, phase, entry) else {
            return Err(ParseNo::NoMemory);
        };
        phase = next;
        at += 1;
        rest = after;
    }
    Ok(Workload {
        geometry,
        lines: Lines::from_vec(lines),
        phases: phase + 1,
    })
}

// Adds what a line says to the lines so far, and gives the phase behind it.
fn add(lines: &mut Vec<Line>, at: u32, phase: u32, entry: Entry) -> Result<u32, NoMemory>
    requires { phase + 1 < 2 ^ 32 }
    ensures lines { OnOk result (lines.new.items ≡ lines.old.items ++ line_of at phase entry) }
    ensures count { OnOk result (vec_len lines.new ≡ vec_len lines.old + commands_in entry) }
    ensures phase { IfOk result (λ next. next ≡ phase_behind phase entry) }
    ensures bound { IfOk result (λ next. next ≤ phase + 1) }
{
    match entry {
        Entry::Barrier => Ok(phase + 1),
        Entry::Order(host, command) => {
            let line = Line {
                at,
                phase,
                host,
                command,
            };
            match lines.push(line) {
                Ok(()) => Ok(phase),
                Err(_) => Err(NoMemory),
            }
        }
    }
}

fn refused(line: u32, cause: WorkloadNo) -> ParseNo
    ensures { result ≡ ParseNo.Refused line cause }
{
    ParseNo::Refused { line, cause }
}
