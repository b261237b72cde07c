// Writing a workload.
ghost use Rattle.std.specs.Prelude.{◌≡◌, ◌≤◌, ◌-◌, ◌∷◌, ◌++◌, ℕ, List, [], Ok, IfOk, OnOk, codes, decimal, length, string_bytes};
ghost use Rattle.std.specs.List.{flat_map};
ghost use Rattle.workload.specs.Grammar.{most_bytes, workload_of};
ghost use Rattle.workload.specs.Printed.{IsPrintable, barrier_lines, command_text, ended, later_lines, text_of, volume_text};
ghost use Rattle.workload.specs.Verbs.{arguments};
ghost use Rattle.workload.specs.Workloads.{IsWorkload};

use crate::line::{Line, Workload};
use crate::verb::Verb;
use std::alloc::{AllocError, Global};
use vol_base::{Command, NoMemory};
use vol_layout::Geometry;

/// The text of a workload: its lines, each ended by LF. It reads as the workload again where that is
/// the workload of some text that ends with LF.
pub fn print(alloc: Global, workload: &Workload) -> Result<Vec<u8>, NoMemory>
    ensures text { IfOk result (λ bytes. bytes.items ≡ text_of workload.now) }
    // It is that text itself.
    ensures same { IfOk result (λ bytes. (front : List ℕ) → workload_of (front ++ 10 ∷ []) ≡ Ok workload.now → bytes.items ≡ front ++ 10 ∷ []) }
    ensures reads { IfOk result (λ bytes. IsPrintable workload.now → workload_of bytes.items ≡ Ok workload.now) }

    // So does each workload in range whose text is not too long.
    ensures in_range { IfOk result (λ bytes. IsWorkload workload.now → length bytes.items ≤ most_bytes → workload_of bytes.items ≡ Ok workload.now) }
{
    written(alloc, workload)
}

fn written(alloc: Global, workload: &Workload) -> Result<Vec<u8>, NoMemory>
    ensures { IfOk result (λ bytes. bytes.items ≡ text_of workload.now) }
{
    let mut text = String::new(alloc);
    match write_workload(&mut text, workload) {
        Ok(()) => Ok(text.into_bytes()),
        Err(_) => Err(NoMemory),
    }
}

#[tactic(auto, unfolding(crate::specs::Printed::text_lines, crate::specs::Printed::ended))]
fn write_workload(text: &mut String, workload: &Workload) -> Result<(), AllocError>
    ensures { OnOk result (string_bytes text.new ≡ string_bytes text.old ++ text_of workload.now) }
{
    write_volume(text, &workload.geometry)?;
    write_lines(text, workload.lines.as_slice(), workload.phases)
}

fn write_volume(text: &mut String, geometry: &Geometry) -> Result<(), AllocError>
    ensures { OnOk result (string_bytes text.new ≡ string_bytes text.old ++ (volume_text geometry.now ++ 10 ∷ [])) }
{
    let six = [
        u64::from(geometry.hosts),
        u64::from(geometry.files),
        u64::from(geometry.groups),
        u64::from(geometry.parts),
        u64::from(geometry.shards),
        u64::from(geometry.logs),
    ];
    text.push_str("volume")?;
    write_numbers(text, &six)?;
    if geometry.tables != 1 {
        write_numbers(text, &[u64::from(geometry.tables)])?;
    }
    text.push_str("\n")
}

// The lines behind the first, of so many phases.
fn write_lines(text: &mut String, lines: &[Line], phases: u32) -> Result<(), AllocError>
    ensures { OnOk result (string_bytes text.new ≡ string_bytes text.old ++ ended (later_lines 0 lines.now phases)) }
{
    let mut phase = 0;
    for line in lines {
        write_barriers(text, phase, line.phase)?;
        write_command(text, line)?;
        phase = line.phase;
    }
    write_barriers(text, phase, phases.saturating_sub(1))
}

// The lines that lead from a phase to a later one.
fn write_barriers(text: &mut String, from: u32, to: u32) -> Result<(), AllocError>
    ensures { OnOk result (string_bytes text.new ≡ string_bytes text.old ++ ended (barrier_lines (to - from))) }
{
    for _phase in from..to {
        text.push_str("barrier\n")?;
    }
    Ok(())
}

fn write_command(text: &mut String, line: &Line) -> Result<(), AllocError>
    ensures { OnOk result (string_bytes text.new ≡ string_bytes text.old ++ (command_text line.now ++ 10 ∷ [])) }
{
    let host = line.host;
    let name = Verb::in_command(&line.command).name();
    write!(text, "{host} {name}")?;
    write_arguments(text, &line.command)?;
    text.push_str("\n")
}

fn write_arguments(text: &mut String, command: &Command) -> Result<(), AllocError>
    ensures { OnOk result (string_bytes text.new ≡ string_bytes text.old ++ flat_map (λ n. 32 ∷ decimal n) (arguments command.now)) }
{
    match *command {
        Command::Create(number)
        | Command::Remove(number)
        | Command::Close(number)
        | Command::Collect(number)
        | Command::Look(number)
        | Command::Recover(number) => write_numbers(text, &[u64::from(number)]),
        Command::Size(file, number)
        | Command::Read(file, number)
        | Command::Punch(file, number)
        | Command::Scan(file, number) => {
            write_numbers(text, &[u64::from(file), u64::from(number)])
        }
        Command::Write(file, index, n) => {
            write_numbers(text, &[u64::from(file), u64::from(index), n])
        }
        Command::Die(calls) => write_numbers(text, &[u64::from(calls)]),
        Command::Scribble(place, n, seen) => { write_numbers(text, &[place, n, u64::from(seen)]) }
        _ => Ok(()),
    }
}

/// Adds the numbers to a text, with a space before each. After an `Err` a part of them may stand there.
pub fn write_numbers(text: &mut String, numbers: &[u64]) -> Result<(), AllocError>
    ensures { OnOk result (string_bytes text.new ≡ string_bytes text.old ++ flat_map (λ n. 32 ∷ decimal n) numbers.now) }
{
    for number in numbers {
        write!(text, " {number}")?;
    }
    Ok(())
}
