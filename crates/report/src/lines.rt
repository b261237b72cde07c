// The lines of the report.
ghost use Rattle.std.specs.Prelude.{◌≡◌, ◌<◌, ◌++◌, ◌∷◌, [], All, IfOk, IsSome, OnOk, decimal, length, map, string_bytes};
ghost use Rattle.std.specs.List.{flat_map};
ghost use Rattle.std.specs.Option.{option_copied};
ghost use Rattle.report.specs.Reports.{answer_line, answer_lines, history_line, line_number, report, usage_line, usage_lines};
ghost use Rattle.workload.specs.Printed.{ended};

use crate::answers::{write_answer, write_word};
use image_view::Usage;
use plain_files::Placed;
use std::alloc::{AllocError, Global};
use vol_base::{Answer, NoMemory};
use workload::{Line, Workload, write_numbers};

/// The report of a run of the workload: for each of its lines the answer at that position, then the
/// line numbers of the history's entries in their order, then the usage, if there is one.
pub fn text(
    alloc: Global,
    workload: &Workload,
    answers: &[Option<Answer>],
    history: &[Placed],
    usage: Option<&Usage>,
) -> Result<Vec<u8>, NoMemory>
    requires positions { length answers.now ≡ length workload.now.lines }
    requires answered { All (λ answer. IsSome answer) answers.now }
    requires placed { All (λ entry. entry.line < length workload.now.lines) history.now }
    ensures report { IfOk result (λ bytes. bytes.items ≡ report workload.now answers.now history.now (option_copied usage.entry)) }
{
    let mut text = String::new(alloc);
    match write_report(alloc, &mut text, workload, answers, history, usage) {
        Ok(()) => Ok(text.into_bytes()),
        Err(_) => Err(NoMemory),
    }
}

fn write_report(
    alloc: Global,
    text: &mut String,
    workload: &Workload,
    answers: &[Option<Answer>],
    history: &[Placed],
    usage: Option<&Usage>,
) -> Result<(), AllocError>
    requires positions { length answers.now ≡ length workload.now.lines }
    requires placed { All (λ entry. entry.line < length workload.now.lines) history.now }
    ensures { OnOk result (string_bytes text.new
        ≡ string_bytes text.old ++ report workload.now answers.now history.now (option_copied usage.entry)) }
{
    let lines = workload.lines.as_slice();
    write_answers(alloc, text, lines, answers)?;
    write_history(text, lines, history)?;
    write_usage(text, usage)
}

fn write_answers(
    alloc: Global,
    text: &mut String,
    lines: &[Line],
    answers: &[Option<Answer>],
) -> Result<(), AllocError>
    requires { length answers.now ≡ length lines.now }
    ensures { OnOk result (string_bytes text.new ≡ string_bytes text.old ++ ended (answer_lines lines.now answers.now)) }
{
    for (index, line) in lines.iter().enumerate() {
        write_answer_line(alloc, text, line, &answers[index])?;
    }
    Ok(())
}

fn write_answer_line(
    alloc: Global,
    text: &mut String,
    line: &Line,
    answer: &Option<Answer>,
) -> Result<(), AllocError>
    ensures { OnOk result (string_bytes text.new ≡ string_bytes text.old ++ (answer_line (line.now, answer.now) ++ 10 ∷ [])) }
{
    let at = line.at;
    write!(text, "{at} ")?;
    if let Some(answer) = answer {
        write_answer(alloc, text, answer)?;
    }
    text.push_str("\n")
}

fn write_history(text: &mut String, lines: &[Line], history: &[Placed]) -> Result<(), AllocError>
    requires { All (λ entry. entry.line < length lines.now) history.now }
    ensures { OnOk result (string_bytes text.new ≡ string_bytes text.old ++ (history_line lines.now history.now ++ 10 ∷ [])) }
{
    text.push_str("history")?;
    write_positions(text, lines, history)?;
    text.push_str("\n")
}

fn write_positions(text: &mut String, lines: &[Line], history: &[Placed]) -> Result<(), AllocError>
    requires { All (λ entry. entry.line < length lines.now) history.now }
    ensures { OnOk result (string_bytes text.new
        ≡ string_bytes text.old ++ flat_map (λ n. 32 ∷ decimal n) (map (λ entry. line_number lines.now entry.line) history.now)) }
{
    for entry in history {
        let at = line_number(lines, entry.line);
        write_numbers(text, &[u64::from(at)])?;
    }
    Ok(())
}

fn line_number(lines: &[Line], position: u32) -> u32
    requires { position < length lines.now }
    ensures { result ≡ line_number lines.now position }
{
    lines[position as usize].at
}

// The line of a usage, if there is one.
fn write_usage(text: &mut String, usage: Option<&Usage>) -> Result<(), AllocError>
    ensures { OnOk result (string_bytes text.new ≡ string_bytes text.old ++ ended (usage_lines (option_copied usage.entry))) }
{
    match usage {
        Some(usage) => write_usage_line(text, usage),
        None => Ok(()),
    }
}

/// Writes the line of a usage.
pub fn write_usage_line(text: &mut String, usage: &Usage) -> Result<(), AllocError>
    ensures { OnOk result (string_bytes text.new ≡ string_bytes text.old ++ (usage_line usage.now ++ 10 ∷ [])) }
{
    write_word(text, "used", &[u64::from(usage.used)])?;
    write_word(text, " mapped", &[u64::from(usage.mapped)])?;
    text.push_str("\n")
}
