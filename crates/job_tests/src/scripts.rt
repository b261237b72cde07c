// Workloads with their answers.
use std::alloc::{AllocError, Global};

/// A workload, and what its run writes.
#[derive(Drop)]
pub struct Script {
    pub text: String,
    pub written: String,
}

/// Reads a workload in which ` -> ` and its answer stand behind each command. Behind an empty line stands what is written behind the
/// answers.
pub fn script_of(alloc: Global, script: &str) -> Result<Script, AllocError> {
    let (lines, rest) = script.split_once("\n\n").unwrap_or((script, ""));
    let mut read = Script {
        text: String::new(alloc),
        written: String::new(alloc),
    };
    for (k, line) in lines.lines().enumerate() {
        add_line(&mut read, k.saturating_add(1), line)?;
    }
    read.written.push_str(rest)?;
    Ok(read)
}

fn add_line(read: &mut Script, number: usize, line: &str) -> Result<(), AllocError> {
    let (command, answer) = line.split_once(" -> ").unwrap_or((line, ""));
    write!(read.text, "{command}\n")?;
    if !answer.is_empty() {
        write!(read.written, "{number} {answer}\n")?;
    }
    Ok(())
}
