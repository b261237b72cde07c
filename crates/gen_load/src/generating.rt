// Writing a generated workload.
ghost use Rattle.std.specs.Prelude.{◌≡◌, ◌+◌, ◌*◌, ◌^◌, ◌<◌, ◌≤◌, ◌∷◌, ◌++◌, [], IfOk, OnOk, codes, string_bytes};
ghost use Rattle.gen_load.specs.Generated.{Gains, command_line, each_below, ending_lines, file_lines, generated, generated_lines, host_lines, log_lines, round_lines, start_lines, write_line};

use std::alloc::{AllocError, Global};
use vol_base::NoMemory;
use workload::write_numbers;

// Each host has the files whose number modulo this is its own, so it has so many too.
const HOSTS: u64 = 4;

// How many blocks a host writes in a round.
const WRITES: u64 = 10;

// How many indexes of a host's files belong to a round.
const INDEXES: u64 = 3;

// The numbers that are written are 1 to this.
const CONTENTS: u64 = 101;

// A host logs its hints in the last of so many rounds.
const ROUNDS_A_LOG: u64 = 10;

/// The text of a workload of so many rounds, each a phase, between a phase that makes the files, one
/// that merges and one that serves. Its rules are in docs/COMMANDS.md, "The generated workload".
pub fn gen_text(alloc: Global, rounds: u32) -> Result<Vec<u8>, NoMemory>
    requires some { 1 ≤ rounds }
    requires bounded { rounds ≤ 100 }
    ensures { IfOk result (λ bytes. bytes.items ≡ generated rounds) }
{
    let mut text = String::new(alloc);
    match write_workload(&mut text, u64::from(rounds)) {
        Ok(()) => Ok(text.into_bytes()),
        Err(_) => Err(NoMemory),
    }
}

fn write_workload(text: &mut String, rounds: u64) -> Result<(), AllocError>
    requires { rounds ≤ 100 }
    ensures { OnOk result (Gains text.old text.new (generated_lines rounds)) }
{
    write_line(text, "volume 4 16 4 4 8 4")?;
    write_starts(text, rounds)?;
    write_rounds(text, rounds)?;
    write_ending(text, "merge")?;
    write_ending(text, "serve")
}

fn write_starts(text: &mut String, rounds: u64) -> Result<(), AllocError>
    requires { rounds ≤ 100 }
    ensures { OnOk result (Gains text.old text.new (each_below 4 (start_lines rounds))) }
{
    for host in 0..HOSTS {
        write_start(text, rounds, host)?;
    }
    Ok(())
}

fn write_start(text: &mut String, rounds: u64, host: u64) -> Result<(), AllocError>
    requires rounds { rounds ≤ 100 }
    requires host { host < 4 }
    ensures { OnOk result (Gains text.old text.new (start_lines rounds host)) }
{
    write_command(text, host, "join", &[])?;
    write_files(text, rounds, host)
}

fn write_files(text: &mut String, rounds: u64, host: u64) -> Result<(), AllocError>
    requires rounds { rounds ≤ 100 }
    requires host { host < 4 }
    ensures { OnOk result (Gains text.old text.new (each_below 4 (λ q. file_lines rounds host (4 * q + host)))) }
{
    for quarter in 0..HOSTS {
        write_file(text, rounds, host, HOSTS * quarter + host)?;
    }
    Ok(())
}

fn write_file(text: &mut String, rounds: u64, host: u64, file: u64) -> Result<(), AllocError>
    requires { rounds ≤ 100 }
    ensures { OnOk result (Gains text.old text.new (file_lines rounds host file)) }
{
    write_command(text, host, "create", &[file])?;
    write_command(text, host, "size", &[file, INDEXES * rounds])
}

fn write_rounds(text: &mut String, rounds: u64) -> Result<(), AllocError>
    requires { rounds ≤ 100 }
    ensures { OnOk result (Gains text.old text.new (each_below rounds round_lines)) }
{
    for round in 0..rounds {
        write_round(text, round)?;
    }
    Ok(())
}

fn write_round(text: &mut String, round: u64) -> Result<(), AllocError>
    requires { round < 100 }
    ensures { OnOk result (Gains text.old text.new (round_lines round)) }
{
    write_line(text, "barrier")?;
    write_turns(text, round)
}

fn write_turns(text: &mut String, round: u64) -> Result<(), AllocError>
    requires { round < 100 }
    ensures { OnOk result (Gains text.old text.new (each_below 4 (host_lines round))) }
{
    for host in 0..HOSTS {
        write_turn(text, round, host)?;
    }
    Ok(())
}

// What a host does in a round.
fn write_turn(text: &mut String, round: u64, host: u64) -> Result<(), AllocError>
    requires round { round < 100 }
    requires host { host < 4 }
    ensures { OnOk result (Gains text.old text.new (host_lines round host)) }
{
    write_blocks(text, round, host)?;
    write_command(text, host, "read", &[host, INDEXES * round])?;
    write_log(text, round, host)
}

fn write_blocks(text: &mut String, round: u64, host: u64) -> Result<(), AllocError>
    requires round { round < 100 }
    requires host { host < 4 }
    ensures { OnOk result (Gains text.old text.new (each_below 10 (λ k. write_line round host k ∷ []))) }
{
    for k in 0..WRITES {
        write_block(text, round, host, k)?;
    }
    Ok(())
}

fn write_block(text: &mut String, round: u64, host: u64, k: u64) -> Result<(), AllocError>
    requires round { round < 100 }
    requires host { host < 4 }
    requires k { k < 10 }
    ensures { OnOk result (string_bytes text.new ≡ string_bytes text.old ++ (write_line round host k ++ 10 ∷ [])) }
{
    let file = HOSTS * (k % HOSTS) + host;
    let index = INDEXES * round + k / HOSTS;
    let number = 1 + (WRITES * round + k) * (host + 1) % CONTENTS;
    write_command(text, host, "write", &[file, index, number])
}

fn write_log(text: &mut String, round: u64, host: u64) -> Result<(), AllocError>
    ensures { OnOk result (Gains text.old text.new (log_lines round host)) }
{
    if round % ROUNDS_A_LOG == ROUNDS_A_LOG - 1 {
        return write_command(text, host, "log", &[]);
    }
    Ok(())
}

// A phase in which each host has this command.
fn write_ending(text: &mut String, name: &str) -> Result<(), AllocError>
    ensures { OnOk result (Gains text.old text.new (ending_lines name.now)) }
{
    write_line(text, "barrier")?;
    write_for_each_host(text, name)
}

fn write_for_each_host(text: &mut String, name: &str) -> Result<(), AllocError>
    ensures { OnOk result (Gains text.old text.new (each_below 4 (λ host. command_line host name.now [] ∷ []))) }
{
    for host in 0..HOSTS {
        write_command(text, host, name, &[])?;
    }
    Ok(())
}

fn write_command(
    text: &mut String,
    host: u64,
    name: &str,
    numbers: &[u64],
) -> Result<(), AllocError>
    ensures { OnOk result (string_bytes text.new ≡ string_bytes text.old ++ (command_line host name.now numbers.now ++ 10 ∷ [])) }
{
    write!(text, "{host} {name}")?;
    write_numbers(text, numbers)?;
    text.push_str("\n")
}

fn write_line(text: &mut String, line: &str) -> Result<(), AllocError>
    ensures { OnOk result (string_bytes text.new ≡ string_bytes text.old ++ (line.now ++ 10 ∷ [])) }
{
    text.push_str(line)?;
    text.push_str("\n")
}
