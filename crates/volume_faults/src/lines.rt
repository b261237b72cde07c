// The lines of faults.
ghost use Rattle.std.specs.Prelude.{◌≡◌, ◌++◌, IfOk, OnOk, string_bytes};
ghost use Rattle.volume_faults.specs.Texts.{cause_text, fault_line, faults_text};

use crate::fault::{Fault, FaultKind};
use std::alloc::{AllocError, Global};
use vol_base::NoMemory;

/// The text of the faults: for each of them, in their order, a line `volume block P: CAUSE` that ends
/// with a line feed, where P is the place of the block. `docs/FORMATS.md`, "Faults", has the causes.
pub fn text(alloc: Global, faults: &[Fault]) -> Result<Vec<u8>, NoMemory>
    ensures text { IfOk result (λ bytes. bytes.items ≡ faults_text faults.now) }
{
    let mut text = String::new(alloc);
    match write_faults(&mut text, faults) {
        Ok(()) => Ok(text.into_bytes()),
        Err(_) => Err(NoMemory),
    }
}

#[tactic(auto, unfolding(crate::specs::Texts::faults_text))]
fn write_faults(text: &mut String, faults: &[Fault]) -> Result<(), AllocError>
    ensures { OnOk result (string_bytes text.new ≡ string_bytes text.old ++ faults_text faults.now) }
{
    for fault in faults {
        write_fault(text, fault)?;
    }
    Ok(())
}

fn write_fault(text: &mut String, fault: &Fault) -> Result<(), AllocError>
    ensures { OnOk result (string_bytes text.new ≡ string_bytes text.old ++ fault_line fault.now) }
{
    let place = fault.place;
    write!(text, "volume block {place}: ")?;
    write_cause(text, &fault.kind)?;
    text.push_str("\n")
}

fn write_cause(text: &mut String, kind: &FaultKind) -> Result<(), AllocError>
    ensures { OnOk result (string_bytes text.new ≡ string_bytes text.old ++ cause_text kind.now) }
{
    match kind {
        FaultKind::Superblock => text.push_str("superblock"),
        FaultKind::Size(need, found) => write!(text, "size {need} {found}"),
        FaultKind::Spelling => text.push_str("spelling"),
        FaultKind::LockKey(key) => write!(text, "lock key {}", key.0),
        FaultKind::JournalKey(key) => write!(text, "journal key {}", key.0),
        FaultKind::JournalEdit(edit) => write!(text, "journal edit {edit}"),
        FaultKind::Count {
            number,
            found,
            counted,
        } => write!(text, "count {number} found {found} counted {counted}"),
        FaultKind::Mark(index) => write!(text, "mark {index}"),
    }
}
