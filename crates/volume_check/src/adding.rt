// A list of faults that grows.
ghost use Rattle.std.specs.Prelude.{◌≡◌, ◌++◌, ◌∷◌, [], OnOk, if◌then◌else◌};

use vol_base::NoMemory;
use volume_faults::Fault;

/// Adds the fault where something is wrong.
pub fn add_where(wrong: bool, fault: Fault, faults: &mut Vec<Fault>) -> Result<(), NoMemory>
    ensures { OnOk result (faults.new.items ≡ (if wrong then faults.old.items ++ fault ∷ [] else faults.old.items)) }
{
    if !wrong {
        return Ok(());
    }
    match faults.push(fault) {
        Ok(()) => Ok(()),
        Err(_) => Err(NoMemory),
    }
}
