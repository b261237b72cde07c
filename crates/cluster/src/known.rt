// The lines that a cluster can run.
ghost use Rattle.std.specs.Prelude.{◌≡◌, ◌↔◌, All, IfNone, IfSome, IsTrue};
ghost use Rattle.cluster.specs.Agreements.{IsKnownLine};
ghost use Rattle.workload.specs.Workloads.{IsAllowed};

use vol_base::Command;
use workload::Line;

/// Whether a cluster can run the line: no host looks at itself or recovers itself.
pub fn is_known(line: &Line) -> bool
    ensures { IsTrue result ↔ IsKnownLine line.now }
{
    match line.command {
        Command::Look(of) | Command::Recover(of) => of != line.host,
        _ => true,
    }
}

/// Whether it can run each of the lines.
pub fn are_known(lines: &[Line]) -> bool
    ensures { IsTrue result ↔ All IsKnownLine lines.now }
{
    lines.iter().all(|line| is_known(line))
}
