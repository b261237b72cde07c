// What a workload is.
ghost use Rattle.std.specs.Prelude.{◌≡◌, ◌^◌, ◌<◌, length};

use std::marker::Model;
use vol_base::{Command, HostNo};
use vol_layout::Geometry;

/// A command of a workload: the number of its text line, from 1, its phase, from 0, and the host that
/// is to do it.
#[derive(Clone, Copy, Debug, PartialEq, Eq)]
pub struct Line {
    pub at: u32,
    pub phase: u32,
    pub host: HostNo,
    pub command: Command,
}

/// The commands of a workload, in the order of the text. Contracts see them as a list.
#[derive(Debug, Drop)]
pub struct Lines {
    items: Vec<Line>,
}

impl Model for Lines {
    ghost use Rattle.std.specs.Prelude.{List};
    ghost use Rattle.workload.specs.declared.line.Line.{Line};

    ghost Value = { List Line };

    ghost view = { λ lines. lines.items.items };
}

impl Lines {
    /// The lines of a vector.
    pub fn from_vec(items: Vec<Line>) -> Lines
        ensures { result ≡ items.items }
    {
        Lines { items }
    }

    /// The lines as a slice.
    pub fn as_slice(&self) -> &[Line]
        ensures { result.now ≡ self.now }
    {
        self.items.as_slice()
    }

    /// The lines as a vector.
    pub fn into_vec(self) -> Vec<Line>
        ensures { result.items ≡ self }
    {
        self.items
    }
}

/// A workload: the geometry of its volume, its commands, and the number of its phases, at least 1.
#[derive(Debug, Drop)]
pub struct Workload {
    pub geometry: Geometry,
    pub lines: Lines,
    pub phases: u32,
}
