// The statuses of the program.
ghost use Rattle.std.specs.Prelude.{◌≡◌};
ghost use Rattle.jobs.specs.Statuses.{code_of};

/// How a run of the program ended. `docs/COMMANDS.md`, "Exit statuses", says when each one comes.
#[derive(Clone, Copy, Debug, PartialEq, Eq)]
pub enum Status {
    /// The job was done.
    Ok,
    /// The words are not of the form.
    Usage,
    /// The text that was read is no workload.
    Workload,
    /// The volume is blank, has faults, or gives no more keys.
    Volume,
    /// A call of the device failed.
    DiskFault,
    /// The source failed.
    ReadFault,
    /// The sink failed, or took nothing.
    WriteFault,
    /// Memory was refused.
    Memory,
    /// The workload's volume line and the device differ.
    Geometry,
}

impl Status {
    /// The number with which the program ends, from 0 to 8.
    pub fn code(&self) -> u8
        ensures { result ≡ code_of self.now }
    {
        *self as u8
    }
}
