// What one line behind the first says.
use vol_base::{Command, HostNo};

/// What a line says: that the phase ends, or that a host is to do a command.
#[derive(Clone, Copy, Debug, PartialEq, Eq)]
pub enum Entry {
    Barrier,
    Order(HostNo, Command),
}
