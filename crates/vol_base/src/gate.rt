// What a host's thread passes before each of its turns.
use crate::plain::HostNo;

/// A gate may wait. `turn` counts the host's turns of the phase, from 0.
pub trait Gate {
    fn pass(&self, host: HostNo, turn: u64);
}

/// A gate that lets everyone pass at once.
#[derive(Clone, Copy, Debug, Default)]
pub struct FreeGate;

impl Gate for FreeGate {
    fn pass(&self, _host: HostNo, _turn: u64) {}
}
