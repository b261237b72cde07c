// What the ledger keeps of an event beside the answers and the history.

/// Marks an event in the order in which they came: the entry of this number in the history, or the answer at this position of the
/// workload's lines.
#[derive(Clone, Copy)]
pub enum Mark {
    Entered(u32),
    Answered(u32),
}
