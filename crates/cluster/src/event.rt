// What came to be known in a run.
use plain_files::Placed;
use vol_base::Answer;

/// An entry of the history, or the answer at a position of the workload's lines. Contracts alone speak of it; the ledger keeps marks.
#[derive(Clone, Copy, Debug, PartialEq, Eq)]
pub enum RunEvent {
    Entered(Placed),
    Answered(u32, Answer),
}
