// What a command has come to, and its answer.
ghost use Rattle.std.specs.Prelude.{◌≡◌, IfOk, IsErr, None, Some, true};
ghost use Rattle.plan_parts.specs.Cuts.{cut_by};
ghost use Rattle.plan_parts.specs.Steps.{answer_of};

use lock_store::StepNo;
use vol_base::{Answer, CutBy, Key, Next, NoMemory, PlainReply, Step};

/// What a command has come to, which it answers once its locks are free.
#[derive(Clone, Copy, Debug, PartialEq, Eq)]
pub enum Outcome {
    /// Nothing yet.
    Open,
    /// The plain call has its place in the history, with this reply.
    Placed(PlainReply),
    /// A lock that was tried showed this key of another host.
    Busy(Key),
    /// Under the locks of all groups no data block is free.
    Full,
}

impl Outcome {
    /// The answer of a command that has come to this; one that has come to nothing is fine.
    pub fn answer(&self) -> Answer
        ensures { result ≡ answer_of self.now }
    {
        match *self {
            Outcome::Open => Answer::Fine,
            Outcome::Placed(reply) => Answer::Plain(reply),
            Outcome::Busy(key) => Answer::Busy(key),
            Outcome::Full => Answer::Full,
        }
    }
}

/// The step by which a refused call cuts its command; none where memory was refused.
pub fn cut_step(why: StepNo) -> Result<Step, NoMemory>
    ensures cut { IfOk result (λ step. (by : CutBy) × (cut_by why ≡ Some by) × (step ≡ record { placed = None; called = true; next = Next.Answered (Answer.Cut by) })) }
    ensures none { IsErr result → why ≡ StepNo.NoMemory }
{
    let by = match why {
        StepNo::NoMemory => return Err(NoMemory),
        StepNo::Fenced => CutBy::Fenced,
        StepNo::Failed => CutBy::Fault,
        StepNo::Bad(place) => CutBy::Bad(place),
    };
    Ok(Step {
        placed: None,
        called: true,
        next: Next::Answered(Answer::Cut(by)),
    })
}
