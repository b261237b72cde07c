// What comes behind a step.
ghost use Rattle.std.specs.Prelude.{◌≡◌, ◌≤◌, [], None, Some, length, true};
ghost use Rattle.file_plans.specs.Went.{IsRest};
ghost use Rattle.file_plans.specs.declared.stage.Stage.{Stage};
ghost use Rattle.plan_parts.specs.declared.outcome.Outcome.{Outcome};
ghost use Rattle.vol_base.specs.declared.answer.Next.{Next};
ghost use Rattle.vol_base.specs.declared.plain.PlainReply.{PlainReply};

use crate::stage::Stage;
use crate::state::Core;
use plan_parts::{Applying, Outcome};
use vol_base::{Next, PlainReply, Step};

/// A step that made its call.
pub fn made(placed: Option<PlainReply>, next: Next) -> Step
    ensures { result ≡ record { placed = placed; called = true; next = next } }
{
    Step {
        placed,
        called: true,
        next,
    }
}

/// What comes behind a step by which no record stands: the locks that were taken are freed first; then the call is answered by what it
/// has come to, or goes on.
pub fn rested(core: &Core) -> (Next, Stage)
    ensures { IsRest core.now.taken core.now.outcome result.0 result.1 }
{
    if !core.taken.is_empty() {
        return (Next::More, Stage::Frees);
    }
    answered(&core.outcome)
}

// The same where no lock is taken.
fn answered(outcome: &Outcome) -> (Next, Stage)
    ensures { IsRest [] outcome.now result.0 result.1 }
{
    match outcome {
        Outcome::Open => (Next::More, Stage::Sees),
        Outcome::Placed(_) | Outcome::Busy(_) | Outcome::Full => {
            (Next::Answered(outcome.answer()), Stage::Over)
        }
    }
}

/// The call comes to this, and what it has locked is to be freed.
pub fn comes(core: &mut Core, outcome: Outcome) -> (Step, Stage)
    ensures core { core.new ≡ record core.old { outcome = outcome } }
    ensures step { result.0 ≡ record { placed = None; called = true; next = result.0.next } }
    ensures rest { IsRest core.old.taken outcome result.0.next result.1 }
{
    core.outcome = outcome;
    rests(core)
}

/// A step that made its call and is the place of none, and by which no record stands.
pub fn rests(core: &Core) -> (Step, Stage)
    ensures step { result.0 ≡ record { placed = None; called = true; next = result.0.next } }
    ensures rest { IsRest core.now.taken core.now.outcome result.0.next result.1 }
{
    let (next, stage) = rested(core);
    (made(None, next), stage)
}

/// The record by which the call has its place stands.
pub fn places(core: &mut Core, applying: Applying) -> (Step, Stage)
    ensures core { core.new ≡ record core.old { outcome = Outcome.Placed PlainReply.Done } }
    ensures step { result.0 ≡ record { placed = Some PlainReply.Done; called = true; next = Next.More } }
    ensures stage { result.1 ≡ Stage.Applies applying }
    ensures few { length applying.entry.edits ≤ 8 }
{
    core.outcome = Outcome::Placed(PlainReply::Done);
    stands(Some(PlainReply::Done), applying)
}

/// A record stands, and goes into the tables next.
pub fn stands(placed: Option<PlainReply>, applying: Applying) -> (Step, Stage)
    ensures step { result.0 ≡ record { placed = placed; called = true; next = Next.More } }
    ensures stage { result.1 ≡ Stage.Applies applying }
    ensures few { length applying.entry.edits ≤ 8 }
{
    let _count = applying.entry.count();
    (made(placed, Next::More), Stage::Applies(applying))
}
