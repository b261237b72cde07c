// Counting what became of the entries.
ghost use Rattle.std.specs.Prelude.{◌≡◌, ◌≢◌, ◌+◌, ◌-◌, ◌^◌, ◌<◌};
ghost use Rattle.merge_decide.specs.Counted.{EndsWith, count_in, counted, other_count, promote_count, share_count};
ghost use Rattle.merge_decide.specs.declared.outcome.MergeCount.{MergeCount};

use crate::action::Action;
use crate::outcome::{MergeCount, Outcome, PromoteOutcome, ShareOutcome};
use vol_base::MergeCounts;

/// The count that an entry raises, by its action and what that came to. The table is in
/// docs/COMMANDS.md, "What a merge decides".
pub fn counted(action: &Action, outcome: &Outcome) -> MergeCount
    requires { EndsWith action.now outcome.now }
    ensures { result ≡ counted action.now outcome.now }
{
    match (*action, *outcome) {
        (Action::Stale, _) => MergeCount::Stale,
        (Action::PutUnique, _) => MergeCount::Unique,
        (Action::Share(_), Outcome::Shared(outcome)) => share_count(outcome),
        (Action::Post(_), _) => MergeCount::Posted,
        (Action::Promote(_, _), Outcome::Promoted(outcome)) => promote_count(outcome),
        _ => MergeCount::Skipped,
    }
}

// The entry's place was compared with a slot.
fn share_count(outcome: ShareOutcome) -> MergeCount
    ensures { result ≡ share_count outcome }
{
    match outcome {
        ShareOutcome::Linked => MergeCount::Linked,
        ShareOutcome::Already => MergeCount::Already,
        ShareOutcome::Differs => MergeCount::Differs,
        ShareOutcome::NoSource => MergeCount::Gone,
        ShareOutcome::Hole => MergeCount::Stale,
    }
}

// Another place was compared with the slot of the entry's place.
fn other_count(outcome: ShareOutcome) -> MergeCount
    ensures { result ≡ other_count outcome }
{
    match outcome {
        ShareOutcome::Hole => MergeCount::Gone,
        outcome => share_count(outcome),
    }
}

fn promote_count(outcome: PromoteOutcome) -> MergeCount
    ensures { result ≡ promote_count outcome }
{
    match outcome {
        PromoteOutcome::Hole => MergeCount::Stale,
        PromoteOutcome::Marked => MergeCount::Skipped,
        PromoteOutcome::PartFull => MergeCount::Full,
        PromoteOutcome::Posted => MergeCount::Posted,
        PromoteOutcome::Shared(outcome) => other_count(outcome),
    }
}

impl MergeCount {
    /// Raises this count by one.
    pub fn raise(self, counts: &mut MergeCounts)
        requires { count_in self counts.old < 2 ^ 32 - 1 }
        ensures raised { count_in self counts.new ≡ count_in self counts.old + 1 }
        ensures others { (other : MergeCount) → other ≢ self → count_in other counts.new ≡ count_in other counts.old }
    {
        match self {
            MergeCount::Stale => counts.stale += 1,
            MergeCount::Unique => counts.unique += 1,
            MergeCount::Linked => counts.linked += 1,
            MergeCount::Already => counts.already += 1,
            MergeCount::Differs => counts.differs += 1,
            MergeCount::Gone => counts.gone += 1,
            MergeCount::Posted => counts.posted += 1,
            MergeCount::Full => counts.full += 1,
            MergeCount::Skipped => counts.skipped += 1,
        }
    }
}
