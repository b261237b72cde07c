// The nine counts of a merge.
ghost use Rattle.std.specs.Prelude.{◌≡◌, ◌<◌, ◌-◌, ◌^◌};
ghost use Rattle.merge_decide.specs.Counted.{EndsWith, counted};
ghost use Rattle.merge_shelves.specs.Tallies.{IsRaised, total};

use merge_decide::{Action, Outcome, counted};
use vol_base::MergeCounts;

/// Nothing was counted.
pub fn none() -> MergeCounts
    ensures { total result ≡ 0 }
{
    MergeCounts {
        stale: 0,
        unique: 0,
        linked: 0,
        already: 0,
        differs: 0,
        gone: 0,
        posted: 0,
        full: 0,
        skipped: 0,
    }
}

// The count of an action and what it came to rises by one.
pub fn raise(counts: &mut MergeCounts, action: &Action, outcome: &Outcome)
    requires ends { EndsWith action.now outcome.now }
    requires few { total counts.old < 2 ^ 32 - 1 }
    ensures { IsRaised (counted action.now outcome.now) counts.old counts.new }
{
    counted(action, outcome).raise(counts);
}
