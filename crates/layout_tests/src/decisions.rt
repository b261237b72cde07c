// One case a line of the decision, and each outcome of an action.
use hint_blocks::{HintTo, IndexEntry, LogEntry};
use merge_decide::{Action, MergeCount, Outcome, PromoteOutcome, ShareOutcome, counted, decide};
use vol_base::{Digest, MergeCounts};

const DIGEST: Digest = Digest([9; 20]);

const ENTRY: LogEntry = LogEntry {
    digest: DIGEST,
    file: 3,
    index: 7,
};

const OWN: HintTo = HintTo::Unique(3, 7);

// What is done with the entry, where the index has these two entries of its digest.
fn decided(held: bool, now: Option<u8>, first: HintTo, second: HintTo) -> Action {
    let found = [first, second].map(|to| IndexEntry { digest: DIGEST, to });
    let now = now.map(|byte| Digest([byte; 20]));
    decide(&ENTRY, held, now, &found)
}

#[test]
fn the_first_line_that_fits_decides(rt: HostRuntime) {
    let other = HintTo::Unique(1, 2);
    let later = HintTo::Unique(3, 8);
    let shared = HintTo::Shared(5);
    let rows = [
        (true, None, shared, OWN, Action::Stale),
        (true, Some(8), shared, OWN, Action::Stale),
        (true, Some(8), other, other, Action::Stale),
        (true, Some(9), OWN, shared, Action::Share(5)),
        (true, Some(9), HintTo::Shared(6), shared, Action::Share(6)),
        (false, None, other, shared, Action::Post(5)),
        (false, None, OWN, shared, Action::Post(5)),
        (true, Some(9), OWN, other, Action::Promote(1, 2)),
        (true, Some(9), later, other, Action::Promote(3, 8)),
        (
            true,
            Some(9),
            HintTo::Unique(4, 7),
            OWN,
            Action::Promote(4, 7),
        ),
        (true, Some(9), OWN, OWN, Action::Skip),
        (false, None, other, OWN, Action::Skip),
        (false, None, other, later, Action::PutUnique),
    ];
    for (held, now, first, second, action) in rows {
        assert_eq!(rt; decided(held, now, first, second), action);
    }
    assert_eq!(rt; decide(&ENTRY, true, Some(DIGEST), &[]), Action::PutUnique);
    assert_eq!(rt; decide(&ENTRY, false, None, &[]), Action::PutUnique);
    assert_eq!(rt; decide(&ENTRY, true, None, &[]), Action::Stale);
}

#[test]
fn each_outcome_has_its_count(rt: HostRuntime) {
    let shared = |outcome| counted(&Action::Share(5), &Outcome::Shared(outcome));
    let promoted = |outcome| counted(&Action::Promote(1, 2), &Outcome::Promoted(outcome));
    let after = |outcome| promoted(PromoteOutcome::Shared(outcome));
    let rows = [
        (counted(&Action::Stale, &Outcome::Done), MergeCount::Stale),
        (
            counted(&Action::PutUnique, &Outcome::Done),
            MergeCount::Unique,
        ),
        (
            counted(&Action::Post(5), &Outcome::Done),
            MergeCount::Posted,
        ),
        (counted(&Action::Skip, &Outcome::Done), MergeCount::Skipped),
        (shared(ShareOutcome::Linked), MergeCount::Linked),
        (shared(ShareOutcome::Already), MergeCount::Already),
        (shared(ShareOutcome::Differs), MergeCount::Differs),
        (shared(ShareOutcome::NoSource), MergeCount::Gone),
        (shared(ShareOutcome::Hole), MergeCount::Stale),
        (promoted(PromoteOutcome::Hole), MergeCount::Stale),
        (promoted(PromoteOutcome::Marked), MergeCount::Skipped),
        (promoted(PromoteOutcome::PartFull), MergeCount::Full),
        (promoted(PromoteOutcome::Posted), MergeCount::Posted),
        (after(ShareOutcome::Linked), MergeCount::Linked),
        (after(ShareOutcome::Already), MergeCount::Already),
        (after(ShareOutcome::Differs), MergeCount::Differs),
        (after(ShareOutcome::NoSource), MergeCount::Gone),
        (after(ShareOutcome::Hole), MergeCount::Gone),
    ];
    for (got, want) in rows {
        assert_eq!(rt; got, want);
    }
    let mut counts = MergeCounts {
        stale: 0,
        unique: 1,
        linked: 2,
        already: 3,
        differs: 4,
        gone: 5,
        posted: 6,
        full: 7,
        skipped: 8,
    };
    MergeCount::Gone.raise(&mut counts);
    assert_eq!(rt; (counts.gone, counts.differs, counts.posted), (6, 4, 6));
}
