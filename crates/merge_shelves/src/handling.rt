// An entry of a log is decided, and handled.
ghost use Rattle.std.specs.Prelude.{◌≡◌, ◌<◌, ◌-◌, ◌^◌, None, Some, IfSome, IsNone, false};
ghost use Rattle.hint_blocks.specs.Entries.{IsLogEntry};
ghost use Rattle.merge_decide.specs.Counted.{EndsWith, counted};
ghost use Rattle.merge_decide.specs.Decision.{decision};
ghost use Rattle.merge_decide.specs.declared.action.Action.TheVariants.{Post};
ghost use Rattle.merge_shelves.specs.Handlings.{HasGained, IsHandled, IsPassed, put_of};
ghost use Rattle.merge_shelves.specs.Tallies.{IsRaised, total};
ghost use Rattle.sorted_shard.specs.Shelves.{with_digest};
ghost use Rattle.vol_layout.specs.Ranges.{IsGeometry, arena_slots};

use crate::tally::raise;
use hint_blocks::{HintTo, IndexEntry, LogEntry};
use merge_decide::{Action, Outcome, PromoteOutcome, ShareOutcome, decide};
use sorted_shard::Shelf;
use vol_base::{Digest, MergeCounts, SlotNo};

/// What was done with an entry, and what it came to. The slot is the one to which the entry's place was promoted, and is not looked at
/// where it was not.
#[derive(Clone, Copy, Debug, PartialEq, Eq)]
pub struct Done {
    pub action: Action,
    pub outcome: Outcome,
    pub slot: SlotNo,
}

/// What is done with an entry, by the shelf as it stands. `held` says that the host holds the entry's file, and `now` is then the digest of
/// the block at the entry's place, if there is one.
pub fn decided(shelf: &Shelf, entry: &LogEntry, held: bool, now: Option<Digest>) -> Action
    ensures action { result ≡ decision entry.now held now (with_digest entry.now.digest.0 shelf.now.entries) }
    ensures geometry { IsGeometry shelf.now.geometry }
{
    decide(entry, held, now, shelf.entries_of(&entry.digest))
}

/// An entry was handled: the shelf gains what its action puts, and one count rises.
pub fn handle(counts: &mut MergeCounts, shelf: &mut Shelf, entry: &LogEntry, done: &Done)
    requires ends { EndsWith done.now.action done.now.outcome }
    requires entry { IsLogEntry shelf.old.geometry entry.now }
    requires slot { done.now.slot < arena_slots shelf.old.geometry }
    requires few { total counts.old < 2 ^ 32 - 1 }
    ensures shelf { HasGained entry.now done.now shelf.old shelf.new }
    ensures counts { IsRaised (counted done.now.action done.now.outcome) counts.old counts.new }
{
    put(shelf, entry, done);
    raise(counts, &done.action, &done.outcome);
}

/// An entry of a file that the host does not hold. It is handled, or it is to be posted to this slot; then nothing was done.
pub fn pass(counts: &mut MergeCounts, shelf: &mut Shelf, entry: &LogEntry) -> Option<SlotNo>
    requires entry { IsLogEntry shelf.old.geometry entry.now }
    requires few { total counts.old < 2 ^ 32 - 1 }
    ensures { IsPassed result entry.now shelf.old shelf.new counts.old counts.new }
{
    let action = decided(shelf, entry, false, None);
    if let Action::Post(slot) = action {
        return Some(slot);
    }
    let done = Done {
        action,
        outcome: Outcome::Done,
        slot: 0,
    };
    handle(counts, shelf, entry, &done);
    None
}

// What the shelf gains: the entry's place, behind those of its digest or, where there was another, in place of them; or the slot to which the
// place was promoted.
fn put(shelf: &mut Shelf, entry: &LogEntry, done: &Done)
    requires entry { IsLogEntry shelf.old.geometry entry.now }
    requires slot { done.now.slot < arena_slots shelf.old.geometry }
    ensures { HasGained entry.now done.now shelf.old shelf.new }
{
    let _entries = shelf.entries_of(&entry.digest);
    let Some(to) = put_of(entry, done) else {
        return;
    };
    if done.action != Action::PutUnique {
        shelf.drop_digest(&entry.digest);
    }
    shelf.add(IndexEntry {
        digest: entry.digest,
        to,
    });
}

fn put_of(entry: &LogEntry, done: &Done) -> Option<HintTo>
    ensures { result ≡ put_of entry.now done.now }
{
    let own = HintTo::Unique(entry.file, entry.index);
    match (done.action, done.outcome) {
        (Action::PutUnique, _) => Some(own),
        (Action::Share(_), Outcome::Shared(ShareOutcome::Differs | ShareOutcome::NoSource)) => {
            Some(own)
        }
        (Action::Promote(_, _), Outcome::Promoted(PromoteOutcome::Posted)) => {
            Some(HintTo::Shared(done.slot))
        }
        (Action::Promote(_, _), Outcome::Promoted(PromoteOutcome::Shared(_))) => {
            Some(HintTo::Shared(done.slot))
        }
        _ => None,
    }
}
