// What comes behind the steps of a share and of a promotion, and behind a post.
ghost use Rattle.std.specs.Prelude.{◌≡◌, ◌<◌, ℕ};
ghost use Rattle.merge_actions.specs.Acts.{post_ended, share_of, sharing_of};
ghost use Rattle.merge_actions.specs.Behind.{behind_promotion, behind_share, other_of, share_ended};

use crate::acting::{ActPlan, Acted, Acting, Came};
use hint_blocks::Request;
use merge_decide::{Action, Outcome, PromoteOutcome, ShareOutcome};
use meta_world::MetaWorld;
use share_plans::{Place, PromotePlan, Promoted, SharePlan, Shared};
use shared_disk::Device;
use vol_base::{FileNo, HostNo, SlotNo};
use vol_layout::Resource;

/// The share of a place with a slot of the arena, at its beginning.
pub(crate) fn share_of(host: HostNo, file: FileNo, index: u32, slot: SlotNo) -> SharePlan
    ensures { result ≡ share_of host file index slot }
{
    SharePlan::new(host, file, index, Place::Arena(slot))
}

/// What comes behind a step of a share: that of the entry's place, or of the other place where the entry's was promoted to this slot.
pub(crate) fn behind_share(
    promoted: Option<SlotNo>,
    share: SharePlan,
    answer: Option<Shared>,
) -> Came
    ensures { result ≡ behind_share promoted share answer }
{
    match answer {
        None => Came::More(sharing(promoted, share)),
        Some(Shared::Busy(key)) => Came::Ended(Acted::Busy(key)),
        Some(Shared::Linked) => Came::Ended(share_ended(promoted, ShareOutcome::Linked)),
        Some(Shared::Already) => Came::Ended(share_ended(promoted, ShareOutcome::Already)),
        Some(Shared::Differs(_)) => Came::Ended(share_ended(promoted, ShareOutcome::Differs)),
        Some(Shared::NoSource) => Came::Ended(share_ended(promoted, ShareOutcome::NoSource)),
        Some(Shared::Hole) => Came::Ended(share_ended(promoted, ShareOutcome::Hole)),
    }
}

fn sharing(promoted: Option<SlotNo>, share: SharePlan) -> Acting
    ensures { result ≡ sharing_of promoted share }
{
    match promoted {
        None => Acting::Shares(share),
        Some(slot) => Acting::SharesOther(share, slot),
    }
}

fn share_ended(promoted: Option<SlotNo>, outcome: ShareOutcome) -> Acted
    ensures { result ≡ share_ended promoted outcome }
{
    match promoted {
        None => Acted::Done(Outcome::Shared(outcome), 0),
        Some(slot) => Acted::Done(Outcome::Promoted(PromoteOutcome::Shared(outcome)), slot),
    }
}

/// What a post ends with.
pub(crate) fn post_ended(action: Action, request: &Request) -> Acted
    ensures { result ≡ post_ended action request.now }
{
    match action {
        Action::Promote(_, _) => {
            Acted::Done(Outcome::Promoted(PromoteOutcome::Posted), request.slot)
        }
        _ => Acted::Done(Outcome::Done, 0),
    }
}

impl ActPlan {
    /// What comes behind a step of a promotion.
    pub(crate) fn behind_promotion<D: Device>(
        &self,
        world: &MetaWorld<D>,
        promotion: PromotePlan,
        answer: Option<Promoted>,
    ) -> Came
        requires host { self.now.host < world.now.locks.geometry.hosts }
        requires other { (f : ℕ) × (i : ℕ) × (self.now.action ≡ Action.Promote f i) × (f < world.now.locks.geometry.files) }
        ensures { result ≡ behind_promotion world.now self.now.host self.now.entry self.now.action promotion answer }
    {
        match answer {
            None => Came::More(Acting::Promotes(promotion)),
            Some(Promoted::Busy(key)) => Came::Ended(Acted::Busy(key)),
            Some(Promoted::Promoted(slot)) => self.other(world, slot),
            Some(Promoted::Marked) => promote_ended(PromoteOutcome::Marked),
            Some(Promoted::Hole) => promote_ended(PromoteOutcome::Hole),
            Some(Promoted::PartFull) => promote_ended(PromoteOutcome::PartFull),
        }
    }

    // What comes of the other place, once the entry's was promoted to this slot: it shares the slot where the host holds its file, and
    // else the file's host is asked to share it.
    fn other<D: Device>(&self, world: &MetaWorld<D>, slot: SlotNo) -> Came
        requires host { self.now.host < world.now.locks.geometry.hosts }
        requires other { (f : ℕ) × (i : ℕ) × (self.now.action ≡ Action.Promote f i) × (f < world.now.locks.geometry.files) }
        ensures { result ≡ other_of world.now self.now.host self.now.entry self.now.action slot }
    {
        let Action::Promote(file, index) = self.action else {
            unreachable!()
        };
        if world.locks().holds(self.host, Resource::File(file)) {
            let share = share_of(self.host, file, index, slot);
            return Came::More(Acting::SharesOther(share, slot));
        }
        let request = Request {
            digest: self.entry.digest,
            index,
            slot,
        };
        Came::More(Acting::Reads(file, request))
    }
}

// The entry's place was not promoted.
fn promote_ended(outcome: PromoteOutcome) -> Came
    ensures { result ≡ Came.Ended (Acted.Done (Outcome.Promoted outcome) 0) }
{
    Came::Ended(Acted::Done(Outcome::Promoted(outcome), 0))
}
