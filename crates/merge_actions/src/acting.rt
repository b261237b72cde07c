// What a merge does with an entry of a log once it is decided, cut at each device call.
ghost use Rattle.std.specs.Prelude.{◌≡◌, ◌≤◌, IfErr, IfOk};
ghost use Rattle.host_facts.specs.Others.{Others};
ghost use Rattle.merge_actions.specs.Acts.{At, Calls, begun, left, with_acting};
ghost use Rattle.merge_actions.specs.Behind.{acted_of, acting_behind};
ghost use Rattle.merge_actions.specs.Steps.{StepsTo, Went};
ghost use Rattle.plan_parts.specs.Cuts.{IsCut};

use crate::behind::share_of;
use hint_blocks::{LogEntry, Request};
use lock_store::StepNo;
use merge_decide::{Action, Outcome};
use meta_world::MetaWorld;
use share_plans::{PromotePlan, SharePlan};
use shared_disk::Device;
use std::mem;
use vol_base::{Block, FileNo, HostNo, Key, SlotNo};

/// What the next step does.
#[derive(Drop)]
pub enum Acting {
    /// The entry's place is compared with a slot of the arena, and shares it.
    Shares(SharePlan),
    /// The entry's place is promoted to a slot.
    Promotes(PromotePlan),
    /// The other place of a promotion is compared with the slot to which the entry's was promoted, and shares it.
    SharesOther(SharePlan, SlotNo),
    /// The requests of a file are read, and this one is posted behind them.
    Reads(FileNo, Request),
    Posts(FileNo, Request, Block),
    /// It is known what came of the action.
    Over,
}

/// What came of an action: its outcome, and the slot to which the entry's place was promoted, 0 where it was not; or a lock that is busy
/// under this key of another host.
#[derive(Clone, Copy)]
pub enum Acted {
    Done(Outcome, SlotNo),
    Busy(Key),
}

/// What a step came to: the action goes on, or it is known what came of it.
#[derive(Drop)]
pub enum Came {
    More(Acting),
    Ended(Acted),
}

/// An entry of a log, what was decided of it, and how far that is. The host is ready between two such plans.
#[derive(Drop)]
pub struct ActPlan {
    pub host: HostNo,
    pub entry: LogEntry,
    pub action: Action,
    pub acting: Acting,
}

impl ActPlan {
    /// The plan by which a host acts on an entry. No device call is made; at most 36 steps come.
    pub fn new(host: HostNo, entry: LogEntry, action: Action) -> ActPlan
        requires calls { Calls action }
        ensures host { result.host ≡ host }
        ensures entry { result.entry ≡ entry }
        ensures action { result.action ≡ action }
        ensures acting { result.acting ≡ begun host entry action }
        ensures few { left result ≤ 36 }
    {
        ActPlan {
            host,
            entry,
            action,
            acting: begun(host, &entry, action),
        }
    }

    /// One step, which makes one device call; what came of the action, once that is known. A refused call cuts the merge, and the plan is at
    /// its end.
    pub fn next<D: Device>(&mut self, world: &mut MetaWorld<D>) -> Result<Option<Acted>, StepNo>
        requires stands { At world.old self.old }
        ensures went { IfOk result (Went world.old world.new self.old self.new) }
        ensures cut { IfErr result (IsCut self.old.host world.old world.new) }
        ensures others { Others self.old.host world.old world.new }
    {
        let acting = mem::replace(&mut self.acting, Acting::Over);
        match self.steps(world, acting) {
            Ok(came) => Ok(self.comes(came)),
            Err(why) => Err(why),
        }
    }

    // One step at this stage.
    fn steps<D: Device>(&self, world: &mut MetaWorld<D>, acting: Acting) -> Result<Came, StepNo>
        requires stands { At world.old (with_acting self.now acting) }
        ensures went { IfOk result (StepsTo world.old world.new (with_acting self.now acting)) }
        ensures cut { IfErr result (IsCut self.now.host world.old world.new) }
        ensures others { Others self.now.host world.old world.new }
    {
        match acting {
            Acting::Shares(share) => self.shares(world, None, share),
            Acting::SharesOther(share, slot) => self.shares(world, Some(slot), share),
            Acting::Promotes(promotion) => self.promotes(world, promotion),
            Acting::Reads(file, request) => self.reads(world, file, request),
            Acting::Posts(file, request, block) => self.posts(world, file, request, block),
            Acting::Over => Err(StepNo::NoMemory),
        }
    }

    // What a step came to.
    fn comes(&mut self, came: Came) -> Option<Acted>
        ensures result { result ≡ acted_of came }
        ensures plan { self.new ≡ with_acting self.old (acting_behind came) }
    {
        match came {
            Came::More(acting) => {
                self.acting = acting;
                None
            }
            Came::Ended(acted) => {
                self.acting = Acting::Over;
                Some(acted)
            }
        }
    }
}

// The first step of an action; of one that makes no call there is none.
fn begun(host: HostNo, entry: &LogEntry, action: Action) -> Acting
    ensures { result ≡ begun host entry.now action }
{
    match action {
        Action::Share(slot) => Acting::Shares(share_of(host, entry.file, entry.index, slot)),
        Action::Promote(_, _) => {
            Acting::Promotes(PromotePlan::new(host, entry.file, entry.index))
        }
        Action::Post(slot) => Acting::Reads(
            entry.file,
            Request {
                digest: entry.digest,
                index: entry.index,
                slot,
            },
        ),
        Action::Stale | Action::PutUnique | Action::Skip => Acting::Over,
    }
}
