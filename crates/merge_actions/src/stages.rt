// The steps of a plan, one device call each.
ghost use Rattle.std.specs.Prelude.{IfErr, IfOk};
ghost use Rattle.host_facts.specs.Others.{Others};
ghost use Rattle.merge_actions.specs.Acts.{At, sharing_of, with_acting};
ghost use Rattle.merge_actions.specs.Steps.{StepsTo};
ghost use Rattle.plan_parts.specs.Cuts.{IsCut};

use crate::acting::{ActPlan, Acting, Came};
use crate::behind::{behind_share, post_ended};
use hint_blocks::Request;
use lock_store::StepNo;
use merge_shelves::posted;
use merge_steps::{reads_index, swaps_index};
use meta_world::MetaWorld;
use share_plans::{PromotePlan, SharePlan};
use shared_disk::Device;
use vol_base::{Block, FileNo, SlotNo};
use vol_layout::Kind;

impl ActPlan {
    /// One step of a share: that of the entry's place, or of the other place where the entry's was promoted to this slot.
    pub(crate) fn shares<D: Device>(
        &self,
        world: &mut MetaWorld<D>,
        promoted: Option<SlotNo>,
        share: SharePlan,
    ) -> Result<Came, StepNo>
        requires stands { At world.old (with_acting self.now (sharing_of promoted share)) }
        ensures went { IfOk result (StepsTo world.old world.new (with_acting self.now (sharing_of promoted share))) }
        ensures cut { IfErr result (IsCut self.now.host world.old world.new) }
        ensures others { Others self.now.host world.old world.new }
    {
        let mut share = share;
        match share.next(world) {
            Ok(answer) => Ok(behind_share(promoted, share, answer)),
            Err(why) => Err(why),
        }
    }

    /// One step of the promotion of the entry's place.
    pub(crate) fn promotes<D: Device>(
        &self,
        world: &mut MetaWorld<D>,
        promotion: PromotePlan,
    ) -> Result<Came, StepNo>
        requires stands { At world.old (with_acting self.now (Acting.Promotes promotion)) }
        ensures went { IfOk result (StepsTo world.old world.new (with_acting self.now (Acting.Promotes promotion))) }
        ensures cut { IfErr result (IsCut self.now.host world.old world.new) }
        ensures others { Others self.now.host world.old world.new }
    {
        let mut promotion = promotion;
        let came = promotion.next(world);
        let _geometry = world.locks().geometry();
        match came {
            Ok(answer) => Ok(self.behind_promotion(world, promotion, answer)),
            Err(why) => Err(why),
        }
    }

    /// The block of a file's requests is read.
    pub(crate) fn reads<D: Device>(
        &self,
        world: &mut MetaWorld<D>,
        file: FileNo,
        request: Request,
    ) -> Result<Came, StepNo>
        requires stands { At world.old (with_acting self.now (Acting.Reads file request)) }
        ensures went { IfOk result (StepsTo world.old world.new (with_acting self.now (Acting.Reads file request))) }
        ensures cut { IfErr result (IsCut self.now.host world.old world.new) }
        ensures others { Others self.now.host world.old world.new }
    {
        match reads_index(world, self.host, Kind::Request(file)) {
            Ok(block) => Ok(Came::More(Acting::Posts(file, request, block))),
            Err(why) => Err(why),
        }
    }

    /// The request is posted, where the block that was read still stands; the post counts as made where it does not.
    pub(crate) fn posts<D: Device>(
        &self,
        world: &mut MetaWorld<D>,
        file: FileNo,
        request: Request,
        block: Block,
    ) -> Result<Came, StepNo>
        requires stands { At world.old (with_acting self.now (Acting.Posts file request block)) }
        ensures went { IfOk result (StepsTo world.old world.new (with_acting self.now (Acting.Posts file request block))) }
        ensures cut { IfErr result (IsCut self.now.host world.old world.new) }
        ensures others { Others self.now.host world.old world.new }
    {
        let geometry = *world.locks().geometry();
        let more = posted(&block, request, &geometry);
        let swapped = swaps_index(world, self.host, Kind::Request(file), &block, &more);
        match swapped {
            Ok(_swapped) => Ok(Came::Ended(post_ended(self.action, &request))),
            Err(why) => Err(why),
        }
    }
}
