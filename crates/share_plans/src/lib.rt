//! Plans by which equal blocks come to share one place, each a part of a larger command of its host, and the command by which slots are emptied
//! that nothing shares any more. All are cut at each device call.
//!
//! # What is proved
//!
//! - `SharePlan::next`: where the plan stands (`At`), a step makes one device call (`Went`). Its turn may make the call in any command of
//!   which a share may be a part (`MayShare`), the files stay on every told image, which stays valid, and the notes of a run agree behind it: a
//!   busy lock has been shown there exactly where the share came to `Busy`. The host keeps its holds of files (`KeepsHolds`), what comes next
//!   stands, and what other hosts rely on stays (`Others`). Fewer steps are left, and at most eighteen come.
//! - No step changes a data block, and none a logical number but the one that comes to `Linked`, which is the commit of the link
//!   (`HasAnswered`, `KeepsBlocks`): there the place and the source had two data blocks with equal bytes, and this is the step by which they
//!   become one (`IsLink`): the place's pointer names the source's data block with the mark, a file source gets the mark, one count falls and
//!   the other rises by one.
//! - No call of a share or a promotion is at a block of hints (`SparesHints`): so what a larger command reads and writes of hints is what its
//!   own calls do (`sum_spared`, `shows_no_hints`, `writes_no_hints`).
//! - Each answer has its cause at the call at which it is found (`IsCause`), and stays while locks are freed. `Hole`: the file has no block
//!   at the index. `NoSource`: the place has one, and the source has none; of a slot, its table had 0 at the first read, or another number at
//!   the second than at the first. `Already`: both have one data block. `Differs`: two data blocks, whose bytes differ there for the first
//!   time. `Busy`: another host's key. Where a step goes on instead, what stands behind it says that it has no such cause: so each comes exactly
//!   where it has to.
//! - The slot's part is not locked: a slot that is read under the lock of the group of its data block keeps it, since a record that edits the slot
//!   would edit the block's count. So it is the slot's logical number.
//! - `PromotePlan::next`: the same of a promotion. `Promoted` comes at its commit alone (`IsPromotion`): the lowest empty slot of the host's own
//!   part names the block, the pointer has the mark, and the count is 2, of a block that had no mark and the count 1. `Marked`, `Hole` and
//!   `PartFull` come by the logical numbers at their read. The slot of an answer is one of the volume, whatever the device tells (`HasSlot`).
//!   At most thirteen steps come.
//! - A step that is refused cuts the command of which the plan is a part (`IsCut`), and changes no file. Behind an answer no record stands, and the
//!   host holds no part and no group (`IsReady`).
//! - The plans begin where their host is ready and holds their files (`share_begins`, `promote_begins`), and stand over the calls of other
//!   hosts (`share_still`, `promote_still`).
//! - `CollectPlan::next`: the whole command `collect`. A step makes one device call, which is a turn of the command and shows the cause of its
//!   answer (`VolumeTurn`), so that the step owes nothing more to a run (`HasStepped`). No file changes, and what other hosts rely on stays
//!   (`Others`). Fewer steps are left, and at most 4,227 come.
//! - Each commit empties exactly slots whose logical number names a block of logical count 1, and sets these counts to 0 (`IsCollection`,
//!   `Empties`). The list of groups is what the part's slots name at its read under the lock, and a group leaves it at the step alone that
//!   frees its lock (`KeepsList`), at which no slot of the part names a block of that group with count 1 (`HasNoLoneSlot`). `Collected` comes
//!   only where the list was read and is empty, with the number of slots that were emptied (`IsAnswerAt`).
//! - It begins where its host is ready (`collect_begins`, `collect_noted`), and stands over the calls of other hosts, as do the notes that agree
//!   with it (`collect_still`, `collect_noted_still`).
//!
//! - `shown`: what the tables that were read (`FileTables`) say of a file's block: the table that is to be read first, that there is none, or its data
//!   block (`IsSpot`). Every plan that looks at a place uses it.
//!
//! Over a device that tells nothing a count at its greatest number stays as it is; over one that tells, a link always has room for one more.
//! The serving of requests (`serve_plan`), a merge (`merge_actions`) and a host that is alone (`solo`) call the plans of sharing.
#![tactic(auto)]

mod closing;
mod collect;
mod collecting;
mod collection;
mod comparing;
mod counting;
mod ending;
mod groups;
mod linking;
mod locking;
mod peeking;
mod promote;
mod promoting;
mod promotion;
mod reading;
mod share;
mod sharing;
mod sight;
mod spending;
mod stage;
mod tables;

pub use collect::CollectPlan;
pub use collection::{Collection, Gathering};
pub use promote::PromotePlan;
pub use promotion::Promoted;
pub use share::SharePlan;
pub use sharing::{Place, Shared};
pub use sight::{Spot, shown};
pub use tables::FileTables;
