//! The commands on files, and the closing of a file, as plans cut at each device call.
//!
//! # What is proved
//!
//! - `FilePlan::new`, `FilePlan::close_file`: the plan of a call. A write waits for the digest of its block first, and no other call for
//!   one; `FilePlan::supply` hands it in.
//! - `FilePlan::next`: where the plan stands (`At`), a step makes one device call; it makes none where a digest is waited for, and where
//!   a file is closed that the host has neither to write nor to read. Whatever the notes of a run were that agree with the plan (`NotedAt`),
//!   the step is a turn of the run (`OwesStep`): at the place of the call the reply is the plain one, and the files are then as the plain
//!   call leaves them; at no other step they change; an answer has its cause; the notes behind agree with the plan, which stands
//!   (`Went`), or with a host that is at rest (`IsEnded`): no record of it stands, and it holds no part and no group. A write whose reply is
//!   `Done` has an index below the greatest length (`MayPlace`). A call that was
//!   refused is answered as a cut, and the host is dropped. Where there was no memory for a call nothing was done (`IsUntouched`). What
//!   others rely on stays (`Others`), and what is kept for them (`LeavesOthers`).
//! - A plan stands at its first step where its host is ready, and the notes of a host at rest agree with it (`begin_stands`, `begin_noted`);
//!   and so do both with the digest that was handed in (`supply_stands`, `supply_noted`).
//! - Over a step of another host, which may have changed what is kept for that host beside what the volume holds, a plan stands and the
//!   notes agree with it (`plan_lasts`); and a host between two commands rests still, with what is kept for it (`rest_lasts`).
//! - What is kept of a file's tables for a host is what they spell, and none is kept of a file that it does not hold (`IsCached`): a host
//!   that tries for a hold, or gives one up, forgets what it kept of the file.
//! - `look`: what a call does by the kept tables is right by what they say (`IsSight`): which table it still needs, whether the reply
//!   is settled, which block it reads, writes in place, writes afresh or drops, which remains at or past the end become holes first.
//! - Behind each step that goes on fewer turns are left (`IsSooner`), whatever other hosts do in between: behind one of them no more are
//!   left (`turns_last`). A digest that is handed in leaves fewer too (`supply_sooner`), and as many are left while it is waited for
//!   (`turns_waiting`). Where a plan stands one is left (`turns_some`), so it takes no more steps than it has turns at its first stage. These
//!   are bounded by the geometry, and less than 2^28 (`begin_few`): a call looks at the tables of its file, and writes a record for its
//!   place and one at most for each pointer that is to become a hole first. A read of a host that has the hold makes at most three calls
//!   of the device (`read_few`).
#![tactic(auto)]

mod acting;
mod beginning;
mod call;
mod changing;
mod closing;
mod commits;
mod ending;
mod forgetting;
mod holding;
mod old;
mod plan;
mod purging;
mod releasing;
mod remains;
mod seeing;
mod seen;
mod sight;
mod stage;
mod state;
mod stepping;
mod writing;

pub use call::FileCall;
pub use plan::FilePlan;
pub use sight::{Sight, look};
pub use stage::{Change, Fresh, Stage};
pub use state::Core;
