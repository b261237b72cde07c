// `scribble`: a block of one hint is written.
ghost use Rattle.std.specs.Prelude.{◌≡◌, ◌∷◌, [], IfErr, IfOk, Some};
ghost use Rattle.hint_blocks.specs.Entries.{spelled};
ghost use Rattle.hint_blocks.specs.HintLists.{hint_block};
ghost use Rattle.hint_plans.specs.Plans.{HasCome, IsCutAt, PlanStands};
ghost use Rattle.hint_plans.specs.Scribbles.{first_step, scribbled};
ghost use Rattle.host_facts.specs.Hints.{IsHint};
ghost use Rattle.host_facts.specs.Others.{Others};
ghost use Rattle.vol_layout.specs.Ranges.{IsGeometry};

use crate::plan::{Come, Doing, Scribble};
use hint_blocks::{Hint, Hints, IndexEntry, LogEntry, Request};
use lock_store::StepNo;
use meta_world::MetaWorld;
use shared_disk::Device;
use vol_base::{Answer, Block, Digest, HostNo, Packed, number_block};
use vol_layout::{Geometry, Kind, PER_TABLE};

/// The first step, which makes no call: the place is refused, or the digest is waited for.
pub(crate) fn asks<D: Device>(
    world: &MetaWorld<D>,
    pending: &Hints<LogEntry>,
    host: HostNo,
    scribble: Scribble,
) -> Come
    requires stands { PlanStands world.now host pending.now (Doing.Asks scribble) }
    ensures { HasCome host world.now world.now pending.now pending.now (Doing.Asks scribble) result }
{
    let _host = host;
    let _pending = pending;
    first_step(world.locks().geometry(), scribble)
}

// By the place.
fn first_step(geometry: &Geometry, scribble: Scribble) -> Come
    requires { IsGeometry geometry.now }
    ensures { result ≡ first_step geometry.now scribble }
{
    match geometry.kind(scribble.place) {
        Some(Kind::Log(_, _) | Kind::Shard(_) | Kind::Request(_)) => {
            Come::Works(Doing::Asks(scribble), number_block(scribble.number))
        }
        _ => Come::Uncalled(Answer::Refused),
    }
}

/// The block is written.
pub(crate) fn puts<D: Device>(
    world: &mut MetaWorld<D>,
    pending: &Hints<LogEntry>,
    host: HostNo,
    scribble: Scribble,
    digest: Digest,
) -> Result<Come, StepNo>
    requires stands { PlanStands world.old host pending.now (Doing.Puts scribble digest) }
    ensures came { IfOk result (HasCome host world.old world.new pending.now pending.now (Doing.Puts scribble digest)) }
    ensures cut { IfErr result (IsCutAt host world.old world.new pending.now.entries (Doing.Puts scribble digest)) }
    ensures others { Others host world.old world.new }
{
    let _pending = pending;
    let kind = world.locks().geometry().kind(scribble.place).unwrap();
    let block = scribbled(kind, digest, scribble.seen);
    let wrote = world.write_hint(host, scribble.place, &block);
    let _geometry = world.locks().geometry();
    match wrote {
        Ok(()) => Ok(Come::Answered(Answer::Fine)),
        Err(why) => Err(why),
    }
}

// The block of one hint, by the kind of its place: a log says file and index, a shard a slot, and a request index and slot.
#[tactic(auto, unfolding(vol_layout::specs::Ranges::per_table))]
fn scribbled(kind: Kind, digest: Digest, seen: u32) -> Block
    requires { IsHint kind }
    ensures { result.0 ≡ scribbled (Some kind) digest seen }
{
    let high = seen / PER_TABLE;
    let low = seen % PER_TABLE;
    match kind {
        Kind::Log(_, _) => one_entry(LogEntry::MAGIC, digest, high, low),
        Kind::Shard(_) => one_entry(IndexEntry::MAGIC, digest, 1, seen),
        _ => one_entry(Request::MAGIC, digest, low, high),
    }
}

// A block of one entry with these two numbers, whatever they are. The entries of all three kinds have a digest and three numbers in the
// same places; a request takes any two.
fn one_entry(magic: [u8; 8], digest: Digest, first: u32, second: u32) -> Block
    ensures { result.0 ≡ hint_block magic (spelled digest (first ∷ second ∷ 0 ∷ []) ∷ []) }
{
    let hint = Request {
        digest,
        index: first,
        slot: second,
    };
    let mut packed: Packed<32> = Packed::empty(magic);
    if packed.push(hint.to_entry()).is_none() {
        unreachable!()
    }
    packed.into_block()
}
