// The block whose digest a host waits for.
ghost use Rattle.std.specs.Prelude.{◌≡◌, None, Some, if◌then◌else◌};
ghost use Rattle.vol_base.specs.NumberBlock.{number_block};
ghost use Rattle.cluster.specs.Asking.{asked_with, doing_asks, merge_asks, plan_asks};
ghost use Rattle.host_runs.specs.Awaited.{first_block};
ghost use Rattle.host_runs.specs.FileUses.{is_hint_place};
ghost use Rattle.vol_layout.specs.Ranges.{IsGeometry};

use crate::plan::Plan;
use hint_plans::Doing;
use merge_plan::Doing as Merging;
use vol_base::{Block, Command, number_block};
use vol_layout::{Geometry, Kind};

/// By the plan of the command under way; or where none is, and the host is joined, by the command that it is to begin.
pub fn asked_with(
    geometry: &Geometry,
    plan: &Option<Plan>,
    joined: bool,
    command: &Command,
) -> Option<Block>
    requires { IsGeometry geometry.now }
    ensures { result ≡ asked_with geometry.now plan.now joined command.now }
{
    match plan {
        Some(plan) => plan_asks(geometry, plan),
        None if joined => first_block(geometry, command),
        None => None,
    }
}

// A plan under way waits for the digest of a block that it read.
fn plan_asks(geometry: &Geometry, plan: &Plan) -> Option<Block>
    requires { IsGeometry geometry.now }
    ensures { result ≡ plan_asks geometry.now plan.now }
{
    match plan {
        Plan::Hints(plan) => doing_asks(geometry, &plan.doing),
        Plan::Merges(plan) => merge_asks(&plan.doing),
        Plan::Files(_) | Plan::Slots(_) | Plan::Collects(_) | Plan::Serves(_) => None,
    }
}

fn merge_asks(doing: &Merging) -> Option<Block>
    ensures { result ≡ merge_asks doing.now }
{
    match doing {
        Merging::Asks(_, block) => Some(*block),
        _ => None,
    }
}

fn doing_asks(geometry: &Geometry, doing: &Doing) -> Option<Block>
    requires { IsGeometry geometry.now }
    ensures { result ≡ doing_asks geometry.now doing.now }
{
    match doing {
        Doing::Asks(scribble) => scribbled(geometry, scribble.place, scribble.number),
        Doing::AsksBlock(_, block) => Some(*block),
        _ => None,
    }
}

// The block of a `write`, and that of a `scribble` at a place of hints.
fn first_block(geometry: &Geometry, command: &Command) -> Option<Block>
    requires { IsGeometry geometry.now }
    ensures { result ≡ first_block geometry.now command.now }
{
    match command {
        Command::Write(_, _, number) => Some(number_block(*number)),
        Command::Scribble(place, number, _) => scribbled(geometry, *place, *number),
        _ => None,
    }
}

fn scribbled(geometry: &Geometry, place: u64, number: u64) -> Option<Block>
    requires { IsGeometry geometry.now }
    ensures { result ≡ (if is_hint_place geometry.now place then Some (number_block number) else None) }
{
    match geometry.kind(place) {
        Some(Kind::Log(_, _) | Kind::Shard(_) | Kind::Request(_)) => Some(number_block(number)),
        _ => None,
    }
}
