// The requests of a block, one after another.
ghost use Rattle.std.specs.Prelude.{◌≡◌, ◌<◌, ◌≤◌, [], length};
ghost use Rattle.host_runs.specs.HintCauses.{requested_hints};
ghost use Rattle.serve_plan.specs.Files.{behind_file};
ghost use Rattle.serve_plan.specs.Requests.{IsBegun, IsBehind, IsReadOf, counted, total};
ghost use Rattle.vol_layout.specs.Ranges.{IsGeometry};

use crate::plan::{Come, Doing, Serving};
use hint_blocks::{Hints, Request};
use share_plans::{Place, SharePlan, Shared};
use vol_base::{Answer, Block, FileNo, HostNo, ServeCounts};
use vol_layout::Geometry;

/// What comes behind the read of a file's block: its first request is handled, or, where it has none, the next held file comes.
pub(crate) fn behind_read(
    host: HostNo,
    geometry: &Geometry,
    file: FileNo,
    block: Block,
    next: Option<FileNo>,
    counts: ServeCounts,
) -> Come
    requires { IsGeometry geometry.now }
    ensures { IsReadOf geometry.now host file block next counts result }
{
    let requests: Hints<Request> = Hints::of(&block, geometry);
    if requests.count() == 0 {
        return behind_file(next, counts);
    }
    goes_on(
        host,
        Serving {
            file,
            block,
            requests,
            done: 0,
        },
    )
}

/// The next held file comes; or, where there is none, the command is answered.
pub(crate) fn behind_file(next: Option<FileNo>, counts: ServeCounts) -> Come
    ensures { result ≡ behind_file next counts }
{
    match next {
        Some(file) => Come::More(Doing::Reads(file)),
        None => Come::Answered(Answer::Served(counts)),
    }
}

/// The next request is handled, or, once all are, the block made empty.
pub(crate) fn goes_on(host: HostNo, serving: Serving) -> Come
    ensures { IsBehind host serving result }
{
    if serving.done < serving.requests.count() {
        let share = begun(host, &serving);
        Come::More(Doing::Shares(serving, share))
    } else {
        Come::More(Doing::Empties(serving.file, serving.block))
    }
}

// The share of the next request.
fn begun(host: HostNo, serving: &Serving) -> SharePlan
    requires { serving.now.done < length serving.now.requests.entries }
    ensures { IsBegun host serving.now result }
{
    let request = serving.requests.get(serving.done);
    SharePlan::new(
        host,
        serving.file,
        request.index,
        Place::Arena(request.slot),
    )
}

/// The answer of a request's share is counted.
pub(crate) fn count(counts: &mut ServeCounts, answer: Shared)
    requires { total counts.old ≤ 8064 }
    ensures { counts.new ≡ counted answer counts.old }
{
    match answer {
        Shared::Linked => counts.linked += 1,
        Shared::Already => counts.already += 1,
        Shared::Differs(_) => counts.differs += 1,
        Shared::Hole | Shared::NoSource => counts.gone += 1,
        Shared::Busy(_) => {}
    }
}
