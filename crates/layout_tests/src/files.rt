// The plain calls by their table, and the replay of their histories.
ghost use Rattle.std.specs.Prelude.{◌≡◌, ◌<◌, length, IfOk, IfSome};
ghost use Rattle.std.specs.List.{All};
ghost use Rattle.plain_files.specs.Calls.{file_no};

use plain_files::{Placed, PlainFiles, replay};
use std::alloc::Global;
use std::process::Abort;
use std::test::Fail;
use vol_base::{Block, PlainCall, PlainReply, number_block};

/// The block whose numbers are 7.
fn sevens() -> Block {
    number_block(7)
}

fn zeros() -> Block {
    Block::zeros()
}

/// Makes a call that is to get this reply.
fn expect_reply(
    rt: &impl Abort,
    files: &mut PlainFiles,
    call: PlainCall,
    reply: PlainReply,
) -> Result<(), Fail>
    requires { file_no call < length files.old.files }
    ensures { length files.new.files ≡ length files.old.files }
{
    assert_eq!(rt; files.apply(&call)?, reply);
    Ok(())
}

#[test]
fn replies_by_the_table(rt: HostRuntime) -> Result<(), Fail> {
    let mut files = PlainFiles::with_limit(rt.alloc(), 1, 2016)?;
    let write = PlainCall::Write(0, 1008, sevens());
    let read = PlainCall::Read(0, 1008);
    expect_reply(&rt, &mut files, PlainCall::Create(0), PlainReply::Done)?;
    expect_reply(&rt, &mut files, PlainCall::Size(0, 2016), PlainReply::Done)?;
    expect_reply(&rt, &mut files, write, PlainReply::Done)?;
    expect_reply(&rt, &mut files, read, PlainReply::Holds(sevens()))?;
    assert_eq!(rt; files.file(0).ok_or("no file 0")?.len(), 2016);
    expect_reply(&rt, &mut files, PlainCall::Remove(0), PlainReply::Done)?;
    Ok(())
}

/// A `join`, and then file commands.
fn workload(alloc: Global) -> Result<Vec<Option<PlainCall>>, Fail>
    ensures { IfOk result (λ lines. All (λ line. IfSome line (λ call. file_no call < 1)) lines.items) }
{
    let mut lines = Vec::new(alloc);
    lines.push(None)?;
    lines.push(Some(PlainCall::Create(0)))?;
    lines.push(Some(PlainCall::Size(0, 1)))?;
    lines.push(Some(PlainCall::Read(0, 0)))?;
    Ok(lines)
}

/// Whether the history with this last entry is that of plain files.
fn is_replayed(alloc: Global, last: Placed) -> Result<bool, Fail> {
    let workload = workload(alloc)?;
    let mut history = Vec::new(alloc);
    for line in 1..3 {
        history.push(Placed {
            line,
            reply: PlainReply::Done,
        })?;
    }
    history.push(last)?;
    Ok(replay(PlainFiles::new(alloc, 1)?, &workload, &history)?.is_some())
}

#[test]
fn replays_plain_histories(rt: HostRuntime) -> Result<(), Fail> {
    for (line, reply, want) in [
        (3, PlainReply::Holds(zeros()), true),
        (3, PlainReply::Holds(sevens()), false),
        (0, PlainReply::Done, false),
    ] {
        let entry = Placed { line, reply };
        assert_eq!(rt; is_replayed(rt.alloc(), entry)?, want, "line {line}");
    }
    Ok(())
}
