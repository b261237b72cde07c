// Histories of plain calls.
ghost use Rattle.std.specs.Prelude.{◌≡◌, ◌<◌, ◌↔◌, length, IsTrue, IfOk, IfSome, IsSome};
ghost use Rattle.std.specs.List.{All};
ghost use Rattle.plain_files.specs.Calls.{file_no};
ghost use Rattle.plain_files.specs.History.{IsLegal, state_after};

use crate::files::PlainFiles;
use vol_base::{NoMemory, PlainCall, PlainReply};

/// A reply at its place in a history.
#[derive(Clone, Copy, Debug, PartialEq, Eq)]
pub struct Placed {
    /// The position in the workload's list of lines, from 0.
    pub line: u32,
    pub reply: PlainReply,
}

/// Makes the calls of a history. `None` where an entry's line is no file command, or its reply is not
/// the plain reply at that point.
pub fn replay(
    start: PlainFiles,
    workload_calls: &[Option<PlainCall>],
    history: &[Placed],
) -> Result<Option<PlainFiles>, NoMemory>
    requires { All (λ line. IfSome line (λ call. file_no call < length start.files)) workload_calls.now }
    ensures legal { IfOk result (λ end. IsSome end ↔ IsLegal workload_calls.now start history.now) }
    ensures state { IfOk result (λ end. IfSome end (λ p. p ≡ state_after workload_calls.now start history.now)) }
    ensures numbers { IfOk result (λ end. IfSome end (λ p. length p.files ≡ length start.files)) }
{
    let mut files = start;
    for entry in history {
        let Some(Some(call)) = workload_calls.get(entry.line as usize) else {
            return Ok(None);
        };
        let reply = files.apply(call)?;
        if !same_reply(&reply, &entry.reply) {
            return Ok(None);
        }
    }
    Ok(Some(files))
}

fn same_reply(a: &PlainReply, b: &PlainReply) -> bool
    ensures { IsTrue result ↔ (a.now ≡ b.now) }
{
    a == b
}
