// Which commands are calls on plain files.
ghost use Rattle.std.specs.Prelude.{◌≡◌};
ghost use Rattle.vol_base.specs.PlainCalls.{plain_call_of};

use crate::command::Command;
use crate::filled::number_block;
use crate::plain::PlainCall;

/// The plain call that a command makes. It is `None` exactly for a command that is none of the six
/// file commands.
pub fn plain_call(command: &Command) -> Option<PlainCall>
    ensures { result ≡ plain_call_of command.now }
{
    match *command {
        Command::Create(file) => Some(PlainCall::Create(file)),
        Command::Size(file, blocks) => Some(PlainCall::Size(file, blocks)),
        Command::Write(file, index, n) => Some(PlainCall::Write(file, index, number_block(n))),
        Command::Read(file, index) => Some(PlainCall::Read(file, index)),
        Command::Punch(file, index) => Some(PlainCall::Punch(file, index)),
        Command::Remove(file) => Some(PlainCall::Remove(file)),
        _ => None,
    }
}
