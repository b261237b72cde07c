// The commands by their names.
ghost use Rattle.std.specs.Prelude.{◌≡◌, ◌≤◌};
ghost use Rattle.workload.specs.Verbs.{arity, name_of, verb_in, verb_of};

use vol_base::Command;

/// Which command a name stands for.
#[derive(Clone, Copy, Debug, PartialEq, Eq)]
pub enum Verb {
    Join,
    Leave,
    Create,
    Size,
    Write,
    Read,
    Punch,
    Remove,
    Close,
    Log,
    Scan,
    Merge,
    Serve,
    Collect,
    Beat,
    Look,
    Recover,
    Die,
    Scribble,
}

/// All commands.
pub const VERBS: [Verb; 19] = [
    Verb::Join,
    Verb::Leave,
    Verb::Create,
    Verb::Size,
    Verb::Write,
    Verb::Read,
    Verb::Punch,
    Verb::Remove,
    Verb::Close,
    Verb::Log,
    Verb::Scan,
    Verb::Merge,
    Verb::Serve,
    Verb::Collect,
    Verb::Beat,
    Verb::Look,
    Verb::Recover,
    Verb::Die,
    Verb::Scribble,
];

impl Verb {
    #[tactic(auto, unfolding(crate::specs::Verbs::verb_of))]
    /// The command of a name, or `None` where there is none.
    pub fn of(word: &[u8]) -> Option<Verb>
        ensures { result ≡ verb_of word.now }
    {
        VERBS
            .iter()
            .copied()
            .find(|verb| verb.name().as_bytes() == word)
    }

    /// The command's name in a text.
    pub fn name(self) -> &'static str
        ensures { result.now ≡ name_of self }
    {
        match self {
            Verb::Join => "join",
            Verb::Leave => "leave",
            Verb::Create => "create",
            Verb::Size => "size",
            Verb::Write => "write",
            Verb::Read => "read",
            Verb::Punch => "punch",
            Verb::Remove => "remove",
            Verb::Close => "close",
            Verb::Log => "log",
            Verb::Scan => "scan",
            Verb::Merge => "merge",
            Verb::Serve => "serve",
            Verb::Collect => "collect",
            Verb::Beat => "beat",
            Verb::Look => "look",
            Verb::Recover => "recover",
            Verb::Die => "die",
            Verb::Scribble => "scribble",
        }
    }

    /// The command, without its arguments.
    pub fn in_command(command: &Command) -> Verb
        ensures { result ≡ verb_in command.now }
    {
        match *command {
            Command::Join => Verb::Join,
            Command::Leave => Verb::Leave,
            Command::Create(_) => Verb::Create,
            Command::Size(..) => Verb::Size,
            Command::Write(..) => Verb::Write,
            Command::Read(..) => Verb::Read,
            Command::Punch(..) => Verb::Punch,
            Command::Remove(_) => Verb::Remove,
            Command::Close(_) => Verb::Close,
            Command::Log => Verb::Log,
            Command::Scan(..) => Verb::Scan,
            Command::Merge => Verb::Merge,
            Command::Serve => Verb::Serve,
            Command::Collect(_) => Verb::Collect,
            Command::Beat => Verb::Beat,
            Command::Look(_) => Verb::Look,
            Command::Recover(_) => Verb::Recover,
            Command::Die(_) => Verb::Die,
            Command::Scribble(..) => Verb::Scribble,
        }
    }

    /// How many arguments the command has, at most 3.
    pub fn arity(self) -> usize
        ensures arity { result ≡ arity self }
        ensures most { result ≤ 3 }
    {
        match self {
            Verb::Join | Verb::Leave | Verb::Log | Verb::Merge | Verb::Serve | Verb::Beat => 0,
            Verb::Create | Verb::Remove | Verb::Close => 1,
            Verb::Collect | Verb::Look | Verb::Recover | Verb::Die => 1,
            Verb::Size | Verb::Read | Verb::Punch | Verb::Scan => 2,
            Verb::Write | Verb::Scribble => 3,
        }
    }
}
