// The plan of a command on slots.
ghost use Rattle.std.specs.Prelude.{◌≡◌, ◌<◌, IfErr, IfOk};
ghost use Rattle.recover_plan.specs.Plans.{command_of};

use crate::replay::Replay;
use vol_base::{Answer, Command, HostNo, Key};

/// What a plan does next.
#[derive(Drop)]
pub enum Doing {
    /// `join`: a key is asked for; the slot is entered from a free one, at first, or once a claim found it free; an older key's host is
    /// recovered; and the slot is entered from the claim of this dead key.
    Register,
    Enter,
    EnterAgain,
    Over(Replay),
    Retake(Key),
    /// `leave`: the locks of files and then the slot are freed; the own key is taken off.
    Unlock,
    Fence,
    Beat,
    Look(HostNo),
    /// `recover`: the count is asked; the host is recovered, by a first claim and a second one; its slot is freed.
    Begin(HostNo),
    First(HostNo, Replay),
    Again(HostNo, Replay),
    Free(HostNo, Key),
    /// The command was answered.
    Ended,
}

/// What a step came to: the plan goes on, or the command is answered, behind a call or without one.
#[derive(Drop)]
pub enum Come {
    More(Doing),
    Answered(Answer),
    Uncalled(Answer),
}

/// A command on slots, cut at each device call.
#[derive(Drop)]
pub struct RecoverPlan {
    pub host: HostNo,
    pub doing: Doing,
}
