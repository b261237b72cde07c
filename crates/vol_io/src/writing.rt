// What takes bytes, and the loop that writes a whole text.
ghost use Rattle.std.specs.Prelude.{◌≡◌, ◌≤◌, ℕ, List, Option, OnOk, OnErr, IsErrOf, Ok, length};
ghost use Rattle.std.specs.Io.{WritesAtMost};
ghost use Rattle.std.specs.Io.KnownBytes.{WriteAppends, Appends};
ghost use Rattle.vol_base.specs.Faults.{Rose, HasCause};
ghost use Rattle.vol_io.specs.Refusals.{CountsRefusals};
ghost use Rattle.vol_io.specs.Room.{KeepsRoom};
ghost use Rattle.vol_io.specs.Writes.{AppendsFront, CountsStuck};
ghost use Rattle.vol_io.specs.declared.reading.Failed.{Failed};
ghost use Rattle.vol_io.specs.declared.writing.WriteNo.TheVariants as write_no;

use crate::reading::Failed;
use thiserror::Error;

/// What takes bytes.
pub trait Sink {
    /// The bytes taken so far, where the sink tells them.
    ghost taken: { Self → Option (List ℕ) };

    /// How often the sink failed; the count stands still at the end of `u64`.
    ghost faults: { Self → ℕ };

    /// How often the sink took nothing of a piece that is not empty; the count stands still at the
    /// end of `u64`.
    ghost refusals: { Self → ℕ };

    /// How many more bytes the sink is sure to take unless it fails.
    ghost room: { Self → ℕ } = { λ _. 0 };

    /// Takes the front of `piece` and answers how many bytes that was.
    fn write_some(&mut self, piece: &[u8]) -> Result<usize, Failed>
        ensures bound { WritesAtMost result piece.now }
        ensures bytes { WriteAppends (taken self.old) (taken self.new) result piece.now }
        ensures cause { HasCause (faults self.old) (faults self.new) result }
        ensures refusal { CountsRefusals (refusals self.old) (refusals self.new) result piece.now }
        ensures sure { KeepsRoom (room self.old) (room self.new) result piece.now };
}

/// A count of refusals after a sink took so many bytes of `piece`.
pub(crate) fn refusals_after(refusals: u64, taken: usize, piece: &[u8]) -> u64
    ensures { CountsRefusals {E = Failed} refusals result (Ok taken) piece.now }
{
    if taken == 0 && !piece.is_empty() {
        refusals.saturating_add(1)
    } else {
        refusals
    }
}

/// Why a text was not written whole.
#[derive(Clone, Copy, Debug, PartialEq, Eq, Error)]
pub enum WriteNo {
    /// The sink failed.
    #[error("Failed")]
    Failed,
    /// The sink took nothing of a piece that is not empty.
    #[error("Stuck")]
    Stuck,
}

impl From<Failed> for WriteNo {
    ghost from_gives = { λ _ no. no ≡ write_no.Failed };

    fn from(_: Failed) -> WriteNo {
        WriteNo::Failed
    }
}

/// Writes the whole text. It takes no memory.
pub fn write_all<K: Sink>(sink: &mut K, text: &[u8]) -> Result<(), WriteNo>
    ensures ok { OnOk result (Appends (K.taken sink.old) (K.taken sink.new) text.now) }
    ensures err { OnErr result (AppendsFront (K.taken sink.old) (K.taken sink.new) text.now) }
    ensures later { K.faults sink.old ≤ K.faults sink.new }
    ensures failed { IsErrOf result WriteNo.Failed → Rose (K.faults sink.old) (K.faults sink.new) }
    ensures stuck { CountsStuck (K.refusals sink.old) (K.refusals sink.new) result }
    ensures sure { length text.now ≤ K.room sink.old → ¬ IsErrOf result WriteNo.Stuck }
{
    let mut at = 0;
    'writing: while at < text.len() {
        let count = sink.write_some(&text[at..])?;
        if count == 0 {
            return Err(WriteNo::Stuck);
        }
        at += count;
    }
    Ok(())
}
