// Readers and writers of std as sources and sinks.
ghost use Rattle.std.specs.Prelude.{◌≡◌, is_err};
ghost use Rattle.std.specs.Io.{ReadsAtMost, WritesAtMost};
ghost use Rattle.std.specs.Io.KnownBytes.{ReadConsumes, WriteAppends};
ghost use Rattle.vol_base.specs.Faults.{HasCause};
ghost use Rattle.vol_io.specs.Counts.{counted};
ghost use Rattle.vol_io.specs.Refusals.{CountsRefusals};
ghost use Rattle.vol_io.specs.Room.{KeepsRoom};

use crate::reading::{Failed, Source};
use crate::writing::{Sink, refusals_after};
use std::io::{Read, Write};
use std::marker::Model;

/// A reader of std as a source: each `Err` of the reader is a fault.
#[derive(Drop)]
pub struct StdSource<R> {
    reader: R,
    faults: u64,
}

impl<R> Model for StdSource<R> {
    ghost use Rattle.vol_io.specs.Adapted.{Reading};

    ghost Value = { Reading R };

    ghost view = { λ s. record { reader = s.reader; faults = s.faults } };
}

impl<R: Read> StdSource<R> {
    pub fn new(reader: R) -> StdSource<R>
        ensures { result ≡ record { reader = reader; faults = 0 } }
    {
        StdSource { reader, faults: 0 }
    }
}

impl<R: Read> Source for StdSource<R> {
    ghost left = { λ s. R.remaining s.reader };

    ghost faults = { λ s. s.faults };

    fn read_some(&mut self, into: &mut [u8]) -> Result<usize, Failed>
        ensures bound { ReadsAtMost result into.new }
        ensures bytes { ReadConsumes (R.remaining self.old.reader) (R.remaining self.new.reader)
            result into.new }
        ensures cause { HasCause self.old.faults self.new.faults result }
        ensures faults { self.new.faults ≡ counted (is_err result) self.old.faults }
    {
        match self.reader.read(into) {
            Ok(count) => Ok(count),
            Err(_) => {
                self.faults = self.faults.saturating_add(1);
                Err(Failed)
            }
        }
    }
}

/// A writer of std as a sink: each `Err` of the writer is a fault.
#[derive(Drop)]
pub struct StdSink<W> {
    writer: W,
    faults: u64,
    refusals: u64,
}

impl<W> Model for StdSink<W> {
    ghost use Rattle.vol_io.specs.Adapted.{Writing};

    ghost Value = { Writing W };

    ghost view = { λ s. record { writer = s.writer; faults = s.faults; refusals = s.refusals } };
}

impl<W: Write> StdSink<W> {
    pub fn new(writer: W) -> StdSink<W>
        ensures { result ≡ record { writer = writer; faults = 0; refusals = 0 } }
    {
        StdSink {
            writer,
            faults: 0,
            refusals: 0,
        }
    }
}

impl<W: Write> Sink for StdSink<W> {
    ghost taken = { λ s. W.contents s.writer };

    ghost faults = { λ s. s.faults };

    ghost refusals = { λ s. s.refusals };

    fn write_some(&mut self, piece: &[u8]) -> Result<usize, Failed>
        ensures bound { WritesAtMost result piece.now }
        ensures bytes { WriteAppends (W.contents self.old.writer) (W.contents self.new.writer)
            result piece.now }
        ensures cause { HasCause self.old.faults self.new.faults result }
        ensures refusal { CountsRefusals self.old.refusals self.new.refusals result piece.now }
        ensures faults { self.new.faults ≡ counted (is_err result) self.old.faults }
    {
        match self.writer.write(piece) {
            Ok(count) => {
                self.refusals = refusals_after(self.refusals, count, piece);
                Ok(count)
            }
            Err(_) => {
                self.faults = self.faults.saturating_add(1);
                Err(Failed)
            }
        }
    }
}
