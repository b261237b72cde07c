// What no clause says: that calls succeed with ample memory, and what the errors print.
ghost use Rattle.std.specs.Prelude.{◌≡◌, ◌≤◌, ◌++◌, length, IfSome};

use std::alloc::{AllocError, Global};
use std::io;
use std::io::{ErrorKind, Read, Write};
use std::test::Fail;
use vol_io::{
    MemSink, MemSource, ReadNo, StdSink, StdSource, SureSink, SureSource, WriteNo, read_all,
    write_all,
};

/// A reader that gives two bytes at a time, and whose chosen call fails.
#[derive(Drop)]
struct Trickle {
    at: u8,
    calls: u8,
    fails: u8,
}

impl Read for Trickle {
    fn read(&mut self, buf: &mut [u8]) -> io::Result<usize> {
        self.calls = self.calls.saturating_add(1);
        if self.calls == self.fails {
            return Err(io::Error::from(ErrorKind::Interrupted));
        }
        if self.at >= 8 || buf.len() < 2 {
            return Ok(0);
        }
        buf[0] = self.at;
        buf[1] = self.at + 1;
        self.at += 2;
        Ok(2)
    }
}

/// A writer that takes one byte at a time while it has room, and whose chosen call fails.
#[derive(Drop)]
struct Narrow {
    bytes: Vec<u8>,
    room: usize,
    calls: u8,
    fails: u8,
}

impl Write for Narrow {
    fn write(&mut self, buf: &[u8]) -> io::Result<usize> {
        self.calls = self.calls.saturating_add(1);
        if self.calls == self.fails {
            return Err(io::Error::from(ErrorKind::Interrupted));
        }
        if self.room == 0 || buf.is_empty() {
            return Ok(0);
        }
        self.room -= 1;
        self.bytes.push(buf[0])?;
        Ok(1)
    }

    fn flush(&mut self) -> io::Result<()> {
        Ok(())
    }
}

#[test]
fn a_failure_in_mid_stream_loses_nothing(rt: HostRuntime) -> Result<(), Fail> {
    let alloc = rt.alloc();
    let bytes = vec![in alloc; 7u8; 5000]?;
    let mut source = MemSource::new(bytes, vec![in alloc; 2]?);
    let answer = read_all(alloc, &mut source, 5000);
    assert!(rt; matches!(answer, Err(ReadNo::Failed)));
    assert_eq!(rt; read_all(alloc, &mut source, 904)?.len(), 904);
    let mut sink = MemSink::new(alloc, 4, vec![in alloc; 2]?).map_err(|_| AllocError)?;
    assert_eq!(rt; write_all(&mut sink, b"report"), Err(WriteNo::Failed));
    assert_eq!(rt; sink.taken(), b"repo".as_slice());
    Ok(())
}

/// That a sure sink with room takes the whole text is proved from the contracts.
fn write_surely(sink: &mut SureSink, text: &[u8])
    requires { length text.now ≤ sink.old.room }
    ensures { sink.new.taken ≡ sink.old.taken ++ text.now }
{
    match write_all(sink, text) {
        Ok(()) => (),
        Err(_) => unreachable!(),
    }
}

/// That a sure source within the limit is read whole, or there is no memory, is proved too.
fn read_surely(alloc: Global, source: &mut SureSource, limit: usize) -> Option<Vec<u8>>
    requires { length source.old ≤ limit }
    ensures { IfSome result (λ bytes. bytes.items ≡ source.old) }
{
    match read_all(alloc, source, limit) {
        Ok(bytes) => Some(bytes),
        Err(ReadNo::NoMemory) => None,
        Err(_) => unreachable!(),
    }
}

#[test]
fn sure_kinds_give_and_take_all(rt: HostRuntime) -> Result<(), Fail> {
    let mut source = SureSource::new(Vec::from_slice(rt.alloc(), b"report")?);
    let bytes = read_surely(rt.alloc(), &mut source, 6).ok_or(AllocError)?;
    assert_eq!(rt; bytes.as_slice(), b"report".as_slice());
    let mut sink = SureSink::new(rt.alloc(), 6).map_err(|_| AllocError)?;
    write_surely(&mut sink, b"report");
    assert_eq!(rt; sink.taken(), b"report".as_slice());
    assert_eq!(rt; write_all(&mut sink, b"s"), Err(WriteNo::Stuck));
    Ok(())
}

#[test]
fn adapts_readers_of_std(rt: HostRuntime) -> Result<(), Fail> {
    let alloc = rt.alloc();
    let mut trickle = StdSource::new(Trickle {
        at: 0,
        calls: 0,
        fails: 3,
    });
    let answer = read_all(alloc, &mut trickle, 8);
    assert!(rt; matches!(answer, Err(ReadNo::Failed)));
    let rest = read_all(alloc, &mut trickle, 8)?;
    assert_eq!(rt; rest.as_slice(), [4, 5, 6, 7].as_slice());
    Ok(())
}

#[test]
fn adapts_writers_of_std(rt: HostRuntime) -> Result<(), Fail> {
    let alloc = rt.alloc();
    let mut narrow = Narrow {
        bytes: Vec::new(alloc),
        room: 5,
        calls: 0,
        fails: 3,
    };
    let answer = write_all(&mut StdSink::new(&mut narrow), b"lines");
    assert_eq!(rt; answer, Err(WriteNo::Failed));
    assert_eq!(rt; narrow.bytes.as_slice(), b"li".as_slice());
    Ok(())
}

#[test]
fn errors_print_their_names(rt: HostRuntime) -> Result<(), Fail> {
    let alloc = rt.alloc();
    for (no, name) in [
        (ReadNo::Failed, "Failed"),
        (ReadNo::Long, "Long"),
        (ReadNo::NoMemory, "NoMemory"),
    ] {
        assert_eq!(rt; no.to_string(alloc)?.as_str(), name);
    }
    for (no, name) in [(WriteNo::Failed, "Failed"), (WriteNo::Stuck, "Stuck")] {
        assert_eq!(rt; no.to_string(alloc)?.as_str(), name);
    }
    Ok(())
}
