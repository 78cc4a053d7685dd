//! The loops over the system's reads and writes, at readers and writers that are interrupted or fail in mid-stream.
//! That files are read whole is shown by the runs of tools/checks.

use std::alloc::Allocator;
use std::cell::Cell;
use std::fmt::Display;
use std::io;
use std::io::{BufRead, ErrorKind, Input, Lines, Print, Read};
use std::test::Fail;
use wy_outside::real::{StdinSource, StdoutSink, read_prefix, read_some};
use wy_outside::shelf::ShelfError;
use wy_outside::sink::{Sink, SinkError};
use wy_outside::source::{Source, SourceError};

/// Gives a byte a call, but at one call it is interrupted, and at one it fails.
#[derive(Drop)]
struct Flaky {
    bytes: &'static [u8],
    calls: u32,
    interrupted_at: u32,
    failing_at: u32,
}

impl Read for Flaky {
    fn read(&mut self, buf: &mut [u8]) -> io::Result<usize> {
        self.calls = self.calls.saturating_add(1);
        if self.calls == self.interrupted_at {
            return Err(io::Error::from(ErrorKind::Interrupted));
        }
        if self.calls == self.failing_at {
            return Err(io::Error::from(ErrorKind::NotFound));
        }
        match (self.bytes.split_first(), buf.first_mut()) {
            (Some((byte, rest)), Some(place)) => {
                *place = *byte;
                self.bytes = rest;
                Ok(1)
            }
            _ => Ok(0),
        }
    }
}

/// At which call a reader of `abc` fails, and what is read of it: None where that is a fault.
static FRONTS: [(u32, Option<&[u8]>); 3] = [(9, Some(b"abc")), (3, None), (5, None)];

#[test]
fn an_interrupted_read_goes_on_and_a_failing_one_is_no_end(rt: HostRuntime) -> Result<(), Fail> {
    for &(failing_at, want) in &FRONTS {
        let mut file = Flaky {
            bytes: b"abc",
            calls: 0,
            interrupted_at: 2,
            failing_at,
        };
        match read_prefix(&mut file, rt.alloc(), 9) {
            Ok(bytes) => assert!(rt; want == Some(bytes.as_slice()), "{failing_at}"),
            Err(error) => assert!(rt;
                want.is_none() && error == ShelfError::Failed,
                "{failing_at}"
            ),
        }
    }
    Ok(())
}

/// What each call gives of an input of `a` that is interrupted first and fails at its third call.
static PIECES: [Option<&[u8]>; 3] = [Some(b"a"), None, Some(b"")];

#[test]
fn an_input_goes_on_behind_a_failing_read(rt: HostRuntime) -> Result<(), Fail> {
    let mut input = Flaky {
        bytes: b"a",
        calls: 0,
        interrupted_at: 1,
        failing_at: 3,
    };
    for want in PIECES {
        match read_some(&mut input, rt.alloc(), 9) {
            Ok(bytes) => assert!(rt; want == Some(bytes.as_slice())),
            Err(error) => assert!(rt; want.is_none() && error == SourceError::Failed),
        }
    }
    Ok(())
}

/// An input that gives one line again and again.
#[derive(Drop)]
struct OneLine;

impl Input for OneLine {
    type Reader = &'static [u8];

    fn read_line<A: Allocator + Clone>(&self, buf: &mut String<A>) -> io::Result<usize> {
        self.reader().read_line(buf)
    }

    fn lines<A: Allocator>(&self, alloc: A) -> Lines<&'static [u8], A> {
        self.reader().lines(alloc)
    }

    fn reader(&self) -> &'static [u8] {
        b"why\n"
    }
}

#[test]
fn standard_input_gives_what_is_there(rt: HostRuntime) -> Result<(), Fail> {
    let mut source = StdinSource::new(OneLine);
    for (max, want) in [(3, b"why".as_slice()), (9, b"why\n".as_slice())] {
        assert!(rt; source.read(rt.alloc(), max)?.as_slice() == want, "{max}");
    }
    Ok(())
}

/// An output that takes two bytes a call, but at one call it is interrupted, and at one it fails.
#[derive(Drop)]
struct FlakyPrint {
    calls: Cell<u32>,
    taken: Cell<usize>,
    failing_at: u32,
}

impl Print for FlakyPrint {
    fn print<D: Display + Drop>(&self, _value: D) -> io::Result<()> {
        Err(io::Error::from(ErrorKind::Unsupported))
    }

    fn println<D: Display + Drop>(&self, _value: D) -> io::Result<()> {
        Err(io::Error::from(ErrorKind::Unsupported))
    }

    fn write_all(&self, _bytes: &[u8]) -> io::Result<()> {
        Err(io::Error::from(ErrorKind::Unsupported))
    }

    fn write_some(&self, bytes: &[u8]) -> io::Result<usize> {
        let call = self.calls.get().saturating_add(1);
        self.calls.set(call);
        if call == 2 {
            return Err(io::Error::from(ErrorKind::Interrupted));
        }
        if call == self.failing_at {
            return Err(io::Error::from(ErrorKind::StorageFull));
        }
        let count = bytes.len().min(2);
        self.taken.set(self.taken.get().saturating_add(count));
        Ok(count)
    }
}

#[test]
fn standard_output_fails_in_the_call_that_the_system_refuses(rt: HostRuntime) {
    for (failing_at, want, taken) in [(9, Ok(()), 5), (4, Err(SinkError::Failed), 4)] {
        let out = FlakyPrint {
            calls: Cell::new(0),
            taken: Cell::new(0),
            failing_at,
        };
        let given = StdoutSink::new(&out).write(b"12345");
        assert!(rt; given == want && out.taken.get() == taken, "{failing_at}");
    }
}
