//! Standard output. It tells nothing of what was written.
ghost use Rattle.std.specs.Prelude.{◌≡◌, ◌≤◌, ℕ, length, take, None};
ghost use Rattle.std.specs.Bool.{OnTrue, OnFalse};
ghost use Rattle.std.specs.Io.KnownBytes.{Appends};

use crate::count::one_more;
use crate::sink::{Sink, SinkError};
use std::io;
use std::io::{ErrorKind, Print, Write};

/// Standard output, without a buffer: a write that returns has handed its bytes to the system.
#[derive(Drop)]
pub struct StdoutSink<R> {
    rt: R,
    faults: u64,
}

impl<R: Print> StdoutSink<R> {
    pub fn new(rt: R) -> Self
        ensures untold { ⟦<StdoutSink<R> as Sink>⟧.written result ≡ None }
        ensures faults { ⟦<StdoutSink<R> as Sink>⟧.faults result ≡ 0 }
    {
        StdoutSink { rt, faults: 0 }
    }
}

impl<R: Print> Sink for StdoutSink<R> {
    ghost written = { λ _. None };

    ghost faults = { λ s. s.faults };

    fn write(&mut self, bytes: &[u8]) -> Result<(), SinkError> {
        if write_whole(&mut io::writer(&self.rt), bytes) {
            Ok(())
        } else {
            self.faults = one_more(self.faults);
            Err(SinkError::Failed)
        }
    }
}

/// Writes the bytes, and answers whether the writer took all of them.
pub fn write_whole<W: Write>(out: &mut W, bytes: &[u8]) -> bool
    ensures whole { OnTrue result (Appends (W.contents out.old) (W.contents out.new) bytes.now) }
    ensures part { OnFalse result ((n : ℕ) × (n ≤ length bytes.now)
        × Appends (W.contents out.old) (W.contents out.new) (take n bytes.now)) }
{
    let mut at = 0;
    for _ in 0..u64::MAX {
        if at == bytes.len() {
            return true;
        }
        match out.write(&bytes[at..]) {
            Ok(0) => return false,
            Ok(count) => at += count,
            Err(error) if error.kind() == ErrorKind::Interrupted => {}
            Err(_) => return false,
        }
    }
    false
}
