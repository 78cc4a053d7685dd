//! Standard input. It tells nothing of what is left.
ghost use Rattle.std.specs.Prelude.{◌≡◌, ◌≤◌, None, IfOk, OnErr, vec_len};
ghost use Rattle.std.specs.Io.KnownBytes.{Consumes, IsAtEnd, Keeps};

use crate::count::SourceCounts;
use crate::source::{Source, SourceError};
use std::alloc::Global;
use std::io::{ErrorKind, Input, Read};

/// Standard input. A read gives what is there, and waits only where nothing is.
#[derive(Drop)]
pub struct StdinSource<R> {
    rt: R,
    counts: SourceCounts,
}

impl<R: Input> StdinSource<R> {
    pub fn new(rt: R) -> Self
        ensures untold { ⟦<StdinSource<R> as Source>⟧.left result ≡ None }
        ensures faults { ⟦<StdinSource<R> as Source>⟧.faults result ≡ 0 }
        ensures taken { ⟦<StdinSource<R> as Source>⟧.taken result ≡ 0 }
    {
        StdinSource {
            rt,
            counts: SourceCounts::new(),
        }
    }
}

impl<R: Input> Source for StdinSource<R> {
    ghost left = { λ _. None };

    ghost faults = { λ s. s.counts.faults };

    ghost taken = { λ s. s.counts.taken };

    fn read(&mut self, alloc: Global, max: u32) -> Result<Vec<u8>, SourceError> {
        let answer = read_some(&mut self.rt.reader(), alloc, max);
        self.counts.count_read(&answer);
        answer
    }
}

/// How much of the input is asked for at most.
const PIECE: usize = 8192;

/// The next bytes that a reader has. Their room is found first, so that none is taken without it.
pub fn read_some<T: Read>(reader: &mut T, alloc: Global, max: u32) -> Result<Vec<u8>, SourceError>
    requires { 1 ≤ max }
    ensures content { IfOk result
        (λ bytes. Consumes (T.remaining reader.old) (T.remaining reader.new) bytes.items) }
    ensures end { IfOk result (λ bytes. vec_len bytes ≡ 0 → IsAtEnd (T.remaining reader.new)) }
    ensures untaken { OnErr result (Keeps (T.remaining reader.old) (T.remaining reader.new)) }
    ensures bound { IfOk result (λ bytes. vec_len bytes ≤ max) }
{
    let room = PIECE.min(max as usize);
    let mut bytes = vec![in alloc; 0u8; room].map_err(|_| SourceError::NoMemory)?;
    for _ in 0..u64::MAX {
        match reader.read(bytes.as_mut_slice()) {
            Ok(count) => {
                bytes.truncate(count);
                return Ok(bytes);
            }
            Err(error) if error.kind() == ErrorKind::Interrupted => {}
            Err(_) => return Err(SourceError::Failed),
        }
    }
    Err(SourceError::Failed)
}
