//! A trace that comes in pieces, with its events.

ghost use Rattle.std.specs.Prelude.{◌≡◌, ◌≤◌, ◌++◌, [], ℕ, List, length, map, Some, Err, IfOk};
ghost use Rattle.wy_kernel.specs.Limits.{trace_limit};
ghost use Rattle.wy_spelling.specs.Spelling.{opening};
ghost use Rattle.wy_kernel.specs.declared.program.Program.{Program};
ghost use Rattle.wy_frames.specs.Progress.{event_in};

use crate::error::TraceError;
use crate::scanner::Scanner;
use crate::stage::ReadEvent;
use std::alloc::{AllocError, Global};
use wy_event::record::{Event, Head, Trace, Version};
use wy_event::sequence::Sequence;
use wy_kernel::program::Program;

/// A scanner that keeps the events.
#[derive(Drop)]
pub struct Decoder<'a> {
    alloc: Global,
    scanner: Scanner<'a>,
    head: Head,
    placed: Vec<ReadEvent>,
}

fn events_of(alloc: Global, placed: Vec<ReadEvent>) -> Result<Vec<Event>, AllocError>
    ensures { IfOk result (λ v. v.items ≡ map event_in placed.items) }
{
    placed.into_iter().map(|one| one.event).collect(alloc)
}

impl<'a> Decoder<'a> {
    ghost use Rattle.wy_frames.specs.Progress.{Progress, start};
    ghost use Rattle.wy_frames.specs.Decoding.{Decoded, Decodes, IsTrace};
    ghost use Rattle.wy_event.specs.declared.record.Head.{Head};
    ghost use Rattle.wy_event.specs.declared.record.Version.{Version};
    ghost use Rattle.wy_frames.specs.declared.error.TraceError.{TraceError};

    /// A decoder of what stands behind the frame of this head, in a version, by a program.
    pub fn new(alloc: Global, head: Head, version: Version, program: &'a Program) -> Decoder<'a>
        requires { length (opening version head) ≤ trace_limit }
        ensures { Decodes result version program.now head [] (start version head) }
    {
        Decoder {
            alloc,
            scanner: Scanner::behind(alloc, &head, version, program),
            head,
            placed: Vec::new(alloc),
        }
    }

    /// Takes a piece more.
    pub fn feed(&mut self, piece: &[u8]) -> Result<(), TraceError>
        ensures fed { (v : Version) (p : Program) (head : Head) (fed : List ℕ) (t : Progress)
            → Decodes self.old v p head fed t
            → Decoded result self.new v p head (fed ++ piece.now) }
        ensures again { (e : TraceError) → self.old.scanner.failure ≡ Some e
            → (result ≡ Err e) × (self.new ≡ self.old) }
    {
        self.scanner.feed_into(piece, &mut self.placed)
    }

    /// The trace, where it has come whole.
    pub fn finish(self) -> Result<Trace, TraceError>
        ensures read { (v : Version) (p : Program) (head : Head) (fed : List ℕ) (t : Progress)
            → Decodes self.entry v p head fed t → IsTrace result v head fed t }
        ensures again { (e : TraceError) → self.entry.scanner.failure ≡ Some e → result ≡ Err e }
    {
        let Decoder {
            alloc,
            scanner,
            head,
            placed,
        } = self;
        let (tail, _) = match scanner.finish() {
            Ok(end) => end,
            Err(error) => return Err(error),
        };
        let events = Sequence::new(events_of(alloc, placed)?);
        Ok(Trace { head, events, tail })
    }
}
