//! A trace that comes in pieces, read without keeping its events.

ghost use Rattle.std.specs.Prelude.{◌≡◌, ◌≤◌, ◌++◌, [], ℕ, List, length, Some, IfOk, OnErr, Err, ◌+◌};
ghost use Rattle.wy_kernel.specs.Limits.{trace_limit};
ghost use Rattle.wy_spelling.specs.Spelling.{opening};
ghost use Rattle.wy_kernel.specs.declared.program.Program.{Program};
ghost use Rattle.wy_frames.specs.Ends.{IsEndOf};

use crate::error::TraceError;
use crate::past::Past;
use crate::stage::{ReadEvent, Stage};
use crate::take::sum;
use std::alloc::{AllocError, Global};
use std::mem;
use wy_event::record::{Head, Tail, Version};
use wy_kernel::program::Program;
use wy_payload::ranges::Ranges;
use wy_payload::ranges_of_program;

/// Reads the bytes behind the head frame of a trace in any pieces. It keeps what the next frame is read by, and the bytes
/// of the frame that isn't whole yet.
#[derive(Drop)]
pub struct Scanner<'a> {
    alloc: Global,
    version: Version,
    program: &'a Program,
    ranges: Option<Ranges>,
    steps: u32,
    past: Past,
    rest: Vec<u8>,
    failure: Option<TraceError>,
}

fn end_of(stage: Stage) -> Option<(Tail, [u8; 32])>
    ensures { IsEndOf result stage }
{
    match stage {
        Stage::Sealed(tail, seal) => Some((tail, seal)),
        Stage::Open | Stage::Covered(_) | Stage::Ended(_) => None,
    }
}

impl<'a> Scanner<'a> {
    ghost use Rattle.wy_frames.specs.Progress.{Progress, start};
    ghost use Rattle.wy_frames.specs.Scanning.{Fed, Feeds, Finishes, KnowsRanges, Scanned, Scans};
    ghost use Rattle.wy_payload.specs.Ranges.{ranges_of};
    ghost use Rattle.wy_event.specs.declared.record.Head.{Head};
    ghost use Rattle.wy_event.specs.declared.record.Version.{Version};
    ghost use Rattle.wy_frames.specs.declared.error.TraceError.{TraceError};

    // Behind the frame of a head.
    pub fn behind(alloc: Global, head: &Head, version: Version, program: &'a Program) -> Scanner<'a>
        requires { length (opening version head.now) ≤ trace_limit }
        ensures { Scans result version program.now head.now [] (start version head.now) }
    {
        Scanner {
            alloc,
            version,
            program,
            ranges: None,
            steps: head.steps,
            past: Past::start(alloc, version, head),
            rest: Vec::new(alloc),
            failure: None,
        }
    }

    /// A scanner of what stands behind the frame of this head, in a version, by a program.
    pub fn new(alloc: Global, head: Head, version: Version, program: &'a Program) -> Scanner<'a>
        requires { length (opening version head) ≤ trace_limit }
        ensures { Scans result version program.now head [] (start version head) }
    {
        Scanner::behind(alloc, &head, version, program)
    }

    fn ranges(&mut self) -> Result<Ranges, AllocError>
        ensures read { IfOk result (λ r. KnowsRanges self.old
            → r ≡ ranges_of self.old.version self.old.program.now) }
        ensures version { self.new.version ≡ self.old.version }
        ensures program { self.new.program ≡ self.old.program }
        ensures steps { self.new.steps ≡ self.old.steps }
        ensures past { self.new.past ≡ self.old.past }
        ensures rest { self.new.rest ≡ self.old.rest }
        ensures failure { self.new.failure ≡ self.old.failure }
    {
        match self.ranges.take() {
            Some(ranges) => Ok(ranges),
            None => ranges_of_program(self.alloc, self.version, self.program),
        }
    }

    fn scan(&mut self, piece: &[u8], placed: &mut Vec<ReadEvent>) -> Result<(), TraceError>
        ensures { (v : Version) (p : Program) (head : Head) (fed : List ℕ) (t : Progress)
            → Scans self.old v p head fed t
            → Scanned result placed.old.items placed.new.items self.new v p head
            (fed ++ piece.now) t }
    {
        let ranges = self.ranges()?;
        let mut bytes = mem::replace(&mut self.rest, Vec::new(self.alloc));
        bytes.extend_from_slice(piece)?;
        match self
            .past
            .take_all(self.alloc, &ranges, self.steps, &bytes, placed)
        {
            Ok(rest) => self.rest = Vec::from_slice(self.alloc, rest)?,
            Err(error) => return Err(error),
        }
        self.ranges = Some(ranges);
        Ok(())
    }

    /// Takes a piece more, and puts the events whose frames end in it behind others.
    pub fn feed_into(&mut self, piece: &[u8], placed: &mut Vec<ReadEvent>) -> Result<(), TraceError>
        ensures fed { (v : Version) (p : Program) (head : Head) (fed : List ℕ) (t : Progress)
            → Scans self.old v p head fed t
            → Fed result placed.old.items placed.new.items self.new v p head (fed ++ piece.now) t }
        ensures again { (e : TraceError) → self.old.failure ≡ Some e
            → (result ≡ Err e) × (self.new ≡ self.old) × (placed.new ≡ placed.old) }
    {
        if let Some(failure) = self.failure {
            return Err(failure);
        }
        match self.scan(piece, placed) {
            Ok(()) => Ok(()),
            Err(error) => {
                self.failure = Some(error);
                Err(error)
            }
        }
    }

    /// Takes a piece more. It gives the events whose frames end in the piece, in their order.
    pub fn feed(&mut self, piece: &[u8]) -> Result<Vec<ReadEvent>, TraceError>
        ensures fed { (v : Version) (p : Program) (head : Head) (fed : List ℕ) (t : Progress)
            → Scans self.old v p head fed t → Feeds result self.new v p head (fed ++ piece.now) t }
        ensures again { (e : TraceError) → self.old.failure ≡ Some e
            → (result ≡ Err e) × (self.new ≡ self.old) }
    {
        let mut placed = Vec::new(self.alloc);
        match self.feed_into(piece, &mut placed) {
            Ok(()) => Ok(placed),
            Err(error) => Err(error),
        }
    }

    // How many bytes there were.
    fn size(&self) -> Result<u32, TraceError>
        ensures size { IfOk result (λ n. n ≡ self.now.past.at + length self.now.rest.items) }
        ensures err { OnErr result (result ≡ Err TraceError.NoMemory) }
    {
        sum(self.past.at, self.rest.len())
    }

    /// The end of the trace and its seal, where it has come whole.
    pub fn finish(mut self) -> Result<(Tail, [u8; 32]), TraceError>
        ensures read { (v : Version) (p : Program) (head : Head) (fed : List ℕ) (t : Progress)
            → Scans self.entry v p head fed t → Finishes result v head fed t }
        ensures again { (e : TraceError) → self.entry.failure ≡ Some e → result ≡ Err e }
    {
        if let Some(failure) = self.failure {
            return Err(failure);
        }
        let byte = match self.size() {
            Ok(byte) => byte,
            Err(error) => return Err(error),
        };
        let past = &mut self.past;
        match end_of(mem::replace(&mut past.stage, Stage::Open)) {
            Some(end) => Ok(end),
            None => Err(TraceError::Cut { byte }),
        }
    }
}
