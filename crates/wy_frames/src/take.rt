//! Taking the next frame.

ghost use Rattle.std.specs.Prelude.{◌≡◌, ◌+◌, ◌++◌, ◌∷◌, [], Err, ℕ, List, length, IfOk, IsErrOf, OnOk, OnErr};
ghost use Rattle.std.specs.Str.{bytes_eq};
ghost use Rattle.sha2.specs.Hashers.{Holds256};
ghost use Rattle.sha2.specs.Sha256.{sha256};
ghost use Rattle.wy_payload.specs.Ranges.{known_of};
ghost use Rattle.wy_frames.specs.Progress.{Progress, coverage_next, covered_next, end_next, ended_next, event_next, next_of, open_next, seal_next};
ghost use Rattle.wy_frames.specs.Pieces.{frame_in};
ghost use Rattle.wy_frames.specs.Holds.{Counts, Holds, TakesEvent, TakesFrame, TakesNext, damaged_at};

use crate::error::TraceError;
use crate::past::Past;
use crate::split::Piece;
use crate::stage::{ReadEvent, Stage};
use crate::whole::{known_in, whole_coverage, whole_event, whole_tail};
use sha2::Digest;
use std::alloc::{AllocError, Global};
use std::mem;
use wy_event::record::{Coverage, Tail};
use wy_kernel::limit::OUTPUT_LIMIT;
use wy_payload::closing::Totals;
use wy_payload::fault::{DamageRule, Fault};
use wy_payload::ranges::Ranges;

const SEAL_LENGTH: usize = 32;

/// A sum that no trace within its limit passes.
pub fn sum(a: u32, b: usize) -> Result<u32, TraceError>
    ensures sum { IfOk result (λ n. n ≡ a + b) }
    ensures err { OnErr result (result ≡ Err TraceError.NoMemory) }
{
    let b = u32::try_from(b).map_err(|_| TraceError::NoMemory)?;
    a.checked_add(b).ok_or(TraceError::NoMemory)
}

fn is_same(a: &[u8], b: &[u8]) -> bool
    ensures { result ≡ bytes_eq a.now b.now }
{
    a == b
}

impl Past {
    // What a fault of the frame at this place is.
    fn damaged(&self, fault: Fault) -> TraceError
        ensures { result ≡ damaged_at self.now.at fault }
    {
        match fault {
            Fault::Broken(rule) => TraceError::Damaged {
                byte: self.at,
                rule,
            },
            Fault::NoMemory => TraceError::NoMemory,
        }
    }

    // Of the bytes of the frames that stand.
    fn digest(&self) -> Result<[u8; 32], AllocError>
        ensures { IfOk result (λ d. (bytes : List ℕ) → Holds256 self.now.hasher bytes
            → d ≡ sha256 bytes) }
    {
        Ok(self.hasher.clone()?.finalize())
    }

    // Goes on behind a frame.
    fn pass(&mut self, whole: &[u8]) -> Result<(), TraceError>
        ensures at { OnOk result (self.new.at ≡ self.old.at + length whole.now) }
        ensures hashed { OnOk result ((bytes : List ℕ) → Holds256 self.old.hasher bytes
            → Holds256 self.new.hasher (bytes ++ whole.now)) }
        ensures known { self.new.known ≡ self.old.known }
        ensures uses { self.new.uses ≡ self.old.uses }
        ensures output { self.new.output ≡ self.old.output }
        ensures stage { self.new.stage ≡ self.old.stage }
        ensures err { OnErr result (result ≡ Err TraceError.NoMemory) }
    {
        self.at = sum(self.at, whole.len())?;
        self.hasher.update(whole);
        Ok(())
    }

    /// Takes the frame of an event.
    pub fn take_event(
        &mut self,
        alloc: Global,
        ranges: &Ranges,
        whole: &[u8],
        payload: &[u8],
    ) -> Result<ReadEvent, TraceError>
        requires { self.old.stage ≡ Stage.Open }
        ensures { (s : Progress) → Counts self.old s
            → TakesEvent result self.new s (event_next ranges.now s whole.now payload.now) }
    {
        let written = match whole_event(alloc, ranges, &self.known, self.output, payload) {
            Ok(written) => written,
            Err(fault) => return Err(self.damaged(fault)),
        };
        if written.output as usize > OUTPUT_LIMIT {
            return Err(TraceError::NoMemory);
        }
        let uses = sum(self.uses, written.event.uses.as_slice().len())?;
        let known = known_in(alloc, &written.event)?;
        self.known.push(known)?;
        self.uses = uses;
        self.output = written.output;
        self.pass(whole)?;
        Ok(ReadEvent {
            event: written.event,
            end: self.at,
        })
    }

    /// Takes the frame of the coverage.
    pub fn take_coverage(
        &mut self,
        alloc: Global,
        ranges: &Ranges,
        whole: &[u8],
        payload: &[u8],
    ) -> Result<(), TraceError>
        ensures { (s : Progress) → Counts self.old s
            → TakesFrame result self.new s (coverage_next ranges.now s whole.now payload.now) }
    {
        let coverage = match whole_coverage(alloc, ranges.statements, &self.known, payload) {
            Ok(coverage) => coverage,
            Err(fault) => return Err(self.damaged(fault)),
        };
        self.pass(whole)?;
        self.stage = Stage::Covered(coverage);
        Ok(())
    }

    /// Takes the frame of how the run ended, behind the coverage.
    pub fn take_end(
        &mut self,
        steps: u32,
        coverage: Coverage,
        whole: &[u8],
        payload: &[u8],
    ) -> Result<(), TraceError>
        ensures { (s : Progress) → Counts self.old s
            → TakesFrame result self.new s (end_next steps s coverage whole.now payload.now) }
    {
        if self.known.len() > u32::MAX as usize {
            return Err(TraceError::NoMemory);
        }
        let totals = Totals {
            steps,
            uses: self.uses,
            output: self.output,
        };
        let tail = match whole_tail(&self.known, totals, coverage, payload) {
            Ok(tail) => tail,
            Err(fault) => return Err(self.damaged(fault)),
        };
        self.pass(whole)?;
        self.stage = Stage::Ended(tail);
        Ok(())
    }

    /// Takes the frame of the seal, behind the end.
    pub fn take_seal(&mut self, tail: Tail, whole: &[u8], payload: &[u8]) -> Result<(), TraceError>
        ensures { (s : Progress) → Counts self.old s
            → TakesFrame result self.new s (seal_next s tail whole.now payload.now) }
    {
        if payload.len() != SEAL_LENGTH {
            return Err(self.damaged(Fault::Broken(DamageRule::Length)));
        }
        let digest = self.digest()?;
        if !is_same(payload, &digest) {
            return Err(TraceError::BadSeal);
        }
        self.pass(whole)?;
        self.stage = Stage::Sealed(tail, digest);
        Ok(())
    }

    fn take_open(
        &mut self,
        alloc: Global,
        ranges: &Ranges,
        piece: Piece<'_>,
    ) -> Result<Option<ReadEvent>, TraceError>
        requires { self.old.stage ≡ Stage.Open }
        ensures { (s : Progress) → Counts self.old s
            → TakesNext result self.new s (open_next ranges.now s (frame_in piece.entry)) }
    {
        if piece.letter == b'E' {
            match self.take_event(alloc, ranges, piece.whole, piece.payload) {
                Ok(placed) => Ok(Some(placed)),
                Err(error) => Err(error),
            }
        } else if piece.letter == b'C' {
            match self.take_coverage(alloc, ranges, piece.whole, piece.payload) {
                Ok(()) => Ok(None),
                Err(error) => Err(error),
            }
        } else {
            Err(self.damaged(Fault::Broken(DamageRule::FrameKind)))
        }
    }

    fn take_covered(
        &mut self,
        steps: u32,
        coverage: Coverage,
        piece: Piece<'_>,
    ) -> Result<Option<ReadEvent>, TraceError>
        ensures { (s : Progress) → Counts self.old s
            → TakesNext result self.new s (covered_next steps s coverage (frame_in piece.entry)) }
    {
        if piece.letter != b'T' {
            return Err(self.damaged(Fault::Broken(DamageRule::FrameKind)));
        }
        match self.take_end(steps, coverage, piece.whole, piece.payload) {
            Ok(()) => Ok(None),
            Err(error) => Err(error),
        }
    }

    fn take_ended(&mut self, tail: Tail, piece: Piece<'_>) -> Result<Option<ReadEvent>, TraceError>
        ensures { (s : Progress) → Counts self.old s
            → TakesNext result self.new s (ended_next s tail (frame_in piece.entry)) }
    {
        if piece.letter != b'S' {
            return Err(self.damaged(Fault::Broken(DamageRule::FrameKind)));
        }
        match self.take_seal(tail, piece.whole, piece.payload) {
            Ok(()) => Ok(None),
            Err(error) => Err(error),
        }
    }

    /// Takes the next frame: the event of it, where it has one.
    pub fn take(
        &mut self,
        alloc: Global,
        ranges: &Ranges,
        steps: u32,
        piece: Piece<'_>,
    ) -> Result<Option<ReadEvent>, TraceError>
        ensures { (s : Progress) → Holds self.old s
            → TakesNext result self.new s (next_of ranges.now steps s (frame_in piece.entry)) }
    {
        match mem::replace(&mut self.stage, Stage::Open) {
            Stage::Open => self.take_open(alloc, ranges, piece),
            Stage::Covered(coverage) => self.take_covered(steps, coverage, piece),
            Stage::Ended(tail) => self.take_ended(tail, piece),
            Stage::Sealed(_, _) => Err(self.damaged(Fault::Broken(DamageRule::After))),
        }
    }
}
