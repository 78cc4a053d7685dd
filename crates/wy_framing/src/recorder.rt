//! The recorder.
ghost use Rattle.std.specs.Prelude.{◌≡◌, ◌<◌, ◌^◌, [], false, map, vec_len};
ghost use Rattle.wy_event.specs.declared.record.Version.{Version};
ghost use Rattle.wy_record.specs.declared.recorder.Phase.{Phase};
ghost use Rattle.wy_record.specs.Recorders.{opened};
ghost use Rattle.wy_spelling.specs.Spelling.{closing, event_frame, opening};
ghost use Rattle.wy_framing.specs.Served.{AreLow, Keeps, total};

use crate::TraceSink;
use crate::piece::{frame_of, opening_of, tail_of, with_seal};
use crate::serve::{Act, serve_all};
use sha2::{Digest, Sha256};
use std::alloc::{AllocError, Global};
use wy_event::record::{Event, Head, Tail, Version};
use wy_record::{Phase, RecordError, Recorder};

/// Writes the trace of a run to each of its mirrors, which are of any kinds. What it wrote is hashed
/// as it is written, and never read back.
#[derive(Drop)]
pub struct FrameRecorder {
    alloc: Global,
    phase: Phase,
    mirrors: Vec<Box<dyn TraceSink>>,
    hasher: Sha256,
    ghost few: { vec_len mirrors < 2 ^ 32 },
}

impl FrameRecorder {
    /// A recorder over these mirrors. One that tells its bytes has none yet, and no count of faults
    /// stands at its last value.
    pub fn new(alloc: Global, mirrors: Vec<Box<dyn TraceSink>>) -> Self
        requires few { vec_len mirrors < 2 ^ 32 }
        requires empty { opened (map ⟦<Box<dyn TraceSink> as TraceSink>⟧.bytes mirrors.items)
            ≡ map ⟦<Box<dyn TraceSink> as TraceSink>⟧.bytes mirrors.items }
        requires low { AreLow (map ⟦<Box<dyn TraceSink> as TraceSink>⟧.faults mirrors.items) }
        ensures sound { ⟦<FrameRecorder as Recorder>⟧.Sound result }
        ensures phase { ⟦<FrameRecorder as Recorder>⟧.phase result ≡ Phase.Ready }
        ensures mirrors { ⟦<FrameRecorder as Recorder>⟧.mirrors result
            ≡ map ⟦<Box<dyn TraceSink> as TraceSink>⟧.bytes mirrors.items }
        ensures counts { ⟦<FrameRecorder as Recorder>⟧.counts result
            ≡ map ⟦<Box<dyn TraceSink> as TraceSink>⟧.faults mirrors.items }
    {
        FrameRecorder {
            alloc,
            phase: Phase::Ready,
            mirrors,
            hasher: Sha256::new(),
        }
    }
}

impl Recorder for FrameRecorder {
    ghost keeps = { false };

    ghost kept = { λ r. [] };

    ghost compares = { false };

    ghost expected = { λ r. [] };

    ghost position = { λ r. 0 };

    ghost phase = { λ r. r.phase };

    ghost Sound = { λ r. Keeps r.phase r.hasher
        (map (λ b. (TraceSink-box b).bytes b.value) r.mirrors.items)
        (map (λ b. (TraceSink-box b).faults b.value) r.mirrors.items) };

    ghost faults = { λ r. total (map (λ b. (TraceSink-box b).faults b.value) r.mirrors.items) };

    ghost counts = { λ r. map (λ b. (TraceSink-box b).faults b.value) r.mirrors.items };

    ghost mirrors = { λ r. map (λ b. (TraceSink-box b).bytes b.value) r.mirrors.items };

    ghost opening = { λ head. opening Version.Two head };

    ghost frame = { λ event. event_frame Version.Two event };

    ghost closing = { λ tail bytes. closing tail bytes };

    fn phase(&self) -> Phase {
        self.phase
    }

    fn start(&mut self, name: &str, head: &Head, _events: Vec<Event>) -> Result<(), RecordError> {
        self.phase = Phase::Failed;
        let Ok(piece) = opening_of(self.alloc, head) else {
            return Err(RecordError::NoMemory);
        };
        if let Err(error) = serve_all(&mut self.mirrors, Act::Open, name, piece.as_slice()) {
            return Err(error);
        }
        self.hasher = Sha256::new();
        self.hasher.update(piece.as_slice());
        self.phase = Phase::Recording;
        Ok(())
    }

    fn note(&mut self, event: &Event) -> Result<(), RecordError> {
        self.phase = Phase::Failed;
        let Ok(piece) = frame_of(self.alloc, event) else {
            return Err(RecordError::NoMemory);
        };
        if let Err(error) = serve_all(&mut self.mirrors, Act::Put, "", piece.as_slice()) {
            return Err(error);
        }
        self.hasher.update(piece.as_slice());
        self.phase = Phase::Recording;
        Ok(())
    }

    fn finish(&mut self, tail: &Tail) -> Result<(), RecordError> {
        self.phase = Phase::Failed;
        let Ok(frames) = tail_of(self.alloc, tail) else {
            return Err(RecordError::NoMemory);
        };
        self.hasher.update(frames.as_slice());
        let seal = self.hasher.finalize_reset();
        let Ok(piece) = with_seal(self.alloc, frames, &seal) else {
            return Err(RecordError::NoMemory);
        };
        if let Err(error) = serve_all(&mut self.mirrors, Act::Close, "", piece.as_slice()) {
            return Err(error);
        }
        self.phase = Phase::Done;
        Ok(())
    }

    fn take(&mut self) -> Vec<Event> {
        Vec::new(self.alloc)
    }

    fn mirror(&self, n: u32) -> Result<Option<Vec<u8>>, AllocError> {
        match self.mirrors.get(n as usize) {
            Some(sink) => sink.told(),
            None => Ok(None),
        }
    }
}
