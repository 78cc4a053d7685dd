//! A recorder that keeps nothing.

ghost use Rattle.std.specs.Prelude.{◌≡◌, [], false};

use crate::recorder::{Phase, RecordError, Recorder};
use std::alloc::{AllocError, Global};
use wy_event::record::{Event, Head, Tail};

/// Takes the events of a run and keeps none. It has no mirror and refuses nothing.
#[derive(Drop)]
pub struct QuietRecorder {
    alloc: Global,
    phase: Phase,
}

impl QuietRecorder {
    pub fn new(alloc: Global) -> QuietRecorder
        ensures { result.phase ≡ Phase.Ready }
    {
        QuietRecorder {
            alloc,
            phase: Phase::Ready,
        }
    }
}

impl Recorder for QuietRecorder {
    ghost keeps = { false };

    ghost kept = { λ r. [] };

    ghost compares = { false };

    ghost expected = { λ r. [] };

    ghost position = { λ r. 0 };

    ghost phase = { λ r. r.phase };

    ghost Sound = { λ r. Unit {0} };

    ghost faults = { λ r. 0 };

    ghost counts = { λ r. [] };

    ghost mirrors = { λ r. [] };

    ghost opening = { λ head. [] };

    ghost frame = { λ event. [] };

    ghost closing = { λ tail bytes. [] };

    fn phase(&self) -> Phase {
        self.phase
    }

    fn start(&mut self, _name: &str, _head: &Head, _events: Vec<Event>) -> Result<(), RecordError> {
        self.phase = Phase::Recording;
        Ok(())
    }

    fn note(&mut self, _event: &Event) -> Result<(), RecordError> {
        Ok(())
    }

    fn finish(&mut self, _tail: &Tail) -> Result<(), RecordError> {
        self.phase = Phase::Done;
        Ok(())
    }

    fn take(&mut self) -> Vec<Event> {
        Vec::new(self.alloc)
    }

    fn mirror(&self, _n: u32) -> Result<Option<Vec<u8>>, AllocError> {
        Ok(None)
    }
}
