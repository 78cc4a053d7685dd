//! A recorder that compares.

ghost use Rattle.std.specs.Prelude.{◌≡◌, ◌<◌, ◌^◌, ◌↔◌, [], IsTrue, Some, false, length, map, slice_get, true};
ghost use Rattle.wy_event.specs.Record.{recorded};

use crate::same::same_event;
use crate::{Phase, RecordError, Recorder};
use std::alloc::{AllocError, Global};
use wy_event::record::{Event, Head, Tail};

/// Compares the events of a run with those that are expected, one by one. It has no mirror and keeps no event.
#[derive(Drop)]
pub struct CompareRecorder {
    alloc: Global,
    phase: Phase,
    expected: Vec<Event>,
    position: u32,
    ghost few: { length expected.items < 2 ^ 32 },
}

impl CompareRecorder {
    pub fn new(alloc: Global) -> CompareRecorder
        ensures { result.phase ≡ Phase.Ready }
    {
        CompareRecorder {
            alloc,
            phase: Phase::Ready,
            expected: Vec::new(alloc),
            position: 0,
        }
    }
}

/// Whether the event at a place is this one.
fn stands_at(events: &[Event], place: u32, event: &Event) -> bool
    ensures { IsTrue result
        ↔ (slice_get (map recorded events.now) place ≡ Some (recorded event.now)) }
{
    match events.get(place as usize) {
        Some(found) => same_event(found, event),
        None => false,
    }
}

impl Recorder for CompareRecorder {
    ghost keeps = { false };

    ghost kept = { λ r. [] };

    ghost compares = { true };

    ghost expected = { λ r. map recorded r.expected.items };

    ghost position = { λ r. r.position };

    ghost phase = { λ r. r.phase };

    ghost Sound = { λ r. Unit {0} };

    ghost faults = { λ r. 0 };

    ghost counts = { λ r. [] };

    ghost mirrors = { λ r. [] };

    ghost opening = { λ head. [] };

    ghost frame = { λ event. [] };

    ghost closing = { λ tail bytes. [] };

    fn phase(&self) -> Phase {
        self.phase
    }

    fn start(&mut self, _name: &str, _head: &Head, events: Vec<Event>) -> Result<(), RecordError> {
        self.expected = events;
        self.position = 0;
        self.phase = Phase::Recording;
        Ok(())
    }

    fn note(&mut self, event: &Event) -> Result<(), RecordError> {
        if !stands_at(self.expected.as_slice(), self.position, event) {
            self.phase = Phase::Failed;
            return Err(RecordError::Differs {
                event: self.position,
            });
        }
        self.position += 1;
        Ok(())
    }

    fn finish(&mut self, _tail: &Tail) -> Result<(), RecordError> {
        if (self.position as usize) < self.expected.len() {
            self.phase = Phase::Failed;
            return Err(RecordError::Differs {
                event: self.position,
            });
        }
        self.phase = Phase::Done;
        Ok(())
    }

    fn take(&mut self) -> Vec<Event> {
        Vec::new(self.alloc)
    }

    fn mirror(&self, _n: u32) -> Result<Option<Vec<u8>>, AllocError> {
        Ok(None)
    }
}
