//! A recorder that keeps the events.

ghost use Rattle.std.specs.Prelude.{◌≡◌, ◌++◌, ◌∷◌, IfOk, [], false, true, is_ok, map, if◌then◌else◌};
ghost use Rattle.wy_event.specs.Record.{recorded};

use crate::recorder::{Phase, RecordError, Recorder};
use std::alloc::{AllocError, Global};
use std::mem;
use wy_event::record::{Event, Head, Tail};
use wy_event::sequence::Sequence;

/// Keeps a copy of each event of a run. It has no mirror.
#[derive(Drop)]
pub struct MemoryRecorder {
    alloc: Global,
    phase: Phase,
    events: Vec<Event>,
}

impl MemoryRecorder {
    pub fn new(alloc: Global) -> MemoryRecorder
        ensures { result.phase ≡ Phase.Ready }
    {
        MemoryRecorder {
            alloc,
            phase: Phase::Ready,
            events: Vec::new(alloc),
        }
    }
}

fn copied(alloc: Global, event: &Event) -> Result<Event, AllocError>
    ensures { IfOk result (λ copy. copy ≡ event.now) }
{
    Ok(Event {
        kind: event.kind,
        site: event.site,
        frame: event.frame,
        control: event.control,
        entity: event.entity,
        slot: event.slot,
        value: event.value,
        units: Sequence::new(event.units.as_slice().to_vec(alloc)?),
        uses: Sequence::new(event.uses.as_slice().to_vec(alloc)?),
    })
}

/// Puts a copy of an event behind those that are kept.
pub fn keep(alloc: Global, events: &mut Vec<Event>, event: &Event) -> Result<(), AllocError>
    ensures { map recorded events.new.items ≡ (if is_ok result
        then map recorded events.old.items ++ recorded event.now ∷ []
        else map recorded events.old.items) }
{
    let copy = copied(alloc, event)?;
    events.push(copy)?;
    Ok(())
}

impl Recorder for MemoryRecorder {
    ghost keeps = { true };

    ghost kept = { λ r. map recorded r.events.items };

    ghost compares = { false };

    ghost expected = { λ r. [] };

    ghost position = { λ r. 0 };

    ghost phase = { λ r. r.phase };

    ghost Sound = { λ r. Unit {0} };

    ghost faults = { λ r. 0 };

    ghost counts = { λ r. [] };

    ghost mirrors = { λ r. [] };

    ghost opening = { λ head. [] };

    ghost frame = { λ event. [] };

    ghost closing = { λ tail bytes. [] };

    fn phase(&self) -> Phase {
        self.phase
    }

    fn start(&mut self, _name: &str, _head: &Head, _events: Vec<Event>) -> Result<(), RecordError> {
        self.events = Vec::new(self.alloc);
        self.phase = Phase::Recording;
        Ok(())
    }

    fn note(&mut self, event: &Event) -> Result<(), RecordError> {
        match keep(self.alloc, &mut self.events, event) {
            Ok(()) => Ok(()),
            Err(_) => {
                self.phase = Phase::Failed;
                Err(RecordError::NoMemory)
            }
        }
    }

    fn finish(&mut self, _tail: &Tail) -> Result<(), RecordError> {
        self.phase = Phase::Done;
        Ok(())
    }

    fn take(&mut self) -> Vec<Event> {
        mem::replace(&mut self.events, Vec::new(self.alloc))
    }

    fn mirror(&self, _n: u32) -> Result<Option<Vec<u8>>, AllocError> {
        Ok(None)
    }
}
