//! What every recorder promises.

ghost use Rattle.std.specs.Prelude.{◌≡◌, ◌≢◌, ◌<◌, ◌^◌, ◌++◌, ◌∷◌, ◌&&◌, [], ℕ, suc, List, Bool, true, map, length, slice_get, Some, None, Option, OnOk, IfOk, IsErrOf, is_ok, option_map, option_and_then, if◌then◌else◌};
ghost use Rattle.wy_event.specs.Record.{Recorded, recorded};
ghost use Rattle.wy_event.specs.declared.record.Head.{Head};
ghost use Rattle.wy_event.specs.declared.record.Tail.{Tail};
ghost use Rattle.wy_record.specs.declared.recorder.Phase.{Phase};
ghost use Rattle.wy_record.specs.Recorders.{CountsAs, DiffersFor, FaultsAs, Mirrors, MirrorsClose, MirrorsTake, opened};

use std::alloc::AllocError;
use wy_event::record::{Event, Head, Tail};

/// How far a recorder is.
#[derive(Clone, Copy, Debug, PartialEq, Eq)]
pub enum Phase {
    Ready,
    Recording,
    Done,
    /// A call was refused: no further one is taken.
    Failed,
}

/// Why a recorder refused a call.
#[derive(Clone, Copy, Debug, PartialEq, Eq)]
pub enum RecordError {
    /// A mirror took no more.
    SinkFault { mirror: u32 },
    /// An event isn't the one that was expected, or one that was expected didn't come.
    Differs { event: u32 },
    NoMemory,
}

/// Is handed the events of one run: `start`, then `note` with each event, then `finish`.
pub trait Recorder {
    /// Whether it keeps events, and those that it has kept.
    ghost keeps: { Bool };

    ghost kept: { Self → List Recorded };

    /// Whether it compares events with those that `start` was given, these, and how many of them came.
    ghost compares: { Bool };

    ghost expected: { Self → List Recorded };

    ghost position: { Self → ℕ };

    ghost phase: { Self → Phase };

    /// What it keeps from call to call, and what the clauses on its mirrors and faults rest on.
    ghost Sound: { Self → Type 0 };

    /// How often a mirror failed, and how often each did.
    ghost faults: { Self → ℕ };

    ghost counts: { Self → List ℕ };

    /// The bytes of each mirror; and how a trace is spelled there: its opening, an event, and what closes the bytes before it.
    ghost mirrors: { Self → Mirrors };

    ghost opening: { Head → List ℕ };

    ghost frame: { Recorded → List ℕ };

    ghost closing: { Tail → List ℕ → List ℕ };

    fn phase(&self) -> Phase
        ensures { result ≡ phase self.now };

    /// Opens the mirrors for a run, by a name. The events are those that are expected, for one that compares.
    fn start(&mut self, name: &str, head: &Head, events: Vec<Event>) -> Result<(), RecordError>
        requires ready { phase self.old ≡ Phase.Ready }
        requires few { length events.items < 2 ^ 32 }
        ensures phase { phase self.new ≡ (if is_ok result then Phase.Recording else Phase.Failed) }
        ensures kept { OnOk result (kept self.new ≡ []) }
        ensures expected { compares ≡ true
            → OnOk result ((expected self.new ≡ map recorded events.items)
            × (position self.new ≡ 0)) }
        ensures sound { Sound self.old → Sound self.new }
        ensures faults { Sound self.old → FaultsAs result (faults self.old) (faults self.new) }
        ensures counts { Sound self.old → CountsAs result (counts self.old) (counts self.new) }
        ensures mirrors { Sound self.old → MirrorsTake result (opening head.now)
            (opened (mirrors self.old)) (mirrors self.new) }
        ensures differs { DiffersFor result compares (position self.old) ⊥ };

    /// Takes the next event.
    fn note(&mut self, event: &Event) -> Result<(), RecordError>
        requires { phase self.old ≡ Phase.Recording }
        ensures phase { phase self.new ≡ (if is_ok result then Phase.Recording else Phase.Failed) }
        ensures kept { kept self.new ≡ (if is_ok result && keeps
            then kept self.old ++ recorded event.now ∷ [] else kept self.old) }
        ensures expected { expected self.new ≡ expected self.old }
        ensures position { position self.new ≡ (if is_ok result && compares
            then suc (position self.old) else position self.old) }
        ensures sound { Sound self.old → Sound self.new }
        ensures faults { Sound self.old → FaultsAs result (faults self.old) (faults self.new) }
        ensures counts { Sound self.old → CountsAs result (counts self.old) (counts self.new) }
        ensures mirrors { Sound self.old → MirrorsTake result
            (frame (recorded event.now)) (mirrors self.old) (mirrors self.new) }
        ensures as_expected { compares ≡ true → OnOk result
            (slice_get (expected self.old) (position self.old) ≡ Some (recorded event.now)) }
        ensures differs { DiffersFor result compares (position self.old)
            (slice_get (expected self.old) (position self.old) ≢ Some (recorded event.now)) }
        ensures not_expected { compares ≡ true
            → slice_get (expected self.old) (position self.old) ≢ Some (recorded event.now)
            → IsErrOf result (RecordError.Differs (position self.old)) };

    /// Takes the end of the run, and closes the mirrors.
    fn finish(&mut self, tail: &Tail) -> Result<(), RecordError>
        requires { phase self.old ≡ Phase.Recording }
        ensures phase { phase self.new ≡ (if is_ok result then Phase.Done else Phase.Failed) }
        ensures kept { kept self.new ≡ kept self.old }
        ensures expected { expected self.new ≡ expected self.old }
        ensures position { position self.new ≡ position self.old }
        ensures sound { Sound self.old → Sound self.new }
        ensures faults { Sound self.old → FaultsAs result (faults self.old) (faults self.new) }
        ensures counts { Sound self.old → CountsAs result (counts self.old) (counts self.new) }
        ensures mirrors { Sound self.old → MirrorsClose result (closing tail.now)
            (mirrors self.old) (mirrors self.new) }
        ensures as_expected { compares ≡ true
            → OnOk result (slice_get (expected self.old) (position self.old) ≡ None) }
        ensures differs { DiffersFor result compares (position self.old)
            (slice_get (expected self.old) (position self.old) ≢ None) }
        ensures not_expected { compares ≡ true
            → slice_get (expected self.old) (position self.old) ≢ None
            → IsErrOf result (RecordError.Differs (position self.old)) };

    /// Hands out the events that it kept.
    fn take(&mut self) -> Vec<Event>
        ensures taken { map recorded result.items ≡ kept self.old }
        ensures kept { kept self.new ≡ [] }
        ensures phase { phase self.new ≡ phase self.old }
        ensures expected { expected self.new ≡ expected self.old }
        ensures position { position self.new ≡ position self.old }
        ensures sound { Sound self.old → Sound self.new }
        ensures faults { faults self.new ≡ faults self.old }
        ensures counts { counts self.new ≡ counts self.old }
        ensures mirrors { mirrors self.new ≡ mirrors self.old };

    /// A copy of the bytes of a mirror, and None where there is no such mirror or it doesn't tell them.
    fn mirror(&self, n: u32) -> Result<Option<Vec<u8>>, AllocError>
        ensures { IfOk result (λ bytes. option_map (λ b. b.items) bytes
            ≡ option_and_then (λ o. o) (slice_get (mirrors self.now) n)) };
}
