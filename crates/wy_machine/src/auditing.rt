//! Whether a trace is that of the run of its head.

ghost use Rattle.std.specs.Prelude.{◌≡◌, ◌<◌, ◌^◌, ◌↔◌, IfOk, IsTrue, length, map};
ghost use Rattle.wy_event.specs.Record.{recorded};
ghost use Rattle.wy_kernel.specs.Parts.{program_of};
ghost use Rattle.wy_machine.specs.Audits.{AuditIs, OneAuditIsDue, SameCounts};
ghost use Rattle.wy_meaning.specs.Kept.{kept_tail};

use crate::recording::record;
use std::alloc::{AllocError, Global};
use wy_event::record::{Cover, Event, Tail, Trace};
use wy_kernel::program::Program;
use wy_record::{CompareRecorder, RecordError};

/// What an audit finds.
#[derive(Clone, Copy, Debug, PartialEq, Eq)]
pub enum Verdict {
    /// The trace is that of the run.
    Equal,
    /// The first event at which the trace and the run differ, or one of them has ended.
    Event { event: u32 },
    /// The events are those of the run, and the tail isn't.
    Tail,
}

/// Runs the program of a trace again, with the input and the steps of the head, and compares the events and then the tail.
/// A trace of more events than a `u32` counts is answered as want of memory.
pub fn audit(alloc: Global, program: &Program, trace: Trace) -> Result<Verdict, AllocError>
    ensures { IfOk result (λ verdict. AuditIs (program_of program.now) trace.head
        (map recorded trace.events) (kept_tail trace.tail) verdict) }
{
    let Trace { head, events, tail } = trace;
    let events = counted(events.into_vec())?;
    let mut recorder = CompareRecorder::new(alloc);
    match record(alloc, program, "", &head, events, &mut recorder) {
        Ok(ended) if same_tail(&tail, &ended.tail) => Ok(Verdict::Equal),
        Ok(_) => Ok(Verdict::Tail),
        Err(RecordError::Differs { event }) => Ok(Verdict::Event { event }),
        Err(RecordError::SinkFault { .. } | RecordError::NoMemory) => Err(AllocError),
    }
}

/// The events, where a `u32` counts them.
fn counted(events: Vec<Event>) -> Result<Vec<Event>, AllocError>
    ensures { IfOk result (λ counted.
        (counted.items ≡ events.items) × (length counted.items < 2 ^ 32)) }
{
    match u32::try_from(events.len()) {
        Ok(_) => Ok(events),
        Err(_) => Err(AllocError),
    }
}

/// Whether two ends are one.
fn same_tail(a: &Tail, b: &Tail) -> bool
    ensures { IsTrue result ↔ (kept_tail a.now ≡ kept_tail b.now) }
{
    let covers = a.coverage.statements.as_slice();
    same_covers(covers, b.coverage.statements.as_slice()) && same_counts(a, b)
}

fn same_counts(a: &Tail, b: &Tail) -> bool
    ensures { IsTrue result ↔ SameCounts a.now b.now }
{
    a.stop == b.stop
        && a.last == b.last
        && a.steps == b.steps
        && a.events == b.events
        && a.uses == b.uses
        && a.output == b.output
}

fn same_covers(a: &[Cover], b: &[Cover]) -> bool
    ensures { IsTrue result ↔ (a.now ≡ b.now) }
{
    a == b
}

/// Two verdicts on the same program, head, events and tail are one.
pub fn one_audit_is_due()
    ensures { OneAuditIsDue }
{}
