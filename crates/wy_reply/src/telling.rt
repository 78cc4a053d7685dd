//! What is answered from a trace.
ghost use Rattle.std.specs.Prelude.{◌≡◌, ◌<◌, ◌≤◌, ◌-◌, ◌^◌, ℕ, List, IfOk, drop, false, length};
ghost use Rattle.wy_reply.specs.declared.status.Status.TheVariants.{Done};
ghost use Rattle.wy_reply.specs.ByRun.{HasSource, TellsRun};
ghost use Rattle.wy_reply.specs.Statuses.{code_of, is_of_files};
ghost use Rattle.wy_reply.specs.Opening.{IsDecoded, IsViewable};
ghost use Rattle.wy_reply.specs.Certificates.{WantsMemory};
ghost use Rattle.wy_reply.specs.Tellings.{Bytes, DueUnder, RefusesTrace, SaysVerdict, Tells, inquiry_of, wanted_of};
ghost use Rattle.wy_reply.specs.Tellings as wanted;

use crate::answer::Answer;
use crate::certified::verdict_on;
use crate::lines::{Refusal, good_line, line};
use crate::viewed::answer_to_view;
use law_carried::{backward_is_forward, carrying_changes_nothing};
use law_reading::{
    recorded_ends_are_read_back, recorded_heads_are_read_back, recorded_traces_are_read_back,
    traces_are_spelled,
};
use law_shaped::references_point_below;
use std::alloc::{AllocError, Global};
use wy_check::CertError;
use wy_event::record::Trace;
use wy_event::sequence::Sequence;
use wy_fitting::end_fits;
use wy_frames::TraceError;
use wy_kernel::program::Program;
use wy_machine::{Verdict, audit};
use wy_telling::want_of_memory;
use wy_view::MemoryView;
use wy_why::Answer as Found;

/// What is told from the records of a trace, which are read one at a time.
#[derive(Clone, Copy)]
pub enum Inquiry<'a> {
    /// What its run wrote.
    Output,
    /// What the event comes from that a question asks about.
    Why { question: &'a str },
    /// What comes from the event that a question asks about.
    Affects { question: &'a str },
    /// The certificate of what the event comes from that a question asks about.
    Certify { question: &'a str },
    /// What can be asked of it.
    Questions,
    /// Why the statement never began that a word names.
    WhyNot { statement: &'a str },
    /// Why the guards around the statement that a word names were not passed in a call.
    Scope { statement: &'a str, call: u32 },
}

/// What a trace is to tell.
#[derive(Clone, Copy)]
pub enum Wanted<'a> {
    /// What is told from its records.
    Inquiry(Inquiry<'a>),
    /// Whether it is the trace of the run of its head.
    Audit,
    /// Whether a certificate is good for it.
    Check { certificate: &'a [u8] },
}

/// The answer to bytes that are no trace.
pub fn answer_to_trace_error(alloc: Global, error: TraceError) -> Result<Answer, AllocError>
    ensures { IfOk result (λ answer. RefusesTrace error answer) }
{
    match error {
        TraceError::Cut { byte } => Answer::refused(alloc, Refusal::Cut { byte }),
        TraceError::Damaged { byte, rule } => {
            Answer::refused(alloc, Refusal::Damaged { byte, rule })
        }
        TraceError::BadSeal => Answer::refused(alloc, Refusal::BadSeal),
        TraceError::NoMemory => Err(AllocError),
    }
}

fn answer_to_audit(alloc: Global, program: &Program, trace: Trace) -> Result<Answer, AllocError>
    ensures due { (seal : List ℕ) → IfOk result (λ answer. Tells program.now seal trace wanted.Audit
        (code_of answer.status) answer.text.items) }
    ensures settled { IfOk result (λ answer. is_of_files answer.status ≡ false) }
{
    match audit(alloc, program, trace)? {
        Verdict::Equal => Ok(Answer::done(line(alloc, "audit: equal", "")?)),
        Verdict::Event { event } => Answer::refused(alloc, Refusal::AuditEvent { event }),
        Verdict::Tail => Answer::refused(alloc, Refusal::AuditTail),
    }
}

/// The answer to the bytes of a certificate: whether they are one, and good for the trace with this seal.
fn answer_to_check(
    alloc: Global,
    program: &Program,
    trace: Trace,
    seal: &[u8; 32],
    certificate: &[u8],
) -> Result<Answer, AllocError>
    requires viewable { IsViewable trace }
    ensures due { IfOk result (λ answer. Tells program.now seal.now trace
        (wanted.Check (Bytes certificate.now)) (code_of answer.status) answer.text.items) }
    ensures settled { IfOk result (λ answer. is_of_files answer.status ≡ false) }
{
    let view = MemoryView {
        events: trace.events.into_vec(),
    };
    let verdict = verdict_on(alloc, view, program, seal, certificate);
    answer_to_verdict(alloc, verdict)
}

/// The answer to a certificate on which there is a verdict.
fn answer_to_verdict(alloc: Global, verdict: Result<Found, CertError>) -> Result<Answer, AllocError>
    requires { WantsMemory verdict }
    ensures says { IfOk result (SaysVerdict verdict) }
    ensures settled { IfOk result (λ answer. is_of_files answer.status ≡ false) }
{
    match verdict {
        Ok(found) => {
            let line = good_line(alloc, found.all.len(), found.flow.len())?;
            Ok(Answer::done(line))
        }
        Err(CertError::NotRead) => Answer::refused(alloc, Refusal::CertificateNotRead),
        Err(CertError::OtherTrace) => Answer::refused(alloc, Refusal::CertificateOfOther),
        Err(CertError::BadEvent(event)) => {
            Answer::refused(alloc, Refusal::CertificateEvent { event })
        }
        Err(CertError::View(error)) => Err(want_of_memory(error)),
        Err(CertError::NoMemory) => Err(AllocError),
    }
}

/// What is told from a trace that is held in memory, which a view refuses for want of memory alone.
fn answer_from_memory(
    alloc: Global,
    program: &Program,
    trace: Trace,
    seal: &[u8; 32],
    inquiry: Inquiry<'_>,
) -> Result<Answer, AllocError>
    requires viewable { IsViewable trace }
    requires few_fields { length program.now.fields.items < 2 ^ 32 }
    ensures due { IfOk result (λ answer. Tells program.now seal.now trace
        (inquiry_of inquiry.entry) (code_of answer.status) answer.text.items) }
    ensures settled { IfOk result (λ answer. is_of_files answer.status ≡ false) }
{
    let Trace { events, tail, .. } = trace;
    let view = MemoryView {
        events: events.into_vec(),
    };
    let mut answer = None;
    answer_to_view(
        alloc,
        program,
        &tail,
        view,
        None,
        seal,
        inquiry,
        &mut answer,
    );
    match answer.unwrap() {
        Ok(answer) => Ok(answer),
        Err(error) => Err(want_of_memory(error)),
    }
}

/// What a trace tells, under the program of its head.
fn tell(
    alloc: Global,
    program: &Program,
    trace: Trace,
    seal: &[u8; 32],
    wanted: Wanted<'_>,
) -> Result<Answer, AllocError>
    requires viewable { IsViewable trace }
    requires few_fields { length program.now.fields.items < 2 ^ 32 }
    ensures due { IfOk result (λ answer. Tells program.now seal.now trace
        (wanted_of wanted.entry) (code_of answer.status) answer.text.items) }
    ensures settled { IfOk result (λ answer. is_of_files answer.status ≡ false) }
{
    match wanted {
        Wanted::Audit => answer_to_audit(alloc, program, trace),
        Wanted::Inquiry(inquiry) => answer_from_memory(alloc, program, trace, seal, inquiry),
        Wanted::Check { certificate } => answer_to_check(alloc, program, trace, seal, certificate),
    }
}

/// The seal of a trace, with which its bytes end.
fn seal_of(bytes: &[u8]) -> &[u8; 32]
    requires { 32 ≤ length bytes.now }
    ensures { result.now ≡ drop (length bytes.now - 32) bytes.now }
{
    let (_, seal) = bytes.split_last_chunk().unwrap();
    seal
}

/// The answer from a trace that was decoded from these bytes, under the program of its head.
pub fn answer_to_trace(
    alloc: Global,
    program: &Program,
    trace: Trace,
    bytes: &[u8],
    wanted: Wanted<'_>,
) -> Result<Answer, AllocError>
    requires viewable { IsViewable trace }
    requires few_fields { length program.now.fields.items < 2 ^ 32 }
    requires decoded { IsDecoded program.now bytes.now trace }
    ensures due { IfOk result (λ answer. DueUnder program.now bytes.now
        (wanted_of wanted.entry) (code_of answer.status) answer.text.items) }
    ensures settled { IfOk result (λ answer. is_of_files answer.status ≡ false) }
    ensures by_run { IfOk result (λ answer. answer.status ≡ Done
        → TellsRun program.now bytes.now (wanted_of wanted.entry) answer.text.items) }
    ensures source { IfOk result (λ answer. answer.status ≡ Done → HasSource bytes.now) }
{
    traces_are_spelled();
    recorded_traces_are_read_back();
    recorded_heads_are_read_back();
    recorded_ends_are_read_back();
    references_point_below();
    carrying_changes_nothing();
    backward_is_forward();
    end_fits(&trace.tail);
    tell(alloc, program, trace, seal_of(bytes), wanted)
}
