//! The lines of refusals.
ghost use Rattle.std.specs.Prelude.{◌≡◌, ◌++◌, IfOk};
ghost use Rattle.std.specs.Fmt.{decimal};
ghost use Rattle.wy_reply.specs.Lines.{line_of, damage_name, damaged_as, good_line, migrated_line, passed_line, ran_line, recorded_line};
ghost use Rattle.wy_reply.specs.Refusals.{refusal_status, refusal_text};

use crate::source::source_refusal_line;
use crate::status::Status;
use std::alloc::{AllocError, Global};
use wy_constant::SourceRefusal;
use wy_payload::fault::DamageRule;

/// Why a command did not do what it says.
#[derive(Clone, Copy)]
pub enum Refusal<'a> {
    Usage,
    Absent {
        name: &'a str,
    },
    /// Why the source is no program.
    Program(SourceRefusal),
    /// The trace ends before its seal, at so many bytes.
    Cut {
        byte: u32,
    },
    /// The rule that the trace breaks first.
    Damaged {
        byte: u32,
        rule: DamageRule,
    },
    BadSeal,
    /// A block of the trace isn't what it was when the trace was opened.
    Changed {
        block: u32,
    },
    /// Why the source of the trace is no program.
    TraceProgram(SourceRefusal),
    /// The word asks no question.
    NotRead,
    /// What is asked about isn't there.
    NoSuch {
        number: u32,
    },
    /// The statement at that place of the line began so often, first at that moment.
    Ran {
        line: u32,
        place: u32,
        count: u32,
        first: u32,
    },
    /// The region of the statement at that place of the line was passed in the call, first by that event.
    Passed {
        line: u32,
        place: u32,
        event: u32,
    },
    FaultShelf,
    FaultRecorder,
    LongFile {
        name: &'a str,
    },
    /// The first event that isn't that of the run.
    AuditEvent {
        event: u32,
    },
    AuditTail,
    /// The bytes are no certificate.
    CertificateNotRead,
    /// The certificate is of a trace with another seal.
    CertificateOfOther,
    /// The least event at fault of the certificate.
    CertificateEvent {
        event: u32,
    },
}

impl Refusal<'_> {
    /// What a call ends with that is refused so.
    pub fn status(self) -> Status
        ensures { result ≡ refusal_status self.entry }
    {
        match self {
            Refusal::Usage => Status::Usage,
            Refusal::Absent { .. } => Status::Absent,
            Refusal::Program(_) => Status::Program,
            Refusal::Cut { .. }
            | Refusal::Damaged { .. }
            | Refusal::BadSeal
            | Refusal::Changed { .. }
            | Refusal::TraceProgram(_) => Status::Trace,
            Refusal::NotRead
            | Refusal::NoSuch { .. }
            | Refusal::Ran { .. }
            | Refusal::Passed { .. } => Status::Question,
            Refusal::FaultShelf | Refusal::FaultRecorder => Status::Fault,
            Refusal::LongFile { .. } => Status::TooLong,
            Refusal::AuditEvent { .. } | Refusal::AuditTail => Status::Audit,
            Refusal::CertificateNotRead
            | Refusal::CertificateOfOther
            | Refusal::CertificateEvent { .. } => Status::Certificate,
        }
    }
}

/// The line of a refusal.
pub fn refusal_line(alloc: Global, refusal: Refusal<'_>) -> Result<Vec<u8>, AllocError>
    ensures { IfOk result (λ line. line.items ≡ refusal_text refusal.entry) }
{
    match refusal {
        Refusal::Usage => line(alloc, "usage: whyline COMMAND WORDS", ""),
        Refusal::Absent { name } => line(alloc, "absent: ", name),
        Refusal::Program(refusal) => source_refusal_line(alloc, "", refusal),
        Refusal::Cut { byte } => numbered(alloc, "trace: Cut at byte ", byte),
        Refusal::Damaged { byte, rule } => damaged(alloc, byte, damage_name(rule)),
        Refusal::BadSeal => line(alloc, "trace: BadSeal", ""),
        Refusal::Changed { block } => numbered(alloc, "trace: Changed block ", block),
        Refusal::TraceProgram(refusal) => source_refusal_line(alloc, "trace: ", refusal),
        Refusal::NotRead => line(alloc, "question: not read", ""),
        Refusal::NoSuch { number } => numbered(alloc, "question: no such ", number),
        Refusal::Ran {
            line,
            place,
            count,
            first,
        } => ran(alloc, line, place, count, first),
        Refusal::Passed { line, place, event } => passed(alloc, line, place, event),
        Refusal::FaultShelf => line(alloc, "fault: shelf", ""),
        Refusal::FaultRecorder => line(alloc, "fault: recorder", ""),
        Refusal::LongFile { name } => line(alloc, "too long: ", name),
        Refusal::AuditEvent { event } => numbered(alloc, "audit: differs at event ", event),
        Refusal::AuditTail => line(alloc, "audit: differs in the tail", ""),
        Refusal::CertificateNotRead => line(alloc, "certificate: not read", ""),
        Refusal::CertificateOfOther => line(alloc, "certificate: other trace", ""),
        Refusal::CertificateEvent { event } => numbered(alloc, "certificate: event ", event),
    }
}

#[tactic(auto, unfolding(crate::specs::Lines::damage_name))]
fn damage_name(rule: DamageRule) -> &'static str
    ensures { result.now ≡ damage_name rule }
{
    match rule {
        DamageRule::Magic => "Magic",
        DamageRule::FrameKind => "FrameKind",
        DamageRule::Length => "Length",
        DamageRule::Range => "Range",
        DamageRule::Kind => "Kind",
        DamageRule::Count => "Count",
        DamageRule::After => "After",
    }
}

fn damaged(alloc: Global, byte: u32, rule: &str) -> Result<Vec<u8>, AllocError>
    ensures { IfOk result (λ line. line.items ≡ damaged_as byte rule.now) }
{
    let line = format!(in alloc; "trace: Damaged at byte {byte}, {rule}\n")?;
    Ok(line.into_bytes())
}

#[tactic(auto, unfolding(crate::specs::Lines::ran_line))]
fn ran(alloc: Global, at: u32, place: u32, count: u32, first: u32) -> Result<Vec<u8>, AllocError>
    ensures { IfOk result (λ text. text.items ≡ ran_line at place count first) }
{
    let entity = format!(in alloc; "{at}.{place} ran {count} times, first before #{first}")?;
    line(alloc, "question: line ", &entity)
}

#[tactic(auto, unfolding(crate::specs::Lines::passed_line))]
fn passed(alloc: Global, at: u32, place: u32, event: u32) -> Result<Vec<u8>, AllocError>
    ensures { IfOk result (λ text. text.items ≡ passed_line at place event) }
{
    let entity = format!(in alloc; "{at}.{place} passed at #{event}")?;
    line(alloc, "question: line ", &entity)
}

/// A line that ends with a number.
fn numbered(alloc: Global, first: &str, number: u32) -> Result<Vec<u8>, AllocError>
    ensures { IfOk result (λ line. line.items ≡ line_of (first.now ++ decimal number)) }
{
    let line = format!(in alloc; "{first}{number}\n")?;
    Ok(line.into_bytes())
}

pub fn line(alloc: Global, first: &str, second: &str) -> Result<Vec<u8>, AllocError>
    ensures { IfOk result (λ line. line.items ≡ line_of (first.now ++ second.now)) }
{
    let mut line = Vec::new(alloc);
    line.extend_from_slice(first.as_bytes())?;
    line.extend_from_slice(second.as_bytes())?;
    line.push(b'\n')?;
    Ok(line)
}

/// The line that a recording adds to what is written of its run.
pub fn recorded_line(alloc: Global, events: u32) -> Result<Vec<u8>, AllocError>
    ensures { IfOk result (λ line. line.items ≡ recorded_line events) }
{
    let line = format!(in alloc; "-- recorded {events} events\n")?;
    Ok(line.into_bytes())
}

/// The line that is written of a trace of so many events that was written anew.
pub fn migrated_line(alloc: Global, events: usize) -> Result<Vec<u8>, AllocError>
    ensures { IfOk result (λ line. line.items ≡ migrated_line events) }
{
    let line = format!(in alloc; "migrate: {events} events\n")?;
    Ok(line.into_bytes())
}

/// The line that is written of a good certificate of so many events, so many of them in the data.
pub fn good_line(alloc: Global, events: usize, by_data: usize) -> Result<Vec<u8>, AllocError>
    ensures { IfOk result (λ line. line.items ≡ good_line events by_data) }
{
    let line = format!(in alloc; "certificate: {events} events, {by_data} in the data\n")?;
    Ok(line.into_bytes())
}
