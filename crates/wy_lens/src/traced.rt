//! What is told of a trace.
ghost use Rattle.std.specs.Prelude.{◌≡◌, ◌<◌, ◌≤◌, ◌^◌, [], None, IfOk, length, map, option_map};
ghost use Rattle.wy_ask.specs.Opened.{IsOpenedOf};
ghost use Rattle.wy_event.specs.Record.{recorded};
ghost use Rattle.wy_kernel.specs.Limits.{trace_limit};
ghost use Rattle.wy_lens.specs.Answers.{IsBytesAnswer};
ghost use Rattle.wy_lens.specs.Replies.{IsTold, IsUnopenedAs, NamesNoEvent};
ghost use Rattle.wy_lens.specs.Traces.{OfQuestion, OfReport, OfStop, Tells, shown_of, sliced_by};
ghost use Rattle.wy_lens.specs.Words as words;
ghost use Rattle.wy_lens.specs.Views.{telling_of};
ghost use Rattle.wy_view.specs.References.{AllRefersBelow};
ghost use Rattle.wy_view.specs.Whole.{whole};

use crate::answer::Answer;
use crate::status::Status;
use crate::words::Telling;
use std::alloc::{AllocError, Global};
use wy_ask::{AskError, Opened, number};
use wy_event::record::{Tail, Trace};
use wy_fold::{
    Showing, all_events_text, asked_event, line_events_text, show_text, slice_text, stop_event,
};
use wy_program::{OpenTrace, OpeningError, SourceError, trace_of_bytes};
use wy_reply::lines::refusal_line;
use wy_reply::{Refusal, answer_to_trace_error};
use wy_report::report_text;
use wy_view::{EventView, MemoryView};

/// The text of a telling, and the status that stands with it.
pub(crate) fn done(text: Vec<u8>) -> Answer
    ensures status { result.status ≡ Status.Done }
    ensures text { result.text.items ≡ text.items }
{
    Answer {
        status: Status::Done,
        text,
    }
}

/// The question isn't read, or names nothing.
fn no_answer(alloc: Global, error: AskError) -> Result<Answer, AllocError>
    ensures { IfOk result (NamesNoEvent error) }
{
    let refusal = match error {
        AskError::BadQuestion => Refusal::NotRead,
        AskError::NoSuch(number) => Refusal::NoSuch { number },
        AskError::NoMemory => return Err(AllocError),
    };
    Ok(Answer {
        status: Status::Question,
        text: refusal_line(alloc, refusal)?,
    })
}

/// What is shown of the event that a question asks about.
fn shown(
    alloc: Global,
    opened: &mut Opened<'_, MemoryView>,
    source: &[u8],
    question: &str,
    showing: Showing,
) -> Result<Answer, AllocError>
    requires { IsOpenedOf (whole opened.old.view.events.items None) opened.old }
    ensures { IfOk result (IsTold (OfQuestion opened.old.program.now
        (map recorded opened.old.view.events.items) question.now
        (shown_of opened.old.program.now (map recorded opened.old.view.events.items)
        source.now showing))) }
{
    match asked_event(alloc, opened, question) {
        Ok(event) => Ok(done(show_text(alloc, opened, source, event, showing)?)),
        Err(error) => no_answer(alloc, error),
    }
}

/// The lines of the source by the event that a question asks about.
fn sliced(
    alloc: Global,
    opened: &mut Opened<'_, MemoryView>,
    source: &[u8],
    question: &str,
) -> Result<Answer, AllocError>
    requires { IsOpenedOf (whole opened.old.view.events.items None) opened.old }
    ensures { IfOk result (IsTold (OfQuestion opened.old.program.now
        (map recorded opened.old.view.events.items) question.now
        (sliced_by opened.old.program.now (map recorded opened.old.view.events.items)
        source.now))) }
{
    match asked_event(alloc, opened, question) {
        Ok(event) => Ok(done(slice_text(alloc, opened, source, event)?)),
        Err(error) => no_answer(alloc, error),
    }
}

/// The page of the event that a question asks about.
fn reported(
    alloc: Global,
    opened: &mut Opened<'_, MemoryView>,
    source: &[u8],
    question: &str,
) -> Result<Answer, AllocError>
    requires { IsOpenedOf (whole opened.old.view.events.items None) opened.old }
    ensures { IfOk result (IsTold (OfReport opened.old.program.now
        (map recorded opened.old.view.events.items) source.now question.now)) }
{
    match asked_event(alloc, opened, question) {
        Ok(event) => Ok(done(report_text(alloc, opened, source, event)?)),
        Err(error) => no_answer(alloc, error),
    }
}

/// What is shown of the event at which the run stopped.
fn stopped(
    alloc: Global,
    opened: &mut Opened<'_, MemoryView>,
    source: &[u8],
    tail: &Tail,
    showing: Showing,
) -> Result<Answer, AllocError>
    requires { IsOpenedOf (whole opened.old.view.events.items None) opened.old }
    ensures { IfOk result (IsTold (OfStop tail.now.last
        (length (map recorded opened.old.view.events.items))
        (shown_of opened.old.program.now (map recorded opened.old.view.events.items)
        source.now showing))) }
{
    match stop_event(tail, opened.view.count()) {
        Some(event) => Ok(done(show_text(alloc, opened, source, event, showing)?)),
        None => no_answer(alloc, AskError::NoSuch(0)),
    }
}

/// All events, or those of the line that a word names.
fn events(
    alloc: Global,
    opened: &mut Opened<'_, MemoryView>,
    line: Option<&str>,
) -> Result<Answer, AllocError>
    ensures { IfOk result (IsTold (Tells opened.old.program.now
        (map recorded opened.old.view.events.items) 0 []
        (words.Events (option_map (λ s. s.now) line.entry)))) }
{
    let Some(word) = line else {
        return Ok(done(all_events_text(alloc, opened)?));
    };
    let Some(line) = number(word) else {
        return no_answer(alloc, AskError::BadQuestion);
    };
    match line_events_text(alloc, opened, line)? {
        Some(text) => Ok(done(text)),
        None => no_answer(alloc, AskError::NoSuch(line)),
    }
}

/// What is told of an opened trace whose source has these bytes.
fn tell(
    alloc: Global,
    opened: &mut Opened<'_, MemoryView>,
    source: &[u8],
    tail: &Tail,
    telling: Telling<'_>,
) -> Result<Answer, AllocError>
    requires { IsOpenedOf (whole opened.old.view.events.items None) opened.old }
    ensures { IfOk result (IsTold (Tells opened.old.program.now
        (map recorded opened.old.view.events.items) tail.now.last source.now
        (telling_of telling.entry))) }
{
    match telling {
        Telling::Show {
            question: Some(question),
            showing,
        } => shown(alloc, opened, source, question, showing),
        Telling::Show {
            question: None,
            showing,
        } => stopped(alloc, opened, source, tail, showing),
        Telling::Slice { question } => sliced(alloc, opened, source, question),
        Telling::Report { question } => reported(alloc, opened, source, question),
        Telling::Events { line } => events(alloc, opened, line),
    }
}

/// What is told of a trace with its program.
fn answer_to_open(
    alloc: Global,
    opening: OpenTrace,
    telling: Telling<'_>,
) -> Result<Answer, AllocError>
    requires few { length opening.trace.events < 2 ^ 32 }
    requires refer_below { AllRefersBelow opening.trace.events }
    ensures { IfOk result (IsTold (Tells opening.typed.program
        (map recorded opening.trace.events) opening.trace.tail.last
        opening.trace.head.source (telling_of telling.entry))) }
{
    let OpenTrace { typed, trace } = opening;
    let Trace { head, events, tail } = trace;
    let covers = tail.coverage.statements.as_slice();
    let view = MemoryView {
        events: events.into_vec(),
    };
    let Ok(mut opened) = Opened::open(alloc, &typed.program, covers, view) else {
        return Err(AllocError);
    };
    tell(alloc, &mut opened, head.source.as_slice(), &tail, telling)
}

/// A trace that can't be opened, with the line that `whyline` has for it.
fn unopened(text: Vec<u8>) -> Answer
    ensures status { result.status ≡ Status.Trace }
    ensures text { result.text.items ≡ text.items }
{
    Answer {
        status: Status::Trace,
        text,
    }
}

/// Bytes that can't be opened.
pub(crate) fn unopened_by(alloc: Global, error: OpeningError) -> Result<Answer, AllocError>
    ensures { IfOk result (IsUnopenedAs error) }
{
    match error {
        OpeningError::Source(SourceError::Refused(refusal)) => {
            let line = refusal_line(alloc, Refusal::TraceProgram(refusal))?;
            Ok(unopened(line))
        }
        OpeningError::Source(SourceError::NoMemory) => Err(AllocError),
        OpeningError::Trace(error) => Ok(unopened(answer_to_trace_error(alloc, error)?.text)),
    }
}

/// What is due for the bytes of a trace.
pub(crate) fn answer_to_bytes(
    alloc: Global,
    bytes: &[u8],
    telling: Telling<'_>,
) -> Result<Answer, AllocError>
    requires { length bytes.now ≤ trace_limit }
    ensures { IfOk result (IsBytesAnswer bytes.now (telling_of telling.entry)) }
{
    match trace_of_bytes(alloc, bytes) {
        Ok(opening) => answer_to_open(alloc, opening, telling),
        Err(error) => unopened_by(alloc, error),
    }
}
