//! What is told of a trace beside a second one, or beside what its run was expected to print.
ghost use Rattle.std.specs.Prelude.{◌≡◌, ◌≢◌, ◌<◌, ◌≤◌, ◌^◌, IfOk, length, true, false};
ghost use Rattle.wy_kernel.specs.Limits.{trace_limit};
ghost use Rattle.wy_lens.specs.Answers.{IsPairAnswer};
ghost use Rattle.wy_lens.specs.Pairs.{IsCompared, IsExpected};
ghost use Rattle.wy_program.specs.Openings.{Opens};
ghost use Rattle.wy_view.specs.References.{AllRefersBelow};

use crate::answer::Answer;
use crate::fixed::other_source;
use crate::status::Status;
use crate::traced::{done, unopened_by};
use crate::words::Beside;
use std::alloc::{AllocError, Global};
use wy_ask::Opened;
use wy_compare::{diff_text, ends_alike};
use wy_event::record::Trace;
use wy_expect::expect_text;
use wy_program::{OpenTrace, trace_of_bytes};
use wy_view::MemoryView;

/// What is due for the bytes of a trace and those of another file, which has this name.
pub(crate) fn answer_to_pair(
    alloc: Global,
    trace: &[u8],
    other: &[u8],
    name: &str,
    beside: Beside,
) -> Result<Answer, AllocError>
    requires trace { length trace.now ≤ trace_limit }
    requires other { length other.now ≤ trace_limit }
    ensures { IfOk result (IsPairAnswer beside trace.now other.now name.now) }
{
    match beside {
        Beside::Run => answer_to_runs(alloc, trace, other, name),
        Beside::Output => answer_to_output(alloc, trace, other, name),
    }
}

/// What is due for the bytes of two traces, the second of which has this name. The first that can't be opened is told.
fn answer_to_runs(alloc: Global, good: &[u8], bad: &[u8], name: &str) -> Result<Answer, AllocError>
    requires good { length good.now ≤ trace_limit }
    requires bad { length bad.now ≤ trace_limit }
    ensures { IfOk result (IsPairAnswer Beside.Run good.now bad.now name.now) }
{
    let first = match trace_of_bytes(alloc, good) {
        Ok(first) => first,
        Err(error) => return unopened_by(alloc, error),
    };
    match trace_of_bytes(alloc, bad) {
        Ok(second) => compared(alloc, first, second, name),
        Err(error) => unopened_by(alloc, error),
    }
}

/// What is due for the bytes of a trace, and those of a file that tells what its run was expected to print.
fn answer_to_output(
    alloc: Global,
    trace: &[u8],
    file: &[u8],
    name: &str,
) -> Result<Answer, AllocError>
    requires { length trace.now ≤ trace_limit }
    ensures { IfOk result (IsPairAnswer Beside.Output trace.now file.now name.now) }
{
    match trace_of_bytes(alloc, trace) {
        Ok(opening) => expected(alloc, opening, file),
        Err(error) => unopened_by(alloc, error),
    }
}

/// What is told of a trace with its program, by what was expected of its output.
fn expected(alloc: Global, opening: OpenTrace, file: &[u8]) -> Result<Answer, AllocError>
    requires few { length opening.trace.events < 2 ^ 32 }
    requires below { AllRefersBelow opening.trace.events }
    ensures { IfOk result (IsExpected opening file.now) }
{
    let OpenTrace { typed, trace } = opening;
    let Trace { head, events, tail } = trace;
    let covers = tail.coverage.statements.as_slice();
    let view = MemoryView {
        events: events.into_vec(),
    };
    let Ok(mut opened) = Opened::open(alloc, &typed.program, covers, view) else {
        return Err(AllocError);
    };
    let text = expect_text(alloc, &mut opened, head.source.as_slice(), &tail, file)?;
    Ok(done(text))
}

/// Whether two sources are one.
fn same_source(good: &[u8], bad: &[u8]) -> bool
    ensures same { result ≡ true → good.now ≡ bad.now }
    ensures other { result ≡ false → good.now ≢ bad.now }
{
    good == bad
}

/// What is told of two traces with their programs.
fn compared(
    alloc: Global,
    good: OpenTrace,
    bad: OpenTrace,
    name: &str,
) -> Result<Answer, AllocError>
    requires few { length good.trace.events < 2 ^ 32 }
    requires few_more { length bad.trace.events < 2 ^ 32 }
    requires below { AllRefersBelow good.trace.events }
    requires below_too { AllRefersBelow bad.trace.events }
    ensures { IfOk result (IsCompared good bad name.now) }
{
    let OpenTrace { typed, trace } = good;
    let Trace { head, events, tail } = trace;
    let OpenTrace {
        typed: _same,
        trace: other,
    } = bad;
    let Trace {
        head: other_head,
        events: other_events,
        tail: other_tail,
    } = other;
    if !same_source(head.source.as_slice(), other_head.source.as_slice()) {
        return other_source(alloc);
    }
    let alike = ends_alike(&tail, &other_tail);
    let mut first = MemoryView {
        events: events.into_vec(),
    };
    let mut second = MemoryView {
        events: other_events.into_vec(),
    };
    let text = diff_text(alloc, &typed.program, &mut first, &mut second, alike, name)?;
    Ok(Answer {
        status: Status::Done,
        text,
    })
}
