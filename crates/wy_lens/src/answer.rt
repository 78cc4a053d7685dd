//! What the words and the files give, before any byte of it is written.
ghost use Rattle.std.specs.Prelude.{◌≡◌, ◌≢◌, ◌≤◌, IfOk, length, map, string_bytes};
ghost use Rattle.wy_kernel.specs.Limits.{source_limit, trace_limit};
ghost use Rattle.wy_explain.specs.Explained.{program_line};
ghost use Rattle.wy_lens.specs.Answers.{HasCause, IsAnswer, IsFileAnswer, IsSourceAnswer, Lacks};
ghost use Rattle.wy_lens.specs.Due.{DueForFile, DueForFiles, DueForSource, DueForTrace};
ghost use Rattle.wy_lens.specs.Pairs.{DueForPair};
ghost use Rattle.wy_lens.specs.Refusals.{IsExplained};
ghost use Rattle.wy_lens.specs.Views.{telling_of};
ghost use Rattle.wy_lens.specs.Words.{AskNothing};
ghost use Rattle.wy_program.specs.Sources.{IsRefusedFor};

use crate::fixed::{absent, fault, help, too_long, usage, version};
use crate::pair::answer_to_pair;
use crate::refusal::explained;
use crate::status::Status;
use crate::traced::answer_to_bytes;
use crate::words::{Beside, Request, Telling, asked_by};
use std::alloc::{AllocError, Global};
use wy_constant::SourceRefusal;
use wy_explain::program_line;
use wy_kernel::limit::{SOURCE_LIMIT, TRACE_LIMIT};
use wy_outside::shelf::{Shelf, ShelfError};
use wy_program::{SourceError, program_of_source};

/// A status and the text that is written with it.
#[derive(Drop)]
pub struct Answer {
    pub status: Status,
    pub text: Vec<u8>,
}

/// What is written of a program.
fn accepted(alloc: Global, name: &str) -> Result<Answer, AllocError>
    ensures { IfOk result (λ answer. (answer.status ≡ Status.Done)
        × (answer.text.items ≡ program_line name.now)) }
{
    let text = program_line(alloc, name)?;
    Ok(Answer {
        status: Status::Done,
        text,
    })
}

/// What is written of a source that is none.
fn refused(
    alloc: Global,
    name: &str,
    source: &[u8],
    refusal: SourceRefusal,
) -> Result<Answer, AllocError>
    requires small { length source.now ≤ source_limit }
    requires refused { IsRefusedFor source.now refusal }
    ensures { IfOk result (λ answer. (answer.status ≡ Status.Refused)
        × IsExplained name.now source.now refusal answer.text.items) }
{
    let text = explained(alloc, name, source, refusal)?;
    Ok(Answer {
        status: Status::Refused,
        text,
    })
}

/// What is due for a source.
fn answer_to_source(alloc: Global, name: &str, source: &[u8]) -> Result<Answer, AllocError>
    requires { length source.now ≤ source_limit }
    ensures { IfOk result (IsSourceAnswer name.now source.now) }
{
    match program_of_source(alloc, source) {
        Ok(_) => accepted(alloc, name),
        Err(SourceError::Refused(refusal)) => refused(alloc, name, source, refusal),
        Err(SourceError::NoMemory) => Err(AllocError),
    }
}

/// What is due for the source of a name.
fn answer_to_file<S: Shelf>(alloc: Global, shelf: &mut S, name: &str) -> Result<Answer, AllocError>
    ensures due { IfOk result (λ answer. IsFileAnswer (λ files. DueForSource files name.now)
        (S.held shelf.old) (S.faults shelf.old) (S.faults shelf.new) answer) }
    ensures causes { IfOk result (λ answer. HasCause (S.misses shelf.old) (S.misses shelf.new)
        (S.fulls shelf.old) (S.fulls shelf.new) answer) }
    ensures asked { IfOk result (λ answer. answer.status ≢ Status.Usage) }
    ensures files_stay { S.held shelf.new ≡ S.held shelf.old }
{
    match shelf.read(alloc, name, SOURCE_LIMIT + 1) {
        Ok(source) if source.len() > SOURCE_LIMIT as usize => too_long(alloc, name),
        Ok(source) => answer_to_source(alloc, name, source.as_slice()),
        Err(error) => lacking(alloc, name, error),
    }
}

/// What is due for the trace of a name.
fn answer_to_trace<S: Shelf>(
    alloc: Global,
    shelf: &mut S,
    name: &str,
    telling: Telling<'_>,
) -> Result<Answer, AllocError>
    ensures due { IfOk result (λ answer. IsFileAnswer
        (λ files. DueForTrace files name.now (telling_of telling.entry))
        (S.held shelf.old) (S.faults shelf.old) (S.faults shelf.new) answer) }
    ensures causes { IfOk result (λ answer. HasCause (S.misses shelf.old) (S.misses shelf.new)
        (S.fulls shelf.old) (S.fulls shelf.new) answer) }
    ensures asked { IfOk result (λ answer. answer.status ≢ Status.Usage) }
    ensures files_stay { S.held shelf.new ≡ S.held shelf.old }
{
    match shelf.read(alloc, name, TRACE_LIMIT + 1) {
        Ok(bytes) if bytes.len() > TRACE_LIMIT as usize => too_long(alloc, name),
        Ok(bytes) => answer_to_bytes(alloc, bytes.as_slice(), telling),
        Err(error) => lacking(alloc, name, error),
    }
}

/// What is due for the trace of a name and the file of another.
fn answer_to_files<S: Shelf>(
    alloc: Global,
    shelf: &mut S,
    trace: &str,
    other: &str,
    beside: Beside,
) -> Result<Answer, AllocError>
    ensures due { IfOk result (λ answer. IsFileAnswer
        (λ files. DueForFiles beside files trace.now other.now)
        (S.held shelf.old) (S.faults shelf.old) (S.faults shelf.new) answer) }
    ensures causes { IfOk result (λ answer. HasCause (S.misses shelf.old) (S.misses shelf.new)
        (S.fulls shelf.old) (S.fulls shelf.new) answer) }
    ensures asked { IfOk result (λ answer. answer.status ≢ Status.Usage) }
    ensures files_stay { S.held shelf.new ≡ S.held shelf.old }
{
    match shelf.read(alloc, trace, TRACE_LIMIT + 1) {
        Ok(bytes) if bytes.len() > TRACE_LIMIT as usize => too_long(alloc, trace),
        Ok(bytes) => answer_beside(alloc, shelf, bytes.as_slice(), other, beside),
        Err(error) => lacking(alloc, trace, error),
    }
}

/// What is due for the bytes of a trace and the file of a name.
fn answer_beside<S: Shelf>(
    alloc: Global,
    shelf: &mut S,
    trace: &[u8],
    other: &str,
    beside: Beside,
) -> Result<Answer, AllocError>
    requires { length trace.now ≤ trace_limit }
    ensures due { IfOk result (λ answer. IsFileAnswer
        (λ files. DueForFile files other.now trace_limit (λ second.
        DueForPair trace.now second other.now beside))
        (S.held shelf.old) (S.faults shelf.old) (S.faults shelf.new) answer) }
    ensures causes { IfOk result (λ answer. HasCause (S.misses shelf.old) (S.misses shelf.new)
        (S.fulls shelf.old) (S.fulls shelf.new) answer) }
    ensures asked { IfOk result (λ answer. answer.status ≢ Status.Usage) }
    ensures files_stay { S.held shelf.new ≡ S.held shelf.old }
{
    match shelf.read(alloc, other, TRACE_LIMIT + 1) {
        Ok(bytes) if bytes.len() > TRACE_LIMIT as usize => too_long(alloc, other),
        Ok(bytes) => answer_to_pair(alloc, trace, bytes.as_slice(), other, beside),
        Err(error) => lacking(alloc, other, error),
    }
}

/// What is written where the file of a name was not read.
fn lacking(alloc: Global, name: &str, error: ShelfError) -> Result<Answer, AllocError>
    ensures { IfOk result (Lacks name.now error) }
{
    match error {
        ShelfError::Absent => absent(alloc, name),
        ShelfError::Failed => fault(alloc),
        ShelfError::NoMemory => Err(AllocError),
    }
}

/// What the words and the files give. The shelf is read at most twice.
pub fn answer_to<S: Shelf>(
    alloc: Global,
    words: &[String],
    shelf: &mut S,
) -> Result<Answer, AllocError>
    ensures due { IfOk result (λ answer. IsAnswer (map string_bytes words.now) (S.held shelf.old)
        (S.faults shelf.old) (S.faults shelf.new) answer) }
    ensures causes { IfOk result (λ answer. HasCause (S.misses shelf.old) (S.misses shelf.new)
        (S.fulls shelf.old) (S.fulls shelf.new) answer) }
    ensures usage { IfOk result (λ answer. answer.status ≡ Status.Usage
        → AskNothing (map string_bytes words.now)) }
    ensures files_stay { S.held shelf.new ≡ S.held shelf.old }
{
    match asked_by(alloc, words)? {
        Some(Request::Explain { source }) => answer_to_file(alloc, shelf, source),
        Some(Request::Tell { trace, telling }) => answer_to_trace(alloc, shelf, trace, telling),
        Some(
            Request::Compare {
                beside,
                trace,
                other,
            },
        ) => answer_to_files(alloc, shelf, trace, other, beside),
        Some(Request::Help) => help(alloc),
        Some(Request::Version) => version(alloc),
        None => usage(alloc),
    }
}
