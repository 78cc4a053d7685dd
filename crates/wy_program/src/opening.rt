//! From the bytes of a trace to the program of its head and what it records.

ghost use Rattle.std.specs.Prelude.{◌<◌, ◌≤◌, ◌^◌, IfOk, IfErr, length};
ghost use Rattle.wy_kernel.specs.Limits.{source_limit, trace_limit};
ghost use Rattle.wy_program.specs.Openings.{IsUnopenedFor, IsUnopenedUnder, Opens, OpensUnder};
ghost use Rattle.wy_view.specs.References.{AllRefersBelow};

use crate::source::{SourceError, program_of_source};
use crate::typed::TypedProgram;
use law_reading::{decoded_events_refer_below, few_events_are_decoded, heads_are_short};
use std::alloc::Global;
use wy_event::record::Trace;
use wy_frames::{TraceError, decode, read_head};

/// A trace, and the typed program of its head.
#[derive(Drop)]
pub struct OpenTrace {
    pub typed: TypedProgram,
    pub trace: Trace,
}

/// Why bytes can't be opened: they are no trace, or the source of their head is no program.
#[derive(Clone, Copy)]
pub enum OpeningError {
    Trace(TraceError),
    Source(SourceError),
}

/// The trace of bytes, with its program: their head, its source and the rest are read in this order, and the first that is wrong
/// is told. What is open can be viewed.
pub fn trace_of_bytes(alloc: Global, bytes: &[u8]) -> Result<OpenTrace, OpeningError>
    requires { length bytes.now ≤ trace_limit }
    ensures opens { IfOk result (Opens bytes.now) }
    ensures few { IfOk result (λ o. length o.trace.events < 2 ^ 32) }
    ensures refer_below { IfOk result (λ o. AllRefersBelow o.trace.events) }
    ensures refused { IfErr result (IsUnopenedFor bytes.now) }
{
    heads_are_short();
    match read_head(alloc, bytes) {
        Ok((head, _, _)) => trace_under(alloc, head.source.as_slice(), bytes),
        Err(error) => Err(OpeningError::Trace(error)),
    }
}

/// The same, of bytes whose head has this source.
fn trace_under(alloc: Global, source: &[u8], bytes: &[u8]) -> Result<OpenTrace, OpeningError>
    requires source { length source.now ≤ source_limit }
    requires bytes { length bytes.now ≤ trace_limit }
    ensures opens { IfOk result (OpensUnder source.now bytes.now) }
    ensures few { IfOk result (λ o. length o.trace.events < 2 ^ 32) }
    ensures refer_below { IfOk result (λ o. AllRefersBelow o.trace.events) }
    ensures refused { IfErr result (IsUnopenedUnder source.now bytes.now) }
{
    decoded_events_refer_below();
    few_events_are_decoded();
    let typed = match program_of_source(alloc, source) {
        Ok(typed) => typed,
        Err(error) => return Err(OpeningError::Source(error)),
    };
    match decode(alloc, bytes, &typed.program) {
        Ok(trace) => Ok(OpenTrace { typed, trace }),
        Err(error) => Err(OpeningError::Trace(error)),
    }
}
