//! A trace that is opened: its program and what it records, or what is answered in their place.
ghost use Rattle.std.specs.Prelude.{◌≡◌, ◌≤◌, IfOk, length};
ghost use Rattle.wy_kernel.specs.Limits.{trace_limit};
ghost use Rattle.wy_top.specs.Openings.{IsSettled, OpensBytes, OpensFile, OpensSome};
ghost use Rattle.wy_top.specs.Replies.{at_shelf};

use crate::answer::answer_to_lack;
use crate::files::read_trace;
use crate::trace::answer_to_error;
use std::alloc::{AllocError, Global};
use wy_event::record::Trace;
use wy_outside::shelf::Shelf;
use wy_program::{OpenTrace, OpeningError, TypedProgram, trace_of_bytes};
use wy_reply::{Answer, answer_to_trace_error};

/// A trace and the typed program of its head, or what is answered where there is none.
#[derive(Drop)]
pub enum Opening {
    Open { typed: TypedProgram, trace: Trace },
    Refused(Answer),
}

/// The trace of bytes: their head, its program and the rest are read in this order.
pub(crate) fn open_bytes(alloc: Global, bytes: &[u8]) -> Result<Opening, AllocError>
    requires { length bytes.now ≤ trace_limit }
    ensures opens { IfOk result (OpensBytes bytes.now) }
    ensures settled { IfOk result IsSettled }
{
    match trace_of_bytes(alloc, bytes) {
        Ok(OpenTrace { typed, trace }) => Ok(Opening::Open { typed, trace }),
        Err(OpeningError::Source(error)) => Ok(Opening::Refused(answer_to_error(alloc, error)?)),
        Err(OpeningError::Trace(error)) => {
            Ok(Opening::Refused(answer_to_trace_error(alloc, error)?))
        }
    }
}

/// The trace of a name.
pub fn open_trace<S: Shelf>(alloc: Global, shelf: &mut S, name: &str) -> Result<Opening, AllocError>
    ensures opens { IfOk result (OpensFile (S.held shelf.old) name.now
        (at_shelf (S.faults shelf.old) (S.misses shelf.old) (S.fulls shelf.old))
        (at_shelf (S.faults shelf.new) (S.misses shelf.new) (S.fulls shelf.new))) }
    ensures some { IfOk result OpensSome }
    ensures files_stay { S.held shelf.new ≡ S.held shelf.old }
{
    match read_trace(alloc, shelf, name) {
        Ok(bytes) => open_bytes(alloc, bytes.as_slice()),
        Err(error) => Ok(Opening::Refused(answer_to_lack(alloc, error)?)),
    }
}
