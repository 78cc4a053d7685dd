//! All bytes of a trace at once.

ghost use Rattle.std.specs.Prelude.{◌≡◌, ◌≤◌, true, length};
ghost use Rattle.wy_kernel.specs.Limits.{trace_limit};
ghost use Rattle.wy_spelling.specs.Spelling.{opening};
ghost use Rattle.wy_event.specs.declared.record.Version.{Version};
ghost use Rattle.wy_frames.specs.Traces.{ReadsAs};

use crate::decoder::Decoder;
use crate::error::TraceError;
use crate::head::read_head;
use std::alloc::Global;
use wy_event::record::{Head, Trace};
use wy_kernel::limit::{INPUT_LIMIT, SOURCE_LIMIT};
use wy_kernel::program::Program;

#[tactic(auto, using(crate::proofs::Decoded::opening_is_short))]
fn is_short(head: &Head) -> bool
    ensures { result ≡ true
        → (version : Version) → length (opening version head.now) ≤ trace_limit }
{
    if head.input.as_slice().len() > INPUT_LIMIT as usize {
        return false;
    }
    if head.source.as_slice().len() > SOURCE_LIMIT as usize {
        return false;
    }
    true
}

/// The trace that the bytes are, under any program.
pub fn decode(alloc: Global, bytes: &[u8], program: &Program) -> Result<Trace, TraceError>
    requires { length bytes.now ≤ trace_limit }
    ensures { ReadsAs result program.now bytes.now }
{
    let (head, end, version) = match read_head(alloc, bytes) {
        Ok(read) => read,
        Err(error) => return Err(error),
    };
    if end as usize > bytes.len() || !is_short(&head) {
        return Err(TraceError::NoMemory);
    }
    let (_, rest) = bytes.split_at(end as usize);
    let mut decoder = Decoder::new(alloc, head, version, program);
    match decoder.feed(rest) {
        Ok(()) => decoder.finish(),
        Err(error) => Err(error),
    }
}
