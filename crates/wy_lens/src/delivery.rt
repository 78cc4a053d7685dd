//! Writing an answer.
ghost use Rattle.wy_lens.specs.Deliveries.{Delivers};

use crate::answer::Answer;
use crate::status::Status;
use wy_outside::sink::{Sink, SinkError};

/// Writes the answer, whose status stands where all of it was written.
pub fn deliver<O: Sink>(out: &mut O, answer: &Answer) -> Status
    ensures { Delivers answer.now result (O.faults out.old) (O.faults out.new)
        (O.written out.old) (O.written out.new) }
{
    match out.write(answer.text.as_slice()) {
        Ok(()) => answer.status,
        Err(SinkError::Failed) => Status::Fault,
        Err(SinkError::NoMemory) => Status::NoMemory,
    }
}
