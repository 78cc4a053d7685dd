//! Writing an answer.
ghost use Rattle.wy_top.specs.Deliveries.{Delivers};

use wy_outside::sink::{Sink, SinkError};
use wy_reply::{Answer, Status};

/// Writes the answer, whose status stands where all of it was written.
pub fn deliver<O: Sink>(out: &mut O, answer: &Answer) -> Status
    ensures { Delivers answer.now result (O.faults out.old) (O.faults out.new)
        (O.written out.old) (O.written out.new) }
{
    match out.write(answer.text.as_slice()) {
        Ok(()) => answer.status,
        Err(SinkError::Failed) => Status::Fault,
        Err(SinkError::NoMemory) => Status::NoMemory,
    }
}
