//! The whole of a session.
ghost use Rattle.wy_explore.specs.Session.{begun};
ghost use Rattle.wy_view.specs.View.{Keeps};
ghost use Rattle.wy_session.specs.Closings.{Closed, ReadsOut, TakesManyFor, failures};
ghost use Rattle.wy_session.specs.Views.{CountsFor};

use crate::ending::Ending;
use crate::line::{OpenLine, end_with};
use crate::respond::Respond;
use std::alloc::Global;
use wy_outside::sink::Sink;
use wy_outside::source::{Source, SourceError};

/// How many bytes are asked for at a time.
const PIECE: u32 = 8192;

/// Answers the lines of an input, each before more is read, until it ends.
pub fn talk<K: Source, O: Sink, R: Respond>(
    alloc: Global,
    keys: &mut K,
    responder: &mut R,
    out: &mut O,
) -> Ending
    requires { R.ready responder.old }
    ensures closed { Closed (λ x. R.stands responder.old x begun) (K.left keys.old)
        (failures (K.faults keys.old) (K.faults keys.new) (O.faults out.old) (O.faults out.new))
        (O.written out.old) (O.written out.new) result }
    ensures read_out { ReadsOut (λ x. R.stands responder.old x begun) (K.left keys.old)
        (K.left keys.new) result }
    ensures taken { TakesManyFor result (K.taken keys.old) (K.taken keys.new) }
    ensures keeps { Keeps (R.tells responder.old) (R.tells responder.new) }
    ensures counts { CountsFor result (R.tells responder.old) (R.tells responder.new) }
{
    let mut line = OpenLine {
        bytes: Vec::new(alloc),
        before: 0,
    };
    loop {
        match keys.read(alloc, PIECE) {
            Ok(piece) if piece.is_empty() => return line.finish(alloc, responder, out),
            Ok(piece) => {
                if let Err(ending) = line.take(alloc, piece.as_slice(), responder, out) {
                    return ending;
                }
            }
            Err(SourceError::Failed) => return end_with(out, "fault: keys\n", Ending::KeysFailed),
            Err(SourceError::NoMemory) => return Ending::NoMemory,
        }
    }
}
