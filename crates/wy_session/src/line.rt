//! The line that is being read.
ghost use Rattle.std.specs.Prelude.{◌≡◌, ◌≤◌, ◌+◌, ◌++◌, ◌∷◌, [], OnOk, length, option_map};
ghost use Rattle.std.specs.Io.BufRead.{strip_last};
ghost use Rattle.std.specs.List.{Contains};
ghost use Rattle.wy_session.specs.Line.{AnswersLine, Finishes, IsOpen, Reads, SplitsLine};
ghost use Rattle.wy_view.specs.View.{Keeps};
ghost use Rattle.wy_session.specs.Views.{CountsFor, CountsOf};
ghost use Rattle.wy_session.specs.Talk.{most_in_all};
ghost use Rattle.wy_session.specs.Closings.{EndsWith, IsLong, LongAt, Puts};

use crate::ending::Ending;
use crate::respond::Respond;
use std::alloc::Global;
use wy_outside::sink::{Sink, SinkError};

/// The bytes that a line may have before its end.
const MOST_IN_LINE: usize = 4096;

/// The bytes that all lines may have, with their ends.
const MOST_IN_ALL: usize = 16_777_216;

const LINE_FEED: u8 = b'\n';

/// The bytes of a line whose end hasn't come yet, and how many bytes came before them.
#[derive(Drop)]
pub(crate) struct OpenLine {
    pub bytes: Vec<u8>,
    pub before: usize,
}

/// A line without the carriage return at its end.
fn without_return(bytes: &[u8]) -> &[u8]
    ensures { result.now ≡ strip_last 13 bytes.now }
{
    match bytes.split_last() {
        Some((last, front)) if *last == b'\r' => front,
        _ => bytes,
    }
}

/// What stands before the first line feed, and behind it.
fn split_line(bytes: &[u8]) -> Option<(&[u8], &[u8])>
    ensures { SplitsLine bytes.now (option_map (λ p. (p.0.now, p.1.now)) result) }
{
    let at = bytes.iter().position(|byte| *byte == LINE_FEED)?;
    Some((&bytes[..at], &bytes[at + 1..]))
}

/// Writes a text, or says why the session ends.
fn put<O: Sink>(out: &mut O, text: &[u8]) -> Result<(), Ending>
    ensures { Puts text.now (O.written out.old) (O.written out.new)
        (O.faults out.old) (O.faults out.new) result }
{
    match out.write(text) {
        Ok(()) => Ok(()),
        Err(SinkError::Failed) => Err(Ending::OutFailed),
        Err(SinkError::NoMemory) => Err(Ending::NoMemory),
    }
}

/// Writes a text with which a session ends.
pub(crate) fn end_with<O: Sink>(out: &mut O, text: &str, ending: Ending) -> Ending
    ensures { EndsWith text.now ending (O.written out.old) (O.written out.new)
        (O.faults out.old) (O.faults out.new) result }
{
    match put(out, text.as_bytes()) {
        Ok(()) => ending,
        Err(broken) => broken,
    }
}

/// Writes what is answered to a line.
fn answer<R: Respond, O: Sink>(
    alloc: Global,
    responder: &mut R,
    line: &[u8],
    out: &mut O,
) -> Result<(), Ending>
    requires { R.ready responder.old }
    ensures ready { R.ready responder.new }
    ensures answers { AnswersLine (R.stands responder.old) (R.stands responder.new) line.now
        (O.written out.old) (O.written out.new) (O.faults out.old) (O.faults out.new) result }
    ensures keeps { Keeps (R.tells responder.old) (R.tells responder.new) }
    ensures counts { CountsOf result (R.tells responder.old) (R.tells responder.new) }
{
    match responder.reply(alloc, line)? {
        Some(text) => put(out, text.as_slice()),
        None => Err(Ending::Done),
    }
}

impl OpenLine {
    /// Ends the line, and answers it.
    pub(crate) fn end<R: Respond, O: Sink>(
        &mut self,
        alloc: Global,
        responder: &mut R,
        out: &mut O,
    ) -> Result<(), Ending>
        requires ready { R.ready responder.old }
        requires unended { ¬ Contains self.old.bytes.items 10 }
        requires within { self.old.before ≤ most_in_all }
        ensures ready { R.ready responder.new }
        ensures open { OnOk result (IsOpen self.new) }
        ensures long { LongAt (self.old.before + length self.old.bytes.items + 1) result }
        ensures reads { Reads (R.stands responder.old) (R.stands responder.new) self.old.before
            (self.old.bytes.items ++ 10 ∷ []) self.new (O.written out.old) (O.written out.new)
            (O.faults out.old) (O.faults out.new) result }
        ensures keeps { Keeps (R.tells responder.old) (R.tells responder.new) }
        ensures counts { CountsOf result (R.tells responder.old) (R.tells responder.new) }
    {
        if self.bytes.len() > MOST_IN_LINE {
            return Err(end_with(out, "too long: line\n", Ending::LongLine));
        }
        let behind = self.before + self.bytes.len() + 1;
        if behind > MOST_IN_ALL {
            return Err(end_with(out, "too long: input\n", Ending::LongInput));
        }
        answer(alloc, responder, without_return(self.bytes.as_slice()), out)?;
        self.before = behind;
        self.bytes.clear();
        Ok(())
    }

    /// Reads on, and answers each line that is whole now.
    pub(crate) fn take<R: Respond, O: Sink>(
        &mut self,
        alloc: Global,
        piece: &[u8],
        responder: &mut R,
        out: &mut O,
    ) -> Result<(), Ending>
        requires ready { R.ready responder.old }
        requires is_open { IsOpen self.old }
        ensures ready { R.ready responder.new }
        ensures open { OnOk result (IsOpen self.new) }
        ensures long { LongAt (self.old.before + length (self.old.bytes.items ++ piece.now))
            result }
        ensures reads { Reads (R.stands responder.old) (R.stands responder.new) self.old.before
            (self.old.bytes.items ++ piece.now) self.new (O.written out.old) (O.written out.new)
            (O.faults out.old) (O.faults out.new) result }
        ensures keeps { Keeps (R.tells responder.old) (R.tells responder.new) }
        ensures counts { CountsOf result (R.tells responder.old) (R.tells responder.new) }
    {
        let mut rest = piece;
        while let Some((front, behind)) = split_line(rest) {
            self.bytes.extend_from_slice(front)?;
            self.end(alloc, responder, out)?;
            rest = behind;
        }
        self.bytes.extend_from_slice(rest)?;
        if self.bytes.len() > MOST_IN_LINE {
            return Err(end_with(out, "too long: line\n", Ending::LongLine));
        }
        Ok(())
    }

    /// Answers the line that ends with the input, if there is one.
    pub(crate) fn finish<R: Respond, O: Sink>(
        &self,
        alloc: Global,
        responder: &mut R,
        out: &mut O,
    ) -> Ending
        requires ready { R.ready responder.old }
        requires is_open { IsOpen self.now }
        ensures long { IsLong (self.now.before + length self.now.bytes.items) result }
        ensures finishes { Finishes (R.stands responder.old) self.now.before self.now.bytes.items
            (O.written out.old) (O.written out.new) (O.faults out.old) (O.faults out.new) result }
        ensures keeps { Keeps (R.tells responder.old) (R.tells responder.new) }
        ensures counts { CountsFor result (R.tells responder.old) (R.tells responder.new) }
    {
        if self.bytes.is_empty() {
            return Ending::Done;
        }
        if self.before + self.bytes.len() > MOST_IN_ALL {
            return end_with(out, "too long: input\n", Ending::LongInput);
        }
        match answer(alloc, responder, self.bytes.as_slice(), out) {
            Ok(()) => Ending::Done,
            Err(ending) => ending,
        }
    }
}
