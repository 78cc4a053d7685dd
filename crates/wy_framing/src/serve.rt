//! One call of a recorder, at each of its mirrors.
ghost use Rattle.std.specs.Prelude.{◌≡◌, ◌<◌, ◌^◌, ℕ, length, map, vec_len};
ghost use Rattle.wy_outside.specs.Counts.{RoseAt};
ghost use Rattle.wy_outside.specs.Sink.{is_failed, Appends};
ghost use Rattle.wy_record.specs.Recorders.{MirrorsTake, opened};
ghost use Rattle.wy_framing.specs.Told.{emptied};
ghost use Rattle.wy_framing.specs.Served.{behind, RoseIn};

use crate::TraceSink;
use wy_outside::sink::SinkError;
use wy_record::RecordError;

/// What is done at a mirror, beside the bytes that are put.
#[derive(Clone, Copy, Debug, PartialEq, Eq)]
pub enum Act {
    /// It is opened before.
    Open,
    Put,
    /// It is closed behind.
    Close,
}

/// Opens a mirror, if it is to be opened. One that holds nothing stays so.
fn begin<S: TraceSink>(sink: &mut S, act: Act, name: &str) -> Result<(), SinkError>
    ensures content { (act ≡ Act.Open → emptied (S.bytes sink.old) ≡ S.bytes sink.old)
        → S.bytes sink.new ≡ S.bytes sink.old }
    ensures failed { RoseAt is_failed result (S.faults sink.old) (S.faults sink.new) }
{
    match act {
        Act::Open => sink.open(name),
        Act::Put | Act::Close => Ok(()),
    }
}

/// Closes a mirror, if it is to be closed.
fn end<S: TraceSink>(sink: &mut S, act: Act) -> Result<(), SinkError>
    ensures content { S.bytes sink.new ≡ S.bytes sink.old }
    ensures failed { RoseAt is_failed result (S.faults sink.old) (S.faults sink.new) }
{
    match act {
        Act::Close => sink.close(),
        Act::Open | Act::Put => Ok(()),
    }
}

/// Puts the bytes to one mirror.
fn serve<S: TraceSink>(sink: &mut S, act: Act, name: &str, piece: &[u8]) -> Result<(), SinkError>
    ensures content { (act ≡ Act.Open → emptied (S.bytes sink.old) ≡ S.bytes sink.old)
        → Appends (S.bytes sink.old) (S.bytes sink.new) piece.now result }
    ensures failed { RoseAt is_failed result (S.faults sink.old) (S.faults sink.new) }
{
    begin(sink, act, name)?;
    sink.put(piece)?;
    end(sink, act)
}

/// Puts the bytes to each mirror, in their order, until one refuses them.
fn serve_each<S: TraceSink>(
    sinks: &mut [S],
    act: Act,
    name: &str,
    piece: &[u8],
) -> Result<(), RecordError>
    requires few { length sinks.old < 2 ^ 32 }
    ensures mirrors { (act ≡ Act.Open → opened (map S.bytes sinks.old) ≡ map S.bytes sinks.old)
        → MirrorsTake result piece.now (map S.bytes sinks.old) (map S.bytes sinks.new) }
    ensures faults { RoseIn result (map S.faults sinks.old) (map S.faults sinks.new) }
    ensures number { length sinks.new ≡ length sinks.old }
{
    match sinks.split_first_mut() {
        None => Ok(()),
        Some((sink, rest)) => match serve(sink, act, name, piece) {
            Ok(()) => match serve_each(rest, act, name, piece) {
                Ok(()) => Ok(()),
                Err(error) => Err(behind(error)),
            },
            Err(SinkError::Failed) => Err(RecordError::SinkFault { mirror: 0 }),
            Err(SinkError::NoMemory) => Err(RecordError::NoMemory),
        },
    }
}

/// The same, at a `Vec`.
pub fn serve_all<S: TraceSink>(
    sinks: &mut Vec<S>,
    act: Act,
    name: &str,
    piece: &[u8],
) -> Result<(), RecordError>
    requires few { vec_len sinks.old < 2 ^ 32 }
    ensures mirrors { (act ≡ Act.Open
        → opened (map S.bytes sinks.old.items) ≡ map S.bytes sinks.old.items)
        → MirrorsTake result piece.now
        (map S.bytes sinks.old.items) (map S.bytes sinks.new.items) }
    ensures faults { RoseIn result
        (map S.faults sinks.old.items) (map S.faults sinks.new.items) }
    ensures number { vec_len sinks.new ≡ vec_len sinks.old }
{
    serve_each(sinks.as_mut_slice(), act, name, piece)
}

/// A refusal as it reads once a mirror stands before those that it speaks of.
fn behind(error: RecordError) -> RecordError
    ensures { result ≡ behind error }
{
    match error {
        RecordError::SinkFault { mirror } => RecordError::SinkFault {
            mirror: mirror.saturating_add(1),
        },
        RecordError::Differs { event } => RecordError::Differs { event },
        RecordError::NoMemory => RecordError::NoMemory,
    }
}
