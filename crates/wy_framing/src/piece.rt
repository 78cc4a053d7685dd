//! What each call of the recorder puts. A part that no trace has room for is refused as memory is.
ghost use Rattle.std.specs.Prelude.{◌≡◌, ◌≤◌, ◌++◌, length, IfOk};
ghost use Rattle.std.specs.Bool.{OnTrue};
ghost use Rattle.wy_event.specs.Record.{recorded};
ghost use Rattle.wy_kernel.specs.Limits.{trace_limit};
ghost use Rattle.wy_spelling.specs.Spelling.{event_frame, opening, seal_frame, tail_frames};

use std::alloc::{AllocError, Global};
use wy_event::record::{Event, Head, Tail, Version};
use wy_spelling::{encode_event, encode_head, encode_seal, encode_tail};

/// Units, uses, statements, and bytes of a head that are few enough for any frame.
const MOST_UNITS: usize = 134_217_728;

const MOST_USES: usize = 16_777_216;

const MOST_STATEMENTS: usize = 33_554_432;

const MOST_TEXT: usize = 536_870_912;

#[tactic(auto, using(crate::proofs::Room::event_has_room))]
fn event_has_room(event: &Event) -> bool
    ensures { OnTrue result (length (event_frame Version.Two (recorded event.now)) ≤ trace_limit) }
{
    event.units.as_slice().len() <= MOST_UNITS && event.uses.as_slice().len() <= MOST_USES
}

#[tactic(auto, using(crate::proofs::Room::head_has_room))]
fn head_has_room(head: &Head) -> bool
    ensures { OnTrue result (length (opening Version.Two head.now) ≤ trace_limit) }
{
    head.input.as_slice().len() <= MOST_TEXT / 2 && head.source.as_slice().len() <= MOST_TEXT
}

#[tactic(auto, using(crate::proofs::Room::tail_has_room))]
fn tail_has_room(tail: &Tail) -> bool
    ensures { OnTrue result (length (tail_frames tail.now) ≤ trace_limit) }
{
    tail.coverage.statements.as_slice().len() <= MOST_STATEMENTS
}

/// The bytes before the first event.
pub fn opening_of(alloc: Global, head: &Head) -> Result<Vec<u8>, AllocError>
    ensures { IfOk result (λ bytes. bytes.items ≡ opening Version.Two head.now) }
{
    if !head_has_room(head) {
        return Err(AllocError);
    }
    encode_head(alloc, head)
}

pub fn frame_of(alloc: Global, event: &Event) -> Result<Vec<u8>, AllocError>
    ensures { IfOk result (λ bytes. bytes.items ≡ event_frame Version.Two (recorded event.now)) }
{
    if !event_has_room(event) {
        return Err(AllocError);
    }
    encode_event(alloc, event)
}

/// The bytes behind the last event, but for the seal.
pub fn tail_of(alloc: Global, tail: &Tail) -> Result<Vec<u8>, AllocError>
    ensures { IfOk result (λ bytes. bytes.items ≡ tail_frames tail.now) }
{
    if !tail_has_room(tail) {
        return Err(AllocError);
    }
    encode_tail(alloc, tail)
}

/// The bytes, and the frame of the seal behind them.
pub fn with_seal(alloc: Global, mut bytes: Vec<u8>, seal: &[u8; 32]) -> Result<Vec<u8>, AllocError>
    ensures { IfOk result (λ all. all.items ≡ bytes.items ++ seal_frame seal.now) }
{
    let frame = encode_seal(alloc, seal)?;
    bytes.extend_from_slice(&frame)?;
    Ok(bytes)
}
