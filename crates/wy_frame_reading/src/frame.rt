//! The frame of one event.

ghost use Rattle.std.specs.Prelude.{◌≡◌, ◌≤◌, IfOk};
ghost use Rattle.wy_payload.specs.Reading.{Gives};
ghost use Rattle.wy_frame_reading.specs.Begins.{BeginsWithEvent};
ghost use Rattle.wy_frame_reading.specs.Fields.{frame_at, payload_at, payload_limit, whole_at};

use crate::event::event;
use crate::field::ranged;
use std::alloc::{AllocError, Global};
use wy_event::record::{Event, Version};
use wy_payload::fault::{DamageRule, Fault};
use wy_payload::field::{u8_at, u32_at};

const LETTER: u8 = b'E';

/// The longest payload of a trace, and the bytes of a letter and a length before it.
const LONGEST: u32 = 1_073_741_819;

const OPENING: u32 = 5;

/// An event that is all of a payload.
#[tactic(auto, unfolding(crate::specs::Fields::whole_at))]
fn whole_event(alloc: Global, version: Version, n: u32, payload: &[u8]) -> Result<Event, Fault>
    ensures { Gives (λ e. e) result (whole_at version n payload.now) }
{
    let (event, rest) = event(alloc, version, n, payload)?;
    if rest.is_empty() {
        Ok(event)
    } else {
        Err(Fault::Broken(DamageRule::Length))
    }
}

/// The length of the payload of an event's frame, and this.
#[tactic(auto, unfolding(crate::specs::Fields::payload_at, wy_payload::specs::Reading::at_most_at))]
fn payload(bytes: &[u8]) -> Result<(u32, &[u8]), Fault>
    ensures payload { Gives (λ x. (x.0, x.1.now)) result (payload_at bytes.now) }
    ensures short { IfOk result (λ x. x.0 ≤ payload_limit) }
{
    let (letter, rest) = u8_at(bytes)?;
    let rest = ranged(letter == LETTER, rest)?;
    let (length, rest) = u32_at(rest)?;
    if length > LONGEST {
        return Err(Fault::Broken(DamageRule::Range));
    }
    if rest.len() < length as usize {
        return Err(Fault::Broken(DamageRule::Length));
    }
    let (payload, _) = rest.split_at(length as usize);
    Ok((length, payload))
}

/// The event whose frame stands at the front of bytes, and the length of the frame.
#[tactic(auto, unfolding(crate::specs::Fields::frame_at))]
fn front_event(alloc: Global, version: Version, n: u32, bytes: &[u8]) -> Result<(Event, u32), Fault>
    ensures { Gives (λ x. x) result (frame_at version n bytes.now) }
{
    let (length, payload) = payload(bytes)?;
    let event = whole_event(alloc, version, n, payload)?;
    Ok((event, OPENING + length))
}

/// Where bytes begin with the frame of an event, as a version spells it, whose references are below n and whose moments
/// are at most n, the event and the length of its frame. None exactly where they begin with no such frame.
pub fn read_event(
    alloc: Global,
    bytes: &[u8],
    n: u32,
    version: Version,
) -> Result<Option<(Event, u32)>, AllocError>
    ensures { IfOk result (λ found. BeginsWithEvent version n bytes.now found) }
{
    match front_event(alloc, version, n, bytes) {
        Ok(found) => Ok(Some(found)),
        Err(Fault::Broken(_)) => Ok(None),
        Err(Fault::NoMemory) => Err(AllocError),
    }
}
