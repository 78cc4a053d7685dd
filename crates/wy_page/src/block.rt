//! The events of a block, read back from their frames.

ghost use Rattle.std.specs.Prelude.{◌≡◌, ◌+◌, ◌<◌, ◌^◌, IfOk, length};
ghost use Rattle.wy_event.specs.Record.{recorded};
ghost use Rattle.wy_page.specs.Frames.{IsNext, ReadAs, ReferFrom, blank};
ghost use Rattle.wy_view.specs.References.{RefersBelow};

use std::alloc::{AllocError, Global};
use wy_event::record::{Event, Kind, Slot, Version};
use wy_event::sequence::Sequence;
use wy_frame_reading::read_event;
use wy_kernel::types::NONE;
use wy_value::Value;

/// What stands for an event where no frame is.
fn blank_event(alloc: Global) -> Event
    ensures { result ≡ blank }
{
    Event {
        kind: Kind::Return,
        site: 0,
        frame: NONE,
        control: NONE,
        entity: NONE,
        slot: Slot::None,
        value: Value::None,
        units: Sequence::new(Vec::new(alloc)),
        uses: Sequence::new(Vec::new(alloc)),
    }
}

/// The event of number n whose frame bytes begin with, and the bytes behind it.
#[tactic(auto, using(crate::proofs::Frames::next_found, crate::proofs::Frames::next_none, crate::proofs::Frames::blank_below))]
fn next_event(
    alloc: Global,
    version: Version,
    n: u32,
    bytes: &[u8],
) -> Result<(Event, &[u8]), AllocError>
    ensures refers { IfOk result (λ x. RefersBelow n (recorded x.0)) }
    ensures read { IfOk result (λ x. IsNext version n bytes.now x.0 x.1.now) }
{
    match read_event(alloc, bytes, n, version)? {
        Some((event, size)) => Ok((event, &bytes[size as usize..])),
        None => Ok((blank_event(alloc), bytes)),
    }
}

/// The events of so many frames that stand one behind another, the first of a number. Where a frame is missing, a blank
/// event stands for it.
#[tactic(auto, using(crate::proofs::Frames::one_read, crate::proofs::Frames::one_refers, crate::proofs::Frames::none_read, crate::proofs::Frames::all_read))]
pub fn read_block(
    alloc: Global,
    version: Version,
    first: u32,
    count: u32,
    bytes: &[u8],
) -> Result<Vec<Event>, AllocError>
    requires { first + count < 2 ^ 32 }
    ensures size { IfOk result (λ events. length events.items ≡ count) }
    ensures refer { IfOk result (λ events. ReferFrom first events.items) }
    ensures read { IfOk result (λ events. ReadAs version first count bytes.now events.items) }
{
    let mut events = Vec::new(alloc);
    let mut rest = bytes;
    for n in first..first + count {
        let (event, behind) = next_event(alloc, version, n, rest)?;
        events.push(event)?;
        rest = behind;
    }
    Ok(events)
}
