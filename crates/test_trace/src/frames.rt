//! The frame of one event: `y = x + 3` sets a local of the frame of event 2, as event 7, from a local at moment 7; and
//! that of a Test, event 6, in either version.

ghost use Rattle.std.specs.Prelude.{◌≤◌, length};
ghost use Rattle.std.specs.Bool.{OnTrue};
ghost use Rattle.wy_event.specs.Record.{recorded};
ghost use Rattle.wy_event.specs.declared.record.Version.{Version};
ghost use Rattle.wy_kernel.specs.Limits.{trace_limit};
ghost use Rattle.wy_spelling.specs.Spelling.{FitsOne, event_frame};

use std::alloc::{AllocError, Global};
use std::test::Fail;
use wy_event::record::{Event, Kind, Slot, Use, Version};
use wy_event::sequence::Sequence;
use wy_frame_reading::read_event;
use wy_frames::{encode_event, encode_event_v1};
use wy_kernel::types::NONE;
use wy_value::Value;

static FRAME: [u8; 54] = [
    0x45, 0x00, 0x00, 0x00, 0x31, 0x04, 0x00, 0x00, 0x00, 0x20, 0x00, 0x00, 0x00, 0x02, 0x00, 0x00,
    0x00, 0x06, 0xff, 0xff, 0xff, 0xff, 0x01, 0x00, 0x00, 0x00, 0x02, 0x00, 0x00, 0x00, 0x02, 0x05,
    0x00, 0x00, 0x00, 0x05, 0x00, 0x00, 0x00, 0x01, 0x01, 0x01, 0x00, 0x00, 0x00, 0x02, 0x00, 0x00,
    0x00, 0x01, 0x00, 0x00, 0x00, 0x07,
];

fn is_the_event(event: &Event) -> bool {
    event.kind == Kind::Set
        && event.site == 32
        && event.frame == 2
        && event.control == 6
        && event.entity == NONE
        && event.slot == (Slot::Local { frame: 2, index: 2 })
        && event.value == Value::Int(5)
        && event.units.as_slice().is_empty()
        && event.uses.as_slice()
            == [Use::Place {
                slot: Slot::Local { frame: 2, index: 1 },
                moment: 7,
            }]
            .as_slice()
}

#[test]
fn a_frame_is_read_with_what_stands_behind_it(rt: HostRuntime) -> Result<(), Fail> {
    let alloc = rt.alloc();
    let mut bytes = FRAME.as_slice().to_vec(alloc)?;
    bytes.push(0x45)?;
    let found = read_event(alloc, bytes.as_slice(), 7, Version::Two)?;
    assert!(rt; matches!(&found, Some((event, 54)) if is_the_event(event)));
    Ok(())
}

#[test]
fn a_moment_above_the_event_is_none(rt: HostRuntime) -> Result<(), Fail> {
    let found = read_event(rt.alloc(), FRAME.as_slice(), 6, Version::Two)?;
    assert!(rt; found.is_none());
    Ok(())
}

/// The Test of `x > 1`, which is true, under event 2: with a boolean, as version 1 spells it.
static TEST_ONE: [u8; 34] = [
    0x45, 0x00, 0x00, 0x00, 0x1d, 0x05, 0x00, 0x00, 0x00, 0x17, 0x00, 0x00, 0x00, 0x02, 0x00, 0x00,
    0x00, 0x02, 0xff, 0xff, 0xff, 0xff, 0x00, 0x01, 0x01, 0x00, 0x00, 0x00, 0x01, 0x02, 0x00, 0x00,
    0x00, 0x04,
];

/// And with an arm, as version 2 does.
static TEST_TWO: [u8; 37] = [
    0x45, 0x00, 0x00, 0x00, 0x20, 0x05, 0x00, 0x00, 0x00, 0x17, 0x00, 0x00, 0x00, 0x02, 0x00, 0x00,
    0x00, 0x02, 0xff, 0xff, 0xff, 0xff, 0x00, 0x0c, 0x00, 0x00, 0x00, 0x01, 0x00, 0x00, 0x00, 0x01,
    0x02, 0x00, 0x00, 0x00, 0x04,
];

fn is_the_test(event: &Event) -> bool {
    event.kind == Kind::Test && event.control == 2 && event.value == Value::Arm(1)
}

#[test]
fn each_version_has_its_own_frame_of_a_test(rt: HostRuntime) -> Result<(), Fail> {
    let alloc = rt.alloc();
    let one = read_event(alloc, TEST_ONE.as_slice(), 6, Version::One)?;
    assert!(rt; matches!(&one, Some((event, 34)) if is_the_test(event)));
    let two = read_event(alloc, TEST_TWO.as_slice(), 6, Version::Two)?;
    assert!(rt; matches!(&two, Some((event, 37)) if is_the_test(event)));
    let neither = read_event(alloc, TEST_TWO.as_slice(), 6, Version::One)?;
    assert!(rt; neither.is_none());
    Ok(())
}

/// Whether a trace of either version has room for it.
#[tactic(auto, using(wy_framing::proofs::Room::event_has_room))]
pub fn is_short(event: &Event) -> bool
    ensures { OnTrue result ((version : Version)
        → length (event_frame version (recorded event.now)) ≤ trace_limit) }
{
    event.units.as_slice().len() < 100 && event.uses.as_slice().len() < 100
}

/// Whether version 1 can spell it.
pub fn has_truth(event: &Event) -> bool
    ensures { OnTrue result (FitsOne event.now.value) }
{
    matches!(event.value, Value::Arm(n) if n < 2)
}

fn test_of(alloc: Global, value: Value) -> Result<Event, AllocError> {
    Ok(Event {
        kind: Kind::Test,
        site: 23,
        frame: 2,
        control: 2,
        entity: NONE,
        slot: Slot::None,
        value,
        units: Sequence::new(Vec::new(alloc)),
        uses: Sequence::new(vec![in alloc; Use::Value { event: 4 }]?),
    })
}

#[test]
fn a_test_is_spelled_by_its_version(rt: HostRuntime) -> Result<(), Fail> {
    let alloc = rt.alloc();
    let event = test_of(alloc, Value::Arm(1))?;
    assert!(rt; is_short(&event) && has_truth(&event));
    assert!(rt; encode_event_v1(alloc, &event)?.as_slice() == TEST_ONE.as_slice());
    assert!(rt; encode_event(alloc, &event)?.as_slice() == TEST_TWO.as_slice());
    Ok(())
}
