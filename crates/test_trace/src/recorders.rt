//! A run of one event, handed to each recorder through the trait.

ghost use Rattle.std.specs.Prelude.{◌≡◌};

use std::alloc::Global;
use std::test::Fail;
use wy_event::record::{Coverage, Event, Head, Kind, Slot, Tail};
use wy_event::sequence::Sequence;
use wy_kernel::types::NONE;
use wy_record::{MemoryRecorder, Phase, QuietRecorder, RecordError, Recorder};
use wy_value::Value;

fn throwing(alloc: Global) -> Event {
    Event {
        kind: Kind::Throw,
        site: 12,
        frame: 1,
        control: NONE,
        entity: NONE,
        slot: Slot::None,
        value: Value::Object(7),
        units: Sequence::new(Vec::new(alloc)),
        uses: Sequence::new(Vec::new(alloc)),
    }
}

fn record<R: Recorder>(alloc: Global, recorder: &mut R) -> Result<Vec<Event>, RecordError>
    requires { R.phase recorder.old ≡ Phase.Ready }
{
    let head = Head {
        steps: 100,
        input: Sequence::new(Vec::new(alloc)),
        source: Sequence::new(Vec::new(alloc)),
    };
    recorder.start("one", &head, Vec::new(alloc))?;
    recorder.note(&throwing(alloc))?;
    let tail = Tail {
        coverage: Coverage {
            statements: Sequence::new(Vec::new(alloc)),
        },
        stop: 1,
        last: 0,
        steps: 3,
        events: 1,
        uses: 0,
        output: 0,
    };
    recorder.finish(&tail)?;
    Ok(recorder.take())
}

#[test]
fn the_events_are_kept_where_they_are_to_be(rt: HostRuntime) -> Result<(), Fail> {
    let alloc = rt.alloc();
    let mut memory = MemoryRecorder::new(alloc);
    let events = record(alloc, &mut memory).expect(&rt, "a recorder that keeps events");
    assert_eq!(rt; events.len(), 1, "the event");
    assert!(rt; memory.phase() == Phase::Done, "it is done");
    let mut quiet = QuietRecorder::new(alloc);
    let none = record(alloc, &mut quiet).expect(&rt, "a recorder that keeps none");
    assert_eq!(rt; none.len(), 0, "no event");
    assert!(rt; quiet.phase() == Phase::Done, "it is done");
    Ok(())
}
