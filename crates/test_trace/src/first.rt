//! The records of a small run: `int x = 2; int y = 0; if (x > 1) { y = x + 3; } println(y);` in main.

ghost use Rattle.std.specs.Prelude.{◌≡◌, ◌<◌};

use crate::checked::all_refer_below;
use std::alloc::{AllocError, Global};
use std::marker::Brand;
use std::process::Abort;
use std::sync::ledger::{Blank, Ledger};
use std::test::Fail;
use wy_event::record::{Event, Kind, Slot, Use};
use wy_event::sequence::Sequence;
use wy_index::Index;
use wy_kernel::program::Program;
use wy_kernel::types::NONE;
use wy_value::Value;
use wy_view::{EventView, MemoryView, Steps, TallyView};
use wy_why::{Role, sources, why};

/// The frame of main, and its locals.
const MAIN: u32 = 2;

const ARGS: Slot = Slot::Local {
    frame: MAIN,
    index: 0,
};

const X: Slot = Slot::Local {
    frame: MAIN,
    index: 1,
};

const Y: Slot = Slot::Local {
    frame: MAIN,
    index: 2,
};

fn event(
    alloc: Global,
    kind: Kind,
    control: u32,
    slot: Slot,
    value: Value,
    uses: &[Use],
) -> Result<Event, AllocError> {
    Ok(Event {
        kind,
        site: 7,
        frame: if control == NONE { NONE } else { MAIN },
        control,
        entity: 18,
        slot,
        value,
        units: Sequence::new(Vec::new(alloc)),
        uses: Sequence::new(uses.to_vec(alloc)?),
    })
}

fn place(slot: Slot, moment: u32) -> Use {
    Use::Place { slot, moment }
}

pub fn events(alloc: Global) -> Result<Vec<Event>, AllocError> {
    let mut events = Vec::new(alloc);
    events.push(event(alloc, Kind::Init, NONE, Slot::None, Value::None, &[])?)?;
    events.push(event(alloc, Kind::New, NONE, Slot::None, Value::Int(0), &[])?)?;
    events.push(event(alloc, Kind::Call, NONE, Slot::None, Value::None, &[])?)?;
    let array = Use::Value { event: 1 };
    events.push(event(alloc, Kind::Bind, MAIN, ARGS, Value::Object(1), &[array])?)?;
    events.push(event(alloc, Kind::Set, MAIN, X, Value::Int(2), &[])?)?;
    events.push(event(alloc, Kind::Set, MAIN, Y, Value::Int(0), &[])?)?;
    let x = place(X, 6);
    events.push(event(alloc, Kind::Test, MAIN, Slot::None, Value::Arm(1), &[x])?)?;
    let x = place(X, 7);
    events.push(event(alloc, Kind::Set, 6, Y, Value::Int(5), &[x])?)?;
    let y = place(Y, 8);
    events.push(event(alloc, Kind::Print, MAIN, Slot::None, Value::Int(5), &[y])?)?;
    events.push(event(alloc, Kind::Return, MAIN, Slot::None, Value::None, &[])?)?;
    Ok(events)
}

fn program(alloc: Global) -> Program {
    Program {
        classes: Vec::new(alloc),
        methods: Vec::new(alloc),
        fields: Vec::new(alloc),
        bodies: Vec::new(alloc),
        init_bodies: Vec::new(alloc),
        fixed_texts: Vec::new(alloc),
        lines: Vec::new(alloc),
        statements: 0,
        main: 0,
    }
}

/// Asks why of the print, and looks about in the index.
fn ask<V: EventView, L: Ledger, R: Abort>(rt: &R, alloc: Global, view: &mut V, blank: Blank)
    requires name { blank.name ≡ L.name }
    requires parts { blank.parts ≡ L.parts }
    requires some { 0 < blank.parts }
{
    let mut steps = Steps::<L>::new(blank);
    let index = Index::build(alloc, view, &program(alloc), &mut steps).expect(rt, "an index");
    assert_eq!(rt; index.prints(), [8].as_slice());
    assert_eq!(rt; index.last_write(Y, 7, &mut steps), Some(5));
    assert_eq!(rt; index.last_write(Y, 5, &mut steps), None);
    assert_eq!(rt;
        index.creation(Slot::Elem { array: 1, index: 0 }, 2),
        Some(1)
    );
    assert_eq!(rt; index.creation(Slot::Elem { array: 1, index: 0 }, 1), None);
    assert_eq!(rt; index.first_init(18), 0);
    assert_eq!(rt; index.first_call(17), NONE);
    assert_eq!(rt; index.at_site(7).len(), 3, "an Init, a Call and a Test");
    assert!(rt; index.made(1).is_some());
    assert!(rt; 8 < view.count());
    let answer = why(alloc, view, &index, 8, &mut steps).expect(rt, "why");
    assert_eq!(rt; answer.all.as_slice(), [2, 4, 6, 7, 8].as_slice());
    assert_eq!(rt; answer.flow.as_slice(), [4, 7, 8].as_slice());
    assert!(rt; 7 < view.count());
    let found = sources(alloc, view, &index, 7, &mut steps).expect(rt, "its sources");
    assert_eq!(rt; found.len(), 2);
    assert_eq!(rt; found[0].event, 4);
    assert!(rt; found[0].role == Role::Data);
    assert_eq!(rt; found[1].event, 6);
    assert!(rt; found[1].role == Role::Control);
}

#[test]
fn a_print_comes_from_what_set_its_value(rt: HostRuntime) -> Result<(), Fail> {
    let events = events(rt.alloc())?;
    assert!(rt; all_refer_below(&events), "each refers below itself");
    assert!(rt; events.len() < 100);
    let mut view = MemoryView { events };
    ask::<MemoryView, Brand, HostRuntime>(&rt, rt.alloc(), &mut view, Blank::new(1));
    Ok(())
}

#[test]
fn each_event_of_an_answer_is_looked_at_once(rt: HostRuntime) -> Result<(), Fail> {
    let events = events(rt.alloc())?;
    assert!(rt; all_refer_below(&events), "each refers below itself");
    assert!(rt; events.len() < 100);
    let mut view = TallyView { events, reads: 0 };
    ask::<TallyView, Brand, HostRuntime>(&rt, rt.alloc(), &mut view, Blank::new(1));
    assert_eq!(rt;
        view.reads,
        16,
        "ten for the index, five for why, one for the sources"
    );
    Ok(())
}
