//! What stood just before the events of the small run of `first`: its frames, their locals, and what slots held.

ghost use Rattle.std.specs.Prelude.{◌≡◌, ◌<◌};

use crate::checked::all_refer_below;
use crate::first::events;
use std::alloc::{AllocError, Global};
use std::marker::Brand;
use std::process::Abort;
use std::sync::ledger::{Blank, Ledger};
use std::test::Fail;
use wy_event::record::Slot;
use wy_index::Index;
use wy_kernel::form::{Body, Stmt, StmtForm};
use wy_kernel::program::Program;
use wy_kernel::types::{Local, NONE, Ty};
use wy_travel::{held, state_at};
use wy_value::Value;
use wy_view::{EventView, Steps, TallyView};

/// The number of main among the methods.
const METHOD: usize = 18;

/// The frame of main, and its local y.
const MAIN: u32 = 2;

const Y: Slot = Slot::Local {
    frame: MAIN,
    index: 2,
};

/// The first element of main's arguments.
const FIRST: Slot = Slot::Elem { array: 1, index: 0 };

fn body(alloc: Global) -> Result<Body, AllocError> {
    let mut locals = Vec::new(alloc);
    for name in ["args", "x", "y"] {
        locals.push(Local {
            name: String::from_str(alloc, name)?,
            site: 0,
            ty: Ty::Void,
        })?;
    }
    Ok(Body {
        block: Stmt {
            number: 0,
            site: 0,
            askable: false,
            reach: NONE,
            form: StmtForm::Block {
                parts: Vec::new(alloc),
            },
        },
        locals,
        end: 0,
    })
}

fn program(alloc: Global) -> Result<Program, AllocError> {
    let mut bodies = Vec::new(alloc);
    for _ in 0..METHOD {
        bodies.push(None)?;
    }
    bodies.push(Some(body(alloc)?))?;
    Ok(Program {
        classes: Vec::new(alloc),
        methods: Vec::new(alloc),
        fields: Vec::new(alloc),
        bodies,
        init_bodies: Vec::new(alloc),
        fixed_texts: Vec::new(alloc),
        lines: Vec::new(alloc),
        statements: 0,
        main: 0,
    })
}

/// Looks back from the print, from the second Set and from the first event.
fn look_back<V: EventView, L: Ledger, R: Abort>(
    rt: &R,
    alloc: Global,
    view: &mut V,
    program: &Program,
    blank: Blank,
)
    requires name { blank.name ≡ L.name }
    requires parts { blank.parts ≡ L.parts }
    requires some { 0 < blank.parts }
{
    let mut steps = Steps::<L>::new(blank);
    let index = Index::build(alloc, view, program, &mut steps).expect(rt, "an index");
    assert!(rt; 8 < view.count());
    let print = state_at(alloc, view, &index, program, 8, &mut steps).expect(rt, "a state");
    assert_eq!(rt; print.event, 8);
    assert_eq!(rt; print.frames.len(), 1);
    assert_eq!(rt; print.frames[0].call, MAIN);
    assert_eq!(rt;
        print.frames[0].locals.as_slice(),
        [
            (0, Value::Object(1)),
            (1, Value::Int(2)),
            (2, Value::Int(5))
        ]
        .as_slice()
    );
    assert!(rt; 5 < view.count());
    let set = state_at(alloc, view, &index, program, 5, &mut steps).expect(rt, "a state");
    assert_eq!(rt; set.frames.len(), 1);
    assert_eq!(rt;
        set.frames[0].locals.as_slice(),
        [(0, Value::Object(1)), (1, Value::Int(2))].as_slice(),
        "y has no value yet"
    );
    assert!(rt; 0 < view.count());
    let first = state_at(alloc, view, &index, program, 0, &mut steps).expect(rt, "a state");
    assert!(rt; first.frames.is_empty(), "no body runs");
}

/// Asks for what y and the first argument held at some moments.
fn look_up<V: EventView, L: Ledger, R: Abort>(
    rt: &R,
    alloc: Global,
    view: &mut V,
    program: &Program,
    blank: Blank,
)
    requires name { blank.name ≡ L.name }
    requires parts { blank.parts ≡ L.parts }
    requires some { 0 < blank.parts }
{
    let mut steps = Steps::<L>::new(blank);
    let index = Index::build(alloc, view, program, &mut steps).expect(rt, "an index");
    let value = held(view, &index, program, Y, 5, &mut steps).expect(rt, "a value");
    assert_eq!(rt; value, Value::None);
    let value = held(view, &index, program, Y, 7, &mut steps).expect(rt, "a value");
    assert_eq!(rt; value, Value::Int(0), "not what event 7 writes");
    let value = held(view, &index, program, Y, 8, &mut steps).expect(rt, "a value");
    assert_eq!(rt; value, Value::Int(5));
    let value = held(view, &index, program, FIRST, 1, &mut steps).expect(rt, "a value");
    assert_eq!(rt; value, Value::None, "the array isn't there");
    let value = held(view, &index, program, FIRST, 2, &mut steps).expect(rt, "a value");
    assert_eq!(rt; value, Value::Null);
}

#[test]
fn the_frames_at_an_event_have_what_their_locals_held(rt: HostRuntime) -> Result<(), Fail> {
    let events = events(rt.alloc())?;
    assert!(rt; all_refer_below(&events), "each refers below itself");
    assert!(rt; events.len() < 100);
    let program = program(rt.alloc())?;
    let mut view = TallyView { events, reads: 0 };
    look_back::<TallyView, Brand, HostRuntime>(&rt, rt.alloc(), &mut view, &program, Blank::new(1));
    assert_eq!(rt;
        view.reads,
        20,
        "ten for the index, five and four for frames with their locals, one for none"
    );
    Ok(())
}

#[test]
fn a_slot_holds_what_was_written_before(rt: HostRuntime) -> Result<(), Fail> {
    let events = events(rt.alloc())?;
    assert!(rt; all_refer_below(&events), "each refers below itself");
    assert!(rt; events.len() < 100);
    let program = program(rt.alloc())?;
    let mut view = TallyView { events, reads: 0 };
    look_up::<TallyView, Brand, HostRuntime>(&rt, rt.alloc(), &mut view, &program, Blank::new(1));
    assert_eq!(rt;
        view.reads,
        13,
        "ten for the index, and one for each that holds a value"
    );
    Ok(())
}
