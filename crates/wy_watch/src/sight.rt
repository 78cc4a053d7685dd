//! From where an expression is looked at.

ghost use Rattle.std.specs.Prelude.{◌≡◌, ◌<◌, ◌≤◌, List, Some, IfOk, IfSome, length, map, option_map, slice_get};
ghost use Rattle.wy_event.specs.Record.{Recorded, recorded};
ghost use Rattle.wy_kernel.specs.Parts.{program_of};
ghost use Rattle.wy_kernel.specs.Program.{method};
ghost use Rattle.wy_kernel.specs.View.{NONE, body_of, local_of, present};
ghost use Rattle.wy_travel.specs.Frames.{frame_of};
ghost use Rattle.wy_view.specs.References.{OptionBelow};
ghost use Rattle.wy_view.specs.View.{KeepsCounts, Keeps};
ghost use Rattle.wy_watch.specs.Sight.{frame_class, locals_in, standing_at, standing_of, standing_seen};

use std::sync::ledger::Ledger;
use wy_event::record::{Event, Kind};
use wy_index::Index;
use wy_kernel::form::Body;
use wy_kernel::program::Program;
use wy_kernel::types::{Local, NONE};
use wy_travel::frame_body;
use wy_view::{EventView, Steps, ViewError};

/// A frame: its Call or Init, and the class and the locals of the body that runs in it.
#[derive(Clone, Copy)]
pub(crate) struct Standing<'a> {
    pub(crate) frame: u32,
    pub(crate) class: u32,
    pub(crate) locals: &'a [Local],
}

/// A moment of a trace, and the innermost frame there.
#[derive(Clone, Copy)]
pub(crate) struct Sight<'a> {
    pub(crate) index: &'a Index,
    pub(crate) program: &'a Program,
    pub(crate) moment: u32,
    pub(crate) standing: Option<Standing<'a>>,
}

/// The locals of a body that have numbers.
fn locals_of<'a>(body: Option<&'a Body>) -> &'a [Local]
    ensures locals { map local_of result.now ≡ locals_in (option_map (λ b. body_of b.now) body.entry) }
    ensures few { length result.now ≤ NONE }
{
    match body {
        Some(body) => &body.locals[..body.locals.len().min(NONE as usize)],
        None => &[],
    }
}

/// The class of a method.
#[tactic(auto, unfolding(wy_kernel::specs::Program::method))]
fn class_of_method(program: &Program, number: u32) -> u32
    ensures { result ≡ (method (program_of program.now) number).class }
{
    if (number as usize) < program.methods.len() {
        program.method(number).class
    } else {
        0
    }
}

/// The class of what an event runs, if it runs anything.
#[tactic(auto, unfolding(wy_event::specs::Record::recorded, wy_kernel::specs::View::present))]
fn class_run(program: &Program, event: &Event) -> Option<u32>
    ensures { result ≡ frame_class (program_of program.now) (Some (recorded event.now)) }
{
    if event.entity == NONE {
        return None;
    }
    match event.kind {
        Kind::Call => Some(class_of_method(program, event.entity)),
        Kind::Init => Some(event.entity),
        _ => None,
    }
}

/// What runs in the frame of an event, if a body does.
fn standing_of<'a>(program: &'a Program, frame: u32, event: &Event) -> Option<Standing<'a>>
    ensures standing { option_map standing_seen result
        ≡ standing_of (program_of program.now) frame (Some (recorded event.now)) }
    ensures few { IfSome result (λ at. length at.locals.now ≤ NONE) }
{
    match class_run(program, event) {
        Some(class) => {
            let body = frame_body(program, event);
            let locals = locals_of(body);
            Some(Standing {
                frame,
                class,
                locals,
            })
        }
        None => None,
    }
}

/// The frame of an event, and NONE where it has none.
fn frame_at<V: EventView, L: Ledger>(
    view: &mut V,
    event: u32,
    steps: &mut Steps<L>,
) -> Result<u32, ViewError>
    requires there { event < (V.tells view.old).count }
    ensures frame { (rs : List Recorded) → (V.tells view.old).records ≡ Some rs
        → IfOk result (λ f. present f ≡ frame_of (slice_get rs event)) }
    ensures below { IfOk result (λ f. OptionBelow event (present f)) }
    ensures keeps { Keeps (V.tells view.old) (V.tells view.new) }
    ensures answers { KeepsCounts result (V.tells view.old) (V.tells view.new) }
    ensures forward { steps.old ≤ steps.new }
{
    let event = view.event(event, steps)?;
    Ok(event.frame)
}

/// What runs in a frame, if a body does.
fn standing_in<'a, V: EventView, L: Ledger>(
    view: &mut V,
    program: &'a Program,
    frame: u32,
    steps: &mut Steps<L>,
) -> Result<Option<Standing<'a>>, ViewError>
    requires there { frame < (V.tells view.old).count }
    ensures standing { (rs : List Recorded) → (V.tells view.old).records ≡ Some rs
        → IfOk result (λ s.
        option_map standing_seen s ≡ standing_of (program_of program.now) frame
        (slice_get rs frame)) }
    ensures few { IfOk result (λ s. IfSome s (λ at. length at.locals.now ≤ NONE)) }
    ensures keeps { Keeps (V.tells view.old) (V.tells view.new) }
    ensures answers { KeepsCounts result (V.tells view.old) (V.tells view.new) }
    ensures forward { steps.old ≤ steps.new }
{
    let begun = view.event(frame, steps)?;
    Ok(standing_of(program, frame, begun))
}

/// The innermost frame just before an event.
pub(crate) fn standing_at<'a, V: EventView, L: Ledger>(
    view: &mut V,
    program: &'a Program,
    event: u32,
    steps: &mut Steps<L>,
) -> Result<Option<Standing<'a>>, ViewError>
    requires there { event < (V.tells view.old).count }
    ensures standing { (rs : List Recorded) → (V.tells view.old).records ≡ Some rs
        → IfOk result (λ s.
        option_map standing_seen s ≡ standing_at (program_of program.now) rs event) }
    ensures few { IfOk result (λ s. IfSome s (λ at. length at.locals.now ≤ NONE)) }
    ensures keeps { Keeps (V.tells view.old) (V.tells view.new) }
    ensures answers { KeepsCounts result (V.tells view.old) (V.tells view.new) }
    ensures forward { steps.old ≤ steps.new }
{
    let frame = frame_at(view, event, steps)?;
    if frame == NONE {
        return Ok(None);
    }
    standing_in(view, program, frame, steps)
}
