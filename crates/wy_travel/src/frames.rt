//! The frames at an event with their locals, as they stood just before it.

ghost use Rattle.std.specs.Prelude.{◌≡◌, ◌+◌, ◌<◌, ◌≤◌, ◌++◌, ◌∷◌, [], ℕ, List, Some, All, IfOk, OnOk, map, slice_get};
ghost use Rattle.wy_event.specs.Record.{Recorded};
ghost use Rattle.wy_kernel.specs.Parts.{program_of};
ghost use Rattle.wy_kernel.specs.Program.{field};
ghost use Rattle.wy_kernel.specs.View.{present};
ghost use Rattle.wy_index.specs.Index.{IsIndexOfView, owners_of};
ghost use Rattle.wy_travel.specs.Backtrace.{IsBelow, backtrace, stack_frame};
ghost use Rattle.wy_travel.specs.Frames.{frame_of};
ghost use Rattle.wy_travel.specs.Locals.{frame_body, local_count};
ghost use Rattle.wy_view.specs.References.{OptionBelow};
ghost use Rattle.wy_view.specs.View.{Keeps, KeepsCounts, ReadsOnce};

use crate::locals::{frame_body, local_count, written_among};
use std::alloc::{AllocError, Global};
use std::sync::ledger::Ledger;
use wy_index::Index;
use wy_kernel::program::Program;
use wy_kernel::types::NONE;
use wy_value::Value;
use wy_view::{EventView, Steps, ViewError};

/// A body that ran: its Call or Init, and its locals that were written, by number.
#[derive(Drop)]
pub struct Frame {
    pub call: u32,
    pub locals: Vec<(u32, Value)>,
}

/// What stood just before an event: its frames, the innermost first.
#[derive(Drop)]
pub struct State {
    pub event: u32,
    pub frames: Vec<Frame>,
}

/// What an event says as a frame: the frame in which it stands itself, and how many locals its body has.
#[derive(Clone, Copy)]
struct Place {
    frame: u32,
    locals: u32,
}

/// What event `number` says as a frame.
fn place_of<V: EventView, L: Ledger>(
    view: &mut V,
    program: &Program,
    number: u32,
    steps: &mut Steps<L>,
) -> Result<Place, ViewError>
    requires { number < (V.tells view.old).count }
    ensures frame { (rs : List Recorded) → (V.tells view.old).records ≡ Some rs
        → IfOk result (λ place. present place.frame ≡ frame_of (slice_get rs number)) }
    ensures locals { (rs : List Recorded) → (V.tells view.old).records ≡ Some rs
        → IfOk result (λ place.
        place.locals ≡ local_count (frame_body (program_of program.now) (slice_get rs number))) }
    ensures below { IfOk result (λ place. OptionBelow number (present place.frame)) }
    ensures keeps { Keeps (V.tells view.old) (V.tells view.new) }
    ensures reads { ReadsOnce (V.tells view.old) (V.tells view.new) }
    ensures answers { KeepsCounts result (V.tells view.old) (V.tells view.new) }
    ensures step { steps.new ≡ steps.old + 1 }
{
    let event = view.event(number, steps)?;
    Ok(Place {
        frame: event.frame,
        locals: local_count(frame_body(program, event)),
    })
}

/// Puts a frame behind the others.
fn keep(frames: &mut Vec<Frame>, frame: Frame) -> Result<(), AllocError>
    ensures { OnOk result (frames.new.items ≡ frames.old.items ++ frame ∷ []) }
{
    frames.push(frame)?;
    Ok(())
}

/// The frames at an event with their locals, as they stood just before it. It needs an index of the view and the program of its
/// trace.
pub fn state_at<V: EventView, L: Ledger>(
    alloc: Global,
    view: &mut V,
    index: &Index,
    program: &Program,
    event: u32,
    steps: &mut Steps<L>,
) -> Result<State, ViewError>
    requires there { event < (V.tells view.old).count }
    requires index { IsIndexOfView index.now (V.tells view.old) }
    requires owners { (f : ℕ) → owners_of index.now f ≡ (field (program_of program.now) f).class }
    ensures event { IfOk result (λ state. state.event ≡ event) }
    ensures frames { (rs : List Recorded) → (V.tells view.old).records ≡ Some rs
        → IfOk result (λ state.
        map stack_frame state.frames.items ≡ backtrace (program_of program.now) rs event) }
    ensures below { IfOk result (λ state. All (IsBelow event) state.frames.items) }
    ensures keeps { Keeps (V.tells view.old) (V.tells view.new) }
    ensures answers { KeepsCounts result (V.tells view.old) (V.tells view.new) }
    ensures forward { steps.old ≤ steps.new }
{
    let mut frames = Vec::new(alloc);
    let mut call = place_of(view, program, event, steps)?.frame;
    while call != NONE {
        let place = place_of(view, program, call, steps)?;
        let locals = written_among(
            alloc,
            view,
            index,
            program,
            call,
            event,
            place.locals,
            steps,
        )?;
        keep(&mut frames, Frame { call, locals })?;
        call = place.frame;
    }
    Ok(State { event, frames })
}
