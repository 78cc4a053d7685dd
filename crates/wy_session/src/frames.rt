//! The lines of frames with their locals, and of a value that is shown.

ghost use Rattle.std.specs.Prelude.{◌≡◌, ◌++◌, ◌<◌, All, List, Some, IfOk, OnOk, map};
ghost use Rattle.wy_event.specs.Record.{Recorded};
ghost use Rattle.wy_kernel.specs.Parts.{program_of};
ghost use Rattle.wy_session.specs.Frames.{backtrace_text, frames_text, locals_text, shown_line, stack_frame_text};
ghost use Rattle.wy_travel.specs.Backtrace.{IsBelow, stack_frame};
ghost use Rattle.wy_view.specs.References.{ValueBelow};
ghost use Rattle.wy_view.specs.View.{KeepsCounts, Keeps};

use std::alloc::Global;
use std::sync::ledger::Ledger;
use wy_kernel::program::Program;
use wy_text::{put_frame_line, put_local_line, put_value};
use wy_travel::Frame;
use wy_value::Value;
use wy_view::{EventView, Steps, ViewError};

/// Puts a line for each local of a frame behind a text.
fn put_locals<V: EventView, L: Ledger>(
    out: &mut Vec<u8>,
    program: &Program,
    view: &mut V,
    call: u32,
    locals: &[(u32, Value)],
    steps: &mut Steps<L>,
) -> Result<(), ViewError>
    requires there { call < (V.tells view.old).count }
    requires values { All (λ l. ValueBelow (V.tells view.old).count l.1) locals.now }
    ensures lines { (rs : List Recorded) → (V.tells view.old).records ≡ Some rs
        → OnOk result (out.new.items ≡ out.old.items
        ++ locals_text (program_of program.now) rs call locals.now) }
    ensures keeps { Keeps (V.tells view.old) (V.tells view.new) }
    ensures answers { KeepsCounts result (V.tells view.old) (V.tells view.new) }
{
    for local in locals {
        put_local_line(out, program, view, call, local.0, local.1, steps)?;
    }
    Ok(())
}

/// Puts the line of a frame and those of its locals behind a text.
fn put_frame<V: EventView, L: Ledger>(
    out: &mut Vec<u8>,
    program: &Program,
    view: &mut V,
    frame: &Frame,
    steps: &mut Steps<L>,
) -> Result<(), ViewError>
    requires below { IsBelow (V.tells view.old).count frame.now }
    ensures lines { (rs : List Recorded) → (V.tells view.old).records ≡ Some rs
        → OnOk result (out.new.items ≡ out.old.items
        ++ stack_frame_text (program_of program.now) rs (stack_frame frame.now)) }
    ensures keeps { Keeps (V.tells view.old) (V.tells view.new) }
    ensures answers { KeepsCounts result (V.tells view.old) (V.tells view.new) }
{
    put_frame_line(out, program, view, frame.call, steps)?;
    put_locals(
        out,
        program,
        view,
        frame.call,
        frame.locals.as_slice(),
        steps,
    )
}

/// Puts the lines of frames with their locals behind a text.
fn put_frames<V: EventView, L: Ledger>(
    out: &mut Vec<u8>,
    program: &Program,
    view: &mut V,
    frames: &[Frame],
    steps: &mut Steps<L>,
) -> Result<(), ViewError>
    requires below { All (IsBelow (V.tells view.old).count) frames.now }
    ensures lines { (rs : List Recorded) → (V.tells view.old).records ≡ Some rs
        → OnOk result (out.new.items ≡ out.old.items
        ++ frames_text (program_of program.now) rs frames.now) }
    ensures keeps { Keeps (V.tells view.old) (V.tells view.new) }
    ensures answers { KeepsCounts result (V.tells view.old) (V.tells view.new) }
{
    for frame in frames {
        put_frame(out, program, view, frame, steps)?;
    }
    Ok(())
}

/// The lines of frames with their locals.
pub(crate) fn frame_lines<V: EventView, L: Ledger>(
    alloc: Global,
    program: &Program,
    view: &mut V,
    frames: &[Frame],
    steps: &mut Steps<L>,
) -> Result<Vec<u8>, ViewError>
    requires below { All (IsBelow (V.tells view.old).count) frames.now }
    ensures lines { (rs : List Recorded) → (V.tells view.old).records ≡ Some rs
        → IfOk result (λ text. text.items
        ≡ backtrace_text (program_of program.now) rs (map stack_frame frames.now)) }
    ensures keeps { Keeps (V.tells view.old) (V.tells view.new) }
    ensures answers { KeepsCounts result (V.tells view.old) (V.tells view.new) }
{
    let mut lines = Vec::new(alloc);
    put_frames(&mut lines, program, view, frames, steps)?;
    Ok(lines)
}

/// The line of a value that is shown.
#[tactic(auto, unfolding(crate::specs::Frames::shown_line))]
pub(crate) fn value_line<V: EventView, L: Ledger>(
    alloc: Global,
    program: &Program,
    view: &mut V,
    value: Value,
    steps: &mut Steps<L>,
) -> Result<Vec<u8>, ViewError>
    requires below { ValueBelow (V.tells view.old).count value }
    ensures line { (rs : List Recorded) → (V.tells view.old).records ≡ Some rs
        → IfOk result (λ text. text.items ≡ shown_line (program_of program.now) rs value) }
    ensures keeps { Keeps (V.tells view.old) (V.tells view.new) }
    ensures answers { KeepsCounts result (V.tells view.old) (V.tells view.new) }
{
    let mut line = Vec::from_slice(alloc, "= ".as_bytes())?;
    put_value(&mut line, program, view, value, steps)?;
    line.extend_from_slice("\n".as_bytes())?;
    Ok(line)
}
