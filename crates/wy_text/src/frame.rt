//! The lines of a frame: what it runs, and what its locals hold.

ghost use Rattle.std.specs.Prelude.{◌≡◌, ◌++◌, ◌+◌, ◌<◌, ◌≤◌, List, Some, OnOk, codes};
ghost use Rattle.wy_event.specs.Record.{Recorded};
ghost use Rattle.wy_kernel.specs.Parts.{program_of};
ghost use Rattle.wy_kernel.specs.View.{present};
ghost use Rattle.wy_text.specs.EndLines.{line_of};
ghost use Rattle.wy_text.specs.FrameLines.{frame_line, local_line, local_text, running};
ghost use Rattle.wy_text.specs.Names.{numbered};
ghost use Rattle.wy_text.specs.Values.{value_text};
ghost use Rattle.wy_view.specs.References.{ValueBelow};
ghost use Rattle.wy_view.specs.View.{KeepsCounts, Keeps};

use crate::look::{Begun, begun_at};
use crate::name::put_number;
use crate::slot::put_slot;
use crate::{put_class_name, put_decimal, put_method_name, put_value};
use std::alloc::AllocError;
use std::sync::ledger::Ledger;
use wy_event::record::{Kind, Slot};
use wy_kernel::program::Program;
use wy_value::Value;
use wy_view::{EventView, Steps, ViewError};

/// Puts the line of the frame that an event began.
pub fn put_frame_line<V: EventView, L: Ledger>(
    out: &mut Vec<u8>,
    program: &Program,
    view: &mut V,
    call: u32,
    steps: &mut Steps<L>,
) -> Result<(), ViewError>
    requires there { call < (V.tells view.old).count }
    ensures line { (rs : List Recorded) → (V.tells view.old).records ≡ Some rs
        → OnOk result (out.new.items
        ≡ out.old.items ++ frame_line (program_of program.now) rs call) }
    ensures keeps { Keeps (V.tells view.old) (V.tells view.new) }
    ensures answers { KeepsCounts result (V.tells view.old) (V.tells view.new) }
    ensures steps { steps.new ≤ steps.old + 1 }
{
    let begun = begun_at(view, call, steps)?;
    put_begun(out, program, call, begun)?;
    Ok(())
}

/// Puts the number of an event, and what it began to run.
fn put_begun(
    out: &mut Vec<u8>,
    program: &Program,
    call: u32,
    begun: Begun,
) -> Result<(), AllocError>
    ensures { OnOk result (out.new.items ≡ out.old.items ++ line_of (numbered call
        ++ (codes " " ++ running (program_of program.now) begun.kind (present begun.entity)))) }
{
    put_number(out, call)?;
    out.push(b' ')?;
    put_running(out, program, begun)?;
    out.push(b'\n')?;
    Ok(())
}

/// Puts what an event began to run.
#[tactic(auto, unfolding(crate::specs::FrameLines::running))]
fn put_running(out: &mut Vec<u8>, program: &Program, begun: Begun) -> Result<(), AllocError>
    ensures { OnOk result (out.new.items ≡ out.old.items
        ++ running (program_of program.now) begun.kind (present begun.entity)) }
{
    match begun.kind {
        Kind::Call => put_method_name(out, program, begun.entity),
        Kind::Init => {
            out.extend_from_slice("init ".as_bytes())?;
            put_class_name(out, program, begun.entity)
        }
        _ => Ok(()),
    }
}

/// Puts the line of a local of the frame that an event began, with what it holds.
pub fn put_local_line<V: EventView, L: Ledger>(
    out: &mut Vec<u8>,
    program: &Program,
    view: &mut V,
    call: u32,
    index: u32,
    value: Value,
    steps: &mut Steps<L>,
) -> Result<(), ViewError>
    requires there { call < (V.tells view.old).count }
    requires value { ValueBelow (V.tells view.old).count value }
    ensures line { (rs : List Recorded) → (V.tells view.old).records ≡ Some rs
        → OnOk result (out.new.items ≡ out.old.items
        ++ local_line (program_of program.now) rs call index value) }
    ensures keeps { Keeps (V.tells view.old) (V.tells view.new) }
    ensures answers { KeepsCounts result (V.tells view.old) (V.tells view.new) }
    ensures steps { steps.new ≤ steps.old + 2 }
{
    out.extend_from_slice(" ".as_bytes())?;
    put_local(out, program, view, call, index, steps)?;
    out.extend_from_slice(" = ".as_bytes())?;
    put_value(out, program, view, value, steps)?;
    out.extend_from_slice("\n".as_bytes())?;
    Ok(())
}

/// Puts a local by its name and its number.
#[tactic(auto, unfolding(crate::specs::FrameLines::local_text))]
fn put_local<V: EventView, L: Ledger>(
    out: &mut Vec<u8>,
    program: &Program,
    view: &mut V,
    call: u32,
    index: u32,
    steps: &mut Steps<L>,
) -> Result<(), ViewError>
    requires there { call < (V.tells view.old).count }
    ensures text { (rs : List Recorded) → (V.tells view.old).records ≡ Some rs
        → OnOk result (out.new.items ≡ out.old.items
        ++ local_text (program_of program.now) rs call index) }
    ensures keeps { Keeps (V.tells view.old) (V.tells view.new) }
    ensures answers { KeepsCounts result (V.tells view.old) (V.tells view.new) }
    ensures steps { steps.new ≤ steps.old + 1 }
{
    let slot = Slot::Local { frame: call, index };
    put_slot(out, program, view, slot, steps)?;
    out.extend_from_slice(".".as_bytes())?;
    put_decimal(out, index)?;
    Ok(())
}
