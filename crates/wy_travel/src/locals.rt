//! The locals of a frame that were written before an event.

ghost use Rattle.std.specs.Prelude.{◌≡◌, ◌<◌, ◌≤◌, ◌++◌, ℕ, List, Some, All, IfOk, OnOk, option_map, option_to_list, slice_get};
ghost use Rattle.wy_event.specs.Record.{Recorded, recorded};
ghost use Rattle.wy_event.specs.declared.record.Slot.TheVariants.{Local};
ghost use Rattle.wy_kernel.specs.Parts.{program_of};
ghost use Rattle.wy_kernel.specs.Program.{body, field, init_body};
ghost use Rattle.wy_kernel.specs.View.{body_of, present};
ghost use Rattle.wy_index.specs.Index.{IsIndexOfView, owners_of};
ghost use Rattle.wy_travel.specs.Locals.{body_run, frame_body, local_count, written_among};
ghost use Rattle.wy_view.specs.References.{ValueBelow};
ghost use Rattle.wy_view.specs.View.{Keeps, KeepsCounts};

use crate::slots::last_given;
use std::alloc::{AllocError, Global};
use std::sync::ledger::Ledger;
use wy_event::record::{Event, Kind, Slot};
use wy_index::Index;
use wy_kernel::form::Body;
use wy_kernel::program::Program;
use wy_kernel::types::NONE;
use wy_value::Value;
use wy_view::{EventView, Steps, ViewError};

fn method_body(program: &Program, method: u32) -> Option<&Body>
    ensures { option_map (λ b. body_of b.now) result ≡ body (program_of program.now) method }
{
    if method as usize >= program.bodies.len() {
        return None;
    }
    program.body(method)
}

fn class_body(program: &Program, class: u32) -> Option<&Body>
    ensures { option_map (λ b. body_of b.now) result ≡ init_body (program_of program.now) class }
{
    if class as usize >= program.init_bodies.len() {
        return None;
    }
    program.init_body(class)
}

/// The body that an event runs, if it is a Call or an Init that runs one.
#[tactic(auto, unfolding(crate::specs::Locals::frame_body, crate::specs::Locals::body_run, wy_event::specs::Record::recorded, wy_kernel::specs::View::present))]
pub fn frame_body<'a>(program: &'a Program, event: &Event) -> Option<&'a Body>
    ensures { option_map (λ b. body_of b.now) result
        ≡ frame_body (program_of program.now) (Some (recorded event.now)) }
{
    if event.entity == NONE {
        return None;
    }
    match event.kind {
        Kind::Call => method_body(program, event.entity),
        Kind::Init => class_body(program, event.entity),
        _ => None,
    }
}

/// How many locals a body has.
#[tactic(auto, unfolding(crate::specs::Locals::local_count))]
pub(crate) fn local_count(body: Option<&Body>) -> u32
    ensures { result ≡ local_count (option_map (λ b. body_of b.now) body.entry) }
{
    match body {
        Some(body) => u32::try_from(body.locals.len()).unwrap_or(NONE),
        None => 0,
    }
}

/// Puts a local behind the others, if it was written.
fn keep(locals: &mut Vec<(u32, Value)>, number: u32, value: Option<Value>) -> Result<(), AllocError>
    ensures { OnOk result (locals.new.items
        ≡ locals.old.items ++ option_to_list (option_map (λ v. (number, v)) value)) }
{
    if let Some(value) = value {
        locals.push((number, value))?;
    }
    Ok(())
}

/// The written ones of the first `count` locals of a frame, by number, with what they held just before an event.
pub(crate) fn written_among<V: EventView, L: Ledger>(
    alloc: Global,
    view: &mut V,
    index: &Index,
    program: &Program,
    frame: u32,
    event: u32,
    count: u32,
    steps: &mut Steps<L>,
) -> Result<Vec<(u32, Value)>, ViewError>
    requires index { IsIndexOfView index.now (V.tells view.old) }
    requires owners { (f : ℕ) → owners_of index.now f ≡ (field (program_of program.now) f).class }
    ensures locals { (rs : List Recorded) → (V.tells view.old).records ≡ Some rs
        → IfOk result (λ locals.
        locals.items ≡ written_among (program_of program.now) rs frame event count) }
    ensures below { IfOk result (λ locals. All (λ l. ValueBelow event l.1) locals.items) }
    ensures keeps { Keeps (V.tells view.old) (V.tells view.new) }
    ensures answers { KeepsCounts result (V.tells view.old) (V.tells view.new) }
    ensures forward { steps.old ≤ steps.new }
{
    let mut locals = Vec::new(alloc);
    for number in 0..count {
        let slot = Slot::Local {
            frame,
            index: number,
        };
        let value = last_given(view, index, program, slot, event, steps)?;
        keep(&mut locals, number, value)?;
    }
    Ok(locals)
}
