//! Places, by the names that the program has for them.

ghost use Rattle.std.specs.Prelude.{◌≡◌, ◌++◌, ◌+◌, ◌<◌, ◌≤◌, ℕ, List, Some, OnOk, codes, option_map};
ghost use Rattle.std.specs.Fmt.{decimal};
ghost use Rattle.wy_event.specs.Record.{Recorded};
ghost use Rattle.wy_kernel.specs.Parts.{program_of};
ghost use Rattle.wy_kernel.specs.Program.{body, init_body};
ghost use Rattle.wy_kernel.specs.View.{body_of, local_of, present};
ghost use Rattle.wy_text.specs.Names.{field_name, numbered};
ghost use Rattle.wy_text.specs.Places.{begun, called, local_name, slot_text};
ghost use Rattle.wy_view.specs.References.{SlotBelow};
ghost use Rattle.wy_view.specs.View.{KeepsCounts, Keeps};

use crate::look::{Begun, begun_at};
use crate::name::{put_field_name, put_number};
use crate::put_decimal;
use std::alloc::AllocError;
use std::sync::ledger::Ledger;
use wy_event::record::{Kind, Slot};
use wy_kernel::form::Body;
use wy_kernel::program::Program;
use wy_kernel::types::NONE;
use wy_view::{EventView, Steps, ViewError};

/// Puts the text of a place, and nothing where there is none.
#[tactic(auto, unfolding(crate::specs::Places::slot_text))]
pub(crate) fn put_slot<V: EventView, L: Ledger>(
    out: &mut Vec<u8>,
    program: &Program,
    view: &mut V,
    slot: Slot,
    steps: &mut Steps<L>,
) -> Result<(), ViewError>
    requires there { SlotBelow (V.tells view.old).count slot }
    ensures text { (rs : List Recorded) → (V.tells view.old).records ≡ Some rs
        → OnOk result (out.new.items
        ≡ out.old.items ++ slot_text (program_of program.now) rs slot) }
    ensures keeps { Keeps (V.tells view.old) (V.tells view.new) }
    ensures answers { KeepsCounts result (V.tells view.old) (V.tells view.new) }
    ensures steps { steps.new ≤ steps.old + 1 }
{
    match slot {
        Slot::Local { frame, index } => {
            let begun = begun_at(view, frame, steps)?;
            out.extend_from_slice(local_name(program, begun, index).as_bytes())?;
            Ok(())
        }
        Slot::Static { field } => {
            put_field_name(out, program, field)?;
            Ok(())
        }
        Slot::Field { object, field } => {
            put_member(out, program, object, field)?;
            Ok(())
        }
        Slot::Elem { array, index } => {
            put_element(out, array, index)?;
            Ok(())
        }
        Slot::None => Ok(()),
    }
}

fn put_member(
    out: &mut Vec<u8>,
    program: &Program,
    object: u32,
    field: u32,
) -> Result<(), AllocError>
    ensures { OnOk result (out.new.items ≡ out.old.items
        ++ (numbered object ++ (codes "." ++ field_name (program_of program.now) field))) }
{
    put_number(out, object)?;
    out.push(b'.')?;
    put_field_name(out, program, field)
}

fn put_element(out: &mut Vec<u8>, array: u32, index: u32) -> Result<(), AllocError>
    ensures { OnOk result (out.new.items ≡ out.old.items
        ++ (numbered array ++ (codes "[" ++ (decimal index ++ codes "]")))) }
{
    put_number(out, array)?;
    out.push(b'[')?;
    put_decimal(out, index)?;
    out.push(b']')?;
    Ok(())
}

/// The name of a local of the body that an event began.
fn local_name(program: &Program, frame: Begun, index: u32) -> &str
    ensures { result.now
        ≡ local_name (begun (program_of program.now) frame.kind (present frame.entity)) index }
{
    name_in(body_begun(program, frame), index)
}

#[tactic(auto, unfolding(crate::specs::Places::local_name, crate::specs::Places::called))]
fn name_in(body: Option<&Body>, index: u32) -> &str
    ensures { result.now ≡ local_name (option_map (λ b. body_of b.now) body.entry) index }
{
    match body {
        None => "",
        Some(body) => match body.locals.get(index as usize) {
            None => "",
            Some(local) => local.name.as_str(),
        },
    }
}

/// The body that an event began, where it began one.
#[tactic(auto, unfolding(crate::specs::Places::begun, wy_kernel::specs::View::present))]
fn body_begun(program: &Program, frame: Begun) -> Option<&Body>
    ensures { option_map (λ b. body_of b.now) result
        ≡ begun (program_of program.now) frame.kind (present frame.entity) }
{
    if frame.entity == NONE {
        return None;
    }
    match frame.kind {
        Kind::Call => body_of(program, frame.entity),
        Kind::Init => init_body_of(program, frame.entity),
        _ => None,
    }
}

fn body_of(program: &Program, number: u32) -> Option<&Body>
    ensures { option_map (λ b. body_of b.now) result ≡ body (program_of program.now) number }
{
    if number as usize >= program.bodies.len() {
        return None;
    }
    program.body(number)
}

fn init_body_of(program: &Program, number: u32) -> Option<&Body>
    ensures { option_map (λ b. body_of b.now) result ≡ init_body (program_of program.now) number }
{
    if number as usize >= program.init_bodies.len() {
        return None;
    }
    program.init_body(number)
}
