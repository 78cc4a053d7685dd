//! Values, objects with their types and texts with their units.

ghost use Rattle.std.specs.Prelude.{◌≡◌, ◌++◌, ◌+◌, ◌<◌, ◌≤◌, ℕ, List, Some, OnOk};
ghost use Rattle.wy_event.specs.Record.{Recorded};
ghost use Rattle.wy_kernel.specs.View.{present};
ghost use Rattle.wy_kernel.specs.Parts.{program_of};
ghost use Rattle.wy_kernel.specs.Program.{fixed_text};
ghost use Rattle.wy_text.specs.Names.{made_name, numbered};
ghost use Rattle.wy_text.specs.Values.{own_text, plain_text, truth_text, value_text};
ghost use Rattle.wy_view.specs.References.{ValueBelow};
ghost use Rattle.wy_view.specs.View.{KeepsCounts, Keeps};

use crate::look::{begun_at, put_quoted_at};
use crate::name::{put_made_name, put_number};
use crate::put_signed;
use crate::quote::{put_letter, put_quoted};
use std::alloc::AllocError;
use std::sync::ledger::Ledger;
use wy_kernel::program::Program;
use wy_value::Value;
use wy_view::{EventView, Steps, ViewError};

/// Puts the text of a value, and nothing where there is none.
#[tactic(auto, unfolding(crate::specs::Values::value_text))]
pub fn put_value<V: EventView, L: Ledger>(
    out: &mut Vec<u8>,
    program: &Program,
    view: &mut V,
    value: Value,
    steps: &mut Steps<L>,
) -> Result<(), ViewError>
    requires there { ValueBelow (V.tells view.old).count value }
    ensures text { (rs : List Recorded) → (V.tells view.old).records ≡ Some rs
        → OnOk result (out.new.items
        ≡ out.old.items ++ value_text (program_of program.now) rs value) }
    ensures keeps { Keeps (V.tells view.old) (V.tells view.new) }
    ensures answers { KeepsCounts result (V.tells view.old) (V.tells view.new) }
    ensures steps { steps.new ≤ steps.old + 1 }
{
    match value {
        Value::Object(number) => {
            let made = begun_at(view, number, steps)?;
            put_object(out, program, made.entity, number)?;
            Ok(())
        }
        Value::Text(number) => put_quoted_at(out, view, number, steps),
        _ => {
            put_own(out, program, value)?;
            Ok(())
        }
    }
}

/// Puts an object by its type and its number.
fn put_object(
    out: &mut Vec<u8>,
    program: &Program,
    code: u32,
    number: u32,
) -> Result<(), AllocError>
    ensures { OnOk result (out.new.items ≡ out.old.items
        ++ (made_name (program_of program.now) (present code) ++ numbered number)) }
{
    put_made_name(out, program, code)?;
    put_number(out, number)
}

/// Puts the text of a value that no record has a part in.
#[tactic(auto, unfolding(crate::specs::Values::own_text))]
fn put_own(out: &mut Vec<u8>, program: &Program, value: Value) -> Result<(), AllocError>
    ensures { OnOk result (out.new.items
        ≡ out.old.items ++ own_text (program_of program.now) value) }
{
    match value {
        Value::Char(unit) => put_letter(out, unit),
        Value::Fixed(number) => put_quoted(out, fixed_text(program, number)),
        _ => put_plain(out, value),
    }
}

/// The units of a constant text, and none where the program hasn't it.
fn fixed_text(program: &Program, number: u32) -> &[u16]
    ensures { result.now ≡ fixed_text (program_of program.now) number }
{
    if number as usize >= program.fixed_texts.len() {
        return &[];
    }
    program.fixed_text(number)
}

#[tactic(auto, unfolding(crate::specs::Values::truth_text))]
fn put_truth(out: &mut Vec<u8>, truth: bool) -> Result<(), AllocError>
    ensures { OnOk result (out.new.items ≡ out.old.items ++ truth_text truth) }
{
    match truth {
        true => out.extend_from_slice("true".as_bytes()),
        false => out.extend_from_slice("false".as_bytes()),
    }
}

/// Puts numbers, booleans, null and what a test gave.
#[tactic(auto, unfolding(crate::specs::Values::plain_text))]
fn put_plain(out: &mut Vec<u8>, value: Value) -> Result<(), AllocError>
    ensures { OnOk result (out.new.items ≡ out.old.items ++ plain_text value) }
{
    match value {
        Value::Bool(truth) => put_truth(out, truth),
        Value::Arm(arm) => put_truth(out, arm != 0),
        Value::Null => out.extend_from_slice("null".as_bytes()),
        Value::Byte(n) => put_signed(out, i64::from(n)),
        Value::Short(n) => put_signed(out, i64::from(n)),
        Value::Int(n) => put_signed(out, i64::from(n)),
        Value::Long(n) => put_signed(out, n),
        _ => Ok(()),
    }
}
