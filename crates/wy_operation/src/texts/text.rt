//! String conversion, and texts that a run makes (JLS 5.1.11, 15.18.1).

ghost use Rattle.std.specs.Prelude.{◌≡◌, List, IfOk};
ghost use Rattle.wy_event.specs.declared.record.Use.{Use};
ghost use Rattle.wy_kernel.specs.Parts.{program_of};
ghost use Rattle.wy_kernel.specs.Program as kernel;
ghost use Rattle.wy_meaning.specs.Call.{text_equals};
ghost use Rattle.wy_meaning.specs.Text.{make_text, spelled_as};
ghost use Rattle.wy_meaning.specs.World.{World, is_text};
ghost use Rattle.wy_operation.specs.Around.{Keeps};
ghost use Rattle.wy_operation.specs.Operands.{Pair, carried};
ghost use Rattle.wy_state.specs.Agrees.{shape, StepGives, Meets, itself};
ghost use Rattle.wy_state.specs.Seen.{given};
ghost use Rattle.wy_steps.specs.Sets.{nothing};
ghost use Rattle.wy_value.specs.Numeral.{text_of};
ghost use Rattle.wy_operation.specs.Found.{found_of};
ghost use Rattle.wy_operation.specs.Words.{equality, joined_texts, sameness, text_of_event};

use crate::operand::Part;
use crate::texts::found::Found;
use std::alloc::{AllocError, Global};
use wy_event::record::Use;
use wy_kernel::program::Program;
use wy_state::parts::Halt;
use wy_state::register::Register;
use wy_state::state::State;
use wy_value::{Value, digits, same};

#[tactic(auto, unfolding(wy_meaning::specs::World::is_text))]
pub fn is_text(value: Value) -> bool
    ensures { result ≡ is_text value }
{
    match value {
        Value::Text(_) | Value::Fixed(_) => true,
        _ => false,
    }
}

/// The text that a primitive value or null is converted to, and none of another value.
pub fn plain_text(alloc: Global, value: Value) -> Result<Vec<u16>, AllocError>
    ensures { IfOk result (λ units. units.items ≡ text_of value) }
{
    match value {
        Value::None | Value::Object(_) | Value::Text(_) | Value::Fixed(_) | Value::Arm(_) => {
            Ok(Vec::new(alloc))
        }
        _ => digits(alloc, value),
    }
}

/// The units that a value is spelled by; what is spelled is never an object.
pub fn spelling_units<R: Register>(
    state: &State<'_, R>,
    program: &Program,
    value: Value,
) -> Result<Vec<u16>, Halt>
    ensures { (w : World nothing) → w.program ≡ program_of program.now
        → StepGives (program_of program.now) (λ units. units.items) result
        (shape R.keeps R.kept state.now) (spelled_as w value) (shape R.keeps R.kept state.now) }
{
    if !is_text(value) {
        return Ok(plain_text(state.alloc, value)?);
    }
    let units = state.units_of(program, value)?;
    Ok(Vec::from_slice(state.alloc, units)?)
}

/// A text that the run makes, and its event.
pub fn make_text<R: Register>(
    state: &mut State<'_, R>,
    site: u32,
    units: Vec<u16>,
    uses: &[Use],
) -> Result<u32, Halt>
    ensures step { (p : kernel.Program) (v : Value) → StepGives p text_of_event result
        (shape R.keeps R.kept state.old) (make_text site units.items (given v uses.now))
        (shape R.keeps R.kept state.new) }
    ensures around { Keeps result state.old.calls state.new.calls }
{
    state.note_text(site, units, uses)
}

/// The same, as what an operation of the library gives.
pub fn made_text<R: Register>(
    state: &mut State<'_, R>,
    site: u32,
    units: Vec<u16>,
    uses: &[Use],
) -> Result<Found, Halt>
    ensures step { (p : kernel.Program) (us : List Use) → StepGives p (found_of us) result
        (shape R.keeps R.kept state.old) (make_text site units.items (given Value.None uses.now))
        (shape R.keeps R.kept state.new) }
    ensures around { Keeps result state.old.calls state.new.calls }
{
    let event = make_text(state, site, units, uses)?;
    Ok(Found::Made(Value::Text(event), event))
}

/// The text of two operands that are shown.
pub fn join_texts<R: Register>(
    state: &mut State<'_, R>,
    program: &Program,
    site: u32,
    left: Value,
    right: Value,
    uses: &[Use],
) -> Result<u32, Halt>
    ensures step { (w : World nothing) (o : Pair left right uses.now)
        → w.program ≡ program_of program.now → StepGives (program_of program.now) text_of_event result
        (shape R.keeps R.kept state.old) (joined_texts w site o.first o.second)
        (shape R.keeps R.kept state.new) }
    ensures around { Keeps result state.old.calls state.new.calls }
{
    let mut units = spelling_units(state, program, left)?;
    let behind = spelling_units(state, program, right)?;
    units.extend_from_slice(behind.as_slice())?;
    make_text(state, site, units, uses)
}

/// Whether the second is a text too, of the units of the first.
pub fn are_same<R: Register>(
    state: &State<'_, R>,
    program: &Program,
    left: Value,
    right: Value,
) -> Result<bool, AllocError>
    ensures { (w : World nothing) → w.program ≡ program_of program.now
        → Meets (program_of program.now) itself result
        (shape R.keeps R.kept state.now) (sameness w left right) (shape R.keeps R.kept state.now) }
{
    let first = state.units_of(program, left)?;
    let second = state.units_of(program, right)?;
    Ok(is_text(right) && same(first, second))
}

/// `equals` of a text.
pub fn text_equals<R: Register>(
    state: &State<'_, R>,
    program: &Program,
    left: Part<'_>,
    right: Part<'_>,
) -> Result<bool, Halt>
    ensures { (w : World nothing) → w.program ≡ program_of program.now
        → StepGives (program_of program.now) (equality left.entry right.entry) result
        (shape R.keeps R.kept state.now) (text_equals w (carried left.entry) (carried right.entry))
        (shape R.keeps R.kept state.now) }
{
    Ok(are_same(state, program, left.value, right.value)?)
}
