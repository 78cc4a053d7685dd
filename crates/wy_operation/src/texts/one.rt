//! Operations of the library of one argument.

ghost use Rattle.std.specs.Prelude.{◌≡◌, List};
ghost use Rattle.wy_event.specs.declared.record.Use.{Use};
ghost use Rattle.wy_kernel.specs.Parts.{program_of};
ghost use Rattle.wy_meaning.specs.Library.{library_one, number_of_object};
ghost use Rattle.wy_kernel.specs.Program as kernel;
ghost use Rattle.wy_meaning.specs.Text.{make_text};
ghost use Rattle.wy_meaning.specs.World.{World};
ghost use Rattle.wy_value.specs.Numeral.{text_of};
ghost use Rattle.wy_operation.specs.Gives.{GivesOfOne};
ghost use Rattle.wy_operation.specs.Around.{Keeps};
ghost use Rattle.wy_state.specs.Agrees.{shape, StepGives};
ghost use Rattle.wy_state.specs.Seen.{given};
ghost use Rattle.wy_steps.specs.Sets.{nothing};
ghost use Rattle.wy_operation.specs.Found.{found_of};

use crate::exception::{NULL_POINTER, NUMBER_FORMAT, fail};
use crate::texts::found::Found;
use crate::texts::number::absolute;
use crate::texts::text::{is_text, made_text, plain_text};
use wy_event::record::Use;
use wy_kernel::form::LibOp;
use wy_kernel::program::Program;
use wy_state::name::{object_text, type_text};
use wy_state::parts::Halt;
use wy_state::register::Register;
use wy_state::state::State;
use wy_value::{Value, parse_int};

/// What an operation gives of its argument.
pub fn library_one<R: Register>(
    state: &mut State<'_, R>,
    program: &Program,
    op: LibOp,
    value: Value,
    uses: &[Use],
    site: u32,
) -> Result<Found, Halt>
    ensures step { GivesOfOne (program_of program.now) op site value uses.now result
        (shape R.keeps R.kept state.old) (shape R.keeps R.kept state.new) }
    ensures around { Keeps result state.old.calls state.new.calls }
{
    match op {
        LibOp::ArrayLength => array_length(state, value, uses, site),
        LibOp::Abs => Ok(Found::Same(absolute(value))),
        LibOp::ValueOf => value_text(state, value, uses, site),
        LibOp::IntText => value_text(state, value, uses, site),
        LibOp::ClassText => class_text(state, program, value, uses, site),
        LibOp::ObjectText => text_of_object(state, program, value, uses, site),
        _ => of_text(state, program, op, value, uses, site),
    }
}

fn array_length<R: Register>(
    state: &mut State<'_, R>,
    array: Value,
    uses: &[Use],
    site: u32,
) -> Result<Found, Halt>
    ensures step { (p : kernel.Program) (w : World nothing) (own : List Use) → w.program ≡ p
        → StepGives p (found_of uses.now) result (shape R.keeps R.kept state.old)
        (library_one w LibOp.ArrayLength site (given Value.None uses.now) (given array own))
        (shape R.keeps R.kept state.new) }
    ensures around { Keeps result state.old.calls state.new.calls }
{
    let Value::Object(number) = array else {
        return Err(fail(state, NULL_POINTER, site, uses));
    };
    let length = state.length_of(number)?;
    let Ok(length) = i32::try_from(length) else {
        return Err(Halt::Memory);
    };
    Ok(Found::Same(Value::Int(length)))
}

/// What an operation gives of its argument, where it is a text.
fn of_text<R: Register>(
    state: &mut State<'_, R>,
    program: &Program,
    op: LibOp,
    text: Value,
    uses: &[Use],
    site: u32,
) -> Result<Found, Halt>
    ensures step { GivesOfOne (program_of program.now) op site text uses.now result
        (shape R.keeps R.kept state.old) (shape R.keeps R.kept state.new) }
    ensures around { Keeps result state.old.calls state.new.calls }
{
    match op {
        LibOp::Length => text_length(state, program, text, uses, site),
        LibOp::IsEmpty => is_empty(state, program, text, uses, site),
        LibOp::Itself => itself(state, program, text, uses, site),
        LibOp::ParseInt => parse(state, program, text, uses, site),
        _ => Err(Halt::Memory),
    }
}

fn text_length<R: Register>(
    state: &mut State<'_, R>,
    program: &Program,
    text: Value,
    uses: &[Use],
    site: u32,
) -> Result<Found, Halt>
    ensures step { GivesOfOne (program_of program.now) LibOp.Length site text uses.now result
        (shape R.keeps R.kept state.old) (shape R.keeps R.kept state.new) }
    ensures around { Keeps result state.old.calls state.new.calls }
{
    if !is_text(text) {
        return Err(fail(state, NULL_POINTER, site, uses));
    }
    let Ok(length) = i32::try_from(state.units_of(program, text)?.len()) else {
        return Err(Halt::Memory);
    };
    Ok(Found::Same(Value::Int(length)))
}

fn is_empty<R: Register>(
    state: &mut State<'_, R>,
    program: &Program,
    text: Value,
    uses: &[Use],
    site: u32,
) -> Result<Found, Halt>
    ensures step { GivesOfOne (program_of program.now) LibOp.IsEmpty site text uses.now result
        (shape R.keeps R.kept state.old) (shape R.keeps R.kept state.new) }
    ensures around { Keeps result state.old.calls state.new.calls }
{
    if !is_text(text) {
        return Err(fail(state, NULL_POINTER, site, uses));
    }
    let is_empty = state.units_of(program, text)?.is_empty();
    Ok(Found::Same(Value::Bool(is_empty)))
}

fn itself<R: Register>(
    state: &mut State<'_, R>,
    program: &Program,
    text: Value,
    uses: &[Use],
    site: u32,
) -> Result<Found, Halt>
    ensures step { GivesOfOne (program_of program.now) LibOp.Itself site text uses.now result
        (shape R.keeps R.kept state.old) (shape R.keeps R.kept state.new) }
    ensures around { Keeps result state.old.calls state.new.calls }
{
    if !is_text(text) {
        return Err(fail(state, NULL_POINTER, site, uses));
    }
    state.units_of(program, text)?;
    Ok(Found::Same(text))
}

/// The number that a text spells; null spells none.
fn parse<R: Register>(
    state: &mut State<'_, R>,
    program: &Program,
    text: Value,
    uses: &[Use],
    site: u32,
) -> Result<Found, Halt>
    ensures step { GivesOfOne (program_of program.now) LibOp.ParseInt site text uses.now result
        (shape R.keeps R.kept state.old) (shape R.keeps R.kept state.new) }
    ensures around { Keeps result state.old.calls state.new.calls }
{
    if !is_text(text) {
        return Err(fail(state, NUMBER_FORMAT, site, uses));
    }
    match parse_int(state.units_of(program, text)?) {
        Ok(number) => Ok(Found::Same(Value::Int(number))),
        Err(_) => Err(fail(state, NUMBER_FORMAT, site, uses)),
    }
}

/// The text of a primitive value.
fn value_text<R: Register>(
    state: &mut State<'_, R>,
    value: Value,
    uses: &[Use],
    site: u32,
) -> Result<Found, Halt>
    ensures step { (p : kernel.Program) (us : List Use) → StepGives p (found_of us) result
        (shape R.keeps R.kept state.old)
        (make_text site (text_of value) (given Value.None uses.now))
        (shape R.keeps R.kept state.new) }
    ensures around { Keeps result state.old.calls state.new.calls }
{
    let units = plain_text(state.alloc, value)?;
    made_text(state, site, units, uses)
}

/// The name of an object's type.
fn class_text<R: Register>(
    state: &mut State<'_, R>,
    program: &Program,
    object: Value,
    uses: &[Use],
    site: u32,
) -> Result<Found, Halt>
    ensures step { GivesOfOne (program_of program.now) LibOp.ClassText site object uses.now result
        (shape R.keeps R.kept state.old) (shape R.keeps R.kept state.new) }
    ensures around { Keeps result state.old.calls state.new.calls }
{
    let ty = state.type_of(object)?;
    let units = type_text(state.alloc, program, ty)?;
    made_text(state, site, units, uses)
}

/// The name of an object's type, and the object's number behind it.
fn text_of_object<R: Register>(
    state: &mut State<'_, R>,
    program: &Program,
    object: Value,
    uses: &[Use],
    site: u32,
) -> Result<Found, Halt>
    ensures step { GivesOfOne (program_of program.now) LibOp.ObjectText site object uses.now result
        (shape R.keeps R.kept state.old) (shape R.keeps R.kept state.new) }
    ensures around { Keeps result state.old.calls state.new.calls }
{
    let ty = state.type_of(object)?;
    let units = object_text(state.alloc, program, ty, number_of_object(object))?;
    made_text(state, site, units, uses)
}

#[tactic(auto, unfolding(wy_meaning::specs::Library::number_of_object))]
fn number_of_object(value: Value) -> u32
    ensures { result ≡ number_of_object value }
{
    match value {
        Value::Object(number) => number,
        _ => 0,
    }
}
