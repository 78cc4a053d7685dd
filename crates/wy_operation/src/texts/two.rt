//! Operations of the library of two arguments.

ghost use Rattle.wy_kernel.specs.Parts.{program_of};
ghost use Rattle.wy_operation.specs.Gives.{GivesOfTwo};
ghost use Rattle.wy_operation.specs.Around.{Keeps};
ghost use Rattle.wy_state.specs.Agrees.{shape};

use crate::exception::{NULL_POINTER, STRING_INDEX, fail};
use crate::texts::found::Found;
use crate::texts::number::{greater, lesser};
use crate::texts::text::{are_same, is_text};
use crate::texts::three::{find_part, part_or_fail};
use wy_event::record::Use;
use wy_kernel::form::LibOp;
use wy_kernel::program::Program;
use wy_state::parts::Halt;
use wy_state::register::Register;
use wy_state::state::State;
use wy_value::{Value, compare, unit_at};

/// What an operation gives of its two arguments.
pub fn library_two<R: Register>(
    state: &mut State<'_, R>,
    program: &Program,
    op: LibOp,
    left: Value,
    right: Value,
    uses: &[Use],
    site: u32,
) -> Result<Found, Halt>
    ensures step { GivesOfTwo (program_of program.now) op site left right uses.now result
        (shape R.keeps R.kept state.old) (shape R.keeps R.kept state.new) }
    ensures around { Keeps result state.old.calls state.new.calls }
{
    match op {
        LibOp::CharAt => char_at(state, program, left, right, uses, site),
        LibOp::PartFrom => part_from(state, program, left, right, uses, site),
        LibOp::Same => same_text(state, program, left, right, uses, site),
        LibOp::Compare => compare_texts(state, program, left, right, uses, site),
        LibOp::Max => Ok(Found::Same(greater(left, right))),
        LibOp::Min => Ok(Found::Same(lesser(left, right))),
        _ => Err(Halt::Memory),
    }
}

fn char_at<R: Register>(
    state: &mut State<'_, R>,
    program: &Program,
    text: Value,
    index: Value,
    uses: &[Use],
    site: u32,
) -> Result<Found, Halt>
    ensures step { GivesOfTwo (program_of program.now) LibOp.CharAt site text index uses.now result
        (shape R.keeps R.kept state.old) (shape R.keeps R.kept state.new) }
    ensures around { Keeps result state.old.calls state.new.calls }
{
    if !is_text(text) {
        return Err(fail(state, NULL_POINTER, site, uses));
    }
    let Value::Int(place) = index else {
        return Err(Halt::Memory);
    };
    match unit_at(state.units_of(program, text)?, place) {
        Ok(unit) => Ok(Found::Same(Value::Char(unit))),
        Err(_) => Err(fail(state, STRING_INDEX, site, uses)),
    }
}

fn part_from<R: Register>(
    state: &mut State<'_, R>,
    program: &Program,
    text: Value,
    from: Value,
    uses: &[Use],
    site: u32,
) -> Result<Found, Halt>
    ensures step { GivesOfTwo (program_of program.now) LibOp.PartFrom site text from uses.now result
        (shape R.keeps R.kept state.old) (shape R.keeps R.kept state.new) }
    ensures around { Keeps result state.old.calls state.new.calls }
{
    if !is_text(text) {
        return Err(fail(state, NULL_POINTER, site, uses));
    }
    let Value::Int(begin) = from else {
        return Err(Halt::Memory);
    };
    let units = state.units_of(program, text)?;
    let Ok(end) = i32::try_from(units.len()) else {
        return Err(Halt::Memory);
    };
    let found = find_part(state.alloc, units, begin, end)?;
    part_or_fail(state, found, uses, site)
}

fn same_text<R: Register>(
    state: &mut State<'_, R>,
    program: &Program,
    left: Value,
    right: Value,
    uses: &[Use],
    site: u32,
) -> Result<Found, Halt>
    ensures step { GivesOfTwo (program_of program.now) LibOp.Same site left right uses.now result
        (shape R.keeps R.kept state.old) (shape R.keeps R.kept state.new) }
    ensures around { Keeps result state.old.calls state.new.calls }
{
    if !is_text(left) {
        return Err(fail(state, NULL_POINTER, site, uses));
    }
    let is_same = are_same(state, program, left, right)?;
    Ok(Found::Same(Value::Bool(is_same)))
}

fn compare_texts<R: Register>(
    state: &mut State<'_, R>,
    program: &Program,
    left: Value,
    right: Value,
    uses: &[Use],
    site: u32,
) -> Result<Found, Halt>
    ensures step { GivesOfTwo (program_of program.now) LibOp.Compare site left right uses.now result
        (shape R.keeps R.kept state.old) (shape R.keeps R.kept state.new) }
    ensures around { Keeps result state.old.calls state.new.calls }
{
    if !is_text(left) {
        return Err(fail(state, NULL_POINTER, site, uses));
    }
    if !is_text(right) {
        return Err(fail(state, NULL_POINTER, site, uses));
    }
    let first = state.units_of(program, left)?;
    let second = state.units_of(program, right)?;
    Ok(Found::Same(Value::Int(compare(first, second))))
}
