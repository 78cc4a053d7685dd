//! Operations of the library of three arguments, and parts of texts.

ghost use Rattle.std.specs.Prelude.{◌≡◌, IfOk, option_map};
ghost use Rattle.wy_kernel.specs.Parts.{program_of};
ghost use Rattle.wy_meaning.specs.Library.{part_or_fail};
ghost use Rattle.wy_meaning.specs.World.{World};
ghost use Rattle.wy_operation.specs.Gives.{GivesOfThree};
ghost use Rattle.wy_operation.specs.Around.{Keeps};
ghost use Rattle.wy_state.specs.Agrees.{shape, StepGives};
ghost use Rattle.wy_state.specs.Seen.{given};
ghost use Rattle.wy_steps.specs.Sets.{nothing};
ghost use Rattle.wy_operation.specs.Found.{found_of};
ghost use Rattle.wy_kernel.specs.Program as kernel;
ghost use Rattle.wy_value.specs.Text.{part_of};

use crate::exception::{NULL_POINTER, STRING_INDEX, fail};
use crate::texts::found::Found;
use crate::texts::text::{is_text, made_text};
use std::alloc::{AllocError, Global};
use wy_event::record::Use;
use wy_kernel::form::LibOp;
use wy_kernel::program::Program;
use wy_state::parts::Halt;
use wy_state::register::Register;
use wy_state::state::State;
use wy_value::{PartError, Value, part};

/// What an operation gives of its three arguments.
pub fn library_three<R: Register>(
    state: &mut State<'_, R>,
    program: &Program,
    op: LibOp,
    text: Value,
    from: Value,
    to: Value,
    uses: &[Use],
    site: u32,
) -> Result<Found, Halt>
    ensures step { GivesOfThree (program_of program.now) op site text from to uses.now result
        (shape R.keeps R.kept state.old) (shape R.keeps R.kept state.new) }
    ensures around { Keeps result state.old.calls state.new.calls }
{
    match op {
        LibOp::Part => part_between(state, program, text, from, to, uses, site),
        _ => Err(Halt::Memory),
    }
}

fn part_between<R: Register>(
    state: &mut State<'_, R>,
    program: &Program,
    text: Value,
    from: Value,
    to: Value,
    uses: &[Use],
    site: u32,
) -> Result<Found, Halt>
    ensures step { GivesOfThree (program_of program.now) LibOp.Part site text from to uses.now result
        (shape R.keeps R.kept state.old) (shape R.keeps R.kept state.new) }
    ensures around { Keeps result state.old.calls state.new.calls }
{
    if !is_text(text) {
        return Err(fail(state, NULL_POINTER, site, uses));
    }
    let Value::Int(begin) = from else {
        return Err(Halt::Memory);
    };
    let Value::Int(end) = to else {
        return Err(Halt::Memory);
    };
    let found = find_part(state.alloc, state.units_of(program, text)?, begin, end)?;
    part_or_fail(state, found, uses, site)
}

/// The part of a text between two indices, if it has both.
pub fn find_part(
    alloc: Global,
    units: &[u16],
    from: i32,
    to: i32,
) -> Result<Option<Vec<u16>>, AllocError>
    ensures { IfOk result (λ found. option_map (λ v. v.items) found ≡ part_of units.now from to) }
{
    match part(alloc, units, from, to) {
        Ok(found) => Ok(Some(found)),
        Err(PartError::BadIndex) => Ok(None),
        Err(_) => Err(AllocError),
    }
}

/// The text of a part that was found.
pub fn part_or_fail<R: Register>(
    state: &mut State<'_, R>,
    found: Option<Vec<u16>>,
    uses: &[Use],
    site: u32,
) -> Result<Found, Halt>
    ensures step { (p : kernel.Program) (w : World nothing) → w.program ≡ p
        → StepGives p (found_of uses.now) result (shape R.keeps R.kept state.old)
        (part_or_fail w site (given Value.None uses.now) (option_map (λ v. v.items) found))
        (shape R.keeps R.kept state.new) }
    ensures around { Keeps result state.old.calls state.new.calls }
{
    match found {
        Some(units) => made_text(state, site, units, uses),
        None => Err(fail(state, STRING_INDEX, site, uses)),
    }
}
