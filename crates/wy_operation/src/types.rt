//! Casts and `instanceof` (JLS 15.16, 15.20.2).

ghost use Rattle.std.specs.Prelude.{◌≡◌, List};
ghost use Rattle.wy_event.specs.declared.record.Use.{Use};
ghost use Rattle.wy_kernel.specs.Parts.{program_of};
ghost use Rattle.wy_meaning.specs.World.{World};
ghost use Rattle.wy_meaning.specs.Expression.{cast, instance_of};
ghost use Rattle.wy_operation.specs.Around.{Keeps};
ghost use Rattle.wy_state.specs.Agrees.{shape, StepGives, Meets};
ghost use Rattle.wy_state.specs.Seen.{given};
ghost use Rattle.wy_steps.specs.Sets.{nothing};
ghost use Rattle.wy_steps.specs.State.{return};

use crate::exception::{CLASS_CAST, fail};
use crate::operand::is_null;
use std::alloc::AllocError;
use wy_event::record::Use;
use wy_kernel::program::Program;
use wy_kernel::types::Ty;
use wy_state::below::is_below;
use wy_state::parts::Halt;
use wy_state::register::Register;
use wy_state::state::State;
use wy_value::Value;

/// Null may be cast to each reference type, and an object to what its class is below.
pub fn cast<R: Register>(
    state: &mut State<'_, R>,
    program: &Program,
    ty: Ty,
    value: Value,
    uses: &[Use],
    site: u32,
) -> Result<(), Halt>
    ensures step { (w : World nothing) → w.program ≡ program_of program.now
        → StepGives (program_of program.now) (λ u. given value uses.now) result
        (shape R.keeps R.kept state.old) (cast w ty (return (given value uses.now)) site)
        (shape R.keeps R.kept state.new) }
    ensures around { Keeps result state.old.calls state.new.calls }
{
    let found = state.type_of(value)?;
    if is_null(value) {
        return Ok(());
    }
    if is_below(state.alloc, program, found, ty)? {
        return Ok(());
    }
    Err(fail(state, CLASS_CAST, site, uses))
}

/// Null is an instance of nothing.
pub fn instance_of<R: Register>(
    state: &State<'_, R>,
    program: &Program,
    ty: Ty,
    value: Value,
) -> Result<bool, AllocError>
    ensures { (w : World nothing) (us : List Use) → w.program ≡ program_of program.now
        → Meets (program_of program.now) (λ b. given (Value.Bool b) us) result
        (shape R.keeps R.kept state.now) (instance_of w ty (return (given value us)))
        (shape R.keeps R.kept state.now) }
{
    let found = state.type_of(value)?;
    if is_null(value) {
        return Ok(false);
    }
    let below = is_below(state.alloc, program, found, ty)?;
    Ok(below)
}
