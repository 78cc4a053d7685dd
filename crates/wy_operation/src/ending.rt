//! What ends a statement or a body: jumps, returns, throws, and the end of a body itself (JLS 14.15 to 14.18).

ghost use Rattle.std.specs.Prelude.{◌≡◌, Err};
ghost use Rattle.wy_kernel.specs.Program.{Program};
ghost use Rattle.wy_meaning.specs.World.{World};
ghost use Rattle.wy_meaning.specs.Call.{end_body};
ghost use Rattle.wy_meaning.specs.Statement.{jump, return_form, throw_form};
ghost use Rattle.wy_operation.specs.Around.{Keeps, KeepsAt, Leaves};
ghost use Rattle.wy_state.specs.Agrees.{shape, StepGives};
ghost use Rattle.wy_state.specs.Seen.{given, valued};
ghost use Rattle.wy_steps.specs.Sets.{nothing};
ghost use Rattle.wy_steps.specs.State.{return};

use crate::exception::{NULL_POINTER, fail, throwing};
use crate::operand::is_null;
use wy_event::record::{Kind, Use};
use wy_state::parts::{Draft, Halt, Limit, Reason};
use wy_state::register::Register;
use wy_state::state::State;
use wy_value::Value;

pub fn jump<R: Register>(state: &mut State<'_, R>, site: u32, target: u32) -> Halt
    ensures step { (p : Program) → Leaves p result (shape R.keeps R.kept state.old)
        (jump site target) (shape R.keeps R.kept state.new) }
    ensures around { KeepsAt result state.old.calls state.new.calls }
{
    match state.note(Draft::plain(Kind::Jump, site, Value::None), &[]) {
        Ok(event) => Halt::Left(Reason::Jumped { target, event }),
        Err(why) => why,
    }
}

/// The Return comes before `finally` blocks run.
pub fn return_value<R: Register>(
    state: &mut State<'_, R>,
    site: u32,
    value: Value,
    uses: &[Use],
) -> Halt
    ensures step { (p : Program) → Leaves p result (shape R.keeps R.kept state.old)
        (return_form site (return (given value uses.now))) (shape R.keeps R.kept state.new) }
    ensures around { KeepsAt result state.old.calls state.new.calls }
{
    match state.note(Draft::plain(Kind::Return, site, value), uses) {
        Ok(event) => Halt::Left(Reason::Returned { event, value }),
        Err(why) => why,
    }
}

/// A throw of null is a NullPointerException.
pub fn throw_value<R: Register>(
    state: &mut State<'_, R>,
    site: u32,
    value: Value,
    uses: &[Use],
) -> Halt
    ensures step { (p : Program) (w : World nothing) → w.program ≡ p
        → Leaves p result (shape R.keeps R.kept state.old)
        (throw_form w site (return (given value uses.now))) (shape R.keeps R.kept state.new) }
    ensures around { KeepsAt result state.old.calls state.new.calls }
{
    if is_null(value) {
        return fail(state, NULL_POINTER, site, uses);
    }
    throwing(state, site, value, uses)
}

/// Records the Return at the end of a body, and gives its number; a method with a result has none there.
pub fn end_body<R: Register>(
    state: &mut State<'_, R>,
    returns_none: bool,
    site: u32,
) -> Result<u32, Halt>
    ensures step { (p : Program) → StepGives p (λ e. valued e Value.None) result
        (shape R.keeps R.kept state.old) (end_body returns_none site)
        (shape R.keeps R.kept state.new) }
    ensures around { Keeps result state.old.calls state.new.calls }
{
    if !returns_none {
        return Err(Halt::Stopped(Limit::FellOff));
    }
    state.note(Draft::plain(Kind::Return, site, Value::None), &[])
}
