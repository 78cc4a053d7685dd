//! Tests: those of statements, which are active until a statement ends, and those of `?:`, `&&` and `||`, until their scope does.

ghost use Rattle.std.specs.Prelude.{◌≡◌};
ghost use Rattle.wy_event.specs.declared.record.Kind.TheVariants as kind;
ghost use Rattle.wy_kernel.specs.Program.{Program};
ghost use Rattle.wy_meaning.specs.Statement.{armed, tested};
ghost use Rattle.wy_meaning.specs.World.{arm_of_truth, is_true, plain};
ghost use Rattle.wy_operation.specs.Around.{Keeps};
ghost use Rattle.wy_state.specs.Agrees.{shape, StepGives, itself};
ghost use Rattle.wy_state.specs.Seen.{given, made_of};
ghost use Rattle.wy_steps.specs.State.{Around, return};
ghost use Rattle.wy_steps.specs.Steps.{activating, note};

use crate::operand::is_true;
use wy_event::record::{Kind, Use};
use wy_state::parts::{Draft, Halt};
use wy_state::register::Register;
use wy_state::state::State;
use wy_value::Value;

/// The arm of a test that has two.
#[tactic(auto, unfolding(wy_meaning::specs::World::arm_of_truth))]
fn arm_of_truth(holds: bool) -> u32
    ensures { result ≡ arm_of_truth holds }
{
    match holds {
        true => 1,
        false => 0,
    }
}

/// Records the Test of a statement with the arm that it takes, which is active until the statement that it reaches through ends.
pub fn armed<R: Register>(
    state: &mut State<'_, R>,
    site: u32,
    reach: u32,
    arm: u32,
    uses: &[Use],
) -> Result<(), Halt>
    ensures step { (p : Program) (v : Value) → StepGives p itself result
        (shape R.keeps R.kept state.old) (armed site reach arm (given v uses.now))
        (shape R.keeps R.kept state.new) }
    ensures around { Keeps result state.old.calls state.new.calls }
{
    let event = state.note(Draft::plain(Kind::Test, site, Value::Arm(arm)), uses)?;
    state.activate_through(event, reach)?;
    Ok(())
}

/// Records the Test of a statement's condition.
pub fn test<R: Register>(
    state: &mut State<'_, R>,
    site: u32,
    reach: u32,
    value: Value,
    uses: &[Use],
) -> Result<bool, Halt>
    ensures step { (p : Program) → StepGives p itself result (shape R.keeps R.kept state.old)
        (tested site reach (return (given value uses.now))) (shape R.keeps R.kept state.new) }
    ensures around { Keeps result state.old.calls state.new.calls }
{
    let holds = is_true(value);
    armed(state, site, reach, arm_of_truth(holds), uses)?;
    Ok(holds)
}

/// Records the Test of an expression, which is active until the scope that is open is closed.
pub fn test_around<R: Register>(
    state: &mut State<'_, R>,
    site: u32,
    value: Value,
    uses: &[Use],
) -> Result<u32, Halt>
    ensures step { (p : Program) → StepGives p made_of result (shape R.keeps R.kept state.old)
        (activating Around
        (note (plain kind.Test site (Value.Arm (arm_of_truth (is_true value))))
        (given value uses.now))) (shape R.keeps R.kept state.new) }
    ensures around { Keeps result state.old.calls state.new.calls }
{
    let arm = Value::Arm(arm_of_truth(is_true(value)));
    let event = state.note(Draft::plain(Kind::Test, site, arm), uses)?;
    state.activate(event)?;
    Ok(event)
}
