//! `op=`, `++` and `--` on numbers and booleans, once the old value and the right side are there (JLS 15.14.2, 15.15.1, 15.26.2).

ghost use Rattle.std.specs.Prelude.{◌≡◌, IfSome};
ghost use Rattle.wy_kernel.specs.Program.{Program};
ghost use Rattle.wy_meaning.specs.World.{World};
ghost use Rattle.wy_meaning.specs.Place.{operated, primitive_of, promoted};
ghost use Rattle.wy_operation.specs.Around.{Keeps};
ghost use Rattle.wy_operation.specs.Operated.{DoneAs, right_operand};
ghost use Rattle.wy_operation.specs.Updated.{Places, updated};
ghost use Rattle.wy_state.specs.Agrees.{shape, StepGives};
ghost use Rattle.wy_state.specs.Seen.{valued};
ghost use Rattle.wy_steps.specs.Sets.{nothing};

use crate::exception::{ARITHMETIC, fail};
use crate::operator::{Operated, binary_of, convert_to, is_shift};
use crate::place::assign;
use wy_event::record::{Slot, Use};
use wy_kernel::operator::{BinOp, Primitive};
use wy_kernel::types::{Base, Ty};
use wy_state::parts::Halt;
use wy_state::register::Register;
use wy_state::state::State;
use wy_value::Value;

/// A compound assignment: its operator, the type in which that is done, the type of the place, and its site.
#[derive(Clone, Copy)]
pub struct Compound {
    pub op: BinOp,
    pub wide: Primitive,
    pub ty: Ty,
    pub site: u32,
}

/// Sets a slot to what the operation gives of its old value and the right side, and gives that with the number of the Set.
/// The operands are the uses of these two, and the uses those of the place's parts before them.
pub fn update<R: Register>(
    state: &mut State<'_, R>,
    slot: Slot,
    form: Compound,
    old: Value,
    right: Value,
    operands: &[Use],
    uses: &[Use],
) -> Result<(Value, u32), Halt>
    ensures step { (p : Program) (w : World nothing)
        (o : Places slot old right operands.now uses.now)
        → w.program ≡ p → StepGives p (λ r. valued r.1 r.0) result (shape R.keeps R.kept state.old)
        (updated w form.op form.ty form.wide form.site o.spot o.old o.value)
        (shape R.keeps R.kept state.new) }
    ensures around { Keeps result state.old.calls state.new.calls }
{
    let value = match operated(form.op, form.wide, old, right) {
        Operated::Value(value) => value,
        Operated::ByZero => return Err(fail(state, ARITHMETIC, form.site, operands)),
        Operated::Unfit => return Err(Halt::Memory),
    };
    let Some(value) = primitive_of(form.ty, value) else {
        return Err(Halt::Memory);
    };
    let event = assign(state, slot, value, uses, form.site)?;
    Ok((value, event))
}

/// The operation in the type in which it is done; a shift promotes its distance by itself.
#[tactic(auto, unfolding(wy_meaning::specs::Place::operated))]
fn operated(op: BinOp, wide: Primitive, left: Value, right: Value) -> Operated
    ensures { DoneAs result (operated op wide left right) }
{
    let Some(left) = convert_to(wide, left) else {
        return Operated::Unfit;
    };
    let Some(right) = right_operand(op, wide, right) else {
        return Operated::Unfit;
    };
    binary_of(op, left, right)
}

fn right_operand(op: BinOp, wide: Primitive, right: Value) -> Option<Value>
    ensures { IfSome result (λ v. v ≡ right_operand op wide right) }
{
    if is_shift(op) {
        return promoted(right);
    }
    convert_to(wide, right)
}

/// Unary promotion (JLS 5.6.1).
#[tactic(auto, unfolding(wy_meaning::specs::Place::promoted))]
fn promoted(value: Value) -> Option<Value>
    ensures { IfSome result (λ v. v ≡ promoted value) }
{
    match value {
        Value::Long(n) => Some(Value::Long(n)),
        _ => convert_to(Primitive::Int, value),
    }
}

#[tactic(auto, unfolding(wy_meaning::specs::Place::primitive_of))]
fn primitive_of(ty: Ty, value: Value) -> Option<Value>
    ensures { IfSome result (λ v. v ≡ primitive_of ty value) }
{
    match ty {
        Ty::Of {
            base: Base::Primitive(to),
            brackets: 0,
        } => convert_to(to, value),
        _ => Some(value),
    }
}
