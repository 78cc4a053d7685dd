//! Operators and conversions on values that are there (JLS 5.1, 15.15 to 15.22).

ghost use Rattle.std.specs.Prelude.{◌≡◌, ◌&&◌, false, MatchOption};
ghost use Rattle.wy_kernel.specs.Program.{Program};
ghost use Rattle.wy_meaning.specs.World.{World};
ghost use Rattle.wy_meaning.specs.Place.{divided};
ghost use Rattle.wy_operation.specs.Around.{Keeps};
ghost use Rattle.wy_operation.specs.Operands.{Pair};
ghost use Rattle.wy_state.specs.Agrees.{shape, StepGives};
ghost use Rattle.wy_state.specs.Seen.{given};
ghost use Rattle.wy_steps.specs.Sets.{nothing};
ghost use Rattle.wy_steps.specs.Steps.{joined};
ghost use Rattle.wy_value.specs.Conversion.{can_convert, converted};
ghost use Rattle.wy_value.specs.Operator.{binary_of, fits_binary, fits_unary, is_equality, is_logical, is_shift, unary_of};
ghost use Rattle.wy_operation.specs.Operated.{OperatesAs};

use crate::exception::{ARITHMETIC, fail};
use crate::operand::is_reference;
use wy_event::record::Use;
use wy_kernel::operator::{BinOp, Primitive, UnOp};
use wy_state::parts::Halt;
use wy_state::register::Register;
use wy_state::state::State;
use wy_value::Value;

/// What an operator gives: a value, none where the divisor is zero, or nothing where the operands don't fit it.
pub enum Operated {
    Value(Value),
    ByZero,
    Unfit,
}

/// The value of a binary operator on two operands; a zero divisor is an exception.
pub fn binary<R: Register>(
    state: &mut State<'_, R>,
    op: BinOp,
    left: Value,
    right: Value,
    uses: &[Use],
    site: u32,
) -> Result<Value, Halt>
    ensures step { (p : Program) (w : World nothing) (o : Pair left right uses.now) → w.program ≡ p
        → StepGives p (λ v. given v uses.now) result (shape R.keeps R.kept state.old)
        (divided w site (joined Value.None o.first o.second) (binary_of op left right))
        (shape R.keeps R.kept state.new) }
    ensures around { Keeps result state.old.calls state.new.calls }
{
    match binary_of(op, left, right) {
        Operated::Value(value) => Ok(value),
        Operated::ByZero => Err(fail(state, ARITHMETIC, site, uses)),
        Operated::Unfit => Err(Halt::Memory),
    }
}

pub fn binary_of(op: BinOp, left: Value, right: Value) -> Operated
    ensures { OperatesAs result (fits_binary op left right) (binary_of op left right) }
{
    if !fits_binary(op, left, right) {
        return Operated::Unfit;
    }
    match wy_value::binary(op, left, right) {
        Ok(value) => Operated::Value(value),
        Err(_) => Operated::ByZero,
    }
}

fn fits_binary(op: BinOp, left: Value, right: Value) -> bool
    ensures { result ≡ fits_binary op left right }
{
    match (left, right) {
        (Value::Int(_), Value::Int(_)) => true,
        (Value::Long(_), Value::Long(_)) => true,
        (Value::Int(_), Value::Long(_)) => is_shift(op),
        (Value::Long(_), Value::Int(_)) => is_shift(op),
        (Value::Bool(_), Value::Bool(_)) => is_logical(op),
        _ => is_equality(op) && is_reference(left) && is_reference(right),
    }
}

pub fn is_shift(op: BinOp) -> bool
    ensures { result ≡ is_shift op }
{
    match op {
        BinOp::Shl | BinOp::Shr | BinOp::Ushr => true,
        _ => false,
    }
}

fn is_equality(op: BinOp) -> bool
    ensures { result ≡ is_equality op }
{
    match op {
        BinOp::Eq | BinOp::Ne => true,
        _ => false,
    }
}

fn is_logical(op: BinOp) -> bool
    ensures { result ≡ is_logical op }
{
    match op {
        BinOp::And | BinOp::Or | BinOp::Xor => true,
        _ => is_equality(op),
    }
}

/// The value of a unary operator, where the operand fits it.
pub fn unary_of(op: UnOp, value: Value) -> Option<Value>
    ensures { MatchOption result (fits_unary op value ≡ false) (λ v. v ≡ unary_of op value) }
{
    if !fits_unary(op, value) {
        return None;
    }
    Some(wy_value::unary(op, value))
}

fn fits_unary(op: UnOp, value: Value) -> bool
    ensures { result ≡ fits_unary op value }
{
    match (op, value) {
        (UnOp::Not, Value::Bool(_)) => true,
        (UnOp::Not, _) => false,
        (_, Value::Int(_)) => true,
        (_, Value::Long(_)) => true,
        _ => false,
    }
}

/// The value in a primitive type, where it can be converted to that.
pub fn convert_to(to: Primitive, value: Value) -> Option<Value>
    ensures { MatchOption result (can_convert to value ≡ false) (λ v. v ≡ converted to value) }
{
    if !can_convert(to, value) {
        return None;
    }
    Some(wy_value::convert(to, value))
}

fn can_convert(to: Primitive, value: Value) -> bool
    ensures { result ≡ can_convert to value }
{
    match (to, value) {
        (Primitive::Bool, Value::Bool(_)) => true,
        (Primitive::Bool, _) => false,
        (_, Value::Byte(_)) => true,
        (_, Value::Short(_)) => true,
        (_, Value::Char(_)) => true,
        (_, Value::Int(_)) => true,
        (_, Value::Long(_)) => true,
        _ => false,
    }
}
