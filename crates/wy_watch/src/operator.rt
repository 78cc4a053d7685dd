//! Operators on values as expressions have them, before promotion (JLS 5.6, 15.15 to 15.22).

ghost use Rattle.std.specs.Prelude.{◌≡◌};
ghost use Rattle.wy_constant.specs.Constant.{beside, binary_value, operated, promoted, unary_value};
ghost use Rattle.wy_value.specs.Conversion.{converted};
ghost use Rattle.wy_value.specs.Operator.{fits_binary, fits_unary, is_equality, is_logical, is_reference, is_shift};

use wy_kernel::operator::{BinOp, Primitive, UnOp};
use wy_value::{Value, binary, convert, unary};

pub(crate) fn promote(v: Value) -> Value
    ensures { result ≡ promoted v }
{
    match v {
        Value::Byte(n) => Value::Int(i32::from(n)),
        Value::Short(n) => Value::Int(i32::from(n)),
        Value::Char(unit) => Value::Int(i32::from(unit)),
        _ => v,
    }
}

/// A value beside the other operand.
fn promote_beside(other: Value, v: Value) -> Value
    ensures { result ≡ beside other v }
{
    match other {
        Value::Long(_) => widen(v),
        _ => promote(v),
    }
}

fn widen(v: Value) -> Value
    ensures { result ≡ converted Primitive.Long v }
{
    match v {
        Value::Byte(_) | Value::Short(_) | Value::Char(_) | Value::Int(_) | Value::Long(_) => {
            convert(Primitive::Long, v)
        }
        _ => v,
    }
}

/// The value of `op v`, if the operand fits.
pub(crate) fn apply(op: UnOp, v: Value) -> Option<Value>
    ensures { result ≡ unary_value op v }
{
    if does_fit(op, v) {
        Some(unary(op, v))
    } else {
        None
    }
}

fn does_fit(op: UnOp, v: Value) -> bool
    ensures { result ≡ fits_unary op v }
{
    match (op, v) {
        (UnOp::Not, Value::Bool(_)) => true,
        (UnOp::Not, _) => false,
        (_, Value::Int(_)) => true,
        (_, Value::Long(_)) => true,
        (_, _) => false,
    }
}

/// The value of `a op b` for operands before promotion, if they fit and no divisor is zero.
pub(crate) fn operate(op: BinOp, a: Value, b: Value) -> Option<Value>
    ensures { result ≡ operated op a b }
{
    if shifts(op) {
        combine(op, promote(a), promote(b))
    } else {
        combine(op, promote_beside(b, a), promote_beside(a, b))
    }
}

fn combine(op: BinOp, a: Value, b: Value) -> Option<Value>
    ensures { result ≡ binary_value op a b }
{
    if do_fit(op, a, b) {
        binary(op, a, b).ok()
    } else {
        None
    }
}

fn do_fit(op: BinOp, a: Value, b: Value) -> bool
    ensures { result ≡ fits_binary op a b }
{
    match (a, b) {
        (Value::Int(_), Value::Int(_)) => true,
        (Value::Long(_), Value::Long(_)) => true,
        (Value::Int(_), Value::Long(_)) => shifts(op),
        (Value::Long(_), Value::Int(_)) => shifts(op),
        (Value::Bool(_), Value::Bool(_)) => is_for_booleans(op),
        _ => compares(op) && refers(a) && refers(b),
    }
}

fn shifts(op: BinOp) -> bool
    ensures { result ≡ is_shift op }
{
    match op {
        BinOp::Shl | BinOp::Shr | BinOp::Ushr => true,
        _ => false,
    }
}

fn compares(op: BinOp) -> bool
    ensures { result ≡ is_equality op }
{
    match op {
        BinOp::Eq | BinOp::Ne => true,
        _ => false,
    }
}

fn is_for_booleans(op: BinOp) -> bool
    ensures { result ≡ is_logical op }
{
    match op {
        BinOp::And | BinOp::Or | BinOp::Xor | BinOp::Eq | BinOp::Ne => true,
        _ => false,
    }
}

fn refers(v: Value) -> bool
    ensures { result ≡ is_reference v }
{
    match v {
        Value::Null | Value::Object(_) | Value::Text(_) | Value::Fixed(_) => true,
        _ => false,
    }
}
