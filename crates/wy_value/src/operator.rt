//! The operators on values (JLS 15.15, 15.17 to 15.22), operands after promotion. Which operands fit is the caller's to see.
ghost use Rattle.std.specs.Prelude.{◌≡◌, ◌↔◌, IsTrue, IsErr};
ghost use Rattle.std.specs.Result.{result_ok};
ghost use Rattle.std.specs.Int.{w32, w64};
ghost use Rattle.wy_value.specs.Operator.{unary_of, fits_unary, binary_of, fits_binary, DividesByZero, on_numbers, comparison, is_comparison, logic, is_logical, same_reference};

use crate::value::{ByZero, Value};
use crate::word::{int, long};
use wy_kernel::operator::{BinOp, UnOp};

/// The value of `op v`.
pub fn unary(op: UnOp, v: Value) -> Value
    requires { IsTrue (fits_unary op v) }
    ensures { result ≡ unary_of op v }
{
    match v {
        Value::Int(x) => Value::Int(int::signed(op, x)),
        Value::Long(x) => Value::Long(long::signed(op, x)),
        Value::Bool(p) => Value::Bool(!p),
        _ => unreachable!(),
    }
}

/// The value of `a op b`.
pub fn binary(op: BinOp, a: Value, b: Value) -> Result<Value, ByZero>
    requires { IsTrue (fits_binary op a b) }
    ensures value { result_ok result ≡ binary_of op a b }
    ensures by_zero { IsErr result ↔ DividesByZero op b }
{
    match (a, b) {
        (Value::Int(x), Value::Int(y)) => on_ints(op, x, y),
        (Value::Long(x), Value::Long(y)) => on_longs(op, x, y),
        (Value::Int(x), Value::Long(y)) => Ok(Value::Int(int::shifted(op, x, y))),
        (Value::Long(x), Value::Int(y)) => Ok(Value::Long(long::shifted(op, x, i64::from(y)))),
        (Value::Bool(p), Value::Bool(q)) => Ok(Value::Bool(combined(op, p, q))),
        _ => Ok(Value::Bool(combined(op, true, is_same_reference(a, b)))),
    }
}

fn on_ints(op: BinOp, x: i32, y: i32) -> Result<Value, ByZero>
    ensures { result_ok result ≡ on_numbers w32 (λ z. Value.Int z) op x y }
{
    match op {
        BinOp::Lt | BinOp::Gt | BinOp::Le | BinOp::Ge | BinOp::Eq | BinOp::Ne => {
            Ok(Value::Bool(compared(op, i64::from(x), i64::from(y))))
        }
        BinOp::Shl | BinOp::Shr | BinOp::Ushr => Ok(Value::Int(int::shifted(op, x, i64::from(y)))),
        BinOp::Div | BinOp::Rem if y == 0 => Err(ByZero),
        _ => Ok(Value::Int(int::arithmetic(op, x, y))),
    }
}

fn on_longs(op: BinOp, x: i64, y: i64) -> Result<Value, ByZero>
    ensures { result_ok result ≡ on_numbers w64 (λ z. Value.Long z) op x y }
{
    match op {
        BinOp::Lt | BinOp::Gt | BinOp::Le | BinOp::Ge | BinOp::Eq | BinOp::Ne => {
            Ok(Value::Bool(compared(op, x, y)))
        }
        BinOp::Shl | BinOp::Shr | BinOp::Ushr => Ok(Value::Long(long::shifted(op, x, y))),
        BinOp::Div | BinOp::Rem if y == 0 => Err(ByZero),
        _ => Ok(Value::Long(long::arithmetic(op, x, y))),
    }
}

/// `< > <= >= == !=` on numbers, which are those of long where they are ints.
fn compared(op: BinOp, x: i64, y: i64) -> bool
    requires { IsTrue (is_comparison op) }
    ensures { result ≡ comparison op x y }
{
    match op {
        BinOp::Lt => x < y,
        BinOp::Gt => x > y,
        BinOp::Le => x <= y,
        BinOp::Ge => x >= y,
        BinOp::Eq => x == y,
        BinOp::Ne => x != y,
        _ => unreachable!(),
    }
}

/// `& | ^ == !=` on booleans.
fn combined(op: BinOp, p: bool, q: bool) -> bool
    requires { IsTrue (is_logical op) }
    ensures { result ≡ logic op p q }
{
    match op {
        BinOp::And => p & q,
        BinOp::Or => p | q,
        BinOp::Xor => p ^ q,
        BinOp::Eq => p == q,
        BinOp::Ne => p != q,
        _ => unreachable!(),
    }
}

fn is_same_reference(a: Value, b: Value) -> bool
    ensures { result ≡ same_reference a b }
{
    match (a, b) {
        (Value::Null, Value::Null) => true,
        (Value::Object(m), Value::Object(n)) => m == n,
        (Value::Text(m), Value::Text(n)) => m == n,
        (Value::Fixed(m), Value::Fixed(n)) => m == n,
        _ => false,
    }
}
