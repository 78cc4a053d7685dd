//! The operators on numbers of type long: two's complement of 64 bits (JLS 15.15, 15.17 to 15.22).
ghost use Rattle.std.specs.Prelude.{◌≡◌, ◌≢◌, IsTrue, false, pos};
ghost use Rattle.std.specs.Ordering.{int_eq};
ghost use Rattle.std.specs.Int.{w64};
ghost use Rattle.wy_value.specs.Operator.{arithmetic, is_shift, is_comparison, is_division, signed};

use wy_kernel::operator::{BinOp, UnOp};

/// `+ - * / % & | ^`.
pub fn arithmetic(op: BinOp, x: i64, y: i64) -> i64
    requires no_comparison { is_comparison op ≡ false }
    requires no_shift { is_shift op ≡ false }
    requires divisor { IsTrue (is_division op) → int_eq y (pos 0) ≡ false }
    ensures { result ≡ arithmetic w64 op x y }
{
    match op {
        BinOp::Add => x.wrapping_add(y),
        BinOp::Sub => x.wrapping_sub(y),
        BinOp::Mul => x.wrapping_mul(y),
        BinOp::Div => x.wrapping_div(y),
        BinOp::Rem => x.wrapping_rem(y),
        BinOp::And => x & y,
        BinOp::Or => x | y,
        BinOp::Xor => x ^ y,
        _ => unreachable!(),
    }
}

/// `<< >> >>>`, with a distance of either type.
pub fn shifted(op: BinOp, x: i64, by: i64) -> i64
    requires { IsTrue (is_shift op) }
    ensures { result ≡ arithmetic w64 op x by }
{
    let distance = (by & 63) as u32;
    match op {
        BinOp::Shl => x << distance,
        BinOp::Shr => x >> distance,
        BinOp::Ushr => (x.cast_unsigned() >> distance).cast_signed(),
        _ => unreachable!(),
    }
}

/// `+ - ~`.
pub fn signed(op: UnOp, x: i64) -> i64
    requires { op ≢ UnOp.Not }
    ensures { result ≡ signed w64 op x }
{
    match op {
        UnOp::Plus => x,
        UnOp::Minus => x.wrapping_neg(),
        UnOp::Flip => !x,
        UnOp::Not => unreachable!(),
    }
}
