//! The operators on numbers of type int: two's complement of 32 bits (JLS 15.15, 15.17 to 15.22).
ghost use Rattle.std.specs.Prelude.{◌≡◌, ◌≢◌, IsTrue, false, pos};
ghost use Rattle.std.specs.Ordering.{int_eq};
ghost use Rattle.std.specs.Int.{w32};
ghost use Rattle.wy_value.specs.Number.{wrapped};
ghost use Rattle.wy_value.specs.Operator.{arithmetic, is_shift, is_comparison, is_division, signed};

use wy_kernel::operator::{BinOp, UnOp};

/// `+ - * / % & | ^`.
pub fn arithmetic(op: BinOp, x: i32, y: i32) -> i32
    requires no_comparison { is_comparison op ≡ false }
    requires no_shift { is_shift op ≡ false }
    requires divisor { IsTrue (is_division op) → int_eq y (pos 0) ≡ false }
    ensures { result ≡ arithmetic w32 op x y }
{
    match op {
        BinOp::Add => x.wrapping_add(y),
        BinOp::Sub => x.wrapping_sub(y),
        BinOp::Mul => x.wrapping_mul(y),
        BinOp::Div => x.wrapping_div(y),
        BinOp::Rem => x.wrapping_rem(y),
        BinOp::And => x & y,
        BinOp::Or => x | y,
        BinOp::Xor => x ^ y,
        _ => unreachable!(),
    }
}

/// `<< >> >>>`, with a distance of either type.
pub fn shifted(op: BinOp, x: i32, by: i64) -> i32
    requires { IsTrue (is_shift op) }
    ensures { result ≡ arithmetic w32 op x by }
{
    let distance = (by & 31) as u32;
    match op {
        BinOp::Shl => x << distance,
        BinOp::Shr => x >> distance,
        BinOp::Ushr => (x.cast_unsigned() >> distance).cast_signed(),
        _ => unreachable!(),
    }
}

/// `+ - ~`.
pub fn signed(op: UnOp, x: i32) -> i32
    requires { op ≢ UnOp.Not }
    ensures { result ≡ signed w32 op x }
{
    match op {
        UnOp::Plus => x,
        UnOp::Minus => x.wrapping_neg(),
        UnOp::Flip => !x,
        UnOp::Not => unreachable!(),
    }
}

/// The int that has the lowest 32 bits of `n`.
pub fn from_low_bits(n: i64) -> i32
    ensures { result ≡ wrapped w32 n }
{
    ((n & 0xffff_ffff) as u32).cast_signed()
}
