//! Conversions between primitive types (JLS 5.1.2 to 5.1.4). No conversion of references, and no boxing.
ghost use Rattle.std.specs.Prelude.{◌≡◌, ◌≢◌, IsTrue};
ghost use Rattle.wy_value.specs.Conversion.{value_in, can_convert, converted};

use crate::value::Value;
use crate::word::int;
use wy_kernel::operator::Primitive;

/// The value of `(to) v`.
pub fn convert(to: Primitive, v: Value) -> Value
    requires { IsTrue (can_convert to v) }
    ensures { result ≡ converted to v }
{
    match v {
        Value::Byte(n) => in_type(to, i64::from(n)),
        Value::Short(n) => in_type(to, i64::from(n)),
        Value::Char(n) => in_type(to, i64::from(n)),
        Value::Int(n) => in_type(to, i64::from(n)),
        Value::Long(n) => in_type(to, n),
        Value::Bool(_) => v,
        _ => unreachable!(),
    }
}

/// The value of a numeric type that has the lowest bits of `n`.
fn in_type(to: Primitive, n: i64) -> Value
    requires { to ≢ Primitive.Bool }
    ensures { result ≡ value_in to n }
{
    match to {
        Primitive::Byte => Value::Byte(((n & 0xff) as u8).cast_signed()),
        Primitive::Short => Value::Short(((n & 0xffff) as u16).cast_signed()),
        Primitive::Char => Value::Char((n & 0xffff) as u16),
        Primitive::Int => Value::Int(int::from_low_bits(n)),
        Primitive::Long => Value::Long(n),
        Primitive::Bool => unreachable!(),
    }
}
