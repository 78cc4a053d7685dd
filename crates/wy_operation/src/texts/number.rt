//! What `Math` does with numbers.

ghost use Rattle.std.specs.Int.{w32, w64};
ghost use Rattle.std.specs.Prelude.{◌≡◌};
ghost use Rattle.wy_meaning.specs.Library.{absolute, greater, int_in, lesser};
ghost use Rattle.wy_operation.specs.Words.{absolute_in};

use wy_value::Value;

/// The number of an int or a long, and 0 for others.
#[tactic(auto, unfolding(wy_meaning::specs::Library::int_in))]
pub fn int_in(value: Value) -> i64
    ensures { result ≡ int_in value }
{
    match value {
        Value::Int(n) => i64::from(n),
        Value::Long(n) => n,
        _ => 0,
    }
}

#[tactic(auto, unfolding(wy_meaning::specs::Library::absolute))]
pub fn absolute(value: Value) -> Value
    ensures { result ≡ absolute value }
{
    match value {
        Value::Int(n) => Value::Int(absolute_int(n)),
        Value::Long(n) => Value::Long(absolute_long(n)),
        other => other,
    }
}

fn absolute_int(n: i32) -> i32
    ensures { result ≡ absolute_in w32 n }
{
    if n < 0 { n.wrapping_neg() } else { n }
}

fn absolute_long(n: i64) -> i64
    ensures { result ≡ absolute_in w64 n }
{
    if n < 0 { n.wrapping_neg() } else { n }
}

#[tactic(auto, unfolding(wy_meaning::specs::Library::greater))]
pub fn greater(left: Value, right: Value) -> Value
    ensures { result ≡ greater left right }
{
    if int_in(left) < int_in(right) {
        right
    } else {
        left
    }
}

#[tactic(auto, unfolding(wy_meaning::specs::Library::lesser))]
pub fn lesser(left: Value, right: Value) -> Value
    ensures { result ≡ lesser left right }
{
    if int_in(right) < int_in(left) {
        right
    } else {
        left
    }
}
