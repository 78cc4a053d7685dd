//! Operands, and what their values are.

ghost use Rattle.std.specs.Prelude.{◌≡◌};
ghost use Rattle.wy_meaning.specs.World.{is_null, is_true, natural_of};
ghost use Rattle.wy_meaning.specs.Array.{is_negative};
ghost use Rattle.wy_value.specs.Operator.{is_reference};

use wy_event::record::Use;
use wy_value::Value;

/// A value with what it was made of.
#[derive(Clone, Copy)]
pub struct Part<'b> {
    pub value: Value,
    pub uses: &'b [Use],
}

#[tactic(auto, unfolding(wy_meaning::specs::World::is_true))]
pub fn is_true(value: Value) -> bool
    ensures { result ≡ is_true value }
{
    match value {
        Value::Bool(b) => b,
        _ => false,
    }
}

#[tactic(auto, unfolding(wy_meaning::specs::World::is_null))]
pub fn is_null(value: Value) -> bool
    ensures { result ≡ is_null value }
{
    match value {
        Value::Null => true,
        _ => false,
    }
}

pub fn is_reference(value: Value) -> bool
    ensures { result ≡ is_reference value }
{
    match value {
        Value::Null | Value::Object(_) | Value::Text(_) | Value::Fixed(_) => true,
        _ => false,
    }
}

/// The number that an int is where it is none below 0.
#[tactic(auto, unfolding(wy_meaning::specs::World::natural_of))]
pub fn natural_of(value: Value) -> u32
    ensures { result ≡ natural_of value }
{
    match value {
        Value::Int(n) => u32::try_from(n).unwrap_or(0),
        _ => 0,
    }
}

#[tactic(auto, unfolding(wy_meaning::specs::Array::is_negative))]
pub fn is_negative(value: Value) -> bool
    ensures { result ≡ is_negative value }
{
    match value {
        Value::Int(n) => n < 0,
        _ => false,
    }
}
