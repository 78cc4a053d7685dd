//! The values that fields and elements have first (JLS 4.12.5).

ghost use Rattle.std.specs.Prelude.{◌≡◌};
ghost use Rattle.wy_steps.specs.Steps.{default_primitive, default_value};

use wy_kernel::operator::Primitive;
use wy_kernel::types::{Base, Ty};
use wy_value::Value;

#[tactic(auto, unfolding(wy_steps::specs::Steps::default_primitive))]
fn default_primitive(primitive: Primitive) -> Value
    ensures { result ≡ default_primitive primitive }
{
    match primitive {
        Primitive::Bool => Value::Bool(false),
        Primitive::Byte => Value::Byte(0),
        Primitive::Short => Value::Short(0),
        Primitive::Char => Value::Char(0),
        Primitive::Int => Value::Int(0),
        Primitive::Long => Value::Long(0),
    }
}

/// The value that a field or an element of a type has first.
#[tactic(auto, unfolding(wy_steps::specs::Steps::default_value))]
pub(crate) fn default_value(ty: Ty) -> Value
    ensures { result ≡ default_value ty }
{
    match ty {
        Ty::Of {
            base: Base::Primitive(primitive),
            brackets: 0,
        } => default_primitive(primitive),
        _ => Value::Null,
    }
}
