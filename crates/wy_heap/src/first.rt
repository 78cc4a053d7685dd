//! The values that fields and elements have first (JLS 4.12.5).

ghost use Rattle.std.specs.Prelude.{◌≡◌};
ghost use Rattle.wy_kernel.specs.Program.{element_type, type_of_code};
ghost use Rattle.wy_steps.specs.Steps.{default_primitive, default_value};

use wy_kernel::code::{BRACKETS_UNIT, base_of};
use wy_kernel::operator::Primitive;
use wy_kernel::types::{Base, Ty};
use wy_value::Value;

#[tactic(auto, unfolding(wy_steps::specs::Steps::default_primitive))]
fn first_of_primitive(primitive: Primitive) -> Value
    ensures { result ≡ default_primitive primitive }
{
    match primitive {
        Primitive::Bool => Value::Bool(false),
        Primitive::Byte => Value::Byte(0),
        Primitive::Short => Value::Short(0),
        Primitive::Char => Value::Char(0),
        Primitive::Int => Value::Int(0),
        Primitive::Long => Value::Long(0),
    }
}

#[tactic(auto, unfolding(wy_steps::specs::Steps::default_value))]
fn first_of_base(base: Base) -> Value
    ensures { result ≡ default_value (Ty.Of base 0) }
{
    match base {
        Base::Primitive(primitive) => first_of_primitive(primitive),
        Base::Class(_) => Value::Null,
    }
}

#[tactic(auto, using(crate::proofs::Firsts::longer), unfolding(wy_steps::specs::Steps::default_value))]
pub fn first_of_type(ty: &Ty) -> Value
    ensures { result ≡ default_value ty.now }
{
    match *ty {
        Ty::Of { base, brackets: 0 } => first_of_base(base),
        Ty::Of { .. } => Value::Null,
        Ty::Void => Value::Null,
        Ty::Null => Value::Null,
    }
}

/// The first value of the elements of an array, by the code of its type.
pub fn first_of_element(code: u32) -> Value
    ensures { result ≡ default_value (element_type (type_of_code code)) }
{
    if code / BRACKETS_UNIT <= 1 {
        first_of_base(base_of(code % BRACKETS_UNIT))
    } else {
        Value::Null
    }
}
