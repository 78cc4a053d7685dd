//! Constants that variables are given first: whether they may be assigned, and the value that the variable then has (JLS 4.12.4, 5.2).
//! Values that are no constants aren't assigned here.

ghost use Rattle.std.specs.Prelude.{◌≡◌, option_map};
ghost use Rattle.wy_kernel.specs.Table.{constant_value, Text};
ghost use Rattle.wy_constant.specs.Constant.{assigned_value, constant_fits, constant_variable, primitive_of, simple, text_in, value_of, widens_from};
ghost use Rattle.wy_constant.specs.Widening.{widens_to};

use crate::arithmetic::cast;
use crate::fold::{cast_text, constant_of_value, has_int, type_of};
use crate::simple::value_of;
use wy_kernel::builtin::STRING;
use wy_kernel::form::Const;
use wy_kernel::operator::Primitive;
use wy_kernel::types::{Base, Ty};
use wy_value::Value;

/// Whether a primitive type is another, or widens to it.
#[tactic(auto, unfolding(crate::specs::Widening::widens_to))]
pub fn widens(a: Primitive, b: Primitive) -> bool
    ensures { result ≡ widens_to a b }
{
    match (a, b) {
        (Primitive::Bool, Primitive::Bool) => true,
        (Primitive::Byte, Primitive::Byte) => true,
        (Primitive::Byte, Primitive::Short) => true,
        (Primitive::Byte, Primitive::Int) => true,
        (Primitive::Byte, Primitive::Long) => true,
        (Primitive::Short, Primitive::Short) => true,
        (Primitive::Short, Primitive::Int) => true,
        (Primitive::Short, Primitive::Long) => true,
        (Primitive::Char, Primitive::Char) => true,
        (Primitive::Char, Primitive::Int) => true,
        (Primitive::Char, Primitive::Long) => true,
        (Primitive::Int, Primitive::Int) => true,
        (Primitive::Int, Primitive::Long) => true,
        (Primitive::Long, Primitive::Long) => true,
        _ => false,
    }
}

fn widens_to_type(v: Value, to: Primitive) -> bool
    ensures { result ≡ widens_from (primitive_of v) to }
{
    match type_of(v) {
        Some(from) => widens(from, to),
        None => false,
    }
}

/// Whether byte, short or char has a value that is no long.
pub fn does_constant_fit(to: Primitive, v: Value) -> bool
    ensures { result ≡ constant_fits to v }
{
    match v {
        Value::Byte(n) => has_int(to, i32::from(n)),
        Value::Short(n) => has_int(to, i32::from(n)),
        Value::Char(unit) => has_int(to, i32::from(unit)),
        Value::Int(n) => has_int(to, n),
        _ => false,
    }
}

fn assign(to: Primitive, v: Value) -> Option<Value>
    ensures { result ≡ assigned_value to v }
{
    if widens_to_type(v, to) || does_constant_fit(to, v) {
        cast(to, v)
    } else {
        None
    }
}

/// The value of a constant variable of this type whose initializer has this value, and None where such a variable is no constant one.
#[tactic(auto, unfolding(crate::specs::Constant::constant_variable))]
pub fn constant_variable(ty: &Ty, value: Const) -> Option<Const>
    ensures { option_map constant_value result ≡ constant_variable ty.now (constant_value value) }
{
    match *ty {
        Ty::Of { base, brackets: 0 } => constant_of_base(base, value),
        _ => None,
    }
}

#[tactic(auto, unfolding(crate::specs::Constant::constant_variable))]
fn constant_of_base(base: Base, value: Const) -> Option<Const>
    ensures { option_map constant_value result ≡ constant_variable (Ty.Of base 0)
        (constant_value value) }
{
    match base {
        Base::Primitive(to) => constant_of_primitive(to, &value),
        Base::Class(STRING) => cast_text(value),
        Base::Class(_) => None,
    }
}

#[tactic(auto, unfolding(crate::specs::Constant::constant_variable))]
fn constant_of_primitive(to: Primitive, value: &Const) -> Option<Const>
    ensures { option_map constant_value result ≡ constant_variable (Ty.Of (Base.Primitive to) 0)
        (constant_value value.now) }
{
    match value_of(value) {
        Some(v) => constant_of_value(assign(to, v)),
        None => None,
    }
}
