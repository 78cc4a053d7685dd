//! Types as numbers: the code of a type, the type of a code, and what follows from a type (JLS 4.10.3, 10.1).

ghost use Rattle.std.specs.Prelude.{◌≡◌, ◌<◌, ◌≤◌, ◌^◌, IfSome, None};
ghost use Rattle.wy_kernel.specs.Program.{base_code, base_of, class_of_type, element_type, is_array, primitive_code, primitive_name, type_code, type_of_code};

use crate::builtin::OBJECT;
use crate::operator::Primitive;
use crate::types::{Base, Ty};

/// A pair of brackets counts this much in the code of a type.
pub const BRACKETS_UNIT: u32 = 16_777_216;

/// So many codes are those of primitive types.
pub const PRIMITIVES: u32 = 6;

/// The code of the first class. That of another is its number more.
pub const FIRST_CLASS_CODE: u32 = 16;

/// The keyword of a primitive type (JLS 4.2).
#[tactic(auto, unfolding(crate::specs::Program::primitive_name))]
pub fn primitive_name(primitive: Primitive) -> &'static str
    ensures { result.now ≡ primitive_name primitive }
{
    match primitive {
        Primitive::Bool => "boolean",
        Primitive::Byte => "byte",
        Primitive::Short => "short",
        Primitive::Char => "char",
        Primitive::Int => "int",
        Primitive::Long => "long",
    }
}

#[tactic(auto, unfolding(crate::specs::Program::primitive_code))]
pub fn primitive_code(primitive: Primitive) -> u32
    ensures code { result ≡ primitive_code primitive }
    ensures small { result < 6 }
{
    match primitive {
        Primitive::Bool => 0,
        Primitive::Byte => 1,
        Primitive::Short => 2,
        Primitive::Char => 3,
        Primitive::Int => 4,
        Primitive::Long => 5,
    }
}

#[tactic(auto, unfolding(crate::specs::Program::base_code))]
fn base_code(base: Base) -> u64
    ensures code { result ≡ base_code base }
    ensures small { result < 8589934592 }
{
    match base {
        Base::Primitive(primitive) => u64::from(primitive_code(primitive)),
        Base::Class(class) => u64::from(FIRST_CLASS_CODE) + u64::from(class),
    }
}

#[tactic(auto, unfolding(crate::specs::Program::type_code))]
pub fn type_code(ty: Ty) -> u64
    ensures { result ≡ type_code ty }
{
    match ty {
        Ty::Void => 0,
        Ty::Null => 0,
        Ty::Of { base, brackets } => {
            u64::from(BRACKETS_UNIT) * u64::from(brackets) + base_code(base)
        }
    }
}

/// The code of a type, where 32 bits hold it.
pub fn short_code(ty: Ty) -> Option<u32>
    ensures code { IfSome result (λ code. code ≡ type_code ty) }
    ensures none { result ≡ None → 2 ^ 32 ≤ type_code ty }
{
    match u32::try_from(type_code(ty)) {
        Ok(code) => Some(code),
        Err(_) => None,
    }
}

/// What stands before the brackets, by its code.
#[tactic(auto, unfolding(crate::specs::Program::base_of))]
pub fn base_of(code: u32) -> Base
    ensures { result ≡ base_of code }
{
    match code {
        0 => Base::Primitive(Primitive::Bool),
        1 => Base::Primitive(Primitive::Byte),
        2 => Base::Primitive(Primitive::Short),
        3 => Base::Primitive(Primitive::Char),
        4 => Base::Primitive(Primitive::Int),
        5 => Base::Primitive(Primitive::Long),
        _ => Base::Class(code.saturating_sub(FIRST_CLASS_CODE)),
    }
}

/// The type that a code is of.
#[tactic(auto, unfolding(crate::specs::Program::type_of_code))]
pub fn type_of_code(code: u32) -> Ty
    ensures { result ≡ type_of_code code }
{
    Ty::Of {
        base: base_of(code % BRACKETS_UNIT),
        brackets: (code / BRACKETS_UNIT) as u8,
    }
}

/// Whether a code is that of an array.
#[tactic(auto, unfolding(crate::specs::Program::type_of_code, crate::specs::Program::is_array))]
pub fn is_array(code: u32) -> bool
    ensures { result ≡ is_array (type_of_code code) }
{
    code / BRACKETS_UNIT != 0
}

/// The class of an object, and Object for an array, by the code of its type.
#[tactic(auto, unfolding(crate::specs::Program::type_of_code, crate::specs::Program::class_of_type, crate::specs::Program::base_of))]
pub fn class_of_code(code: u32) -> u32
    ensures class { result ≡ class_of_type (type_of_code code) }
    ensures small { result < 16777216 }
{
    if code / BRACKETS_UNIT != 0 || code % BRACKETS_UNIT < PRIMITIVES {
        OBJECT
    } else {
        (code % BRACKETS_UNIT).saturating_sub(FIRST_CLASS_CODE)
    }
}

/// The class of an object, and Object for an array.
#[tactic(auto, unfolding(crate::specs::Program::class_of_type))]
pub fn class_of_type(ty: Ty) -> u32
    ensures { result ≡ class_of_type ty }
{
    match ty {
        Ty::Of {
            base: Base::Class(class),
            brackets: 0,
        } => class,
        _ => OBJECT,
    }
}

/// The type of an array's elements.
#[tactic(auto, unfolding(crate::specs::Program::element_type))]
pub fn element_type(ty: Ty) -> Ty
    ensures { result ≡ element_type ty }
{
    match ty {
        Ty::Of { base, brackets } => Ty::Of {
            base,
            brackets: brackets.saturating_sub(1),
        },
        other => other,
    }
}
