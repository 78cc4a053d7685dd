//! Kinds of types, and their promotion (JLS 4.2, 4.3, 5.6).

ghost use Rattle.std.specs.Prelude.{◌≡◌};
ghost use Rattle.wy_elab_expr.specs.Operators.{both_numbers, is_boolean, is_nullable, is_text_type, is_void, number_type, primitive_in, promoted_type, wide};

use wy_kernel::operator::Primitive;
use wy_kernel::types::{Base, Ty};

/// The primitive type that a type is.
pub fn primitive_in(ty: Ty) -> Option<Primitive>
    ensures { result ≡ primitive_in ty }
{
    match ty {
        Ty::Of {
            base: Base::Primitive(p),
            brackets: 0,
        } => Some(p),
        _ => None,
    }
}

/// Whether a type is that of no value.
pub fn is_void(ty: Ty) -> bool
    ensures { result ≡ is_void ty }
{
    match ty {
        Ty::Void => true,
        _ => false,
    }
}

/// Whether a type is a reference, or that of null.
pub fn is_nullable(ty: Ty) -> bool
    ensures { result ≡ is_nullable ty }
{
    match ty {
        Ty::Void => false,
        Ty::Null => true,
        Ty::Of {
            base: Base::Class(_),
            brackets: _,
        } => true,
        Ty::Of {
            base: Base::Primitive(_),
            brackets,
        } => brackets != 0,
    }
}

/// Whether a type is boolean.
pub fn is_boolean(ty: Ty) -> bool
    ensures { result ≡ is_boolean ty }
{
    match ty {
        Ty::Of {
            base: Base::Primitive(Primitive::Bool),
            brackets: 0,
        } => true,
        _ => false,
    }
}

/// Whether a type is String.
pub fn is_text(ty: Ty) -> bool
    ensures { result ≡ is_text_type ty }
{
    match ty {
        Ty::Of {
            base: Base::Class(1),
            brackets: 0,
        } => true,
        _ => false,
    }
}

fn promoted(p: Primitive) -> Option<Primitive>
    ensures { result ≡ promoted_type p }
{
    match p {
        Primitive::Bool => None,
        Primitive::Long => Some(Primitive::Long),
        _ => Some(Primitive::Int),
    }
}

/// The type that a number is promoted to.
pub fn number_type(ty: Ty) -> Option<Primitive>
    ensures { result ≡ number_type ty }
{
    match primitive_in(ty) {
        Some(p) => promoted(p),
        None => None,
    }
}

fn wide(p: Option<Primitive>, q: Option<Primitive>) -> Option<Primitive>
    ensures { result ≡ wide p q }
{
    match (p, q) {
        (Some(Primitive::Long), Some(_)) => Some(Primitive::Long),
        (Some(_), Some(Primitive::Long)) => Some(Primitive::Long),
        (Some(_), Some(_)) => Some(Primitive::Int),
        (_, _) => None,
    }
}

/// The type that two numbers are promoted to.
pub fn both_numbers(a: Ty, b: Ty) -> Option<Primitive>
    ensures { result ≡ both_numbers a b }
{
    wide(number_type(a), number_type(b))
}
