//! Modifiers and types as a declaration writes them (JLS 4.3, 8.1.1, 8.3.1, 8.4.3).

ghost use Rattle.std.specs.Prelude.{◌≡◌, ◌+◌, IfOk, map};
ghost use Rattle.wy_syntax.specs.View.{base_seen, outcome_of, parameter_of, placed_of, type_seen};
ghost use Rattle.wy_members.specs.Declarations.{base_type, has, result_type, type_with, types_of};
ghost use Rattle.wy_members.specs.Names.{unit_of};

use crate::names::Names;
use std::alloc::{AllocError, Global};
use wy_kernel::types::{Base, Ty};
use wy_syntax::declaration::{Modifier, Outcome, Parameter, Placed};
use wy_syntax::name::{WrittenBase, WrittenType};

/// Whether a modifier is among these.
pub fn has(modifier: Modifier, modifiers: &[Placed]) -> bool
    ensures { result ≡ has modifier (map placed_of modifiers.now) }
{
    let mut left = modifiers;
    while let [first, behind @ ..] = left {
        if modifier == first.modifier {
            return true;
        }
        left = behind;
    }
    false
}

fn base_type(names: &Names, base: &WrittenBase) -> Base
    ensures { result ≡ base_type (unit_of names.now) (base_seen base.now) }
{
    match base {
        WrittenBase::Primitive(primitive) => Base::Primitive(*primitive),
        WrittenBase::Class(name) => Base::Class(names.class_or_object(name.as_str())),
    }
}

fn pairs(own: u32, more: u32) -> Result<u8, AllocError>
    ensures { IfOk result (λ n. n ≡ own + more) }
{
    if own <= 255 && more <= 255 - own {
        Ok((own + more) as u8)
    } else {
        Err(AllocError)
    }
}

/// A written type with so many pairs of brackets more. A program within the limits has no type of more than 255 pairs.
pub fn type_with(names: &Names, ty: &WrittenType, more: u32) -> Result<Ty, AllocError>
    ensures { IfOk result (λ t. t ≡ type_with (unit_of names.now) (type_seen ty.now) more) }
{
    Ok(Ty::Of {
        base: base_type(names, &ty.base),
        brackets: pairs(ty.brackets, more)?,
    })
}

/// The type of what a method gives.
pub fn result_type(names: &Names, outcome: &Outcome) -> Result<Ty, AllocError>
    ensures { IfOk result (λ t. t ≡ result_type (unit_of names.now) (outcome_of outcome.now)) }
{
    match outcome {
        Outcome::Nothing => Ok(Ty::Void),
        Outcome::Value(ty) => type_with(names, ty, 0),
    }
}

/// The types of parameters.
pub fn parameter_types(
    alloc: Global,
    names: &Names,
    params: &[Parameter],
) -> Result<Vec<Ty>, AllocError>
    ensures { IfOk result (λ types.
        types.items ≡ types_of (unit_of names.now) (map parameter_of params.now)) }
{
    let mut types = Vec::new(alloc);
    let mut left = params;
    while let [first, behind @ ..] = left {
        types.push(type_with(names, &first.ty, first.brackets)?)?;
        left = behind;
    }
    Ok(types)
}
