//! Names before a dot: those of classes, and the streams of System; and written types (JLS 4.3, 6.5).

ghost use Rattle.std.specs.Prelude.{◌≡◌, IfOk, option_map};
ghost use Rattle.wy_table.specs.ClassTable.{table_of};
ghost use Rattle.wy_syntax.specs.View.{base_seen, expression_of, type_seen};
ghost use Rattle.wy_constant.specs.Fields.{class_named};
ghost use Rattle.wy_elab_expr.specs.Elaboration.{class_for_new, class_in, is_place, is_system, named_type, names_class, stream_in, stream_named, type_with, type_written, with_brackets};
ghost use Rattle.wy_elab_expr.specs.Views.{GivesAlways, class_name_of, stream_of, written_name};

use crate::fields::is_library_name;
use crate::printing::Stream;
use crate::refusal::refused;
use std::alloc::AllocError;
use wy_constant::{Rule, Scope, TypeError, class_by_name, may_be_class};
use wy_kernel::types::{Base, Ty};
use wy_syntax::expression::Expression;
use wy_syntax::name::{WrittenBase, WrittenType};
use wy_table::table::ClassTable;

/// A class that a name denotes, with the name's token.
#[derive(Clone, Copy)]
pub struct ClassName<'a> {
    pub name: &'a str,
    pub token: u32,
}

fn names_class(table: &ClassTable, scope: &Scope, name: &str) -> bool
    ensures { result ≡ names_class (table_of table.now) scope.now name.now }
{
    may_be_class(table, scope, name)
        && (class_by_name(table, name).is_some() || is_library_name(name))
}

#[tactic(auto, using(wy_syntax::proofs::ExpressionViews::view_name))]
fn written_name(e: &Expression) -> Option<ClassName<'_>>
    ensures { option_map class_name_of result ≡ written_name (expression_of e.now) }
{
    match e {
        Expression::Name { name, token } => Some(ClassName {
            name: name.as_str(),
            token: *token,
        }),
        _ => None,
    }
}

/// The class that an expression names.
#[tactic(auto, using(crate::proofs::Layers::class_by_written_name))]
pub fn class_in<'a>(table: &ClassTable, scope: &Scope, e: &'a Expression) -> Option<ClassName<'a>>
    ensures { option_map class_name_of result ≡ class_in (table_of table.now) scope.now
        (expression_of e.now) }
{
    match written_name(e) {
        Some(class) => {
            if names_class(table, scope, class.name) {
                Some(class)
            } else {
                None
            }
        }
        None => None,
    }
}

fn stream_named(name: &str) -> Option<Stream>
    ensures { option_map stream_of result ≡ stream_named name.now }
{
    if name == "in" {
        Some(Stream::Input)
    } else if name == "out" {
        Some(Stream::Output)
    } else {
        None
    }
}

fn is_system(class: Option<ClassName>) -> bool
    ensures { result ≡ is_system (option_map class_name_of class.entry) }
{
    match class {
        Some(class) => class.name == "System",
        None => false,
    }
}

/// The stream that an expression names.
#[tactic(auto, using(wy_syntax::proofs::ExpressionViews::view_field))]
pub fn stream_in(table: &ClassTable, scope: &Scope, e: &Expression) -> Option<Stream>
    ensures { option_map stream_of result ≡ stream_in (table_of table.now) scope.now
        (expression_of e.now) }
{
    match e {
        Expression::Field {
            object,
            name,
            token: _,
        } => {
            if is_system(class_in(table, scope, object)) {
                stream_named(name.as_str())
            } else {
                None
            }
        }
        _ => None,
    }
}

/// Whether an expression has a form that can be a variable. Parentheses are none.
#[tactic(auto, using(wy_syntax::proofs::ExpressionViews::view_name, wy_syntax::proofs::ExpressionViews::view_group, wy_syntax::proofs::ExpressionViews::view_field, wy_syntax::proofs::ExpressionViews::view_super_field, wy_syntax::proofs::ExpressionViews::view_element))]
pub fn is_place(e: &Expression) -> bool
    ensures { result ≡ is_place (expression_of e.now) }
{
    match e {
        Expression::Name { name: _, token: _ } => true,
        Expression::Group { inner, token: _ } => is_place(inner),
        Expression::Field {
            object: _,
            name: _,
            token: _,
        } => true,
        Expression::SuperField { name: _, token: _ } => true,
        Expression::Element {
            array: _,
            index: _,
            token: _,
        } => true,
        _ => false,
    }
}

// A type with so many pairs of brackets. One that has more than 255, as no well-formed tree has, isn't held.
fn with_pairs(base: Base, brackets: u32) -> Result<Ty, AllocError>
    ensures { IfOk result (λ ty. ty ≡ Ty.Of base brackets) }
{
    if brackets > 255 {
        return Err(AllocError);
    }
    Ok(Ty::Of {
        base,
        brackets: brackets as u8,
    })
}

/// The type of what a written type begins with, and so many pairs of brackets.
pub fn type_with(
    table: &ClassTable,
    base: &WrittenBase,
    brackets: u32,
    token: u32,
) -> Result<Ty, TypeError>
    ensures { GivesAlways (λ ty.
        ty) result (type_with (table_of table.now) (base_seen base.now) brackets token) }
{
    match base {
        WrittenBase::Primitive(p) => Ok(with_pairs(Base::Primitive(*p), brackets)?),
        WrittenBase::Class(name) => match class_by_name(table, name.as_str()) {
            Some(c) => Ok(with_pairs(Base::Class(c), brackets)?),
            None => Err(refused(Rule::UnknownName, token)),
        },
    }
}

/// The type that is written. A type of more than 255 pairs of brackets is answered as want of memory.
#[tactic(auto, unfolding(crate::specs::Elaboration::type_written))]
pub fn type_written(table: &ClassTable, ty: &WrittenType) -> Result<Ty, TypeError>
    ensures { GivesAlways (λ t. t) result (type_written (table_of table.now) (type_seen ty.now)) }
{
    type_with(table, &ty.base, ty.brackets, ty.token)
}

/// The class of `new`, by its name.
pub fn class_for_new(table: &ClassTable, name: &str, token: u32) -> Result<u32, TypeError>
    ensures { GivesAlways (λ c.
        c) result (class_for_new (class_named (table_of table.now).classes name.now) token) }
{
    match class_by_name(table, name) {
        Some(c) => Ok(c),
        None => Err(refused(Rule::UnknownName, token)),
    }
}

/// A type with more pairs of brackets.
pub fn with_brackets(ty: Ty, more: u32) -> Result<Ty, AllocError>
    ensures { IfOk result (λ t. t ≡ with_brackets ty more) }
{
    match ty {
        Ty::Of { base, brackets } => {
            if more > 255 {
                return Err(AllocError);
            }
            with_pairs(base, u32::from(brackets) + more)
        }
        _ => Ok(ty),
    }
}
