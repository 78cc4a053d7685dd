//! Forms of a type: how what an expression is found to be becomes one form (JLS 5.1, 5.2, 5.6).

ghost use Rattle.std.specs.Prelude.{◌≡◌, IfOk};
ghost use Rattle.wy_kernel.specs.Form.{Constant};
ghost use Rattle.wy_kernel.specs.Form as kernel;
ghost use Rattle.wy_kernel.specs.Program.{same_primitive};
ghost use Rattle.wy_kernel.specs.Subtyping.{class_type, primitive_type};
ghost use Rattle.wy_kernel.specs.View.{expression};
ghost use Rattle.wy_kernel.specs.Table.{constant_value, Simple};
ghost use Rattle.wy_value.specs.Conversion.{converted};
ghost use Rattle.wy_elab_expr.specs.Meaning.{brought, constant_for, constant_type, converted_form, formed, type_of, Known};
ghost use Rattle.wy_elab_expr.specs.Views.{GetsTo, inner_of, meaning_of};

use crate::build;
use crate::meaning::Meaning;
use crate::texts::Texts;
use std::alloc::{AllocError, Global};
use wy_constant::{TypeError, constant_in, value_of};
use wy_kernel::form::{Const, Expr};
use wy_kernel::operator::Primitive;
use wy_kernel::types::{Base, Ty};
use wy_value::{Value, convert};

/// A value of the second type as one of the first.
#[tactic(auto, unfolding(crate::specs::Meaning::converted_form))]
fn converted_form(alloc: Global, to: Ty, from: Ty, form: Box<Expr>) -> Result<Box<Expr>, AllocError>
    ensures { IfOk result (λ e. inner_of e ≡ converted_form to from (inner_of form)) }
{
    match (to, from) {
        (
            Ty::Of {
                base: Base::Primitive(p),
                brackets: 0,
            },
            Ty::Of {
                base: Base::Primitive(q),
                brackets: 0,
            },
        ) => {
            if is_same_primitive(p, q) {
                Ok(form)
            } else {
                Ok(Box::new(alloc, build::conversion(p, form))?)
            }
        }
        _ => Ok(form),
    }
}

#[tactic(auto, unfolding(wy_kernel::specs::Program::same_primitive, wy_kernel::specs::Program::primitive_code))]
fn is_same_primitive(a: Primitive, b: Primitive) -> bool
    ensures { result ≡ same_primitive a b }
{
    a as u8 == b as u8
}

// The value of a numeric type that a number is converted to, or the value itself.
fn converted(to: Primitive, v: Value) -> Value
    ensures { result ≡ converted to v }
{
    match (to, v) {
        (Primitive::Bool, Value::Byte(_)) => Value::Bool(false),
        (Primitive::Bool, Value::Short(_)) => Value::Bool(false),
        (Primitive::Bool, Value::Char(_)) => Value::Bool(false),
        (Primitive::Bool, Value::Int(_)) => Value::Bool(false),
        (Primitive::Bool, Value::Long(_)) => Value::Bool(false),
        (_, Value::Byte(_) | Value::Short(_) | Value::Char(_) | Value::Int(_) | Value::Long(_)) => {
            convert(to, v)
        }
        _ => v,
    }
}

/// The type of a constant.
fn constant_type(c: &Const) -> Ty
    ensures { result ≡ constant_type (constant_value c.now) }
{
    match c {
        Const::Null => Ty::Null,
        Const::Bool(_) => primitive(Primitive::Bool),
        Const::Byte(_) => primitive(Primitive::Byte),
        Const::Short(_) => primitive(Primitive::Short),
        Const::Char(_) => primitive(Primitive::Char),
        Const::Int(_) => primitive(Primitive::Int),
        Const::Long(_) => primitive(Primitive::Long),
        Const::Text(_) => TEXT,
    }
}

/// The type of String.
pub const TEXT: Ty = Ty::Of {
    base: Base::Class(1),
    brackets: 0,
};

/// The type of Object.
pub const OBJECT: Ty = Ty::Of {
    base: Base::Class(0),
    brackets: 0,
};

/// The type of a class or an interface.
pub fn class(class: u32) -> Ty
    ensures { result ≡ class_type class }
{
    Ty::Of {
        base: Base::Class(class),
        brackets: 0,
    }
}

/// A primitive type.
pub fn primitive(p: Primitive) -> Ty
    ensures { result ≡ primitive_type p }
{
    Ty::Of {
        base: Base::Primitive(p),
        brackets: 0,
    }
}

/// The type of what an expression is found to be.
pub fn type_of(m: &Meaning) -> Ty
    ensures { result ≡ type_of (meaning_of m.now) }
{
    match m {
        Meaning::Known { value, token: _ } => constant_type(value),
        Meaning::Formed { form: _, ty } => *ty,
    }
}

// A constant that is no text, in a form of the target type.
fn constant_form(to: Ty, value: Const) -> Expr
    ensures { (c : Constant) → constant_value value ≡ Simple c
        → expression result ≡ kernel.Const (constant_for to c) }
{
    match (to, value_of(&value)) {
        (
            Ty::Of {
                base: Base::Primitive(p),
                brackets: 0,
            },
            Some(v),
        ) => build::constant(constant_in(converted(p, v))),
        _ => build::constant(value),
    }
}

/// One form of the target type, to stand in another.
#[tactic(auto, unfolding(crate::specs::Meaning::brought))]
pub fn brought_in(
    alloc: Global,
    texts: &mut Texts,
    to: Ty,
    m: Meaning,
) -> Result<Box<Expr>, TypeError>
    ensures { GetsTo inner_of result texts.new (brought to (meaning_of m) texts.old) }
{
    match m {
        Meaning::Known { value, token } => {
            let form = brought_constant(texts, to, value, token)?;
            Ok(Box::new(alloc, form)?)
        }
        Meaning::Formed { form, ty } => Ok(converted_form(alloc, to, ty, form)?),
    }
}

/// One form of the target type.
pub fn brought(alloc: Global, texts: &mut Texts, to: Ty, m: Meaning) -> Result<Expr, TypeError>
    ensures { GetsTo expression result texts.new (brought to (meaning_of m) texts.old) }
{
    let form = brought_in(alloc, texts, to, m)?;
    Ok(Box::into_inner(form))
}

#[tactic(auto, unfolding(crate::specs::Meaning::brought))]
fn brought_constant(texts: &mut Texts, to: Ty, value: Const, token: u32) -> Result<Expr, TypeError>
    ensures { GetsTo expression result texts.new
        (brought to (Known (constant_value value) token) texts.old) }
{
    match value {
        Const::Text(units) => Ok(build::text(texts.place(units, token)?)),
        Const::Null => Ok(constant_form(to, value)),
        Const::Bool(_) => Ok(constant_form(to, value)),
        Const::Byte(_) => Ok(constant_form(to, value)),
        Const::Short(_) => Ok(constant_form(to, value)),
        Const::Char(_) => Ok(constant_form(to, value)),
        Const::Int(_) => Ok(constant_form(to, value)),
        Const::Long(_) => Ok(constant_form(to, value)),
    }
}

/// One form of its own type, to stand in another.
pub fn formed_in(alloc: Global, texts: &mut Texts, m: Meaning) -> Result<Box<Expr>, TypeError>
    ensures { GetsTo inner_of result texts.new (formed (meaning_of m) texts.old) }
{
    let ty = type_of(&m);
    brought_in(alloc, texts, ty, m)
}

/// One form of its own type.
pub fn formed(alloc: Global, texts: &mut Texts, m: Meaning) -> Result<Expr, TypeError>
    ensures { GetsTo expression result texts.new (formed (meaning_of m) texts.old) }
{
    let ty = type_of(&m);
    brought(alloc, texts, ty, m)
}
