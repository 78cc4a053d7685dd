//! `?:` (JLS 15.25; its type for two references as this project has it).

ghost use Rattle.std.specs.Prelude.{◌≡◌, IfOk, length, option_map, option_and_then, Some};
ghost use Rattle.wy_table.specs.ClassTable.{table_of};
ghost use Rattle.wy_kernel.specs.Program.{class_of_type};
ghost use Rattle.wy_kernel.specs.Table.{constant_value};
ghost use Rattle.wy_constant.specs.Constant.{choice_constant};
ghost use Rattle.wy_elab_expr.specs.Meaning.{type_of};
ghost use Rattle.wy_elab_expr.specs.Operators.{choice_formed, choice_of, choice_result, class_of, common_type, constant_of, is_class_type, nearest_above, primitive_in, truth_known, value_known};
ghost use Rattle.wy_elab_expr.specs.Parts.{choice_unknown};
ghost use Rattle.wy_elab_expr.specs.Views.{GetsTo, Judged, meaning_of};

use crate::allowed::{is_below, is_interface};
use crate::bring::{OBJECT, brought_in, class, primitive, type_of};
use crate::build;
use crate::kinds::{is_boolean, is_nullable, primitive_in};
use crate::meaning::{Meaning, of_form};
use crate::operation::token_of;
use crate::refusal::refused;
use crate::texts::Texts;
use std::alloc::{AllocError, Global};
use wy_constant::{Rule, TypeError, choice_value, copied, type_of_choice, value_of};
use wy_kernel::form::Const;
use wy_kernel::operator::Primitive;
use wy_kernel::types::{Base, NONE, Ty};
use wy_table::table::ClassTable;
use wy_value::Value;

fn value_known(m: &Meaning) -> Option<Value>
    ensures { result ≡ value_known (meaning_of m.now) }
{
    match m {
        Meaning::Known { value, token: _ } => value_of(value),
        Meaning::Formed { form: _, ty: _ } => None,
    }
}

fn constant_of(m: &Meaning) -> Result<Option<Const>, AllocError>
    ensures { IfOk result (λ c. option_map constant_value c ≡ constant_of (meaning_of m.now)) }
{
    match m {
        Meaning::Known { value, token: _ } => Ok(Some(copied(value)?)),
        Meaning::Formed { form: _, ty: _ } => Ok(None),
    }
}

#[tactic(auto, unfolding(wy_kernel::specs::View::present))]
fn class_above(table: &ClassTable, class: u32) -> Option<u32>
    ensures { result ≡ option_and_then (λ k. k.above) (class_of (table_of table.now) class) }
{
    if class >= table.classes() {
        return None;
    }
    let above = table.class(class).above;
    if above == NONE { None } else { Some(above) }
}

// The nearest class from one upward that another type is below, or Object.
fn nearest_above(table: &ClassTable, first: u32, other: Ty) -> Ty
    ensures { Judged (table_of table.now) (λ j. result ≡ nearest_above j (table_of table.now)
        (length (table_of table.now).classes) (Some first) other) }
{
    let mut at = first;
    let mut left = table.classes();
    'upward: while left > 0 {
        if is_below(table, other, class(at)) {
            return class(at);
        }
        match class_above(table, at) {
            Some(above) => at = above,
            None => return OBJECT,
        }
        left -= 1;
    }
    OBJECT
}

// Whether a type is a class and no interface.
fn is_class(table: &ClassTable, ty: Ty) -> bool
    ensures { result ≡ is_class_type (table_of table.now) ty }
{
    match ty {
        Ty::Of {
            base: Base::Class(c),
            brackets: 0,
        } => !is_interface(table, c),
        _ => false,
    }
}

#[tactic(auto, unfolding(wy_kernel::specs::Program::class_of_type))]
fn class_of_type(ty: Ty) -> u32
    ensures { result ≡ class_of_type ty }
{
    match ty {
        Ty::Of {
            base: Base::Class(c),
            brackets: 0,
        } => c,
        _ => 0,
    }
}

// Of two references the upper one; else the nearest common superclass.
fn common_type(table: &ClassTable, a: Ty, b: Ty) -> Ty
    ensures { Judged (table_of table.now) (λ j. result ≡ common_type j (table_of table.now) a b) }
{
    if is_below(table, a, b) {
        return b;
    }
    if is_below(table, b, a) {
        return a;
    }
    if is_class(table, a) && is_class(table, b) {
        nearest_above(table, class_of_type(a), b)
    } else {
        OBJECT
    }
}

fn choice_result(table: &ClassTable, a: &Meaning, b: &Meaning) -> Option<Ty>
    ensures { Judged (table_of table.now) (λ j. result ≡ choice_result j (table_of table.now)
        (meaning_of a.now) (primitive_in (type_of (meaning_of a.now))) (meaning_of b.now)
        (primitive_in (type_of (meaning_of b.now)))) }
{
    let left = type_of(a);
    let right = type_of(b);
    match (primitive_in(left), primitive_in(right)) {
        (Some(p), Some(q)) => match type_of_choice(p, value_known(a), q, value_known(b)) {
            Some(p) => Some(primitive(p)),
            None => None,
        },
        (None, None) => {
            if is_nullable(left) && is_nullable(right) {
                Some(common_type(table, left, right))
            } else {
                None
            }
        }
        (_, _) => None,
    }
}

fn choice_formed(
    alloc: Global,
    texts: &mut Texts,
    ty: Option<Ty>,
    test: Meaning,
    a: Meaning,
    b: Meaning,
    token: u32,
) -> Result<Meaning, TypeError>
    ensures { GetsTo meaning_of result texts.new
        (choice_formed ty (meaning_of test) (meaning_of a) (meaning_of b) token texts.old) }
{
    match ty {
        None => Err(refused(Rule::BadOperand, token)),
        Some(ty) => choice_of_type(alloc, texts, ty, test, a, b, token),
    }
}

fn choice_of_type(
    alloc: Global,
    texts: &mut Texts,
    ty: Ty,
    test: Meaning,
    a: Meaning,
    b: Meaning,
    token: u32,
) -> Result<Meaning, TypeError>
    ensures { GetsTo meaning_of result texts.new
        (choice_formed (Some ty) (meaning_of test) (meaning_of a) (meaning_of b) token texts.old) }
{
    let z = brought_in(alloc, texts, primitive(Primitive::Bool), test)?;
    let x = brought_in(alloc, texts, ty, a)?;
    let y = brought_in(alloc, texts, ty, b)?;
    Ok(of_form(alloc, build::choice(z, x, y, token), ty)?)
}

// The value where all three are constants.
fn choice_known(test: &Meaning, a: &Meaning, b: &Meaning) -> Result<Option<Const>, AllocError>
    ensures { IfOk result (λ c. option_map constant_value c ≡ choice_constant (truth_known
        (meaning_of test.now)) (constant_of (meaning_of a.now)) (constant_of (meaning_of b.now))) }
{
    let t = constant_of(test)?;
    let x = constant_of(a)?;
    let y = constant_of(b)?;
    Ok(choice_value(&t, x, y))
}

// The form, where they are not all constants.
fn choice_unknown(
    alloc: Global,
    table: &ClassTable,
    texts: &mut Texts,
    test: Meaning,
    a: Meaning,
    b: Meaning,
    token: u32,
) -> Result<Meaning, TypeError>
    ensures { Judged (table_of table.now) (λ j. GetsTo meaning_of result texts.new (choice_unknown j
        (table_of table.now) (meaning_of test) (meaning_of a) (meaning_of b) token texts.old)) }
{
    if is_boolean(type_of(&test)) {
        let ty = choice_result(table, &a, &b);
        choice_formed(alloc, texts, ty, test, a, b, token)
    } else {
        Err(refused(Rule::BadOperand, token))
    }
}

/// `test ? a : b`
#[tactic(auto, unfolding(crate::specs::Operators::choice_of))]
pub fn choice_of(
    alloc: Global,
    table: &ClassTable,
    texts: &mut Texts,
    test: Meaning,
    a: Meaning,
    b: Meaning,
    token: u32,
) -> Result<Meaning, TypeError>
    ensures { Judged (table_of table.now) (λ j. GetsTo meaning_of result texts.new (choice_of j
        (table_of table.now) (meaning_of test) (meaning_of a) (meaning_of b) token texts.old)) }
{
    match choice_known(&test, &a, &b)? {
        Some(value) => Ok(Meaning::Known {
            value,
            token: token_of(&test),
        }),
        None => choice_unknown(alloc, table, texts, test, a, b, token),
    }
}
