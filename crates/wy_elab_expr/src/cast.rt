//! Casts and `instanceof` (JLS 15.16, 15.20.2).

ghost use Rattle.std.specs.Prelude.{◌≡◌, ℕ, IfOk, None, option_map};
ghost use Rattle.wy_table.specs.ClassTable.{table_of};
ghost use Rattle.wy_kernel.specs.Subtyping.{primitive_type};
ghost use Rattle.wy_kernel.specs.Table.{constant_value};
ghost use Rattle.wy_elab_expr.specs.Meaning.{Known};
ghost use Rattle.wy_elab_expr.specs.Operators.{cast_form, cast_known, cast_of, instance_of, primitive_in, tested};
ghost use Rattle.wy_elab_expr.specs.Views.{GetsTo, Judged, meaning_of};

use crate::allowed::can_cast;
use crate::bring::{brought_in, formed_in, primitive, type_of};
use crate::build;
use crate::kinds::{is_nullable, is_text, is_void, primitive_in};
use crate::meaning::{Meaning, of_form};
use crate::refusal::refused;
use crate::texts::Texts;
use std::alloc::{AllocError, Global};
use wy_constant::{Rule, TypeError, cast, constant_in, value_of};
use wy_kernel::form::Const;
use wy_kernel::operator::Primitive;
use wy_kernel::types::{Base, Ty};
use wy_table::table::ClassTable;

fn number_of(p: Primitive, c: &Const) -> Option<Const>
    ensures { (token : ℕ) → option_map constant_value result ≡ cast_known (primitive_type p)
        (Known (constant_value c.now) token) }
{
    match value_of(c) {
        Some(v) => match cast(p, v) {
            Some(v) => Some(constant_in(v)),
            None => None,
        },
        None => None,
    }
}

fn text_of(ty: Ty, c: &Const) -> Result<Option<Const>, AllocError>
    ensures { IfOk result (λ k. primitive_in ty ≡ None → (token : ℕ)
        → option_map constant_value k ≡ cast_known ty (Known (constant_value c.now) token)) }
{
    match c {
        Const::Text(units) => {
            if is_text(ty) {
                Ok(Some(Const::Text(units.clone()?)))
            } else {
                Ok(None)
            }
        }
        Const::Null => Ok(None),
        Const::Bool(_) => Ok(None),
        Const::Byte(_) => Ok(None),
        Const::Short(_) => Ok(None),
        Const::Char(_) => Ok(None),
        Const::Int(_) => Ok(None),
        Const::Long(_) => Ok(None),
    }
}

fn cast_known(ty: Ty, m: &Meaning) -> Result<Option<Const>, AllocError>
    ensures { IfOk result (λ c. option_map constant_value c ≡ cast_known ty (meaning_of m.now)) }
{
    match (primitive_in(ty), m) {
        (Some(p), Meaning::Known { value, token: _ }) => Ok(number_of(p, value)),
        (None, Meaning::Known { value, token: _ }) => text_of(ty, value),
        (_, _) => Ok(None),
    }
}

// A cast to a primitive type is a Conv, or nothing; one to a reference is a Cast.
fn cast_form(
    alloc: Global,
    texts: &mut Texts,
    to: Ty,
    m: Meaning,
    token: u32,
) -> Result<Meaning, TypeError>
    ensures { GetsTo meaning_of result texts.new
        (cast_form to (primitive_in to) (meaning_of m) token texts.old) }
{
    match primitive_in(to) {
        Some(_) => {
            let form = brought_in(alloc, texts, to, m)?;
            Ok(Meaning::Formed { form, ty: to })
        }
        None => {
            let operand = formed_in(alloc, texts, m)?;
            Ok(of_form(alloc, build::cast(to, operand, token), to)?)
        }
    }
}

/// `(to) m`
#[tactic(auto, unfolding(crate::specs::Operators::cast_of))]
pub fn cast_of(
    alloc: Global,
    table: &ClassTable,
    texts: &mut Texts,
    to: Ty,
    m: Meaning,
    token: u32,
) -> Result<Meaning, TypeError>
    ensures { Judged (table_of table.now) (λ j. GetsTo meaning_of result texts.new
        (cast_of j (table_of table.now) to (meaning_of m) token texts.old)) }
{
    let from = type_of(&m);
    if is_void(from) {
        return Err(refused(Rule::BadOperand, token));
    }
    match cast_known(to, &m)? {
        Some(value) => Ok(Meaning::Known { value, token }),
        None => {
            if can_cast(table, from, to) {
                cast_form(alloc, texts, to, m, token)
            } else {
                Err(refused(Rule::BadCast, token))
            }
        }
    }
}

fn tested(alloc: Global, texts: &mut Texts, ty: Ty, m: Meaning) -> Result<Meaning, TypeError>
    ensures { GetsTo meaning_of result texts.new (tested ty (meaning_of m) texts.old) }
{
    let operand = formed_in(alloc, texts, m)?;
    let form = build::instance_of(ty, operand);
    Ok(of_form(alloc, form, primitive(Primitive::Bool))?)
}

/// `m instanceof ty`
#[tactic(auto, unfolding(crate::specs::Operators::instance_of))]
pub fn instance_of(
    alloc: Global,
    table: &ClassTable,
    texts: &mut Texts,
    ty: Ty,
    m: Meaning,
    token: u32,
) -> Result<Meaning, TypeError>
    ensures { Judged (table_of table.now) (λ j. GetsTo meaning_of result texts.new
        (instance_of j (table_of table.now) ty (meaning_of m) token texts.old)) }
{
    let from = type_of(&m);
    if is_void(from) {
        return Err(refused(Rule::BadOperand, token));
    }
    if is_nullable(from) && is_nullable(ty) && can_cast(table, from, ty) {
        tested(alloc, texts, ty, m)
    } else {
        Err(refused(Rule::BadCast, token))
    }
}
