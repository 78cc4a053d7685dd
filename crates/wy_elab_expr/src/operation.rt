//! Unary and binary operators, `&&` and `||` (JLS 15.15, 15.17 to 15.24).

ghost use Rattle.std.specs.Prelude.{◌≡◌, ◌&&◌, ◌||◌, IfOk, Some, if◌then◌else◌, option_map};
ghost use Rattle.wy_table.specs.ClassTable.{table_of};
ghost use Rattle.wy_kernel.specs.Table.{constant_value};
ghost use Rattle.wy_constant.specs.Constant.{as_truth};
ghost use Rattle.wy_elab_expr.specs.Meaning.{refuse, type_of};
ghost use Rattle.wy_elab_expr.specs.Operators.{binary_formed, binary_known, binary_of, is_boolean, joined, known_or, lazy_formed, lazy_of, token_of, truth_known, unary_formed, unary_known, unary_of, unary_type};
ghost use Rattle.wy_elab_expr.specs.Views.{GetsTo, Judged, meaning_of, operands_of};

use crate::bring::{TEXT, brought_in, formed_in, primitive, type_of};
use crate::build;
use crate::kinds::{is_boolean, number_type};
use crate::meaning::{Meaning, of_form};
use crate::operand::{OperandTypes, joins, operand_types};
use crate::refusal::refused;
use crate::texts::Texts;
use std::alloc::{AllocError, Global};
use wy_constant::{Rule, TypeError, fold_binary, fold_unary, truth_of};
use wy_kernel::form::{CondForm, Const};
use wy_kernel::operator::{BinOp, Primitive, UnOp};
use wy_kernel::types::Ty;
use wy_table::table::ClassTable;

fn unary_type(op: UnOp, ty: Ty) -> Option<Primitive>
    ensures { result ≡ unary_type op ty }
{
    match op {
        UnOp::Not => {
            if is_boolean(ty) {
                Some(Primitive::Bool)
            } else {
                None
            }
        }
        _ => number_type(ty),
    }
}

fn unary_known(op: UnOp, m: &Meaning) -> Option<Const>
    ensures { option_map constant_value result ≡ unary_known op (meaning_of m.now) }
{
    match m {
        Meaning::Known { value, token: _ } => fold_unary(op, value),
        Meaning::Formed { form: _, ty: _ } => None,
    }
}

fn unary_formed(
    alloc: Global,
    texts: &mut Texts,
    op: UnOp,
    p: Option<Primitive>,
    m: Meaning,
    token: u32,
) -> Result<Meaning, TypeError>
    ensures { GetsTo meaning_of result texts.new
        (unary_formed op p (meaning_of m) token texts.old) }
{
    match p {
        None => Err(refused(Rule::BadOperand, token)),
        Some(p) => {
            let operand = brought_in(alloc, texts, primitive(p), m)?;
            Ok(of_form(alloc, build::unary(op, operand), primitive(p))?)
        }
    }
}

/// `op m`
#[tactic(auto, unfolding(crate::specs::Operators::unary_of))]
pub fn unary_of(
    alloc: Global,
    texts: &mut Texts,
    op: UnOp,
    m: Meaning,
    token: u32,
) -> Result<Meaning, TypeError>
    ensures { GetsTo meaning_of result texts.new (unary_of op (meaning_of m) token texts.old) }
{
    match unary_known(op, &m) {
        Some(value) => Ok(Meaning::Known { value, token }),
        None => {
            let p = unary_type(op, type_of(&m));
            unary_formed(alloc, texts, op, p, m, token)
        }
    }
}

fn binary_known(
    alloc: Global,
    op: BinOp,
    a: &Meaning,
    b: &Meaning,
) -> Result<Option<Const>, AllocError>
    ensures { IfOk result (λ c.
        option_map constant_value c ≡ binary_known op (meaning_of a.now) (meaning_of b.now)) }
{
    match (a, b) {
        (Meaning::Known { value: x, token: _ }, Meaning::Known { value: y, token: _ }) => {
            fold_binary(alloc, op, x, y)
        }
        (_, _) => Ok(None),
    }
}

/// The first token of a constant.
pub fn token_of(m: &Meaning) -> u32
    ensures { result ≡ token_of (meaning_of m.now) }
{
    match m {
        Meaning::Known { value: _, token } => *token,
        Meaning::Formed { form: _, ty: _ } => 0,
    }
}

fn binary_formed(
    alloc: Global,
    texts: &mut Texts,
    op: BinOp,
    types: Option<OperandTypes>,
    a: Meaning,
    b: Meaning,
    token: u32,
) -> Result<Meaning, TypeError>
    ensures { GetsTo meaning_of result texts.new (binary_formed op (option_map operands_of types)
        (meaning_of a) (meaning_of b) token texts.old) }
{
    match types {
        None => Err(refused(Rule::BadOperand, token)),
        Some(types) => binary_of_types(alloc, texts, op, types, a, b, token),
    }
}

fn binary_of_types(
    alloc: Global,
    texts: &mut Texts,
    op: BinOp,
    types: OperandTypes,
    a: Meaning,
    b: Meaning,
    token: u32,
) -> Result<Meaning, TypeError>
    ensures { GetsTo meaning_of result texts.new (binary_formed op (Some (operands_of types))
        (meaning_of a) (meaning_of b) token texts.old) }
{
    let x = brought_in(alloc, texts, types.left, a)?;
    let y = brought_in(alloc, texts, types.right, b)?;
    let form = build::binary(op, x, y, token);
    Ok(of_form(alloc, form, types.outcome)?)
}

// Operands that are joined keep their types.
fn joined(
    alloc: Global,
    texts: &mut Texts,
    a: Meaning,
    b: Meaning,
    token: u32,
) -> Result<Meaning, TypeError>
    ensures { GetsTo meaning_of result texts.new
        (joined (meaning_of a) (meaning_of b) token texts.old) }
{
    let left_ty = type_of(&a);
    let right_ty = type_of(&b);
    let x = formed_in(alloc, texts, a)?;
    let y = formed_in(alloc, texts, b)?;
    let form = build::join(x, y, left_ty, right_ty, token);
    Ok(of_form(alloc, form, TEXT)?)
}

/// `a op b`
#[tactic(auto, unfolding(crate::specs::Operators::binary_of))]
pub fn binary_of(
    alloc: Global,
    table: &ClassTable,
    texts: &mut Texts,
    op: BinOp,
    a: Meaning,
    b: Meaning,
    token: u32,
) -> Result<Meaning, TypeError>
    ensures { Judged (table_of table.now) (λ j. GetsTo meaning_of result texts.new
        (binary_of j (table_of table.now) op (meaning_of a) (meaning_of b) token texts.old)) }
{
    match binary_known(alloc, op, &a, &b)? {
        Some(value) => Ok(Meaning::Known {
            value,
            token: token_of(&a),
        }),
        None => {
            if joins(op, type_of(&a), type_of(&b)) {
                joined(alloc, texts, a, b, token)
            } else {
                let types = operand_types(table, op, type_of(&a), type_of(&b));
                binary_formed(alloc, texts, op, types, a, b, token)
            }
        }
    }
}

/// The truth of a constant.
pub fn truth_known(m: &Meaning) -> Option<bool>
    ensures { result ≡ truth_known (meaning_of m.now) }
{
    match m {
        Meaning::Known { value, token: _ } => truth_of(value),
        Meaning::Formed { form: _, ty: _ } => None,
    }
}

fn lazy_formed(
    alloc: Global,
    texts: &mut Texts,
    form: CondForm,
    a: Meaning,
    b: Meaning,
    token: u32,
) -> Result<Meaning, TypeError>
    ensures { GetsTo meaning_of result texts.new
        (lazy_formed form (meaning_of a) (meaning_of b) token texts.old) }
{
    let ty = primitive(Primitive::Bool);
    let x = brought_in(alloc, texts, ty, a)?;
    let y = brought_in(alloc, texts, ty, b)?;
    Ok(of_form(alloc, build::lazy(form, x, y, token), ty)?)
}

fn lazy_unless_known(
    alloc: Global,
    texts: &mut Texts,
    form: CondForm,
    known: Option<bool>,
    a: Meaning,
    b: Meaning,
    token: u32,
) -> Result<Meaning, TypeError>
    ensures { GetsTo meaning_of result texts.new
        (known_or (as_truth known) (token_of (meaning_of a)) (if is_boolean (type_of (meaning_of a))
        && is_boolean (type_of (meaning_of b)) then lazy_formed form (meaning_of a)
        (meaning_of b) token else refuse Rule.BadOperand token) texts.old) }
{
    match known {
        Some(p) => Ok(Meaning::Known {
            value: Const::Bool(p),
            token: token_of(&a),
        }),
        None => {
            if is_boolean(type_of(&a)) && is_boolean(type_of(&b)) {
                lazy_formed(alloc, texts, form, a, b, token)
            } else {
                Err(refused(Rule::BadOperand, token))
            }
        }
    }
}

/// `a && b`
#[tactic(auto, unfolding(crate::specs::Operators::lazy_of))]
pub fn both_of(
    alloc: Global,
    texts: &mut Texts,
    a: Meaning,
    b: Meaning,
    token: u32,
) -> Result<Meaning, TypeError>
    ensures { GetsTo meaning_of result texts.new
        (lazy_of CondForm.And (λ p q. p && q) (meaning_of a) (meaning_of b) token texts.old) }
{
    let known = match (truth_known(&a), truth_known(&b)) {
        (Some(p), Some(q)) => Some(p && q),
        (_, _) => None,
    };
    lazy_unless_known(alloc, texts, CondForm::And, known, a, b, token)
}

/// `a || b`
#[tactic(auto, unfolding(crate::specs::Operators::lazy_of))]
pub fn either_of(
    alloc: Global,
    texts: &mut Texts,
    a: Meaning,
    b: Meaning,
    token: u32,
) -> Result<Meaning, TypeError>
    ensures { GetsTo meaning_of result texts.new
        (lazy_of CondForm.Or (λ p q. p || q) (meaning_of a) (meaning_of b) token texts.old) }
{
    let known = match (truth_known(&a), truth_known(&b)) {
        (Some(p), Some(q)) => Some(p || q),
        (_, _) => None,
    };
    lazy_unless_known(alloc, texts, CondForm::Or, known, a, b, token)
}
