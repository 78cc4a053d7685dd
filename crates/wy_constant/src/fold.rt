//! What operators, casts and `?:` make of constants (JLS 15.28).

ghost use Rattle.std.specs.Prelude.{◌≡◌, ◌++◌, ◌&&◌, ◌||◌, IfOk, option_map, option_and_then};
ghost use Rattle.wy_kernel.specs.Table.{constant_value, Text};
ghost use Rattle.wy_syntax.specs.View.{type_seen};
ghost use Rattle.wy_tree.specs.Seen.{seen};
ghost use Rattle.wy_constant.specs.Constant.{binary_constant, both, cast_constant, choice_constant, choice_type, chosen_in, chosen_text, chosen_value, combined, converted_value, fits, has_number, is_text, joint, joint_type, keyword, literal, on_texts, primitive_of, same_text, simple, simple_in, text_in, truth, unary_constant, units_of};

use crate::arithmetic::{apply, cast, operate, promote};
use crate::simple::{constant_in, truth_of, units, value_of};
use std::alloc::{AllocError, Global};
use wy_kernel::form::Const;
use wy_kernel::limit::UNIT_LIMIT;
use wy_kernel::operator::{BinOp, Primitive, UnOp};
use wy_syntax::name::{WrittenBase, WrittenType};
use wy_tree::token::Token;
use wy_value::Value;

/// The value of a literal. `null` has none.
pub fn literal_value(token: &Token) -> Result<Option<Const>, AllocError>
    ensures { IfOk result (λ c. option_map constant_value c ≡ literal (seen token.now)) }
{
    match token {
        Token::Int { value, decimal: _ } => Ok(Some(Const::Int(value.cast_signed()))),
        Token::Long { value, decimal: _ } => Ok(Some(Const::Long(value.cast_signed()))),
        Token::Char(unit) => Ok(Some(Const::Char(*unit))),
        Token::Text(units) => Ok(Some(Const::Text(units.clone()?))),
        Token::Key(word) => Ok(keyword_value(word.as_str())),
        Token::Word(_) => Ok(None),
        Token::Sign(_) => Ok(None),
    }
}

fn keyword_value(word: &str) -> Option<Const>
    ensures { option_map constant_value result ≡ keyword word.now }
{
    if word == "true" {
        Some(Const::Bool(true))
    } else if word == "false" {
        Some(Const::Bool(false))
    } else {
        None
    }
}

fn text_of(c: &Const) -> Option<&[u16]>
    ensures { option_map (λ t. t.now) result ≡ text_in (constant_value c.now) }
{
    match c {
        Const::Text(units) => Some(units.as_slice()),
        Const::Null => None,
        Const::Bool(_) => None,
        Const::Byte(_) => None,
        Const::Short(_) => None,
        Const::Char(_) => None,
        Const::Int(_) => None,
        Const::Long(_) => None,
    }
}

fn are_same_texts(a: &Const, b: &Const) -> Option<bool>
    ensures { result ≡ same_text (text_in (constant_value a.now)) (text_in (constant_value b.now)) }
{
    match (text_of(a), text_of(b)) {
        (Some(x), Some(y)) => Some(x == y),
        (_, _) => None,
    }
}

// The texts of two constants, one behind the other. A text that is longer than all texts of a run may
// be together is want of memory, and isn't made.
fn joined(alloc: Global, a: &Const, b: &Const) -> Result<Vec<u16>, AllocError>
    ensures { IfOk result (λ v.
        v.items ≡ units_of (constant_value a.now) ++ units_of (constant_value b.now)) }
{
    let mut all = units(alloc, a)?;
    let mut more = units(alloc, b)?;
    if all.len().saturating_add(more.len()) > UNIT_LIMIT as usize {
        return Err(AllocError);
    }
    all.append(&mut more)?;
    Ok(all)
}

#[tactic(auto, unfolding(crate::specs::Constant::on_texts))]
fn fold_texts(alloc: Global, op: BinOp, a: &Const, b: &Const) -> Result<Option<Const>, AllocError>
    ensures { IfOk result (λ c.
        option_map constant_value c ≡ on_texts op (constant_value a.now) (constant_value b.now)) }
{
    match op {
        BinOp::Add => Ok(Some(Const::Text(joined(alloc, a, b)?))),
        BinOp::Eq => match are_same_texts(a, b) {
            Some(same) => Ok(Some(Const::Bool(same))),
            None => Ok(None),
        },
        BinOp::Ne => match are_same_texts(a, b) {
            Some(same) => Ok(Some(Const::Bool(!same))),
            None => Ok(None),
        },
        _ => Ok(None),
    }
}

pub fn constant_of_value(v: Option<Value>) -> Option<Const>
    ensures { option_map constant_value result ≡ option_map simple v }
{
    match v {
        Some(v) => Some(constant_in(v)),
        None => None,
    }
}

#[tactic(auto, unfolding(crate::specs::Constant::binary_constant))]
pub fn fold_binary(
    alloc: Global,
    op: BinOp,
    a: &Const,
    b: &Const,
) -> Result<Option<Const>, AllocError>
    ensures { IfOk result (λ c. option_map constant_value c
        ≡ binary_constant op (constant_value a.now) (constant_value b.now)) }
{
    match (value_of(a), value_of(b)) {
        (Some(x), Some(y)) => Ok(constant_of_value(operate(op, x, y))),
        (_, _) => fold_texts(alloc, op, a, b),
    }
}

/// The value of `a op b`.
pub fn binary_value(
    alloc: Global,
    op: BinOp,
    a: Option<Const>,
    b: Option<Const>,
) -> Result<Option<Const>, AllocError>
    ensures { IfOk result (λ c. option_map constant_value c ≡ both (binary_constant op)
        (option_map constant_value a) (option_map constant_value b)) }
{
    match (a, b) {
        (Some(x), Some(y)) => fold_binary(alloc, op, &x, &y),
        (_, _) => Ok(None),
    }
}

#[tactic(auto, unfolding(crate::specs::Constant::unary_constant))]
pub fn fold_unary(op: UnOp, c: &Const) -> Option<Const>
    ensures { option_map constant_value result ≡ unary_constant op (constant_value c.now) }
{
    match value_of(c) {
        Some(v) => constant_of_value(apply(op, promote(v))),
        None => None,
    }
}

/// The value of `op c`.
pub fn unary_value(op: UnOp, c: Option<Const>) -> Option<Const>
    ensures { option_map constant_value result ≡ option_and_then (unary_constant op)
        (option_map constant_value c) }
{
    match c {
        Some(c) => fold_unary(op, &c),
        None => None,
    }
}

fn truth_in(c: &Option<Const>) -> Option<bool>
    ensures { result ≡ option_and_then truth (option_map constant_value c.now) }
{
    match c {
        Some(c) => truth_of(c),
        None => None,
    }
}

/// The value of `a && b`.
pub fn conjunction(a: &Option<Const>, b: &Option<Const>) -> Option<Const>
    ensures { option_map constant_value result ≡ combined (λ p q.
        p && q) (option_and_then truth (option_map constant_value a.now))
        (option_and_then truth (option_map constant_value b.now)) }
{
    match (truth_in(a), truth_in(b)) {
        (Some(p), Some(q)) => Some(Const::Bool(p && q)),
        (_, _) => None,
    }
}

/// The value of `a || b`.
pub fn disjunction(a: &Option<Const>, b: &Option<Const>) -> Option<Const>
    ensures { option_map constant_value result ≡ combined (λ p q.
        p || q) (option_and_then truth (option_map constant_value a.now))
        (option_and_then truth (option_map constant_value b.now)) }
{
    match (truth_in(a), truth_in(b)) {
        (Some(p), Some(q)) => Some(Const::Bool(p || q)),
        (_, _) => None,
    }
}

fn cast_simple(to: Primitive, c: &Const) -> Option<Const>
    ensures { option_map constant_value result ≡ option_and_then (λ v.
        option_map simple (converted_value to v)) (simple_in (constant_value c.now)) }
{
    match value_of(c) {
        Some(v) => constant_of_value(cast(to, v)),
        None => None,
    }
}

pub fn cast_text(c: Const) -> Option<Const>
    ensures { option_map constant_value result ≡ option_map Text (text_in (constant_value c)) }
{
    match c {
        Const::Text(units) => Some(Const::Text(units)),
        Const::Null => None,
        Const::Bool(_) => None,
        Const::Byte(_) => None,
        Const::Short(_) => None,
        Const::Char(_) => None,
        Const::Int(_) => None,
        Const::Long(_) => None,
    }
}

#[tactic(auto, unfolding(crate::specs::Constant::cast_constant))]
fn fold_cast(ty: &WrittenType, c: Const) -> Option<Const>
    ensures { option_map constant_value result ≡ cast_constant (type_seen ty.now)
        (constant_value c) }
{
    if ty.brackets != 0 {
        return None;
    }
    match &ty.base {
        WrittenBase::Primitive(to) => cast_simple(*to, &c),
        WrittenBase::Class(name) => {
            if name.as_str() == "String" {
                cast_text(c)
            } else {
                None
            }
        }
    }
}

/// The value of `(ty) c`.
pub fn cast_value(ty: &WrittenType, c: Option<Const>) -> Option<Const>
    ensures { option_map constant_value result ≡ option_and_then (cast_constant (type_seen ty.now))
        (option_map constant_value c) }
{
    match c {
        Some(c) => fold_cast(ty, c),
        None => None,
    }
}

/// The value of `test ? a : b`.
#[tactic(auto, unfolding(crate::specs::Constant::choice_constant))]
pub fn choice_value(test: &Option<Const>, a: Option<Const>, b: Option<Const>) -> Option<Const>
    ensures { option_map constant_value result ≡ choice_constant (option_and_then truth (option_map
        constant_value test.now)) (option_map constant_value a) (option_map constant_value b) }
{
    match (truth_in(test), a, b) {
        (Some(t), Some(x), Some(y)) => chosen(t, x, y),
        (_, _, _) => None,
    }
}

fn chosen(test: bool, a: Const, b: Const) -> Option<Const>
    ensures { option_map constant_value result ≡ chosen_in test (simple_in (constant_value a))
        (simple_in (constant_value b)) (constant_value a) (constant_value b) }
{
    match (value_of(&a), value_of(&b)) {
        (Some(x), Some(y)) => chosen_simple(test, x, y),
        (_, _) => chosen_of_texts(test, a, b),
    }
}

fn chosen_of_texts(test: bool, a: Const, b: Const) -> Option<Const>
    ensures { option_map constant_value result ≡ chosen_text test (constant_value a)
        (constant_value b) }
{
    if has_text(&a) && has_text(&b) {
        Some(if test { a } else { b })
    } else {
        None
    }
}

fn has_text(c: &Const) -> bool
    ensures { result ≡ is_text (constant_value c.now) }
{
    match c {
        Const::Text(_) => true,
        Const::Null => false,
        Const::Bool(_) => false,
        Const::Byte(_) => false,
        Const::Short(_) => false,
        Const::Char(_) => false,
        Const::Int(_) => false,
        Const::Long(_) => false,
    }
}

fn chosen_simple(test: bool, a: Value, b: Value) -> Option<Const>
    ensures { option_map constant_value result ≡ chosen_value test a b }
{
    match common_type(a, b) {
        Some(p) => constant_of_value(cast(p, if test { a } else { b })),
        None => None,
    }
}

fn common_type(a: Value, b: Value) -> Option<Primitive>
    ensures { result ≡ joint_type a (primitive_of a) b (primitive_of b) }
{
    match (type_of(a), type_of(b)) {
        (Some(p), Some(q)) => type_of_choice(p, Some(a), q, Some(b)),
        (_, _) => None,
    }
}

pub fn type_of(v: Value) -> Option<Primitive>
    ensures { result ≡ primitive_of v }
{
    match v {
        Value::Bool(_) => Some(Primitive::Bool),
        Value::Byte(_) => Some(Primitive::Byte),
        Value::Short(_) => Some(Primitive::Short),
        Value::Char(_) => Some(Primitive::Char),
        Value::Int(_) => Some(Primitive::Int),
        Value::Long(_) => Some(Primitive::Long),
        _ => None,
    }
}

/// The type of `?:` by the types of its operands, and the values of those that are constants.
#[tactic(auto, unfolding(crate::specs::Constant::choice_type))]
pub fn type_of_choice(
    p: Primitive,
    a: Option<Value>,
    q: Primitive,
    b: Option<Value>,
) -> Option<Primitive>
    ensures { result ≡ choice_type p a q b }
{
    if has(p, b) {
        Some(p)
    } else if has(q, a) {
        Some(q)
    } else {
        join(p, q)
    }
}

fn has(p: Primitive, v: Option<Value>) -> bool
    ensures { result ≡ fits p v }
{
    match v {
        Some(Value::Int(n)) => has_int(p, n),
        _ => false,
    }
}

pub fn has_int(p: Primitive, n: i32) -> bool
    ensures { result ≡ has_number p n }
{
    match p {
        Primitive::Byte => -128 <= n && n <= 127,
        Primitive::Short => -32768 <= n && n <= 32767,
        Primitive::Char => 0 <= n && n <= 65535,
        _ => false,
    }
}

fn join(p: Primitive, q: Primitive) -> Option<Primitive>
    ensures { result ≡ joint p q }
{
    match (p, q) {
        (Primitive::Bool, Primitive::Bool) => Some(Primitive::Bool),
        (Primitive::Bool, _) => None,
        (_, Primitive::Bool) => None,
        (Primitive::Byte, Primitive::Byte) => Some(Primitive::Byte),
        (Primitive::Byte, Primitive::Short) => Some(Primitive::Short),
        (Primitive::Short, Primitive::Byte) => Some(Primitive::Short),
        (Primitive::Short, Primitive::Short) => Some(Primitive::Short),
        (Primitive::Char, Primitive::Char) => Some(Primitive::Char),
        (Primitive::Long, _) => Some(Primitive::Long),
        (_, Primitive::Long) => Some(Primitive::Long),
        (_, _) => Some(Primitive::Int),
    }
}
