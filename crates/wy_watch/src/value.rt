//! The value of an expression where it is looked at, if it has one (JLS 15): a function a form. Only what is needed is evaluated.

ghost use Rattle.std.specs.Prelude.{◌≡◌, ◌<◌, ◌≤◌, List, IfOk, IfSome, false, length, option_and_then, true};
ghost use Rattle.wy_event.specs.Record.{Recorded};
ghost use Rattle.wy_index.specs.Index.{IsIndexOf, IsIndexOfView};
ghost use Rattle.wy_syntax.specs.View.{expression_of};
ghost use Rattle.wy_travel.specs.Held.{HasFieldBelow};
ghost use Rattle.wy_tree.specs.Seen.{seen};
ghost use Rattle.wy_view.specs.References.{ValueBelow};
ghost use Rattle.wy_watch.specs.Looks.{Looks};
ghost use Rattle.wy_watch.specs.Sight.{IsFit, sight_seen};
ghost use Rattle.wy_watch.specs.Value as spec;

use crate::field::field_above;
use crate::names::{Meaning, class_meant, frame_field, meaning_of, this_of};
use crate::operator::{apply, operate, promote};
use crate::sight::Sight;
use std::sync::ledger::Ledger;
use wy_event::record::Slot;
use wy_index::Made;
use wy_kernel::code::{class_of_code, is_array};
use wy_kernel::operator::{BinOp, UnOp};
use wy_syntax::expression::Expression;
use wy_travel::held;
use wy_tree::token::Token;
use wy_value::Value;
use wy_view::{EventView, Steps, ViewError};

/// The value of a literal. A string has none.
fn literal(token: &Token) -> Option<Value>
    ensures { result ≡ spec.literal (seen token.now) }
{
    match token {
        Token::Int { value, decimal: _ } => Some(Value::Int(value.cast_signed())),
        Token::Long { value, decimal: _ } => Some(Value::Long(value.cast_signed())),
        Token::Char(unit) => Some(Value::Char(*unit)),
        Token::Key(word) => keyword(word.as_str()),
        Token::Text(_) => None,
        Token::Word(_) => None,
        Token::Sign(_) => None,
    }
}

fn keyword(word: &str) -> Option<Value>
    ensures { result ≡ spec.keyword word.now }
{
    match word {
        "true" => Some(Value::Bool(true)),
        "false" => Some(Value::Bool(false)),
        "null" => Some(Value::Null),
        _ => None,
    }
}

/// A value that is one.
fn there(value: Value) -> Option<Value>
    ensures { result ≡ spec.there value }
{
    match value {
        Value::None => None,
        _ => Some(value),
    }
}

fn truth(value: Option<Value>) -> Option<bool>
    ensures { result ≡ spec.truth value }
{
    match value {
        Some(Value::Bool(b)) => Some(b),
        _ => None,
    }
}

/// What a slot holds, if it holds anything.
fn stored_at<V: EventView, L: Ledger>(
    view: &mut V,
    sight: &Sight<'_>,
    slot: Slot,
    steps: &mut Steps<L>,
) -> Result<Option<Value>, ViewError>
    requires fit { IsFit sight.now }
    requires index { IsIndexOfView sight.now.index.now (V.tells view.old) }
    requires field { HasFieldBelow (length sight.now.program.now.fields.items) slot }
    ensures looks { Looks result (V.tells view.old) (V.tells view.new) (λ rs.
        spec.stored_at (sight_seen rs sight.now) slot) }
    ensures below { IfOk result (λ v. IfSome v (ValueBelow sight.now.moment)) }
    ensures forward { steps.old ≤ steps.new }
{
    let value = held(view, sight.index, sight.program, slot, sight.moment, steps)?;
    Ok(there(value))
}

/// What a slot holds, if there is one.
fn stored_in<V: EventView, L: Ledger>(
    view: &mut V,
    sight: &Sight<'_>,
    slot: Option<Slot>,
    steps: &mut Steps<L>,
) -> Result<Option<Value>, ViewError>
    requires fit { IsFit sight.now }
    requires index { IsIndexOfView sight.now.index.now (V.tells view.old) }
    requires field { IfSome slot (HasFieldBelow (length sight.now.program.now.fields.items)) }
    ensures looks { Looks result (V.tells view.old) (V.tells view.new) (λ rs.
        option_and_then (spec.stored_at (sight_seen rs sight.now)) slot) }
    ensures below { IfOk result (λ v. IfSome v (ValueBelow sight.now.moment)) }
    ensures forward { steps.old ≤ steps.new }
{
    match slot {
        Some(slot) => stored_at(view, sight, slot, steps),
        None => Ok(None),
    }
}

fn this_value<V: EventView, L: Ledger>(
    view: &mut V,
    sight: &Sight<'_>,
    steps: &mut Steps<L>,
) -> Result<Option<Value>, ViewError>
    requires fit { IsFit sight.now }
    requires index { IsIndexOfView sight.now.index.now (V.tells view.old) }
    ensures looks { Looks result (V.tells view.old) (V.tells view.new) (λ rs.
        spec.this_value (sight_seen rs sight.now)) }
    ensures below { IfOk result (λ v. IfSome v (ValueBelow sight.now.moment)) }
    ensures forward { steps.old ≤ steps.new }
{
    stored_in(view, sight, this_of(sight), steps)
}

/// The object or array that a value is a reference to.
fn object_in(value: Option<Value>) -> Option<u32>
    ensures { result ≡ spec.object_in value }
{
    match value {
        Some(Value::Object(object)) => Some(object),
        _ => None,
    }
}

/// A field of an object.
fn field_of<V: EventView, L: Ledger>(
    view: &mut V,
    sight: &Sight<'_>,
    field: u32,
    object: Option<Value>,
    steps: &mut Steps<L>,
) -> Result<Option<Value>, ViewError>
    requires fit { IsFit sight.now }
    requires index { IsIndexOfView sight.now.index.now (V.tells view.old) }
    requires field { field < length sight.now.program.now.fields.items }
    ensures looks { Looks result (V.tells view.old) (V.tells view.new) (λ rs.
        spec.field_of (sight_seen rs sight.now) field object) }
    ensures below { IfOk result (λ v. IfSome v (ValueBelow sight.now.moment)) }
    ensures forward { steps.old ≤ steps.new }
{
    match object_in(object) {
        Some(object) => stored_at(view, sight, Slot::Field { object, field }, steps),
        None => Ok(None),
    }
}

fn named<V: EventView, L: Ledger>(
    view: &mut V,
    sight: &Sight<'_>,
    name: &str,
    steps: &mut Steps<L>,
) -> Result<Option<Value>, ViewError>
    requires fit { IsFit sight.now }
    requires index { IsIndexOfView sight.now.index.now (V.tells view.old) }
    ensures looks { Looks result (V.tells view.old) (V.tells view.new) (λ rs.
        spec.named (sight_seen rs sight.now) name.now) }
    ensures below { IfOk result (λ v. IfSome v (ValueBelow sight.now.moment)) }
    ensures forward { steps.old ≤ steps.new }
{
    match meaning_of(sight, name, steps) {
        Meaning::Stored(slot) => stored_at(view, sight, slot, steps),
        Meaning::OfThis(field) => {
            let this = this_value(view, sight, steps)?;
            field_of(view, sight, field, this, steps)
        }
        Meaning::Nothing => Ok(None),
    }
}

/// The static field of the nearest class from a class upward.
fn static_value<V: EventView, L: Ledger>(
    view: &mut V,
    sight: &Sight<'_>,
    name: &str,
    class: usize,
    steps: &mut Steps<L>,
) -> Result<Option<Value>, ViewError>
    requires fit { IsFit sight.now }
    requires index { IsIndexOfView sight.now.index.now (V.tells view.old) }
    ensures looks { Looks result (V.tells view.old) (V.tells view.new) (λ rs.
        spec.static_value (sight_seen rs sight.now) name.now class) }
    ensures below { IfOk result (λ v. IfSome v (ValueBelow sight.now.moment)) }
    ensures forward { steps.old ≤ steps.new }
{
    match field_above(sight.program, true, class, name) {
        Some(field) => stored_at(view, sight, Slot::Static { field }, steps),
        None => Ok(None),
    }
}

/// A length as an int, where it is one.
fn as_int(length: u32) -> Option<Value>
    ensures { result ≡ spec.as_int length }
{
    match i32::try_from(length) {
        Ok(length) => Some(Value::Int(length)),
        Err(_) => None,
    }
}

fn array_member(name: &str, length: u32) -> Option<Value>
    ensures { result ≡ spec.array_member name.now length }
{
    if name == "length" {
        as_int(length)
    } else {
        None
    }
}

/// The field of an object that the nearest class from its own class upward has.
fn object_member<V: EventView, L: Ledger>(
    view: &mut V,
    sight: &Sight<'_>,
    name: &str,
    object: u32,
    code: u32,
    steps: &mut Steps<L>,
) -> Result<Option<Value>, ViewError>
    requires fit { IsFit sight.now }
    requires index { IsIndexOfView sight.now.index.now (V.tells view.old) }
    ensures looks { Looks result (V.tells view.old) (V.tells view.new) (λ rs.
        spec.object_member (sight_seen rs sight.now) name.now object code) }
    ensures below { IfOk result (λ v. IfSome v (ValueBelow sight.now.moment)) }
    ensures forward { steps.old ≤ steps.new }
{
    match field_above(sight.program, false, class_of_code(code) as usize, name) {
        Some(field) => stored_at(view, sight, Slot::Field { object, field }, steps),
        None => Ok(None),
    }
}

/// A field of an object, or the length of an array.
fn member_of<V: EventView, L: Ledger>(
    view: &mut V,
    sight: &Sight<'_>,
    name: &str,
    object: u32,
    made: Option<Made>,
    steps: &mut Steps<L>,
) -> Result<Option<Value>, ViewError>
    requires fit { IsFit sight.now }
    requires index { IsIndexOfView sight.now.index.now (V.tells view.old) }
    ensures looks { Looks result (V.tells view.old) (V.tells view.new) (λ rs.
        spec.member_of (sight_seen rs sight.now) name.now object made) }
    ensures below { IfOk result (λ v. IfSome v (ValueBelow sight.now.moment)) }
    ensures forward { steps.old ≤ steps.new }
{
    let Some(made) = made else {
        return Ok(None);
    };
    if is_array(made.entity) {
        Ok(array_member(name, made.length))
    } else {
        object_member(view, sight, name, object, made.entity, steps)
    }
}

fn member<V: EventView, L: Ledger>(
    view: &mut V,
    sight: &Sight<'_>,
    name: &str,
    object: Option<Value>,
    steps: &mut Steps<L>,
) -> Result<Option<Value>, ViewError>
    requires fit { IsFit sight.now }
    requires index { IsIndexOfView sight.now.index.now (V.tells view.old) }
    ensures looks { Looks result (V.tells view.old) (V.tells view.new) (λ rs.
        spec.member (sight_seen rs sight.now) name.now false object) }
    ensures below { IfOk result (λ v. IfSome v (ValueBelow sight.now.moment)) }
    ensures forward { steps.old ≤ steps.new }
{
    match object_in(object) {
        Some(object) => {
            let made = sight.index.made(object);
            member_of(view, sight, name, object, made, steps)
        }
        None => Ok(None),
    }
}

/// A field of `this`, that of the nearest class from the innermost frame's class upward.
fn member_of_this<V: EventView, L: Ledger>(
    view: &mut V,
    sight: &Sight<'_>,
    name: &str,
    this: Option<Value>,
    steps: &mut Steps<L>,
) -> Result<Option<Value>, ViewError>
    requires fit { IsFit sight.now }
    requires index { IsIndexOfView sight.now.index.now (V.tells view.old) }
    ensures looks { Looks result (V.tells view.old) (V.tells view.new) (λ rs.
        spec.member (sight_seen rs sight.now) name.now true this) }
    ensures below { IfOk result (λ v. IfSome v (ValueBelow sight.now.moment)) }
    ensures forward { steps.old ≤ steps.new }
{
    match frame_field(sight, false, name) {
        Some(field) => field_of(view, sight, field, this, steps),
        None => Ok(None),
    }
}

/// The class that an expression names.
#[tactic(auto, using(crate::proofs::Forms::class_name))]
fn class_in<L: Ledger>(sight: &Sight<'_>, e: &Expression, steps: &mut Steps<L>) -> Option<usize>
    requires fit { IsFit sight.now }
    ensures class { (rs : List Recorded) → IsIndexOf sight.now.index.now rs
        → result ≡ spec.class_in (sight_seen rs sight.now) (expression_of e.now) }
    ensures forward { steps.old ≤ steps.new }
{
    match e {
        Expression::Name { name, token: _ } => class_meant(sight, name.as_str(), steps),
        _ => None,
    }
}

/// Whether this is `this`, in parentheses or not.
#[tactic(auto, using(crate::proofs::Forms::this_itself, crate::proofs::Forms::this_within))]
fn is_this(e: &Expression) -> bool
    ensures { result ≡ spec.is_this (expression_of e.now) }
{
    match e {
        Expression::This { token: _ } => true,
        Expression::Group { inner, token: _ } => is_this(inner),
        _ => false,
    }
}

/// A static field of the class that an expression names, or else a member of what it is worth.
fn member_named<V: EventView, L: Ledger>(
    view: &mut V,
    sight: &Sight<'_>,
    object: &Expression,
    name: &str,
    of: Option<Value>,
    steps: &mut Steps<L>,
) -> Result<Option<Value>, ViewError>
    requires fit { IsFit sight.now }
    requires index { IsIndexOfView sight.now.index.now (V.tells view.old) }
    ensures looks { Looks result (V.tells view.old) (V.tells view.new) (λ rs.
        spec.member_in (sight_seen rs sight.now) name.now (spec.class_in (sight_seen rs sight.now) (expression_of object.now))
        (spec.is_this (expression_of object.now)) of) }
    ensures below { IfOk result (λ v. IfSome v (ValueBelow sight.now.moment)) }
    ensures forward { steps.old ≤ steps.new }
{
    if let Some(class) = class_in(sight, object, steps) {
        return static_value(view, sight, name, class, steps);
    }
    if is_this(object) {
        member_of_this(view, sight, name, of, steps)
    } else {
        member(view, sight, name, of, steps)
    }
}

/// The number that a value is as an index.
fn index_as(value: Value) -> Option<u32>
    ensures { result ≡ spec.index_as value }
{
    match value {
        Value::Int(index) if index >= 0 => Some(index as u32),
        _ => None,
    }
}

fn index_in(value: Option<Value>) -> Option<u32>
    ensures { result ≡ spec.index_in value }
{
    match value {
        Some(value) => index_as(promote(value)),
        None => None,
    }
}

fn element<V: EventView, L: Ledger>(
    view: &mut V,
    sight: &Sight<'_>,
    array: Option<Value>,
    index: Option<u32>,
    steps: &mut Steps<L>,
) -> Result<Option<Value>, ViewError>
    requires fit { IsFit sight.now }
    requires index { IsIndexOfView sight.now.index.now (V.tells view.old) }
    ensures looks { Looks result (V.tells view.old) (V.tells view.new) (λ rs.
        spec.element (sight_seen rs sight.now) array index) }
    ensures below { IfOk result (λ v. IfSome v (ValueBelow sight.now.moment)) }
    ensures forward { steps.old ≤ steps.new }
{
    match object_in(array) {
        Some(array) => {
            let made = sight.index.made(array);
            element_of(view, sight, array, made, index, steps)
        }
        None => Ok(None),
    }
}

/// An element of an array, if it has so many.
fn element_of<V: EventView, L: Ledger>(
    view: &mut V,
    sight: &Sight<'_>,
    array: u32,
    made: Option<Made>,
    index: Option<u32>,
    steps: &mut Steps<L>,
) -> Result<Option<Value>, ViewError>
    requires fit { IsFit sight.now }
    requires index { IsIndexOfView sight.now.index.now (V.tells view.old) }
    ensures looks { Looks result (V.tells view.old) (V.tells view.new) (λ rs.
        spec.element_of (sight_seen rs sight.now) array made index) }
    ensures below { IfOk result (λ v. IfSome v (ValueBelow sight.now.moment)) }
    ensures forward { steps.old ≤ steps.new }
{
    let Some(made) = made else {
        return Ok(None);
    };
    let Some(index) = index else {
        return Ok(None);
    };
    if is_array(made.entity) && index < made.length {
        stored_at(view, sight, Slot::Elem { array, index }, steps)
    } else {
        Ok(None)
    }
}

/// The value of an expression.
#[cycle(value)]
pub(crate) fn value<V: EventView, L: Ledger>(
    view: &mut V,
    sight: &Sight<'_>,
    e: &Expression,
    steps: &mut Steps<L>,
) -> Result<Option<Value>, ViewError>
    requires fit { IsFit sight.now }
    requires index { IsIndexOfView sight.now.index.now (V.tells view.old) }
    ensures looks { Looks result (V.tells view.old) (V.tells view.new) (λ rs.
        spec.value (sight_seen rs sight.now) (expression_of e.now)) }
    ensures below { IfOk result (λ v. IfSome v (ValueBelow sight.now.moment)) }
    ensures forward { steps.old ≤ steps.new }
{
    match e {
        Expression::Literal { value, token: _ } => Ok(literal(value)),
        Expression::Name { name, token: _ } => named(view, sight, name.as_str(), steps),
        Expression::This { token: _ } => this_value(view, sight, steps),
        Expression::Group { inner, token: _ } => value(view, sight, inner, steps),
        Expression::Field {
            object,
            name,
            token: _,
        } => field(view, sight, object, name.as_str(), steps),
        Expression::Element {
            array,
            index,
            token: _,
        } => indexed(view, sight, array, index, steps),
        Expression::Unary {
            op,
            operand,
            token: _,
        } => unary(view, sight, *op, operand, steps),
        Expression::Binary {
            op,
            left,
            right,
            token: _,
        } => binary(view, sight, *op, left, right, steps),
        Expression::Both {
            left,
            right,
            token: _,
        } => both(view, sight, left, right, steps),
        Expression::Either {
            left,
            right,
            token: _,
        } => either(view, sight, left, right, steps),
        Expression::Choice {
            test,
            main,
            other,
            token: _,
        } => choice(view, sight, test, main, other, steps),
        _ => Ok(None),
    }
}

/// `object.name`: a member of what the object is worth, or of the class that it names.
#[cycle(value)]
fn field<V: EventView, L: Ledger>(
    view: &mut V,
    sight: &Sight<'_>,
    object: &Expression,
    name: &str,
    steps: &mut Steps<L>,
) -> Result<Option<Value>, ViewError>
    requires fit { IsFit sight.now }
    requires index { IsIndexOfView sight.now.index.now (V.tells view.old) }
    ensures looks { Looks result (V.tells view.old) (V.tells view.new) (λ rs.
        spec.value_of_field (sight_seen rs sight.now) name.now (expression_of object.now)) }
    ensures below { IfOk result (λ v. IfSome v (ValueBelow sight.now.moment)) }
    ensures forward { steps.old ≤ steps.new }
{
    let of = value(view, sight, object, steps)?;
    member_named(view, sight, object, name, of, steps)
}

#[cycle(value)]
fn indexed<V: EventView, L: Ledger>(
    view: &mut V,
    sight: &Sight<'_>,
    array: &Expression,
    index: &Expression,
    steps: &mut Steps<L>,
) -> Result<Option<Value>, ViewError>
    requires fit { IsFit sight.now }
    requires index { IsIndexOfView sight.now.index.now (V.tells view.old) }
    ensures looks { Looks result (V.tells view.old) (V.tells view.new) (λ rs.
        spec.element (sight_seen rs sight.now) (spec.value (sight_seen rs sight.now) (expression_of array.now))
        (spec.index_in (spec.value (sight_seen rs sight.now) (expression_of index.now)))) }
    ensures below { IfOk result (λ v. IfSome v (ValueBelow sight.now.moment)) }
    ensures forward { steps.old ≤ steps.new }
{
    let of = value(view, sight, array, steps)?;
    let at = value(view, sight, index, steps)?;
    element(view, sight, of, index_in(at), steps)
}

#[cycle(value)]
fn unary<V: EventView, L: Ledger>(
    view: &mut V,
    sight: &Sight<'_>,
    op: UnOp,
    operand: &Expression,
    steps: &mut Steps<L>,
) -> Result<Option<Value>, ViewError>
    requires fit { IsFit sight.now }
    requires index { IsIndexOfView sight.now.index.now (V.tells view.old) }
    ensures looks { Looks result (V.tells view.old) (V.tells view.new) (λ rs.
        spec.unary op (spec.value (sight_seen rs sight.now) (expression_of operand.now))) }
    ensures below { IfOk result (λ v. IfSome v (ValueBelow sight.now.moment)) }
    ensures forward { steps.old ≤ steps.new }
{
    match value(view, sight, operand, steps)? {
        Some(v) => Ok(apply(op, promote(v))),
        None => Ok(None),
    }
}

#[cycle(value)]
fn binary<V: EventView, L: Ledger>(
    view: &mut V,
    sight: &Sight<'_>,
    op: BinOp,
    left: &Expression,
    right: &Expression,
    steps: &mut Steps<L>,
) -> Result<Option<Value>, ViewError>
    requires fit { IsFit sight.now }
    requires index { IsIndexOfView sight.now.index.now (V.tells view.old) }
    ensures looks { Looks result (V.tells view.old) (V.tells view.new) (λ rs.
        spec.binary op (spec.value (sight_seen rs sight.now) (expression_of left.now))
        (spec.value (sight_seen rs sight.now) (expression_of right.now))) }
    ensures below { IfOk result (λ v. IfSome v (ValueBelow sight.now.moment)) }
    ensures forward { steps.old ≤ steps.new }
{
    let a = value(view, sight, left, steps)?;
    let b = value(view, sight, right, steps)?;
    match (a, b) {
        (Some(a), Some(b)) => Ok(operate(op, a, b)),
        _ => Ok(None),
    }
}

/// The truth of an expression, if it is a boolean.
#[cycle(value)]
fn truth_of<V: EventView, L: Ledger>(
    view: &mut V,
    sight: &Sight<'_>,
    e: &Expression,
    steps: &mut Steps<L>,
) -> Result<Option<bool>, ViewError>
    requires fit { IsFit sight.now }
    requires index { IsIndexOfView sight.now.index.now (V.tells view.old) }
    ensures looks { Looks result (V.tells view.old) (V.tells view.new) (λ rs.
        spec.truth_of (sight_seen rs sight.now) (expression_of e.now)) }
    ensures forward { steps.old ≤ steps.new }
{
    let of = value(view, sight, e, steps)?;
    Ok(truth(of))
}

/// `&&`: the right operand only where the left one holds.
#[cycle(value)]
fn both<V: EventView, L: Ledger>(
    view: &mut V,
    sight: &Sight<'_>,
    left: &Expression,
    right: &Expression,
    steps: &mut Steps<L>,
) -> Result<Option<Value>, ViewError>
    requires fit { IsFit sight.now }
    requires index { IsIndexOfView sight.now.index.now (V.tells view.old) }
    ensures looks { Looks result (V.tells view.old) (V.tells view.new) (λ rs.
        spec.both (spec.truth_of (sight_seen rs sight.now) (expression_of left.now))
        (spec.truth_of (sight_seen rs sight.now) (expression_of right.now))) }
    ensures below { IfOk result (λ v. IfSome v (ValueBelow sight.now.moment)) }
    ensures forward { steps.old ≤ steps.new }
{
    match truth_of(view, sight, left, steps)? {
        Some(false) => Ok(Some(Value::Bool(false))),
        Some(true) => Ok(truth_of(view, sight, right, steps)?.map(Value::Bool)),
        None => Ok(None),
    }
}

/// `||`: the right operand only where the left one doesn't hold.
#[cycle(value)]
fn either<V: EventView, L: Ledger>(
    view: &mut V,
    sight: &Sight<'_>,
    left: &Expression,
    right: &Expression,
    steps: &mut Steps<L>,
) -> Result<Option<Value>, ViewError>
    requires fit { IsFit sight.now }
    requires index { IsIndexOfView sight.now.index.now (V.tells view.old) }
    ensures looks { Looks result (V.tells view.old) (V.tells view.new) (λ rs.
        spec.either (spec.truth_of (sight_seen rs sight.now) (expression_of left.now))
        (spec.truth_of (sight_seen rs sight.now) (expression_of right.now))) }
    ensures below { IfOk result (λ v. IfSome v (ValueBelow sight.now.moment)) }
    ensures forward { steps.old ≤ steps.new }
{
    match truth_of(view, sight, left, steps)? {
        Some(true) => Ok(Some(Value::Bool(true))),
        Some(false) => Ok(truth_of(view, sight, right, steps)?.map(Value::Bool)),
        None => Ok(None),
    }
}

/// The operand that a test chooses.
#[cycle(value)]
fn chosen<V: EventView, L: Ledger>(
    view: &mut V,
    sight: &Sight<'_>,
    test: bool,
    main: &Expression,
    other: &Expression,
    steps: &mut Steps<L>,
) -> Result<Option<Value>, ViewError>
    requires fit { IsFit sight.now }
    requires index { IsIndexOfView sight.now.index.now (V.tells view.old) }
    ensures looks { Looks result (V.tells view.old) (V.tells view.new) (λ rs.
        spec.chosen test (spec.value (sight_seen rs sight.now) (expression_of main.now))
        (spec.value (sight_seen rs sight.now) (expression_of other.now))) }
    ensures below { IfOk result (λ v. IfSome v (ValueBelow sight.now.moment)) }
    ensures forward { steps.old ≤ steps.new }
{
    if test {
        value(view, sight, main, steps)
    } else {
        value(view, sight, other, steps)
    }
}

/// `?:`: the operand that the test chooses.
#[cycle(value)]
fn choice<V: EventView, L: Ledger>(
    view: &mut V,
    sight: &Sight<'_>,
    test: &Expression,
    main: &Expression,
    other: &Expression,
    steps: &mut Steps<L>,
) -> Result<Option<Value>, ViewError>
    requires fit { IsFit sight.now }
    requires index { IsIndexOfView sight.now.index.now (V.tells view.old) }
    ensures looks { Looks result (V.tells view.old) (V.tells view.new) (λ rs.
        spec.choice (spec.truth_of (sight_seen rs sight.now) (expression_of test.now))
        (spec.value (sight_seen rs sight.now) (expression_of main.now)) (spec.value (sight_seen rs sight.now) (expression_of other.now))) }
    ensures below { IfOk result (λ v. IfSome v (ValueBelow sight.now.moment)) }
    ensures forward { steps.old ≤ steps.new }
{
    match truth_of(view, sight, test, steps)? {
        Some(test) => chosen(view, sight, test, main, other, steps),
        None => Ok(None),
    }
}
