//! Assignment, `op=`, `++` and `--`, and the variables that they are about (JLS 15.14, 15.15, 15.26).

ghost use Rattle.std.specs.Prelude.{◌≡◌, IfOk, Some, false, option_map, option_and_then, slice_get};
ghost use Rattle.wy_table.specs.ClassTable.{table_of};
ghost use Rattle.wy_kernel.specs.View.{expression};
ghost use Rattle.wy_constant.specs.Fields.{field_of};
ghost use Rattle.wy_elab_expr.specs.Meaning.{type_of};
ghost use Rattle.wy_elab_expr.specs.Elaboration.{above, adds_text, assigned, assigned_value, class_target, element_at, element_of, element_spot, field_target, is_an_array, is_index, is_limit, is_object_type, left_primitive, read, stepped, stepped_in, super_field_named, super_spot, updated, updated_by, updated_in};
ghost use Rattle.wy_elab_expr.specs.Views.{GetsTo, GivesAlways, Judged, class_name_of, inner_of, meaning_of, size_of, spot_of};

use crate::assignable::is_assignable;
use crate::bring::{brought, brought_in, formed_in, primitive, type_of};
use crate::build;
use crate::fields::{field_spot, no_field, object_field, qualified_spot};
use crate::kinds::{is_text, is_void, number_type, primitive_in};
use crate::meaning::{Meaning, of_form};
use crate::names::ClassName;
use crate::operand::operand_types;
use crate::refusal::refused;
use crate::spot::Spot;
use crate::texts::Texts;
use std::alloc::{AllocError, Global};
use wy_constant::{Rule, Scope, TypeError, field_by_name};
use wy_kernel::form::Expr;
use wy_kernel::operator::{BinOp, Primitive};
use wy_kernel::types::{Base, NONE, Ty};
use wy_table::table::ClassTable;

/// The superclass of the class of a body, or Object.
#[tactic(auto, unfolding(wy_kernel::specs::View::present))]
pub fn above(table: &ClassTable, scope: &Scope) -> u32
    ensures { result ≡ above (table_of table.now) scope.now }
{
    let class = scope.class();
    if class >= table.classes() {
        return 0;
    }
    let above = table.class(class).above;
    if above == NONE { 0 } else { above }
}

/// The place of `super.name`.
#[tactic(auto, unfolding(crate::specs::Elaboration::super_spot))]
pub fn super_spot(
    alloc: Global,
    table: &ClassTable,
    scope: &Scope,
    name: &str,
    token: u32,
) -> Result<Spot, TypeError>
    ensures { GivesAlways spot_of result
        (super_spot (table_of table.now) scope.now name.now token) }
{
    if !scope.has_this() {
        return Err(refused(Rule::NotInStatic, token));
    }
    let class = above(table, scope);
    match field_by_name(table, class, name) {
        Some(k) => {
            let this = Box::new(alloc, build::this())?;
            object_field(table, scope, this, k, token)
        }
        None => Err(refused(no_field(class), token)),
    }
}

fn is_index(ty: Ty) -> bool
    ensures { result ≡ is_index ty }
{
    match number_type(ty) {
        Some(Primitive::Int) => true,
        _ => false,
    }
}

/// The type of the elements of an array.
pub fn element_of(ty: Ty) -> Option<Ty>
    ensures { result ≡ element_of ty }
{
    match ty {
        Ty::Of { base, brackets } => {
            if brackets == 0 {
                None
            } else {
                Some(Ty::Of {
                    base,
                    brackets: brackets - 1,
                })
            }
        }
        _ => None,
    }
}

fn element_at(
    alloc: Global,
    texts: &mut Texts,
    ty: Ty,
    array: Meaning,
    index: Meaning,
    token: u32,
) -> Result<Spot, TypeError>
    ensures { GetsTo spot_of result texts.new
        (element_at (Some ty) (meaning_of array) (meaning_of index) token texts.old) }
{
    if !is_index(type_of(&index)) {
        return Err(refused(Rule::BadOperand, token));
    }
    let a = formed_in(alloc, texts, array)?;
    let i = brought_in(alloc, texts, primitive(Primitive::Int), index)?;
    Ok(Spot {
        place: build::element(a, i, token),
        ty,
        is_fixed: false,
    })
}

/// The place of an element.
#[tactic(auto, unfolding(crate::specs::Elaboration::element_spot))]
pub fn element_spot(
    alloc: Global,
    texts: &mut Texts,
    array: Meaning,
    index: Meaning,
    token: u32,
) -> Result<Spot, TypeError>
    ensures { GetsTo spot_of result texts.new
        (element_spot (meaning_of array) (meaning_of index) token texts.old) }
{
    match element_of(type_of(&array)) {
        None => Err(refused(Rule::BadOperand, token)),
        Some(ty) => element_at(alloc, texts, ty, array, index, token),
    }
}

/// The form of a size of an array.
pub fn size_of(alloc: Global, texts: &mut Texts, m: Meaning, token: u32) -> Result<Expr, TypeError>
    ensures { GetsTo expression result texts.new (size_of (meaning_of m) token texts.old) }
{
    if is_index(type_of(&m)) {
        brought(alloc, texts, primitive(Primitive::Int), m)
    } else {
        Err(refused(Rule::BadOperand, token))
    }
}

// A value for a variable of a type, to stand in another form.
#[tactic(auto, unfolding(crate::specs::Elaboration::assigned_value))]
fn assigned_in(
    alloc: Global,
    table: &ClassTable,
    texts: &mut Texts,
    ty: Ty,
    m: Meaning,
    token: u32,
) -> Result<Box<Expr>, TypeError>
    ensures { Judged (table_of table.now) (λ j.
        GetsTo inner_of result texts.new (assigned_value j ty (meaning_of m) token texts.old)) }
{
    if is_void(type_of(&m)) {
        return Err(refused(Rule::BadOperand, token));
    }
    if is_assignable(table, ty, &m) {
        brought_in(alloc, texts, ty, m)
    } else {
        Err(refused(Rule::BadAssign, token))
    }
}

/// A value for a variable of a type.
pub fn assigned_value(
    alloc: Global,
    table: &ClassTable,
    texts: &mut Texts,
    ty: Ty,
    m: Meaning,
    token: u32,
) -> Result<Expr, TypeError>
    ensures { Judged (table_of table.now) (λ j.
        GetsTo expression result texts.new (assigned_value j ty (meaning_of m) token texts.old)) }
{
    let form = assigned_in(alloc, table, texts, ty, m, token)?;
    Ok(Box::into_inner(form))
}

#[tactic(auto, unfolding(crate::specs::Elaboration::assigned))]
fn assigned_to(
    alloc: Global,
    table: &ClassTable,
    texts: &mut Texts,
    p: Spot,
    m: Meaning,
    token: u32,
) -> Result<Meaning, TypeError>
    ensures { Judged (table_of table.now) (λ j. GetsTo meaning_of result texts.new
        (assigned j (Some (spot_of p)) (meaning_of m) token texts.old)) }
{
    if p.is_fixed && !is_void(type_of(&m)) {
        return Err(refused(Rule::BadAssign, token));
    }
    let ty = p.ty;
    let value = assigned_in(alloc, table, texts, ty, m, token)?;
    Ok(of_form(alloc, build::set(p.place, value, token), ty)?)
}

/// `p = m`
#[tactic(auto, unfolding(crate::specs::Elaboration::assigned))]
pub fn assigned(
    alloc: Global,
    table: &ClassTable,
    texts: &mut Texts,
    p: Option<Spot>,
    m: Meaning,
    token: u32,
) -> Result<Meaning, TypeError>
    ensures { Judged (table_of table.now) (λ j. GetsTo meaning_of result texts.new
        (assigned j (option_map spot_of p) (meaning_of m) token texts.old)) }
{
    match p {
        None => {
            if is_void(type_of(&m)) {
                Err(refused(Rule::BadOperand, token))
            } else {
                Err(refused(Rule::BadAssign, token))
            }
        }
        Some(p) => assigned_to(alloc, table, texts, p, m, token),
    }
}

fn is_object(ty: Ty) -> bool
    ensures { result ≡ is_object_type ty }
{
    match ty {
        Ty::Of {
            base: Base::Class(0),
            brackets: 0,
        } => true,
        _ => false,
    }
}

// A text is added to a String, or to an Object where the right side is a String.
fn adds_text(op: BinOp, left: Ty, right: Ty) -> bool
    ensures { result ≡ adds_text op left right }
{
    match op {
        BinOp::Add => is_text(left) || is_object(left) && is_text(right),
        _ => false,
    }
}

fn updated_in(
    alloc: Global,
    texts: &mut Texts,
    op: BinOp,
    wide: Option<Primitive>,
    p: Spot,
    m: Meaning,
    token: u32,
) -> Result<Meaning, TypeError>
    ensures { GetsTo meaning_of result texts.new
        (updated_in op wide (spot_of p) (meaning_of m) token texts.old) }
{
    if p.is_fixed {
        return Err(refused(Rule::BadAssign, token));
    }
    let value_ty = type_of(&m);
    let ty = p.ty;
    let value = formed_in(alloc, texts, m)?;
    let form = build::update(p.place, op, value, value_ty, ty, wide, token);
    Ok(of_form(alloc, form, ty)?)
}

fn left_primitive(table: &ClassTable, op: BinOp, left: Ty, right: Ty) -> Option<Primitive>
    ensures { Judged (table_of table.now) (λ j.
        result ≡ left_primitive j (table_of table.now) op left right) }
{
    match operand_types(table, op, left, right) {
        Some(types) => primitive_in(types.left),
        None => None,
    }
}

fn updated_by(
    alloc: Global,
    texts: &mut Texts,
    q: Option<Primitive>,
    op: BinOp,
    p: Spot,
    m: Meaning,
    token: u32,
) -> Result<Meaning, TypeError>
    ensures { GetsTo meaning_of result texts.new
        (updated_by q op (spot_of p) (meaning_of m) token texts.old) }
{
    match q {
        None => Err(refused(Rule::BadOperand, token)),
        Some(q) => updated_in(alloc, texts, op, Some(q), p, m, token),
    }
}

/// `p op= m`
#[tactic(auto, unfolding(crate::specs::Elaboration::updated))]
pub fn updated(
    alloc: Global,
    table: &ClassTable,
    texts: &mut Texts,
    op: BinOp,
    p: Option<Spot>,
    m: Meaning,
    token: u32,
) -> Result<Meaning, TypeError>
    ensures { Judged (table_of table.now) (λ j. GetsTo meaning_of result texts.new
        (updated j (table_of table.now) op (option_map spot_of p) (meaning_of m) token texts.old)) }
{
    let right = type_of(&m);
    match p {
        None => {
            if is_void(right) {
                Err(refused(Rule::BadOperand, token))
            } else {
                Err(refused(Rule::BadAssign, token))
            }
        }
        Some(p) => {
            if is_void(right) {
                return Err(refused(Rule::BadOperand, token));
            }
            if adds_text(op, p.ty, right) {
                return updated_in(alloc, texts, op, None, p, m, token);
            }
            let q = left_primitive(table, op, p.ty, right);
            updated_by(alloc, texts, q, op, p, m, token)
        }
    }
}

fn stepped_in(
    alloc: Global,
    wide: Option<Primitive>,
    op: BinOp,
    gives_old: bool,
    p: Spot,
    token: u32,
) -> Result<Meaning, TypeError>
    ensures { GivesAlways meaning_of result (stepped_in wide op gives_old (spot_of p) token) }
{
    match wide {
        None => Err(refused(Rule::BadOperand, token)),
        Some(wide) => {
            if p.is_fixed {
                return Err(refused(Rule::BadAssign, token));
            }
            let ty = p.ty;
            let form = build::step(p.place, op, ty, wide, gives_old, token);
            Ok(of_form(alloc, form, ty)?)
        }
    }
}

/// `++` and `--`
#[tactic(auto, unfolding(crate::specs::Elaboration::stepped))]
pub fn stepped(
    alloc: Global,
    is_before: bool,
    is_up: bool,
    p: Option<Spot>,
    token: u32,
) -> Result<Meaning, TypeError>
    ensures { GivesAlways meaning_of result (stepped is_before is_up (option_map spot_of p) token) }
{
    match p {
        None => Err(refused(Rule::BadOperand, token)),
        Some(p) => {
            let wide = number_type(p.ty);
            let op = if is_up { BinOp::Add } else { BinOp::Sub };
            stepped_in(alloc, wide, op, !is_before, p, token)
        }
    }
}

/// The value of a place.
pub fn read(alloc: Global, p: Spot) -> Result<Meaning, AllocError>
    ensures { IfOk result (λ m. meaning_of m ≡ read (spot_of p)) }
{
    of_form(alloc, build::read(p.place), p.ty)
}

fn is_an_array(ty: Ty) -> bool
    ensures { result ≡ is_an_array ty }
{
    element_of(ty).is_some()
}

/// The place of the field of an object. The length of an array is none.
#[tactic(auto, unfolding(crate::specs::Elaboration::field_target))]
pub fn field_target(
    alloc: Global,
    table: &ClassTable,
    scope: &Scope,
    texts: &mut Texts,
    m: Meaning,
    name: &str,
    token: u32,
) -> Result<Option<Spot>, TypeError>
    ensures { GetsTo (λ p. option_map spot_of p) result texts.new
        (field_target (table_of table.now) scope.now (meaning_of m) name.now token texts.old) }
{
    if is_an_array(type_of(&m)) && name == "length" {
        return Ok(None);
    }
    let p = field_spot(alloc, table, scope, texts, m, name, token)?;
    Ok(Some(p))
}

fn is_limit(class: &str, name: &str) -> bool
    ensures { result ≡ is_limit class.now name.now }
{
    (class == "Integer" || class == "Long") && (name == "MAX_VALUE" || name == "MIN_VALUE")
}

/// The place of a field by the name of its class. MAX_VALUE and MIN_VALUE are none.
#[tactic(auto, unfolding(crate::specs::Elaboration::class_target))]
pub fn class_target(
    table: &ClassTable,
    scope: &Scope,
    class: ClassName,
    name: &str,
    token: u32,
) -> Result<Option<Spot>, TypeError>
    ensures { GivesAlways (λ p. option_map spot_of p) result
        (class_target (table_of table.now) scope.now (class_name_of class.entry) name.now token) }
{
    if is_limit(class.name, name) {
        return Ok(None);
    }
    let p = qualified_spot(table, scope, class.name, name, class.token, token)?;
    Ok(Some(p))
}
