//! What names of variables and of fields denote (JLS 6.5, 8.3, 15.11).

ghost use Rattle.std.specs.Prelude.{◌≡◌, IfOk, option_map, slice_get};
ghost use Rattle.wy_table.specs.ClassTable.{table_of};
ghost use Rattle.wy_kernel.specs.Table.{constant_value};
ghost use Rattle.wy_kernel.specs.Form as kernel;
ghost use Rattle.wy_kernel.specs.View.{field_of as field_seen};
ghost use Rattle.wy_constant.specs.Fields.{field_of};
ghost use Rattle.wy_elab_expr.specs.Meaning.{type_of};
ghost use Rattle.wy_elab_expr.specs.Members.{field_of_class, field_read, field_spot, field_through, is_length, is_library_name, is_outside, member_of_class, named, named_spot, no_field, object_field, own_field, own_field_named, qualified_name, qualified_spot, read_as, spot, static_field};
ghost use Rattle.wy_elab_expr.specs.Parts.{length_read};
ghost use Rattle.wy_elab_expr.specs.Views.{GetsTo, GivesAlways, inner_of, meaning_of, spot_of};

use crate::bring::{formed, formed_in, primitive, type_of};
use crate::build;
use crate::meaning::{Meaning, of_form};
use crate::refusal::refused;
use crate::spot::Spot;
use crate::texts::Texts;
use std::alloc::{AllocError, Global};
use wy_constant::{
    Rule, Scope, TypeError, class_by_name, field_by_name, value_of_member, value_of_name,
};
use wy_kernel::builtin::FIRST_SOURCE_CLASS;
use wy_kernel::form::{Const, Expr, LibOp};
use wy_kernel::operator::Primitive;
use wy_kernel::types::{Base, Field, Ty};
use wy_table::table::ClassTable;

/// Whether a member of a class is out of reach: it is private, and the body is of another class.
pub fn is_outside(scope: &Scope, is_private: bool, class: u32) -> bool
    ensures { result ≡ is_outside scope.now is_private class }
{
    is_private && class != scope.class()
}

fn field_at(table: &ClassTable, k: u32) -> Option<&Field>
    ensures { option_map (λ f. field_seen f.now) result ≡ slice_get (table_of table.now).fields k }
{
    if k < table.fields() {
        Some(table.field(k))
    } else {
        None
    }
}

fn static_spot(k: u32, f: &Field, token: u32) -> Spot
    ensures { spot_of result ≡ spot (kernel.Static k token) (field_seen f.now).ty
        (field_seen f.now).is_fixed }
{
    Spot {
        place: build::static_field(k, token),
        ty: f.ty,
        is_fixed: f.is_fixed,
    }
}

fn field_spot_of(object: Box<Expr>, k: u32, f: &Field, token: u32) -> Spot
    ensures { spot_of result ≡ spot (kernel.Field (inner_of object) k token) (field_seen f.now).ty
        (field_seen f.now).is_fixed }
{
    Spot {
        place: build::field(object, k, token),
        ty: f.ty,
        is_fixed: f.is_fixed,
    }
}

// A field by its simple name.
fn own_field(
    alloc: Global,
    table: &ClassTable,
    scope: &Scope,
    k: u32,
    token: u32,
) -> Result<Spot, TypeError>
    ensures { GivesAlways spot_of result
        (own_field scope.now k (slice_get (table_of table.now).fields k) token) }
{
    let Some(f) = field_at(table, k) else {
        return Err(refused(Rule::UnknownName, token));
    };
    if is_outside(scope, f.is_private, f.class) {
        return Err(refused(Rule::Private, token));
    }
    if f.is_static {
        return Ok(static_spot(k, f, token));
    }
    if scope.has_this() {
        let this = Box::new(alloc, build::this())?;
        Ok(field_spot_of(this, k, f, token))
    } else {
        Err(refused(Rule::NotInStatic, token))
    }
}

/// The place of a simple name: a local, or else a field of the class.
#[tactic(auto, unfolding(crate::specs::Members::named_spot))]
pub fn named_spot(
    alloc: Global,
    table: &ClassTable,
    scope: &Scope,
    name: &str,
    token: u32,
) -> Result<Spot, TypeError>
    ensures { GivesAlways spot_of result
        (named_spot (table_of table.now) scope.now name.now token) }
{
    if let Some(v) = scope.variable(name) {
        return Ok(Spot {
            place: build::local(v.number),
            ty: v.ty,
            is_fixed: v.is_fixed,
        });
    }
    match field_by_name(table, scope.class(), name) {
        Some(k) => own_field(alloc, table, scope, k, token),
        None => Err(refused(Rule::UnknownName, token)),
    }
}

fn read_as(alloc: Global, value: Option<Const>, p: Spot, token: u32) -> Result<Meaning, AllocError>
    ensures { IfOk result (λ m.
        meaning_of m ≡ read_as (option_map constant_value value) (spot_of p) token) }
{
    match value {
        Some(value) => Ok(Meaning::Known { value, token }),
        None => of_form(alloc, build::read(p.place), p.ty),
    }
}

/// A simple name.
#[tactic(auto, unfolding(crate::specs::Members::named))]
pub fn named(
    alloc: Global,
    table: &ClassTable,
    scope: &Scope,
    name: &str,
    token: u32,
) -> Result<Meaning, TypeError>
    ensures { GivesAlways meaning_of result (named (table_of table.now) scope.now name.now token) }
{
    let p = named_spot(alloc, table, scope, name, token)?;
    let value = value_of_name(table, scope, name)?;
    Ok(read_as(alloc, value, p, token)?)
}

/// The rule that a member breaks that a class doesn't have: the library has no other, and a source class none of an unknown name.
pub fn no_field(class: u32) -> Rule
    ensures { result ≡ no_field class }
{
    if class < FIRST_SOURCE_CLASS {
        Rule::NotOffered
    } else {
        Rule::UnknownName
    }
}

fn static_field(table: &ClassTable, scope: &Scope, k: u32, token: u32) -> Result<Spot, TypeError>
    ensures { GivesAlways spot_of result
        (static_field scope.now k (slice_get (table_of table.now).fields k) token) }
{
    let Some(f) = field_at(table, k) else {
        return Err(refused(Rule::UnknownName, token));
    };
    if is_outside(scope, f.is_private, f.class) {
        return Err(refused(Rule::Private, token));
    }
    if f.is_static {
        Ok(static_spot(k, f, token))
    } else {
        Err(refused(Rule::NotInStatic, token))
    }
}

fn field_of_class(
    table: &ClassTable,
    scope: &Scope,
    class: u32,
    name: &str,
    token: u32,
) -> Result<Spot, TypeError>
    ensures { GivesAlways spot_of result (field_of_class (table_of table.now) scope.now class
        (field_of (table_of table.now) class name.now) token) }
{
    match field_by_name(table, class, name) {
        Some(k) => static_field(table, scope, k, token),
        None => Err(refused(no_field(class), token)),
    }
}

/// Whether a name is that of a class of java.lang that is no class of a program.
pub fn is_library_name(class: &str) -> bool
    ensures { result ≡ is_library_name class.now }
{
    class == "Integer" || class == "Long" || class == "Math" || class == "System"
}

/// The place of a class's name with a field's name.
#[tactic(auto, unfolding(crate::specs::Members::qualified_spot))]
pub fn qualified_spot(
    table: &ClassTable,
    scope: &Scope,
    class: &str,
    name: &str,
    class_token: u32,
    token: u32,
) -> Result<Spot, TypeError>
    ensures { GivesAlways spot_of result
        (qualified_spot (table_of table.now) scope.now class.now name.now class_token token) }
{
    match class_by_name(table, class) {
        Some(c) => field_of_class(table, scope, c, name, token),
        None => {
            if is_library_name(class) {
                Err(refused(Rule::NotOffered, token))
            } else {
                Err(refused(Rule::UnknownName, class_token))
            }
        }
    }
}

/// A class's name with a field's name: MAX_VALUE or MIN_VALUE, or a static field.
#[tactic(auto, unfolding(crate::specs::Members::qualified_name))]
pub fn qualified_name(
    alloc: Global,
    table: &ClassTable,
    scope: &Scope,
    class: &str,
    name: &str,
    class_token: u32,
    token: u32,
) -> Result<Meaning, TypeError>
    ensures { GivesAlways meaning_of result
        (qualified_name (table_of table.now) scope.now class.now name.now class_token token) }
{
    let value = value_of_member(table, class, name)?;
    if is_library_name(class) {
        return match value {
            Some(value) => Ok(Meaning::Known {
                value,
                token: class_token,
            }),
            None => Err(refused(Rule::NotOffered, token)),
        };
    }
    let p = qualified_spot(table, scope, class, name, class_token, token)?;
    Ok(read_as(alloc, value, p, class_token)?)
}

/// A field of an object.
pub fn object_field(
    table: &ClassTable,
    scope: &Scope,
    object: Box<Expr>,
    k: u32,
    token: u32,
) -> Result<Spot, TypeError>
    ensures { GivesAlways spot_of result (object_field scope.now (inner_of object) k
        (slice_get (table_of table.now).fields k) token) }
{
    let Some(f) = field_at(table, k) else {
        return Err(refused(Rule::UnknownName, token));
    };
    if is_outside(scope, f.is_private, f.class) {
        return Err(refused(Rule::Private, token));
    }
    if f.is_static {
        Err(refused(Rule::NotOffered, token))
    } else {
        Ok(field_spot_of(object, k, f, token))
    }
}

fn field_through(
    table: &ClassTable,
    scope: &Scope,
    class: u32,
    object: Box<Expr>,
    name: &str,
    token: u32,
) -> Result<Spot, TypeError>
    ensures { GivesAlways spot_of result (field_through (table_of table.now) scope.now class
        (inner_of object) (field_of (table_of table.now) class name.now) token) }
{
    match field_by_name(table, class, name) {
        Some(k) => object_field(table, scope, object, k, token),
        None => Err(refused(no_field(class), token)),
    }
}

/// The place of a field of what an expression is.
#[tactic(auto, unfolding(crate::specs::Members::field_spot))]
pub fn field_spot(
    alloc: Global,
    table: &ClassTable,
    scope: &Scope,
    texts: &mut Texts,
    m: Meaning,
    name: &str,
    token: u32,
) -> Result<Spot, TypeError>
    ensures { GetsTo spot_of result texts.new (field_spot (table_of table.now) scope.now
        (meaning_of m) (type_of (meaning_of m)) name.now token texts.old) }
{
    match type_of(&m) {
        Ty::Of {
            base: Base::Class(class),
            brackets: 0,
        } => {
            let object = formed_in(alloc, texts, m)?;
            field_through(table, scope, class, object, name, token)
        }
        Ty::Void => Err(refused(Rule::BadOperand, token)),
        _ => Err(refused(Rule::UnknownName, token)),
    }
}

fn is_length(ty: Ty, name: &str) -> bool
    ensures { result ≡ is_length ty name.now }
{
    match ty {
        Ty::Of { base: _, brackets } => brackets > 0 && name == "length",
        _ => false,
    }
}

/// The length of an array, or a field of an object.
#[tactic(auto, unfolding(crate::specs::Members::field_read))]
pub fn field_read(
    alloc: Global,
    table: &ClassTable,
    scope: &Scope,
    texts: &mut Texts,
    m: Meaning,
    name: &str,
    token: u32,
) -> Result<Meaning, TypeError>
    ensures { GetsTo meaning_of result texts.new
        (field_read (table_of table.now) scope.now (meaning_of m) name.now token texts.old) }
{
    if is_length(type_of(&m), name) {
        return length_read(alloc, texts, m, token);
    }
    let p = field_spot(alloc, table, scope, texts, m, name, token)?;
    Ok(of_form(alloc, build::read(p.place), p.ty)?)
}

fn length_read(
    alloc: Global,
    texts: &mut Texts,
    m: Meaning,
    token: u32,
) -> Result<Meaning, TypeError>
    ensures { GetsTo meaning_of result texts.new (length_read (meaning_of m) token texts.old) }
{
    let array = formed(alloc, texts, m)?;
    let args = vec![in alloc; array]?;
    let form = build::library(LibOp::ArrayLength, args, token);
    Ok(of_form(alloc, form, primitive(Primitive::Int))?)
}
