//! Calls of methods of classes, and `new` (JLS 15.9, 15.12).

ghost use Rattle.std.specs.Prelude.{◌≡◌, ◌<◌, IfOk, OnSome, map, option_map, slice_get};
ghost use Rattle.wy_table.specs.ClassTable.{table_of};
ghost use Rattle.wy_kernel.specs.Form as kernel;
ghost use Rattle.wy_kernel.specs.View.{expression, method_of as method_seen, row_of};
ghost use Rattle.wy_elab_expr.specs.Members.{broken, broken_by, call_form, call_of, called, called_at, called_unless, constructed, created, instance_if, is_abstract, is_static, new_plain, receiver, this_form, Super};
ghost use Rattle.wy_elab_expr.specs.Operators.{class_of};
ghost use Rattle.wy_elab_expr.specs.Views.{GetsTo, GivesAlways, Judged, inner_of, meaning_of, through_of};

use crate::allowed::is_interface;
use crate::arguments::{brought_all, method_for, some_void};
use crate::bring::{OBJECT, class};
use crate::build;
use crate::fields::is_outside;
use crate::meaning::{Meaning, of_form};
use crate::refusal::refused;
use crate::texts::Texts;
use std::alloc::{AllocError, Global};
use wy_constant::{Rule, Scope, TypeError};
use wy_kernel::form::{CallForm, Expr};
use wy_kernel::types::{Method, MethodForm, Ty};
use wy_table::table::ClassTable;

/// Through what a method is called: nothing, an expression, a class, or `super`.
#[derive(Drop)]
pub enum Through {
    Nothing,
    Object(Box<Expr>),
    OfClass,
    Super,
}

fn method_at(table: &ClassTable, k: u32) -> Option<&Method>
    ensures value { option_map (λ m.
        method_seen m.now) result ≡ slice_get (table_of table.now).methods k }
    ensures number { OnSome result (k < 4294967295) }
{
    if k < table.methods() {
        Some(table.method(k))
    } else {
        None
    }
}

fn is_static(form: MethodForm) -> bool
    ensures { result ≡ is_static form }
{
    match form {
        MethodForm::Static => true,
        _ => false,
    }
}

fn instance_if(is_there: bool) -> Option<Rule>
    ensures { result ≡ instance_if is_there }
{
    if is_there {
        None
    } else {
        Some(Rule::NotInStatic)
    }
}

fn broken_through_super(scope: &Scope, of_class: bool, bodiless: bool) -> Option<Rule>
    ensures { result ≡ broken_by scope.now Super of_class bodiless }
{
    if !scope.has_this() {
        Some(Rule::NotInStatic)
    } else if of_class {
        Some(Rule::NotOffered)
    } else if bodiless {
        Some(Rule::NotImplemented)
    } else {
        None
    }
}

fn broken_by(scope: &Scope, through: &Through, of_class: bool, bodiless: bool) -> Option<Rule>
    ensures { result ≡ broken_by scope.now (through_of through.now) of_class bodiless }
{
    match through {
        Through::Nothing => {
            if of_class {
                None
            } else {
                instance_if(scope.has_this())
            }
        }
        Through::OfClass => instance_if(of_class),
        Through::Object(_) => {
            if of_class {
                Some(Rule::NotOffered)
            } else {
                None
            }
        }
        Through::Super => broken_through_super(scope, of_class, bodiless),
    }
}

// The rule that a call of a method breaks, if it breaks one.
fn broken(scope: &Scope, through: &Through, m: &Method) -> Option<Rule>
    ensures { result ≡ broken scope.now (through_of through.now) (method_seen m.now) }
{
    if is_outside(scope, m.is_private, m.class) {
        Some(Rule::Private)
    } else {
        broken_by(scope, through, is_static(m.form), m.is_abstract)
    }
}

fn receiver(alloc: Global, through: Through) -> Result<Box<Expr>, AllocError>
    ensures { IfOk result (λ e. receiver (through_of through) ≡ kernel.the (inner_of e)) }
{
    match through {
        Through::Object(object) => Ok(object),
        Through::Nothing => this(alloc),
        Through::OfClass => this(alloc),
        Through::Super => this(alloc),
    }
}

fn this(alloc: Global) -> Result<Box<Expr>, AllocError>
    ensures { IfOk result (λ e. inner_of e ≡ this_form) }
{
    Ok(Box::new(alloc, build::this())?)
}

// A method that isn't private is chosen by the class of its receiver, unless it is called through `super`.
fn call_form(through: &Through, m: &Method) -> CallForm
    ensures { result ≡ call_form (through_of through.now) (method_seen m.now) }
{
    let usual = if m.is_private {
        CallForm::Direct
    } else {
        CallForm::Chosen
    };
    match through {
        Through::Super => CallForm::Direct,
        Through::Nothing => usual,
        Through::Object(_) => usual,
        Through::OfClass => usual,
    }
}

fn call_of(
    alloc: Global,
    through: Through,
    k: u32,
    m: &Method,
    ty: Ty,
    args: Vec<Expr>,
    token: u32,
) -> Result<Expr, AllocError>
    ensures { IfOk result (λ e. expression e ≡ call_of (through_of through) k (method_seen m.now) ty
        (row_of (map expression args.items)) token) }
{
    if is_static(m.form) {
        return Ok(build::static_call(k, args, token));
    }
    let form = call_form(&through, m);
    let receiver = receiver(alloc, through)?;
    Ok(build::call(form, k, receiver, ty, args, token))
}

fn called_unless(
    alloc: Global,
    texts: &mut Texts,
    rule: Option<Rule>,
    through: Through,
    k: u32,
    m: &Method,
    ty: Ty,
    args: Vec<Meaning>,
    token: u32,
) -> Result<Meaning, TypeError>
    ensures { GetsTo meaning_of result texts.new (called_unless rule (through_of through) k
        (method_seen m.now) ty (map meaning_of args.items) token texts.old) }
{
    match rule {
        Some(rule) => Err(refused(rule, token)),
        None => {
            let forms = Vec::new(alloc);
            let args = brought_all(alloc, texts, forms, m.params.as_slice(), args)?;
            let form = call_of(alloc, through, k, m, ty, args, token)?;
            Ok(of_form(alloc, form, m.result)?)
        }
    }
}

fn called_at(
    alloc: Global,
    table: &ClassTable,
    scope: &Scope,
    texts: &mut Texts,
    through: Through,
    k: u32,
    ty: Ty,
    args: Vec<Meaning>,
    token: u32,
) -> Result<Meaning, TypeError>
    ensures { GetsTo meaning_of result texts.new (called_at scope.now (through_of through) k
        (slice_get (table_of table.now).methods k) ty (map meaning_of args.items) token texts.old) }
{
    match method_at(table, k) {
        None => Err(refused(Rule::NoMethod, token)),
        Some(m) => {
            let rule = broken(scope, &through, m);
            called_unless(alloc, texts, rule, through, k, m, ty, args, token)
        }
    }
}

/// A call of the method that a type has by a name for arguments.
#[tactic(auto, unfolding(crate::specs::Members::called))]
pub fn called(
    alloc: Global,
    table: &ClassTable,
    scope: &Scope,
    texts: &mut Texts,
    through: Through,
    ty: Ty,
    name: &str,
    args: Vec<Meaning>,
    token: u32,
) -> Result<Meaning, TypeError>
    ensures { Judged (table_of table.now) (λ j.
        GetsTo meaning_of result texts.new (called j (table_of table.now) scope.now
        (through_of through) ty name.now (map meaning_of args.items) token texts.old)) }
{
    let k = method_for(alloc, table, ty, name, args.as_slice(), token)?;
    called_at(alloc, table, scope, texts, through, k, ty, args, token)
}

fn is_abstract(table: &ClassTable, class: u32) -> bool
    ensures { result ≡ is_abstract (class_of (table_of table.now) class) }
{
    class < table.classes() && table.class(class).is_abstract
}

fn constructed(
    alloc: Global,
    table: &ClassTable,
    scope: &Scope,
    texts: &mut Texts,
    made: u32,
    k: u32,
    args: Vec<Meaning>,
    token: u32,
) -> Result<Meaning, TypeError>
    ensures { GetsTo meaning_of result texts.new
        (constructed scope.now made (is_abstract (class_of (table_of table.now) made)) k
        (slice_get (table_of table.now).methods k) (map meaning_of args.items) token texts.old) }
{
    let Some(m) = method_at(table, k) else {
        return Err(refused(Rule::NoMethod, token));
    };
    if is_outside(scope, m.is_private, m.class) {
        return Err(refused(Rule::Private, token));
    }
    if is_abstract(table, made) {
        return Err(refused(Rule::NotImplemented, token));
    }
    let forms = Vec::new(alloc);
    let args = brought_all(alloc, texts, forms, m.params.as_slice(), args)?;
    let form = build::new_by(made, k, args, token);
    Ok(of_form(alloc, form, class(made))?)
}

// Object has no constructor to call.
fn new_plain(alloc: Global, args: &[Meaning], token: u32) -> Result<Meaning, TypeError>
    ensures { GivesAlways meaning_of result (new_plain (map meaning_of args.now) token) }
{
    if args.is_empty() {
        let form = build::new_plain(Vec::new(alloc), token);
        return Ok(of_form(alloc, form, OBJECT)?);
    }
    if some_void(args) {
        Err(refused(Rule::BadOperand, token))
    } else {
        Err(refused(Rule::NoMethod, token))
    }
}

/// `new` of a class.
#[tactic(auto, unfolding(crate::specs::Members::created))]
pub fn created(
    alloc: Global,
    table: &ClassTable,
    scope: &Scope,
    texts: &mut Texts,
    made: u32,
    args: Vec<Meaning>,
    token: u32,
) -> Result<Meaning, TypeError>
    ensures { Judged (table_of table.now) (λ j. GetsTo meaning_of result texts.new (created j
        (table_of table.now) scope.now made (map meaning_of args.items) token texts.old)) }
{
    if made == 0 {
        return new_plain(alloc, args.as_slice(), token);
    }
    if is_interface(table, made) {
        if some_void(args.as_slice()) {
            return Err(refused(Rule::BadOperand, token));
        }
        return Err(refused(Rule::NotImplemented, token));
    }
    let k = method_for(alloc, table, class(made), "new", args.as_slice(), token)?;
    constructed(alloc, table, scope, texts, made, k, args, token)
}
