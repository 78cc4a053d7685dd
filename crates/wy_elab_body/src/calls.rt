//! Calls of constructors by constructors (JLS 8.8.7.1).

ghost use Rattle.std.specs.Prelude.{◌≡◌, ◌<◌, [], IfOk, OnSome, map, option_map, slice_get};
ghost use Rattle.wy_elab_expr.specs.Views.{GetsTo, GivesAlways, Judged, meaning_of};
ghost use Rattle.wy_elab_body.specs.Making.{expressed};
ghost use Rattle.wy_elab_body.specs.Parts.{constructed_by, constructor_call, constructor_called, constructor_form, none_for_object, object_called};
ghost use Rattle.wy_elab_body.specs.Statements.{Setting as PlainSetting};
ghost use Rattle.wy_elab_body.specs.Views.{IsSetting, MakesTo, making_of};
ghost use Rattle.wy_table.specs.ClassTable.{table_of};
ghost use Rattle.wy_kernel.specs.View.{expression as kernel_expression, method_of as method_seen, row_of as kernel_row};
ghost use Rattle.wy_syntax.specs.View.{expression_of, row_of};

use crate::leaf::refused;
use crate::making::Making;
use crate::on_this::call_on_this;
use crate::setting::Setting;
use std::alloc::{AllocError, Global};
use wy_constant::{Rule, Scope, TypeError};
use wy_elab_expr::{Meaning, Texts, brought_all, class, elaborated_all, method_for, some_void};
use wy_kernel::form::{CallForm, Expr};
use wy_kernel::types::Method;
use wy_syntax::expression::Expression;
use wy_table::table::ClassTable;

fn method_at(table: &ClassTable, k: u32) -> Option<&Method>
    ensures value { option_map (λ m.
        method_seen m.now) result ≡ slice_get (table_of table.now).methods k }
    ensures number { OnSome result (k < 4294967295) }
{
    if k < table.methods() {
        Some(table.method(k))
    } else {
        None
    }
}

fn constructor_form(
    alloc: Global,
    class_number: u32,
    k: u32,
    args: Vec<Expr>,
    site: u32,
) -> Result<Expr, AllocError>
    ensures { IfOk result (λ e. kernel_expression e ≡ constructor_form class_number k
        (kernel_row (map kernel_expression args.items)) site) }
{
    call_on_this(alloc, CallForm::Direct, k, class_number, args, site)
}

fn constructed_by(
    alloc: Global,
    table: &ClassTable,
    scope: &Scope,
    texts: &mut Texts,
    class_number: u32,
    k: u32,
    args: Vec<Meaning>,
    token: u32,
) -> Result<Expr, TypeError>
    ensures { GetsTo kernel_expression result texts.new (constructed_by scope.now class_number k
        (slice_get (table_of table.now).methods k) (map meaning_of args.items) token texts.old) }
{
    let Some(m) = method_at(table, k) else {
        return Err(refused(Rule::NoMethod, token));
    };
    if m.is_private && m.class != scope.class() {
        return Err(refused(Rule::Private, token));
    }
    let forms = Vec::new(alloc);
    let args = brought_all(alloc, texts, forms, m.params.as_slice(), args)?;
    Ok(constructor_form(alloc, class_number, k, args, token)?)
}

#[tactic(auto, unfolding(crate::specs::Parts::constructor_called))]
fn called_with(
    alloc: Global,
    table: &ClassTable,
    scope: &Scope,
    texts: &mut Texts,
    class_number: u32,
    args: Vec<Meaning>,
    token: u32,
) -> Result<Expr, TypeError>
    ensures { Judged (table_of table.now) (λ j.
        GetsTo kernel_expression result texts.new (constructor_called j
        (table_of table.now) class_number (map meaning_of args.items) token scope.now texts.old)) }
{
    let k = method_for(
        alloc,
        table,
        class(class_number),
        "new",
        args.as_slice(),
        token,
    )?;
    constructed_by(alloc, table, scope, texts, class_number, k, args, token)
}

fn called_plainly(
    alloc: Global,
    table: &ClassTable,
    scope: &Scope,
    texts: &mut Texts,
    class_number: u32,
    token: u32,
) -> Result<Expr, TypeError>
    ensures { Judged (table_of table.now) (λ j. GetsTo kernel_expression result texts.new
        (constructor_called j (table_of table.now) class_number [] token scope.now texts.old)) }
{
    let none = Vec::new(alloc);
    called_with(alloc, table, scope, texts, class_number, none, token)
}

#[tactic(auto, unfolding(crate::specs::Parts::constructor_call))]
fn called_as_written(
    alloc: Global,
    table: &ClassTable,
    scope: &Scope,
    texts: &mut Texts,
    class_number: u32,
    args: &[Expression],
    token: u32,
) -> Result<Expr, TypeError>
    ensures { Judged (table_of table.now) (λ j.
        GetsTo kernel_expression result texts.new (constructor_call j (table_of table.now)
        class_number (row_of (map expression_of args.now)) token scope.now texts.old)) }
{
    let ms = elaborated_all(alloc, table, scope, texts, args)?;
    called_with(alloc, table, scope, texts, class_number, ms, token)
}

fn none_for_object(args: &[Meaning], token: u32) -> Result<(), TypeError>
    ensures { GivesAlways (λ u. u) result (none_for_object (map meaning_of args.now) token) }
{
    if args.is_empty() {
        return Ok(());
    }
    if some_void(args) {
        Err(refused(Rule::BadOperand, token))
    } else {
        Err(refused(Rule::NoMethod, token))
    }
}

#[tactic(auto, unfolding(crate::specs::Parts::object_called))]
fn no_call_as_written(
    alloc: Global,
    table: &ClassTable,
    scope: &Scope,
    texts: &mut Texts,
    args: &[Expression],
    token: u32,
) -> Result<(), TypeError>
    ensures { Judged (table_of table.now) (λ j. GetsTo (λ u. u) result texts.new (object_called j
        (table_of table.now) (row_of (map expression_of args.now)) token scope.now texts.old)) }
{
    let ms = elaborated_all(alloc, table, scope, texts, args)?;
    none_for_object(ms.as_slice(), token)
}

/// A call of the constructor of a class that takes nothing.
pub fn constructor_called(
    setting: &Setting,
    making: &Making,
    texts: &mut Texts,
    class: u32,
    token: u32,
) -> Result<Expr, TypeError>
    ensures { (w : PlainSetting) → IsSetting setting.now w
        → MakesTo kernel_expression result (making_of making.now texts.new) (expressed
        (constructor_called w.judgement w.table class [] token) (making_of making.now texts.old)) }
{
    called_plainly(
        setting.alloc,
        setting.table,
        &making.scope,
        texts,
        class,
        token,
    )
}

/// A call of a constructor of a class with arguments that are written.
pub fn constructor_call(
    setting: &Setting,
    making: &Making,
    texts: &mut Texts,
    class: u32,
    args: &[Expression],
    token: u32,
) -> Result<Expr, TypeError>
    ensures { (w : PlainSetting) → IsSetting setting.now w → MakesTo kernel_expression result
        (making_of making.now texts.new) (expressed (constructor_call w.judgement w.table class
        (row_of (map expression_of args.now)) token) (making_of making.now texts.old)) }
{
    called_as_written(
        setting.alloc,
        setting.table,
        &making.scope,
        texts,
        class,
        args,
        token,
    )
}

/// Refuses arguments that are written for Object's constructor.
pub fn object_called(
    setting: &Setting,
    making: &Making,
    texts: &mut Texts,
    args: &[Expression],
    token: u32,
) -> Result<(), TypeError>
    ensures { (w : PlainSetting) → IsSetting setting.now w → MakesTo (λ u.
        u) result (making_of making.now texts.new) (expressed (object_called w.judgement w.table
        (row_of (map expression_of args.now)) token) (making_of making.now texts.old)) }
{
    no_call_as_written(
        setting.alloc,
        setting.table,
        &making.scope,
        texts,
        args,
        token,
    )
}
