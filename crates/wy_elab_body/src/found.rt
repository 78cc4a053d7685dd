//! What is found of expressions in a body that is being made. Nothing here makes a statement.

ghost use Rattle.std.specs.Prelude.{◌≡◌, IfOk, option_and_then, option_map};
ghost use Rattle.wy_constant.specs.Constant.{constant_variable};
ghost use Rattle.wy_constant.specs.Fields.{class_named};
ghost use Rattle.wy_elab_expr.specs.Elaboration.{class_for_new, initialized, type_written};
ghost use Rattle.wy_elab_expr.specs.Views.{GivesAlways, inner_of};
ghost use Rattle.wy_elab_body.specs.Making.{changed, expressed};
ghost use Rattle.wy_elab_body.specs.Parts.{caught_class, condition, performed, returned, thrown};
ghost use Rattle.wy_elab_body.specs.Statements.{Setting as PlainSetting, constant_if, must_be_throwable, value_of_initial};
ghost use Rattle.wy_elab_body.specs.Views.{IsSetting, MakesTo, making_of, outcome_of};
ghost use Rattle.wy_table.specs.ClassTable.{table_of};
ghost use Rattle.wy_kernel.specs.Table.{constant_value};
ghost use Rattle.wy_kernel.specs.View.{act, expression as kernel_expression};
ghost use Rattle.wy_syntax.specs.View.{expression_of, initial_of, named_of, type_seen};

use crate::around::Outcome;
use crate::leaf::refused;
use crate::making::Making;
use crate::parts;
use crate::setting::Setting;
use std::alloc::{AllocError, Global};
use wy_constant::{Rule, Scope, TypeError, constant_of, constant_variable};
use wy_elab_expr::{Texts, class_for_new};
use wy_kernel::form::{Const, Expr, StmtForm};
use wy_kernel::types::Ty;
use wy_syntax::expression::{Expression, Initial};
use wy_syntax::name::{Named, WrittenType};
use wy_table::table::ClassTable;

/// The test of a statement with this site.
pub fn condition(
    setting: &Setting,
    making: &Making,
    texts: &mut Texts,
    test: &Expression,
    site: u32,
) -> Result<Box<Expr>, TypeError>
    ensures { (w : PlainSetting) → IsSetting setting.now w
        → MakesTo inner_of result (making_of making.now texts.new) (expressed (condition w.judgement
        w.table (expression_of test.now) site) (making_of making.now texts.old)) }
{
    parts::condition(
        setting.alloc,
        setting.table,
        &making.scope,
        texts,
        test,
        site,
    )
}

/// What an expression that is a statement does.
pub fn performed(
    setting: &Setting,
    making: &Making,
    texts: &mut Texts,
    value: &Expression,
) -> Result<StmtForm, TypeError>
    ensures { (w : PlainSetting) → IsSetting setting.now w
        → MakesTo act result (making_of making.now texts.new) (expressed (performed w.judgement
        w.table (expression_of value.now)) (making_of making.now texts.old)) }
{
    parts::performed(setting.alloc, setting.table, &making.scope, texts, value)
}

/// What a `return` gives back.
pub fn returned(
    setting: &Setting,
    making: &Making,
    texts: &mut Texts,
    outcome: Outcome,
    value: &Expression,
    token: u32,
) -> Result<Expr, TypeError>
    ensures { (w : PlainSetting) → IsSetting setting.now w → MakesTo kernel_expression result
        (making_of making.now texts.new) (expressed (returned w.judgement w.table
        (outcome_of outcome) (expression_of value.now) token) (making_of making.now texts.old)) }
{
    parts::returned(
        setting.alloc,
        setting.table,
        &making.scope,
        texts,
        outcome,
        value,
        token,
    )
}

/// The object that is thrown.
pub fn thrown(
    setting: &Setting,
    making: &Making,
    texts: &mut Texts,
    value: &Expression,
    token: u32,
) -> Result<Expr, TypeError>
    ensures { (w : PlainSetting) → IsSetting setting.now w
        → MakesTo kernel_expression result (making_of making.now texts.new) (expressed (thrown
        w.judgement w.table (expression_of value.now) token) (making_of making.now texts.old)) }
{
    parts::thrown(
        setting.alloc,
        setting.table,
        &making.scope,
        texts,
        value,
        token,
    )
}

fn class_taken(table: &ClassTable, class: &Named) -> Result<u32, TypeError>
    ensures { GivesAlways (λ c. c) result (class_for_new (class_named (table_of table.now).classes
        (named_of class.now).name) (named_of class.now).token) }
{
    class_for_new(table, class.name.as_str(), class.token)
}

/// The class that a clause of a `try` takes.
pub fn caught_class(
    setting: &Setting,
    making: &Making,
    texts: &Texts,
    class: &Named,
    site: u32,
) -> Result<u32, TypeError>
    ensures { (w : PlainSetting) → IsSetting setting.now w → MakesTo (λ c.
        c) result (making_of making.now texts.now) (expressed (caught_class w.judgement w.table
        (named_of class.now) site) (making_of making.now texts.now)) }
{
    class_taken(setting.table, class)
}

/// What a variable of a type is given first, by the token of its Set.
pub fn initialized(
    setting: &Setting,
    making: &Making,
    texts: &mut Texts,
    ty: Ty,
    initial: &Initial,
    token: u32,
) -> Result<Expr, TypeError>
    ensures { (w : PlainSetting) → IsSetting setting.now w → MakesTo kernel_expression result
        (making_of making.now texts.new) (expressed (λ s. initialized w.judgement w.table s ty
        (initial_of initial.now) token) (making_of making.now texts.old)) }
{
    wy_elab_expr::initialized(
        setting.alloc,
        setting.table,
        &making.scope,
        texts,
        ty,
        initial,
        token,
    )
}

/// The type that is written.
pub fn type_written(
    setting: &Setting,
    making: &Making,
    texts: &Texts,
    ty: &WrittenType,
) -> Result<Ty, TypeError>
    ensures { (w : PlainSetting) → IsSetting setting.now w
        → MakesTo (λ t. t) result (making_of making.now texts.now) (expressed (λ s.
        type_written w.table (type_seen ty.now)) (making_of making.now texts.now)) }
{
    wy_elab_expr::type_written(setting.table, ty)
}

// This value as that of a variable of a type, where it may be.
fn fixed_as(ty: Ty, value: Option<Const>) -> Option<Const>
    ensures { option_map constant_value result ≡ option_and_then (constant_variable ty)
        (option_map constant_value value) }
{
    match value {
        Some(value) => constant_variable(&ty, value),
        None => None,
    }
}

// The value of a variable of a type that is given this first, where it is a constant one.
#[tactic(auto, using(wy_syntax::proofs::ExpressionViews::view_value, wy_syntax::proofs::ExpressionViews::view_listed))]
fn value_of_initial(
    alloc: Global,
    table: &ClassTable,
    scope: &Scope,
    ty: Ty,
    initial: &Initial,
) -> Result<Option<Const>, AllocError>
    ensures { IfOk result (λ c. option_map constant_value c
        ≡ value_of_initial (table_of table.now) ty (initial_of initial.now) scope.now) }
{
    match initial {
        Initial::Value { value } => Ok(fixed_as(ty, constant_of(alloc, table, scope, value)?)),
        Initial::Listed {
            elements: _,
            brace: _,
        } => Ok(None),
    }
}

/// Says which value the variable has that was declared last, if it is a constant variable.
pub fn give_constant(
    setting: &Setting,
    making: &mut Making,
    texts: &Texts,
    is_final: bool,
    ty: Ty,
    initial: &Initial,
) -> Result<(), TypeError>
    ensures { (w : PlainSetting) → IsSetting setting.now w → MakesTo (λ u.
        u) result (making_of making.new texts.now) (changed (constant_if is_final w.table ty
        (initial_of initial.now)) (making_of making.old texts.now)) }
{
    let value = if is_final {
        value_of_initial(setting.alloc, setting.table, &making.scope, ty, initial)?
    } else {
        None
    };
    making.give_value(texts, value);
    Ok(())
}

/// Refuses a clause whose class is no Throwable.
pub fn must_be_throwable(
    setting: &Setting,
    making: &Making,
    texts: &Texts,
    class: u32,
    site: u32,
) -> Result<(), TypeError>
    ensures { (w : PlainSetting) → IsSetting setting.now w → MakesTo (λ u. u) result (making_of
        making.now texts.now) (must_be_throwable w class site (making_of making.now texts.now)) }
{
    if parts::is_throwable(setting.table, class) {
        Ok(())
    } else {
        Err(refused(Rule::BadOperand, site))
    }
}
