//! The value of a constant expression (JLS 15.28).

ghost use Rattle.std.specs.Prelude.{◌≡◌, ◌&&◌, ◌||◌, IfOk, option_and_then, option_map};
ghost use Rattle.wy_table.specs.ClassTable.{table_of};
ghost use Rattle.wy_kernel.specs.Table.{constant_value};
ghost use Rattle.wy_syntax.specs.View.{expression_of, type_seen};
ghost use Rattle.wy_constant.specs.Constant.{binary_constant, both, cast_constant, choice_constant, combined, constant, name_in, truth, unary_constant};

use crate::fold::{
    binary_value, cast_value, choice_value, conjunction, disjunction, literal_value, unary_value,
};
use crate::names::{value_of_name, value_of_qualified};
use crate::scope::Scope;
use crate::simple::units_in;
use std::alloc::{AllocError, Global};
use wy_kernel::form::Const;
use wy_kernel::operator::{BinOp, UnOp};
use wy_syntax::expression::Expression;
use wy_syntax::name::WrittenType;
use wy_table::table::ClassTable;

#[tactic(auto, using(crate::proofs::Views::view_name))]
fn name_of(e: &Expression) -> Option<&str>
    ensures { option_map (λ n. n.now) result ≡ name_in (expression_of e.now) }
{
    match e {
        Expression::Name { name, token: _ } => Some(name.as_str()),
        _ => None,
    }
}

/// The value of an expression, and None exactly where it isn't a constant one. A text that has more
/// units than the constant variables of the body leave is want of memory.
pub fn constant_of(
    alloc: Global,
    table: &ClassTable,
    scope: &Scope,
    e: &Expression,
) -> Result<Option<Const>, AllocError>
    ensures { IfOk result (λ c. option_map constant_value c
        ≡ constant (table_of table.now) scope.now (expression_of e.now)) }
{
    let value = folded(alloc, table, scope, e)?;
    if units_in(&value) <= scope.units_left() {
        Ok(value)
    } else {
        Err(AllocError)
    }
}

#[cycle(constant)]
#[tactic(auto, using(crate::proofs::Arms::of_literal, crate::proofs::Arms::of_name, crate::proofs::Arms::of_group, crate::proofs::Arms::of_field, crate::proofs::Arms::of_unary, crate::proofs::Arms::of_binary, crate::proofs::Arms::of_both, crate::proofs::Arms::of_either, crate::proofs::Arms::of_cast, crate::proofs::Arms::of_choice))]
fn folded(
    alloc: Global,
    table: &ClassTable,
    scope: &Scope,
    e: &Expression,
) -> Result<Option<Const>, AllocError>
    ensures { IfOk result (λ c. option_map constant_value c
        ≡ constant (table_of table.now) scope.now (expression_of e.now)) }
{
    match e {
        Expression::Literal { value, token: _ } => literal_value(value),
        Expression::Name { name, token: _ } => value_of_name(table, scope, name.as_str()),
        Expression::Group { inner, token: _ } => folded(alloc, table, scope, inner),
        Expression::Field {
            object,
            name,
            token: _,
        } => value_of_qualified(table, scope, name_of(object), name.as_str()),
        Expression::Unary {
            op,
            operand,
            token: _,
        } => unary(alloc, table, scope, *op, operand),
        Expression::Binary {
            op,
            left,
            right,
            token: _,
        } => binary(alloc, table, scope, *op, left, right),
        Expression::Both {
            left,
            right,
            token: _,
        } => both_hold(alloc, table, scope, left, right),
        Expression::Either {
            left,
            right,
            token: _,
        } => either_holds(alloc, table, scope, left, right),
        Expression::Cast {
            ty,
            operand,
            token: _,
        } => cast(alloc, table, scope, ty, operand),
        Expression::Choice {
            test,
            main,
            other,
            token: _,
        } => choice(alloc, table, scope, test, main, other),
        _ => Ok(None),
    }
}

#[cycle(constant)]
fn unary(
    alloc: Global,
    table: &ClassTable,
    scope: &Scope,
    op: UnOp,
    operand: &Expression,
) -> Result<Option<Const>, AllocError>
    ensures { IfOk result (λ c. option_map constant_value c ≡ option_and_then (unary_constant op)
        (constant (table_of table.now) scope.now (expression_of operand.now))) }
{
    let c = folded(alloc, table, scope, operand)?;
    Ok(unary_value(op, c))
}

#[cycle(constant)]
fn binary(
    alloc: Global,
    table: &ClassTable,
    scope: &Scope,
    op: BinOp,
    left: &Expression,
    right: &Expression,
) -> Result<Option<Const>, AllocError>
    ensures { IfOk result (λ c. option_map constant_value c ≡ both
        (binary_constant op) (constant (table_of table.now) scope.now (expression_of left.now))
        (constant (table_of table.now) scope.now (expression_of right.now))) }
{
    let a = folded(alloc, table, scope, left)?;
    let b = folded(alloc, table, scope, right)?;
    binary_value(alloc, op, a, b)
}

#[cycle(constant)]
fn both_hold(
    alloc: Global,
    table: &ClassTable,
    scope: &Scope,
    left: &Expression,
    right: &Expression,
) -> Result<Option<Const>, AllocError>
    ensures { IfOk result (λ c.
        option_map constant_value c ≡ combined (λ p q. p && q) (option_and_then truth
        (constant (table_of table.now) scope.now (expression_of left.now))) (option_and_then truth
        (constant (table_of table.now) scope.now (expression_of right.now)))) }
{
    let a = folded(alloc, table, scope, left)?;
    let b = folded(alloc, table, scope, right)?;
    Ok(conjunction(&a, &b))
}

#[cycle(constant)]
fn either_holds(
    alloc: Global,
    table: &ClassTable,
    scope: &Scope,
    left: &Expression,
    right: &Expression,
) -> Result<Option<Const>, AllocError>
    ensures { IfOk result (λ c.
        option_map constant_value c ≡ combined (λ p q. p || q) (option_and_then truth
        (constant (table_of table.now) scope.now (expression_of left.now))) (option_and_then truth
        (constant (table_of table.now) scope.now (expression_of right.now)))) }
{
    let a = folded(alloc, table, scope, left)?;
    let b = folded(alloc, table, scope, right)?;
    Ok(disjunction(&a, &b))
}

#[cycle(constant)]
fn cast(
    alloc: Global,
    table: &ClassTable,
    scope: &Scope,
    ty: &WrittenType,
    operand: &Expression,
) -> Result<Option<Const>, AllocError>
    ensures { IfOk result (λ c. option_map constant_value c ≡ option_and_then (cast_constant
        (type_seen ty.now)) (constant (table_of table.now) scope.now (expression_of operand.now))) }
{
    let c = folded(alloc, table, scope, operand)?;
    Ok(cast_value(ty, c))
}

#[cycle(constant)]
fn choice(
    alloc: Global,
    table: &ClassTable,
    scope: &Scope,
    test: &Expression,
    main: &Expression,
    other: &Expression,
) -> Result<Option<Const>, AllocError>
    ensures { IfOk result (λ c. option_map constant_value c ≡ choice_constant
        (option_and_then truth (constant (table_of table.now) scope.now (expression_of test.now)))
        (constant (table_of table.now) scope.now (expression_of main.now))
        (constant (table_of table.now) scope.now (expression_of other.now))) }
{
    let t = folded(alloc, table, scope, test)?;
    let a = folded(alloc, table, scope, main)?;
    let b = folded(alloc, table, scope, other)?;
    Ok(choice_value(&t, a, b))
}
