//! Expressions become forms: one rule a form, operands from left to right before the form's own rules (JLS 15.7).

ghost use Rattle.std.specs.Prelude.{◌≡◌, map, option_map, true};
ghost use Rattle.wy_table.specs.ClassTable.{table_of};
ghost use Rattle.wy_kernel.specs.View.{expression};
ghost use Rattle.wy_syntax.specs.Syntax as source;
ghost use Rattle.wy_syntax.specs.View.{base_seen, expression_of, initial_of, named_of, row_of, type_seen};
ghost use Rattle.wy_syntax.specs.View.{element_of as element_seen, elements_of as elements_seen};
ghost use Rattle.wy_elab_expr.specs.Elaboration.{elaborated, elaborated_all, elements_of, initialized, target};
ghost use Rattle.wy_elab_expr.specs.Groups.{is_no_call, is_no_operator, is_no_place};
ghost use Rattle.wy_elab_expr.specs.Views.{GetsTo, IsFound, IsTarget, Judged, listing_of, meaning_of, spot_of};

use crate::array::{Listing, how_many, listed_form, new_array, or_type};
use crate::assignment::{
    above, assigned, assigned_value, class_target, element_of, element_spot, field_target, read,
    stepped, super_spot, updated,
};
use crate::bring::class;
use crate::call::{Through, called, created};
use crate::call_on::{called_on, called_on_class};
use crate::cast::{cast_of, instance_of};
use crate::choice::choice_of;
use crate::fields::{field_read, named, named_spot, qualified_name};
use crate::literal::literal_meaning;
use crate::meaning::{Meaning, of_form};
use crate::names::{class_for_new, class_in, is_place, stream_in, type_with, type_written};
use crate::operation::{binary_of, both_of, either_of, unary_of};
use crate::own::{read_super, read_this};
use crate::printing::called_on_stream;
use crate::refusal::refused;
use crate::sizes::sizes_of;
use crate::spot::Spot;
use crate::texts::Texts;
use std::alloc::Global;
use wy_constant::{Rule, Scope, TypeError};
use wy_kernel::form::Expr;
use wy_kernel::operator::{BinOp, UnOp};
use wy_kernel::types::Ty;
use wy_syntax::expression::{Element, Expression, Initial};
use wy_syntax::name::{Named, WrittenBase, WrittenType};
use wy_table::table::ClassTable;

/// What an expression is found to be.
#[cycle(elaboration)]
#[tactic(auto, using(crate::proofs::Arms::of_literal, crate::proofs::Arms::of_name, crate::proofs::Arms::of_this, crate::proofs::Arms::of_group, wy_syntax::proofs::ExpressionViews::view_field, crate::proofs::Arms::of_super_field, wy_syntax::proofs::ExpressionViews::view_element))]
pub fn elaborated(
    alloc: Global,
    table: &ClassTable,
    scope: &Scope,
    texts: &mut Texts,
    e: &Expression,
) -> Result<Meaning, TypeError>
    ensures { Judged (table_of table.now) (λ j. GetsTo meaning_of result texts.new
        (elaborated j (table_of table.now) scope.now (expression_of e.now) texts.old)) }
{
    match e {
        Expression::Literal { value, token } => literal_meaning(alloc, value, *token),
        Expression::Name { name, token } => named(alloc, table, scope, name.as_str(), *token),
        Expression::This { token } => read_this(alloc, scope, *token),
        Expression::Group { inner, token: _ } => elaborated(alloc, table, scope, texts, inner),
        Expression::Field {
            object,
            name,
            token,
        } => read_field(alloc, table, scope, texts, object, name.as_str(), *token),
        Expression::SuperField { name, token } => {
            read_super(alloc, table, scope, name.as_str(), *token)
        }
        Expression::Element {
            array,
            index,
            token,
        } => read_element(alloc, table, scope, texts, array, index, *token),
        _ => elaborated_call(alloc, table, scope, texts, e),
    }
}

// A call, an object or an array that is made, or an operator.
#[cycle(elaboration)]
#[tactic(auto, using(wy_syntax::proofs::ExpressionViews::view_invoke, wy_syntax::proofs::ExpressionViews::view_invoke_on, wy_syntax::proofs::ExpressionViews::view_super_invoke, wy_syntax::proofs::ExpressionViews::view_new_object, wy_syntax::proofs::ExpressionViews::view_new_array, wy_syntax::proofs::ExpressionViews::view_new_list))]
fn elaborated_call(
    alloc: Global,
    table: &ClassTable,
    scope: &Scope,
    texts: &mut Texts,
    e: &Expression,
) -> Result<Meaning, TypeError>
    requires { is_no_place (expression_of e.now) ≡ true }
    ensures { IsFound (table_of table.now) scope.now
        (expression_of e.now) result texts.old texts.new }
{
    match e {
        Expression::Invoke { name, args, token } => {
            invoked(alloc, table, scope, texts, name.as_str(), args, *token)
        }
        Expression::InvokeOn {
            object,
            name,
            args,
            token,
        } => invoked_on(
            alloc,
            table,
            scope,
            texts,
            object,
            name.as_str(),
            args,
            *token,
        ),
        Expression::SuperInvoke { name, args, token } => {
            invoked_super(alloc, table, scope, texts, name.as_str(), args, *token)
        }
        Expression::NewObject {
            class: of,
            args,
            token,
        } => new_object(alloc, table, scope, texts, of, args, *token),
        Expression::NewArray {
            base,
            base_token,
            sizes,
            brackets,
            token,
        } => new_sized(
            alloc,
            table,
            scope,
            texts,
            base,
            *base_token,
            sizes,
            *brackets,
            *token,
        ),
        Expression::NewList {
            base,
            base_token,
            brackets,
            elements,
            brace,
            token,
        } => new_listed(
            alloc,
            table,
            scope,
            texts,
            base,
            *base_token,
            *brackets,
            elements,
            *brace,
            *token,
        ),
        _ => elaborated_operator(alloc, table, scope, texts, e),
    }
}

// An operator that gives no new value to a variable, or one that does, or `?:`.
#[cycle(elaboration)]
#[tactic(auto, using(wy_syntax::proofs::ExpressionViews::view_unary, wy_syntax::proofs::ExpressionViews::view_binary, wy_syntax::proofs::ExpressionViews::view_both, wy_syntax::proofs::ExpressionViews::view_either, wy_syntax::proofs::ExpressionViews::view_instance_of, wy_syntax::proofs::ExpressionViews::view_cast))]
fn elaborated_operator(
    alloc: Global,
    table: &ClassTable,
    scope: &Scope,
    texts: &mut Texts,
    e: &Expression,
) -> Result<Meaning, TypeError>
    requires { is_no_call (expression_of e.now) ≡ true }
    ensures { IsFound (table_of table.now) scope.now
        (expression_of e.now) result texts.old texts.new }
{
    match e {
        Expression::Unary { op, operand, token } => {
            unary(alloc, table, scope, texts, *op, operand, *token)
        }
        Expression::Binary {
            op,
            left,
            right,
            token,
        } => binary(alloc, table, scope, texts, *op, left, right, *token),
        Expression::Both { left, right, token } => {
            both(alloc, table, scope, texts, left, right, *token)
        }
        Expression::Either { left, right, token } => {
            either(alloc, table, scope, texts, left, right, *token)
        }
        Expression::InstanceOf { left, ty, token } => {
            type_test(alloc, table, scope, texts, left, ty, *token)
        }
        Expression::Cast { ty, operand, token } => {
            cast_to(alloc, table, scope, texts, ty, operand, *token)
        }
        _ => elaborated_choice(alloc, table, scope, texts, e),
    }
}

// What gives a variable a new value, or `?:`, or what is no expression.
#[cycle(elaboration)]
#[tactic(auto, using(wy_syntax::proofs::ExpressionViews::view_step, wy_syntax::proofs::ExpressionViews::view_choice, wy_syntax::proofs::ExpressionViews::view_assign, wy_syntax::proofs::ExpressionViews::view_update))]
fn elaborated_choice(
    alloc: Global,
    table: &ClassTable,
    scope: &Scope,
    texts: &mut Texts,
    e: &Expression,
) -> Result<Meaning, TypeError>
    requires { is_no_operator (expression_of e.now) ≡ true }
    ensures { IsFound (table_of table.now) scope.now
        (expression_of e.now) result texts.old texts.new }
{
    match e {
        Expression::Step {
            is_before,
            is_up,
            operand,
            token,
        } => step_of(
            alloc, table, scope, texts, *is_before, *is_up, operand, *token,
        ),
        Expression::Choice {
            test,
            main,
            other,
            token,
        } => choice_between(alloc, table, scope, texts, test, main, other, *token),
        Expression::Assign { left, value, token } => {
            assignment_to(alloc, table, scope, texts, left, value, *token)
        }
        Expression::Update {
            op,
            left,
            value,
            token,
        } => update_of(alloc, table, scope, texts, *op, left, value, *token),
        _ => Err(refused(Rule::BadOperand, 0)),
    }
}

// `name(..)`
#[cycle(elaboration)]
#[tactic(auto, unfolding(crate::specs::Elaboration::elaborated))]
fn invoked(
    alloc: Global,
    table: &ClassTable,
    scope: &Scope,
    texts: &mut Texts,
    name: &str,
    args: &[Expression],
    token: u32,
) -> Result<Meaning, TypeError>
    ensures { IsFound (table_of table.now) scope.now (source.Invoke name.now
        (row_of (map expression_of args.now)) token) result texts.old texts.new }
{
    let args = elaborated_all(alloc, table, scope, texts, args)?;
    let ty = class(scope.class());
    let through = Through::Nothing;
    called(alloc, table, scope, texts, through, ty, name, args, token)
}

// `object.name`
#[cycle(elaboration)]
fn read_field(
    alloc: Global,
    table: &ClassTable,
    scope: &Scope,
    texts: &mut Texts,
    object: &Expression,
    name: &str,
    token: u32,
) -> Result<Meaning, TypeError>
    ensures { IsFound (table_of table.now) scope.now
        (source.Field (expression_of object.now) name.now token) result texts.old texts.new }
{
    match class_in(table, scope, object) {
        Some(c) => qualified_name(alloc, table, scope, c.name, name, c.token, token),
        None => {
            let m = elaborated(alloc, table, scope, texts, object)?;
            field_read(alloc, table, scope, texts, m, name, token)
        }
    }
}

// `object.name(..)`
#[cycle(elaboration)]
fn invoked_on(
    alloc: Global,
    table: &ClassTable,
    scope: &Scope,
    texts: &mut Texts,
    object: &Expression,
    name: &str,
    args: &[Expression],
    token: u32,
) -> Result<Meaning, TypeError>
    ensures { IsFound (table_of table.now) scope.now (source.InvokeOn (expression_of object.now)
        name.now (row_of (map expression_of args.now)) token) result texts.old texts.new }
{
    match stream_in(table, scope, object) {
        Some(stream) => {
            let args = elaborated_all(alloc, table, scope, texts, args)?;
            called_on_stream(alloc, texts, stream, name, args, token)
        }
        None => match class_in(table, scope, object) {
            Some(c) => {
                let args = elaborated_all(alloc, table, scope, texts, args)?;
                called_on_class(alloc, table, scope, texts, c, name, args, token)
            }
            None => {
                let m = elaborated(alloc, table, scope, texts, object)?;
                let args = elaborated_all(alloc, table, scope, texts, args)?;
                called_on(alloc, table, scope, texts, m, name, args, token)
            }
        },
    }
}

// `super.name(..)`
#[cycle(elaboration)]
#[tactic(auto, unfolding(crate::specs::Elaboration::elaborated))]
fn invoked_super(
    alloc: Global,
    table: &ClassTable,
    scope: &Scope,
    texts: &mut Texts,
    name: &str,
    args: &[Expression],
    token: u32,
) -> Result<Meaning, TypeError>
    ensures { IsFound (table_of table.now) scope.now (source.SuperInvoke name.now
        (row_of (map expression_of args.now)) token) result texts.old texts.new }
{
    let args = elaborated_all(alloc, table, scope, texts, args)?;
    let ty = class(above(table, scope));
    let through = Through::Super;
    called(alloc, table, scope, texts, through, ty, name, args, token)
}

// `array[index]`
#[cycle(elaboration)]
#[tactic(auto, unfolding(crate::specs::Elaboration::elaborated))]
fn read_element(
    alloc: Global,
    table: &ClassTable,
    scope: &Scope,
    texts: &mut Texts,
    array: &Expression,
    index: &Expression,
    token: u32,
) -> Result<Meaning, TypeError>
    ensures { IsFound (table_of table.now) scope.now (source.Element (expression_of array.now)
        (expression_of index.now) token) result texts.old texts.new }
{
    let a = elaborated(alloc, table, scope, texts, array)?;
    let i = elaborated(alloc, table, scope, texts, index)?;
    let p = element_spot(alloc, texts, a, i, token)?;
    Ok(read(alloc, p)?)
}

// `new class(..)`
#[cycle(elaboration)]
#[tactic(auto, unfolding(crate::specs::Elaboration::elaborated))]
fn new_object(
    alloc: Global,
    table: &ClassTable,
    scope: &Scope,
    texts: &mut Texts,
    of: &Named,
    args: &[Expression],
    token: u32,
) -> Result<Meaning, TypeError>
    ensures { IsFound (table_of table.now) scope.now (source.NewObject (named_of of.now)
        (row_of (map expression_of args.now)) token) result texts.old texts.new }
{
    let c = class_for_new(table, of.name.as_str(), of.token)?;
    let args = elaborated_all(alloc, table, scope, texts, args)?;
    created(alloc, table, scope, texts, c, args, token)
}

// `new base[..]..[]..`
#[cycle(elaboration)]
#[tactic(auto, unfolding(crate::specs::Elaboration::elaborated))]
fn new_sized(
    alloc: Global,
    table: &ClassTable,
    scope: &Scope,
    texts: &mut Texts,
    base: &WrittenBase,
    base_token: u32,
    sizes: &[Expression],
    brackets: u32,
    token: u32,
) -> Result<Meaning, TypeError>
    ensures { IsFound
        (table_of table.now) scope.now (source.NewArray (base_seen base.now) base_token
        (row_of (map expression_of sizes.now)) brackets token) result texts.old texts.new }
{
    let ty = type_with(table, base, 0, base_token)?;
    let ms = elaborated_all(alloc, table, scope, texts, sizes)?;
    let many = how_many(ms.as_slice());
    let dims = sizes_of(alloc, texts, ms, token)?;
    new_array(alloc, ty, many, brackets, dims, token)
}

// `new base[]..{ .. }`
#[cycle(elaboration)]
#[tactic(auto, unfolding(crate::specs::Elaboration::elaborated))]
fn new_listed(
    alloc: Global,
    table: &ClassTable,
    scope: &Scope,
    texts: &mut Texts,
    base: &WrittenBase,
    base_token: u32,
    brackets: u32,
    elements: &[Element],
    brace: u32,
    token: u32,
) -> Result<Meaning, TypeError>
    ensures { IsFound
        (table_of table.now) scope.now (source.NewList (base_seen base.now) base_token brackets
        (elements_seen (map element_seen elements.now)) brace token) result texts.old texts.new }
{
    let ty = type_with(table, base, brackets, base_token)?;
    let inner = or_type(element_of(ty), brace)?;
    let all = elements_of(alloc, table, scope, texts, inner, elements)?;
    Ok(of_form(alloc, listed_form(alloc, ty, all, token), ty)?)
}

// An operator before an operand.
#[cycle(elaboration)]
#[tactic(auto, unfolding(crate::specs::Elaboration::elaborated))]
fn unary(
    alloc: Global,
    table: &ClassTable,
    scope: &Scope,
    texts: &mut Texts,
    op: UnOp,
    operand: &Expression,
    token: u32,
) -> Result<Meaning, TypeError>
    ensures { IsFound (table_of table.now) scope.now
        (source.Unary op (expression_of operand.now) token) result texts.old texts.new }
{
    let m = elaborated(alloc, table, scope, texts, operand)?;
    unary_of(alloc, texts, op, m, token)
}

// `++` and `--`
#[cycle(elaboration)]
#[tactic(auto, unfolding(crate::specs::Elaboration::elaborated))]
fn step_of(
    alloc: Global,
    table: &ClassTable,
    scope: &Scope,
    texts: &mut Texts,
    is_before: bool,
    is_up: bool,
    operand: &Expression,
    token: u32,
) -> Result<Meaning, TypeError>
    ensures { IsFound (table_of table.now) scope.now
        (source.Step is_before is_up (expression_of operand.now) token) result texts.old texts.new }
{
    if is_place(operand) {
        let p = target(alloc, table, scope, texts, operand)?;
        return stepped(alloc, is_before, is_up, p, token);
    }
    let _m = elaborated(alloc, table, scope, texts, operand)?;
    stepped(alloc, is_before, is_up, None, token)
}

// An operator between two operands.
#[cycle(elaboration)]
#[tactic(auto, unfolding(crate::specs::Elaboration::elaborated))]
fn binary(
    alloc: Global,
    table: &ClassTable,
    scope: &Scope,
    texts: &mut Texts,
    op: BinOp,
    left: &Expression,
    right: &Expression,
    token: u32,
) -> Result<Meaning, TypeError>
    ensures { IsFound (table_of table.now) scope.now (source.Binary op (expression_of left.now)
        (expression_of right.now) token) result texts.old texts.new }
{
    let a = elaborated(alloc, table, scope, texts, left)?;
    let b = elaborated(alloc, table, scope, texts, right)?;
    binary_of(alloc, table, texts, op, a, b, token)
}

// `left && right`
#[cycle(elaboration)]
#[tactic(auto, unfolding(crate::specs::Elaboration::elaborated))]
fn both(
    alloc: Global,
    table: &ClassTable,
    scope: &Scope,
    texts: &mut Texts,
    left: &Expression,
    right: &Expression,
    token: u32,
) -> Result<Meaning, TypeError>
    ensures { IsFound (table_of table.now) scope.now (source.Both (expression_of left.now)
        (expression_of right.now) token) result texts.old texts.new }
{
    let a = elaborated(alloc, table, scope, texts, left)?;
    let b = elaborated(alloc, table, scope, texts, right)?;
    both_of(alloc, texts, a, b, token)
}

// `left || right`
#[cycle(elaboration)]
#[tactic(auto, unfolding(crate::specs::Elaboration::elaborated))]
fn either(
    alloc: Global,
    table: &ClassTable,
    scope: &Scope,
    texts: &mut Texts,
    left: &Expression,
    right: &Expression,
    token: u32,
) -> Result<Meaning, TypeError>
    ensures { IsFound (table_of table.now) scope.now (source.Either (expression_of left.now)
        (expression_of right.now) token) result texts.old texts.new }
{
    let a = elaborated(alloc, table, scope, texts, left)?;
    let b = elaborated(alloc, table, scope, texts, right)?;
    either_of(alloc, texts, a, b, token)
}

// `left instanceof ty`
#[cycle(elaboration)]
#[tactic(auto, unfolding(crate::specs::Elaboration::elaborated))]
fn type_test(
    alloc: Global,
    table: &ClassTable,
    scope: &Scope,
    texts: &mut Texts,
    left: &Expression,
    ty: &WrittenType,
    token: u32,
) -> Result<Meaning, TypeError>
    ensures { IsFound (table_of table.now) scope.now (source.InstanceOf (expression_of left.now)
        (type_seen ty.now) token) result texts.old texts.new }
{
    let m = elaborated(alloc, table, scope, texts, left)?;
    let to = type_written(table, ty)?;
    instance_of(alloc, table, texts, to, m, token)
}

// `(ty) operand`
#[cycle(elaboration)]
#[tactic(auto, unfolding(crate::specs::Elaboration::elaborated))]
fn cast_to(
    alloc: Global,
    table: &ClassTable,
    scope: &Scope,
    texts: &mut Texts,
    ty: &WrittenType,
    operand: &Expression,
    token: u32,
) -> Result<Meaning, TypeError>
    ensures { IsFound (table_of table.now) scope.now (source.Cast (type_seen ty.now)
        (expression_of operand.now) token) result texts.old texts.new }
{
    let to = type_written(table, ty)?;
    let m = elaborated(alloc, table, scope, texts, operand)?;
    cast_of(alloc, table, texts, to, m, token)
}

// `test ? main : other`
#[cycle(elaboration)]
#[tactic(auto, unfolding(crate::specs::Elaboration::elaborated))]
fn choice_between(
    alloc: Global,
    table: &ClassTable,
    scope: &Scope,
    texts: &mut Texts,
    test: &Expression,
    main: &Expression,
    other: &Expression,
    token: u32,
) -> Result<Meaning, TypeError>
    ensures { IsFound (table_of table.now) scope.now (source.Choice (expression_of test.now)
        (expression_of main.now) (expression_of other.now) token) result texts.old texts.new }
{
    let z = elaborated(alloc, table, scope, texts, test)?;
    let a = elaborated(alloc, table, scope, texts, main)?;
    let b = elaborated(alloc, table, scope, texts, other)?;
    choice_of(alloc, table, texts, z, a, b, token)
}

// `left = value`
#[cycle(elaboration)]
#[tactic(auto, unfolding(crate::specs::Elaboration::elaborated))]
fn assignment_to(
    alloc: Global,
    table: &ClassTable,
    scope: &Scope,
    texts: &mut Texts,
    left: &Expression,
    value: &Expression,
    token: u32,
) -> Result<Meaning, TypeError>
    ensures { IsFound (table_of table.now) scope.now (source.Assign (expression_of left.now)
        (expression_of value.now) token) result texts.old texts.new }
{
    let p = target(alloc, table, scope, texts, left)?;
    let m = elaborated(alloc, table, scope, texts, value)?;
    assigned(alloc, table, texts, p, m, token)
}

// An operator and `=`.
#[cycle(elaboration)]
#[tactic(auto, unfolding(crate::specs::Elaboration::elaborated))]
fn update_of(
    alloc: Global,
    table: &ClassTable,
    scope: &Scope,
    texts: &mut Texts,
    op: BinOp,
    left: &Expression,
    value: &Expression,
    token: u32,
) -> Result<Meaning, TypeError>
    ensures { IsFound (table_of table.now) scope.now (source.Update op (expression_of left.now)
        (expression_of value.now) token) result texts.old texts.new }
{
    let p = target(alloc, table, scope, texts, left)?;
    let m = elaborated(alloc, table, scope, texts, value)?;
    updated(alloc, table, texts, op, p, m, token)
}

/// Expressions one after another.
#[cycle(elaboration)]
pub fn elaborated_all(
    alloc: Global,
    table: &ClassTable,
    scope: &Scope,
    texts: &mut Texts,
    args: &[Expression],
) -> Result<Vec<Meaning>, TypeError>
    ensures { Judged (table_of table.now) (λ j.
        GetsTo (λ v. map meaning_of v.items) result texts.new (elaborated_all j
        (table_of table.now) scope.now (row_of (map expression_of args.now)) texts.old)) }
{
    let mut all = Vec::new(alloc);
    for arg in args {
        let m = elaborated(alloc, table, scope, texts, arg)?;
        all.push(m)?;
    }
    Ok(all)
}

/// The variable that an expression is, if it is one.
#[cycle(elaboration)]
#[tactic(auto, using(crate::proofs::Arms::at_name, crate::proofs::Arms::at_group, crate::proofs::Arms::at_super_field, wy_syntax::proofs::ExpressionViews::view_field, wy_syntax::proofs::ExpressionViews::view_element))]
pub fn target(
    alloc: Global,
    table: &ClassTable,
    scope: &Scope,
    texts: &mut Texts,
    e: &Expression,
) -> Result<Option<Spot>, TypeError>
    ensures { Judged (table_of table.now) (λ j. GetsTo (λ p. option_map spot_of p) result texts.new
        (target j (table_of table.now) scope.now (expression_of e.now) texts.old)) }
{
    match e {
        Expression::Name { name, token } => {
            let p = named_spot(alloc, table, scope, name.as_str(), *token)?;
            Ok(Some(p))
        }
        Expression::Group { inner, token: _ } => target(alloc, table, scope, texts, inner),
        Expression::Field {
            object,
            name,
            token,
        } => field_place(alloc, table, scope, texts, object, name.as_str(), *token),
        Expression::SuperField { name, token } => {
            let p = super_spot(alloc, table, scope, name.as_str(), *token)?;
            Ok(Some(p))
        }
        Expression::Element {
            array,
            index,
            token,
        } => element_place(alloc, table, scope, texts, array, index, *token),
        _ => Ok(None),
    }
}

// The variable that `object.name` is.
#[cycle(elaboration)]
fn field_place(
    alloc: Global,
    table: &ClassTable,
    scope: &Scope,
    texts: &mut Texts,
    object: &Expression,
    name: &str,
    token: u32,
) -> Result<Option<Spot>, TypeError>
    ensures { IsTarget (table_of table.now) scope.now
        (source.Field (expression_of object.now) name.now token) result texts.old texts.new }
{
    match class_in(table, scope, object) {
        Some(c) => class_target(table, scope, c, name, token),
        None => {
            let m = elaborated(alloc, table, scope, texts, object)?;
            field_target(alloc, table, scope, texts, m, name, token)
        }
    }
}

// The variable that `array[index]` is.
#[cycle(elaboration)]
#[tactic(auto, unfolding(crate::specs::Elaboration::target))]
fn element_place(
    alloc: Global,
    table: &ClassTable,
    scope: &Scope,
    texts: &mut Texts,
    array: &Expression,
    index: &Expression,
    token: u32,
) -> Result<Option<Spot>, TypeError>
    ensures { IsTarget (table_of table.now) scope.now (source.Element (expression_of array.now)
        (expression_of index.now) token) result texts.old texts.new }
{
    let a = elaborated(alloc, table, scope, texts, array)?;
    let i = elaborated(alloc, table, scope, texts, index)?;
    let p = element_spot(alloc, texts, a, i, token)?;
    Ok(Some(p))
}

/// The elements of an array initializer, each of a type.
#[cycle(elaboration)]
pub fn elements_of(
    alloc: Global,
    table: &ClassTable,
    scope: &Scope,
    texts: &mut Texts,
    ty: Ty,
    elements: &[Element],
) -> Result<Listing, TypeError>
    ensures { Judged (table_of table.now) (λ j.
        GetsTo listing_of result texts.new (elements_of j (table_of table.now) scope.now ty
        (elements_seen (map element_seen elements.now)) texts.old)) }
{
    let mut forms = Vec::new(alloc);
    let mut sites = Vec::new(alloc);
    for element in elements {
        let initial = &element.initial;
        let form = initialized(alloc, table, scope, texts, ty, initial, element.before)?;
        forms.push(form)?;
        sites.push(element.before)?;
    }
    Ok(Listing { forms, sites })
}

/// What a variable or an element of a type is given first, by the token of its Set.
#[cycle(elaboration)]
#[tactic(auto, using(crate::proofs::Arms::first_value, crate::proofs::Arms::first_listed))]
pub fn initialized(
    alloc: Global,
    table: &ClassTable,
    scope: &Scope,
    texts: &mut Texts,
    ty: Ty,
    initial: &Initial,
    token: u32,
) -> Result<Expr, TypeError>
    ensures { Judged (table_of table.now) (λ j. GetsTo expression result texts.new (initialized j
        (table_of table.now) scope.now ty (initial_of initial.now) token texts.old)) }
{
    match initial {
        Initial::Value { value } => {
            let m = elaborated(alloc, table, scope, texts, value)?;
            assigned_value(alloc, table, texts, ty, m, token)
        }
        Initial::Listed { elements, brace } => {
            let inner = or_type(element_of(ty), *brace)?;
            let all = elements_of(alloc, table, scope, texts, inner, elements)?;
            Ok(listed_form(alloc, ty, all, *brace))
        }
    }
}
