//! Expressions from what they are made of (JLS 15).
//! Nothing here goes into a tree's parts but to read a name or a type.

ghost use Rattle.std.specs.Prelude.{◌≡◌, ◌≤◌, ◌+◌, IfOk, map};
ghost use Rattle.wy_tree.specs.Ast.{view, views};
ghost use Rattle.wy_tree.specs.Seen.{seen};
ghost use Rattle.wy_syntax.specs.Names.{width, widths, name_of, named, written};
ghost use Rattle.wy_syntax.specs.Expressions.{leaf, joined, assigned, prefixed, empty_pairs, is_mark, stepped};
ghost use Rattle.wy_syntax.specs.Syntax as plain;
ghost use Rattle.wy_syntax.specs.View.{expression_of, inner_of, row_of};
ghost use Rattle.wy_tree.specs.Tokens.{token_limit};

use crate::expression::Expression;
use crate::operator::{is_up, operator, prefix, updating};
use crate::part::{is_leaf, name_of, named, sign_of, word_of, written};
use std::alloc::{AllocError, Global};
use wy_tree::kind::{Kind, is_kind, kind_at};
use wy_tree::token::{Token, copied};
use wy_tree::tree::Tree;

/// A name, `this`, or a literal.
#[tactic(auto, using(crate::proofs::ExpressionViews::view_name, crate::proofs::ExpressionViews::view_this, crate::proofs::ExpressionViews::view_literal, crate::proofs::ExpressionViews::view_wrong))]
pub fn leaf(alloc: Global, token: &Token, at: u32) -> Result<Expression, AllocError>
    ensures { IfOk result (λ e. expression_of e ≡ leaf (seen token.now) at) }
{
    match kind_at(token) {
        Kind::Word | Kind::Override => Ok(Expression::Name {
            name: String::from_str(alloc, word_of(token))?,
            token: at,
        }),
        Kind::This => Ok(Expression::This { token: at }),
        Kind::Literal | Kind::Big => Ok(Expression::Literal {
            value: copied(token)?,
            token: at,
        }),
        _ => Ok(Expression::Wrong),
    }
}

/// An operator between two expressions.
#[tactic(auto, using(crate::proofs::ExpressionViews::view_both, crate::proofs::ExpressionViews::view_either, crate::proofs::ExpressionViews::view_binary))]
pub fn joined(sign: &Token, left: Box<Expression>, right: Box<Expression>, token: u32) -> Expression
    ensures { expression_of result ≡ joined (seen sign.now) (inner_of left) (inner_of right) token }
{
    if is_kind(kind_at(sign), Kind::AndAlso) {
        return Expression::Both { left, right, token };
    }
    if is_kind(kind_at(sign), Kind::OrElse) {
        return Expression::Either { left, right, token };
    }
    let op = operator(sign_of(sign));
    Expression::Binary {
        op,
        left,
        right,
        token,
    }
}

/// An assignment, plain or compound.
#[tactic(auto, using(crate::proofs::ExpressionViews::view_assign, crate::proofs::ExpressionViews::view_update))]
pub fn assigned(
    sign: &Token,
    left: Box<Expression>,
    value: Box<Expression>,
    token: u32,
) -> Expression
    ensures { expression_of result ≡ assigned (seen sign.now) (inner_of left)
        (inner_of value) token }
{
    if is_kind(kind_at(sign), Kind::Assign) {
        return Expression::Assign { left, value, token };
    }
    let op = updating(sign_of(sign));
    Expression::Update {
        op,
        left,
        value,
        token,
    }
}

/// An operator before an expression.
#[tactic(auto, using(crate::proofs::ExpressionViews::view_step, crate::proofs::ExpressionViews::view_unary))]
pub fn prefixed(sign: &Token, operand: Box<Expression>, token: u32) -> Expression
    ensures { expression_of result ≡ prefixed (seen sign.now) (inner_of operand) token }
{
    if is_kind(kind_at(sign), Kind::Step) {
        return Expression::Step {
            is_before: true,
            is_up: is_up(sign_of(sign)),
            operand,
            token,
        };
    }
    let op = prefix(sign_of(sign));
    Expression::Unary { op, operand, token }
}

/// The steps behind an expression, the first of which has this number.
#[tactic(auto, using(crate::proofs::ExpressionViews::view_step, crate::proofs::ExpressionViews::view_wrong))]
pub fn stepped(
    alloc: Global,
    operand: Expression,
    steps: &[Tree],
    first: u32,
) -> Result<Expression, AllocError>
    requires { first + widths (views steps.now) ≤ token_limit }
    ensures { IfOk result (λ e.
        expression_of e ≡ stepped (expression_of operand) first (views steps.now)) }
{
    let mut value = operand;
    let mut token = first;
    let mut left = steps;
    while let [step, behind @ ..] = left {
        let Tree::Leaf(sign) = step else {
            return Ok(Expression::Wrong);
        };
        let operand = Box::new(alloc, value)?;
        value = Expression::Step {
            is_before: false,
            is_up: is_up(sign_of(sign)),
            operand,
            token,
        };
        token += 1;
        left = behind;
    }
    Ok(value)
}

/// `test ? main : other`
#[tactic(auto, using(crate::proofs::ExpressionViews::view_choice))]
pub fn chosen(
    test: Box<Expression>,
    main: Box<Expression>,
    other: Box<Expression>,
    token: u32,
) -> Expression
    ensures { expression_of result ≡ plain.Choice (inner_of test) (inner_of main)
        (inner_of other) token }
{
    Expression::Choice {
        test,
        main,
        other,
        token,
    }
}

/// `left instanceof ty`
#[tactic(auto, using(crate::proofs::ExpressionViews::view_instance_of))]
pub fn instance_of(
    alloc: Global,
    left: Box<Expression>,
    ty: &Tree,
    token: u32,
) -> Result<Expression, AllocError>
    requires { token + 1 + width (view ty.now) ≤ token_limit }
    ensures { IfOk result (λ e. expression_of e ≡ plain.InstanceOf (inner_of left)
        (written (token + 1) (view ty.now)) token) }
{
    let ty = written(alloc, ty, token + 1)?;
    Ok(Expression::InstanceOf { left, ty, token })
}

/// A cast to the type that stands at this number.
#[tactic(auto, using(crate::proofs::ExpressionViews::view_cast))]
pub fn cast_to(
    alloc: Global,
    ty: &Tree,
    at: u32,
    operand: Box<Expression>,
    token: u32,
) -> Result<Expression, AllocError>
    requires { at + width (view ty.now) ≤ token_limit }
    ensures { IfOk result (λ e.
        expression_of e ≡ plain.Cast (written at (view ty.now)) (inner_of operand) token) }
{
    let ty = written(alloc, ty, at)?;
    Ok(Expression::Cast { ty, operand, token })
}

/// An expression in parentheses.
#[tactic(auto, using(crate::proofs::ExpressionViews::view_group))]
pub fn grouped(inner: Box<Expression>, token: u32) -> Expression
    ensures { expression_of result ≡ plain.Group (inner_of inner) token }
{
    Expression::Group { inner, token }
}

/// A field of an object.
#[tactic(auto, using(crate::proofs::ExpressionViews::view_field))]
pub fn field(
    alloc: Global,
    object: Box<Expression>,
    name: &Tree,
    token: u32,
) -> Result<Expression, AllocError>
    ensures { IfOk result (λ e.
        expression_of e ≡ plain.Field (inner_of object) (name_of (view name.now)) token) }
{
    let name = name_of(alloc, name)?;
    Ok(Expression::Field {
        object,
        name,
        token,
    })
}

/// A field of the superclass.
#[tactic(auto, using(crate::proofs::ExpressionViews::view_super_field))]
pub fn super_field(alloc: Global, name: &Tree, token: u32) -> Result<Expression, AllocError>
    ensures { IfOk result (λ e.
        expression_of e ≡ plain.SuperField (name_of (view name.now)) token) }
{
    let name = name_of(alloc, name)?;
    Ok(Expression::SuperField { name, token })
}

/// An element of an array.
#[tactic(auto, using(crate::proofs::ExpressionViews::view_element))]
pub fn element_of(array: Box<Expression>, index: Box<Expression>, token: u32) -> Expression
    ensures { expression_of result ≡ plain.Element (inner_of array) (inner_of index) token }
{
    Expression::Element {
        array,
        index,
        token,
    }
}

/// A call by a name alone.
#[tactic(auto, using(crate::proofs::ExpressionViews::view_invoke))]
pub fn invoked(
    alloc: Global,
    name: &Tree,
    args: Vec<Expression>,
    token: u32,
) -> Result<Expression, AllocError>
    ensures { IfOk result (λ e. expression_of e ≡ plain.Invoke (name_of (view name.now))
        (row_of (map expression_of args.items)) token) }
{
    let name = name_of(alloc, name)?;
    Ok(Expression::Invoke { name, args, token })
}

/// A call on an object.
#[tactic(auto, using(crate::proofs::ExpressionViews::view_invoke_on))]
pub fn invoked_on(
    alloc: Global,
    object: Box<Expression>,
    name: &Tree,
    args: Vec<Expression>,
    token: u32,
) -> Result<Expression, AllocError>
    ensures { IfOk result (λ e. expression_of e ≡ plain.InvokeOn (inner_of object)
        (name_of (view name.now)) (row_of (map expression_of args.items)) token) }
{
    let name = name_of(alloc, name)?;
    Ok(Expression::InvokeOn {
        object,
        name,
        args,
        token,
    })
}

/// A call of the superclass's method.
#[tactic(auto, using(crate::proofs::ExpressionViews::view_super_invoke))]
pub fn super_invoked(
    alloc: Global,
    name: &Tree,
    args: Vec<Expression>,
    token: u32,
) -> Result<Expression, AllocError>
    ensures { IfOk result (λ e. expression_of e ≡ plain.SuperInvoke (name_of (view name.now))
        (row_of (map expression_of args.items)) token) }
{
    let name = name_of(alloc, name)?;
    Ok(Expression::SuperInvoke { name, args, token })
}

/// A new object of a class, whose name has this number.
#[tactic(auto, using(crate::proofs::ExpressionViews::view_new_object))]
pub fn object(
    alloc: Global,
    class: &Tree,
    at: u32,
    args: Vec<Expression>,
    token: u32,
) -> Result<Expression, AllocError>
    ensures { IfOk result (λ e. expression_of e ≡ plain.NewObject (named at (view class.now))
        (row_of (map expression_of args.items)) token) }
{
    let class = named(alloc, class, at)?;
    Ok(Expression::NewObject { class, args, token })
}

/// The pairs of brackets with nothing between them.
pub fn empty_pairs(parts: &[Tree]) -> u32
    requires { widths (views parts.now) ≤ token_limit }
    ensures { result ≡ empty_pairs (views parts.now) }
{
    let mut found: u32 = 0;
    let mut left = parts;
    while let [bracket, behind @ ..] = left {
        left = behind;
        if let [close, further @ ..] = behind
            && is_leaf(bracket, Kind::OpenBracket)
            && is_leaf(close, Kind::CloseBracket)
        {
            found += 1;
            left = further;
        }
    }
    found
}

/// A comma or a brace.
pub fn is_mark(tree: &Tree) -> bool
    ensures { result ≡ is_mark (view tree.now) }
{
    is_leaf(tree, Kind::Comma) || is_leaf(tree, Kind::CloseBrace)
}
