//! The expression that a tree is, production by production (JLS 15).
//! `first` is the number of the first token of the parts that a function is given.

ghost use Rattle.std.specs.Prelude.{◌≡◌, ◌≤◌, ◌<◌, ◌+◌, IfOk, map};
ghost use Rattle.wy_tree.specs.Ast.{view, views, Node};
ghost use Rattle.wy_syntax.specs.Names.{width, widths};
ghost use Rattle.wy_syntax.specs.Expressions.{expression, three, four, assignment, choice, binary, unary, cast, postfix, primary, creation, array, sizes, listed, elements, inside, arguments_of, arguments, initial};
ghost use Rattle.wy_syntax.specs.View.{expression_of, inner_of, initial_of, element_of, elements_of, row_of, base_seen};
ghost use Rattle.wy_tree.specs.Tokens.{token_limit};

use crate::expression::{Element, Expression, Initial};
use crate::lower::made::{
    assigned, cast_to, chosen, element_of, empty_pairs, field, grouped, instance_of, invoked,
    invoked_on, is_mark, joined, leaf, object, prefixed, stepped, super_field, super_invoked,
};
use crate::name::WrittenBase;
use crate::part::{base_named, is_leaf, parts_of, width};
use std::alloc::{AllocError, Global};
use wy_tree::kind::{Kind, is_kind, kind_at};
use wy_tree::tree::{Form, Tree};

/// The expression of a tree whose first token has this number.
#[cycle(lowering)]
#[tactic(auto, using(wy_tree::proofs::Views::view_leaf, wy_tree::proofs::Views::view_node))]
pub fn expression(alloc: Global, tree: &Tree, first: u32) -> Result<Expression, AllocError>
    requires { first + width (view tree.now) ≤ token_limit }
    ensures { IfOk result (λ e. expression_of e ≡ expression first (view tree.now)) }
{
    match tree {
        Tree::Leaf(token) => leaf(alloc, token, first),
        Tree::Node { form, parts } => production(alloc, *form, parts, first),
    }
}

// The expression of a tree, to stand in another.
#[cycle(lowering)]
fn boxed(alloc: Global, tree: &Tree, first: u32) -> Result<Box<Expression>, AllocError>
    requires { first + width (view tree.now) ≤ token_limit }
    ensures { IfOk result (λ e. inner_of e ≡ expression first (view tree.now)) }
{
    Ok(Box::new(alloc, expression(alloc, tree, first)?)?)
}

#[cycle(lowering)]
#[tactic(auto, using(crate::proofs::ExpressionViews::view_wrong))]
fn production(
    alloc: Global,
    form: Form,
    parts: &[Tree],
    first: u32,
) -> Result<Expression, AllocError>
    requires { first + widths (views parts.now) ≤ token_limit }
    ensures { IfOk result (λ e. expression_of e ≡ expression first (Node form (views parts.now))) }
{
    match form {
        Form::Expr => assignment(alloc, parts, first),
        Form::Cond => choice(alloc, parts, first),
        Form::Binary => binary(alloc, parts, first),
        Form::Unary => unary(alloc, parts, first),
        Form::Cast => cast(alloc, parts, first),
        Form::Postfix => postfix(alloc, parts, first),
        Form::Primary => primary(alloc, parts, first),
        Form::New => creation(alloc, parts, first),
        _ => Ok(Expression::Wrong),
    }
}

#[cycle(lowering)]
#[tactic(auto, using(crate::proofs::ExpressionViews::view_wrong))]
fn assignment(alloc: Global, parts: &[Tree], first: u32) -> Result<Expression, AllocError>
    requires { first + widths (views parts.now) ≤ token_limit }
    ensures { IfOk result (λ e. expression_of e ≡ assignment first (views parts.now)) }
{
    let [left, sign, value] = parts else {
        return Ok(Expression::Wrong);
    };
    let Tree::Leaf(sign) = sign else {
        return Ok(Expression::Wrong);
    };
    let token = first + width(left);
    let left = boxed(alloc, left, first)?;
    let value = boxed(alloc, value, token + 1)?;
    Ok(assigned(sign, left, value, token))
}

#[cycle(lowering)]
#[tactic(auto, using(crate::proofs::ExpressionViews::view_wrong))]
fn choice(alloc: Global, parts: &[Tree], first: u32) -> Result<Expression, AllocError>
    requires { first + widths (views parts.now) ≤ token_limit }
    ensures { IfOk result (λ e. expression_of e ≡ choice first (views parts.now)) }
{
    let [test, question, main, colon, other] = parts else {
        return Ok(Expression::Wrong);
    };
    let token = first + width(test);
    let main_at = token + width(question);
    let other_at = main_at + width(main) + width(colon);
    let test = boxed(alloc, test, first)?;
    let main = boxed(alloc, main, main_at)?;
    let other = boxed(alloc, other, other_at)?;
    Ok(chosen(test, main, other, token))
}

#[cycle(lowering)]
#[tactic(auto, using(crate::proofs::ExpressionViews::view_wrong))]
fn binary(alloc: Global, parts: &[Tree], first: u32) -> Result<Expression, AllocError>
    requires { first + widths (views parts.now) ≤ token_limit }
    ensures { IfOk result (λ e. expression_of e ≡ binary first (views parts.now)) }
{
    let [left, sign, right] = parts else {
        return Ok(Expression::Wrong);
    };
    let Tree::Leaf(sign) = sign else {
        return Ok(Expression::Wrong);
    };
    let token = first + width(left);
    let left = boxed(alloc, left, first)?;
    if is_kind(kind_at(sign), Kind::Instanceof) {
        return instance_of(alloc, left, right, token);
    }
    let right = boxed(alloc, right, token + 1)?;
    Ok(joined(sign, left, right, token))
}

#[cycle(lowering)]
#[tactic(auto, using(crate::proofs::ExpressionViews::view_wrong))]
fn unary(alloc: Global, parts: &[Tree], first: u32) -> Result<Expression, AllocError>
    requires { first + widths (views parts.now) ≤ token_limit }
    ensures { IfOk result (λ e. expression_of e ≡ unary first (views parts.now)) }
{
    let [sign, operand] = parts else {
        return Ok(Expression::Wrong);
    };
    let Tree::Leaf(sign) = sign else {
        return Ok(Expression::Wrong);
    };
    let operand = boxed(alloc, operand, first + 1)?;
    Ok(prefixed(sign, operand, first))
}

#[cycle(lowering)]
#[tactic(auto, using(crate::proofs::ExpressionViews::view_wrong))]
fn cast(alloc: Global, parts: &[Tree], first: u32) -> Result<Expression, AllocError>
    requires { first + widths (views parts.now) ≤ token_limit }
    ensures { IfOk result (λ e. expression_of e ≡ cast first (views parts.now)) }
{
    let [paren, ty, close, operand] = parts else {
        return Ok(Expression::Wrong);
    };
    let at = first + width(paren);
    let operand = boxed(alloc, operand, at + width(ty) + width(close))?;
    cast_to(alloc, ty, at, operand, first)
}

#[cycle(lowering)]
#[tactic(auto, using(crate::proofs::ExpressionViews::view_wrong))]
fn postfix(alloc: Global, parts: &[Tree], first: u32) -> Result<Expression, AllocError>
    requires { first + widths (views parts.now) ≤ token_limit }
    ensures { IfOk result (λ e. expression_of e ≡ postfix first (views parts.now)) }
{
    match parts {
        [operand, steps @ ..] => {
            let token = first + width(operand);
            let operand = expression(alloc, operand, first)?;
            stepped(alloc, operand, steps, token)
        }
        [] => Ok(Expression::Wrong),
    }
}

#[cycle(lowering)]
#[tactic(auto, using(crate::proofs::ExpressionViews::view_wrong))]
fn primary(alloc: Global, parts: &[Tree], first: u32) -> Result<Expression, AllocError>
    requires { first + widths (views parts.now) ≤ token_limit }
    ensures { IfOk result (λ e. expression_of e ≡ primary first (views parts.now)) }
{
    match parts {
        [name, args] => {
            let token = first + width(name);
            let args = arguments_of(alloc, args, token)?;
            invoked(alloc, name, args, token)
        }
        [front, middle, last] => three(alloc, front, middle, last, first),
        [front, middle, inner, last] => four(alloc, front, middle, inner, last, first),
        _ => Ok(Expression::Wrong),
    }
}

// Parentheses around an expression, or a field of an object or of the superclass.
#[cycle(lowering)]
fn three(
    alloc: Global,
    front: &Tree,
    middle: &Tree,
    last: &Tree,
    first: u32,
) -> Result<Expression, AllocError>
    requires { first + width (view front.now) + width (view middle.now) + width
        (view last.now) ≤ token_limit }
    ensures { IfOk result (λ e. expression_of e ≡ three first (view front.now) (view middle.now)
        (view last.now) (expression first (view front.now))
        (expression (first + width (view front.now)) (view middle.now))) }
{
    let behind = first + width(front);
    if is_leaf(front, Kind::OpenParen) {
        let inner = boxed(alloc, middle, behind)?;
        return Ok(grouped(inner, first));
    }
    let token = behind + width(middle);
    if is_leaf(front, Kind::Super) {
        return super_field(alloc, last, token);
    }
    let object = boxed(alloc, front, first)?;
    field(alloc, object, last, token)
}

// An element of an array, or a call on an object or of the superclass's method.
#[cycle(lowering)]
fn four(
    alloc: Global,
    front: &Tree,
    middle: &Tree,
    inner: &Tree,
    last: &Tree,
    first: u32,
) -> Result<Expression, AllocError>
    requires { first + width (view front.now) + width (view middle.now) + width
        (view inner.now) + width (view last.now) ≤ token_limit }
    ensures { IfOk result (λ e. expression_of e ≡ four first (view front.now) (view middle.now)
        (view inner.now) (expression first (view front.now)) (expression (first + width
        (view front.now) + width (view middle.now)) (view inner.now)) (arguments_of (first + width
        (view front.now) + width (view middle.now) + width (view inner.now)) (view last.now))) }
{
    let behind = first + width(front);
    let at = behind + width(middle);
    if is_leaf(middle, Kind::OpenBracket) {
        let array = boxed(alloc, front, first)?;
        let index = boxed(alloc, inner, at)?;
        return Ok(element_of(array, index, behind));
    }
    let token = at + width(inner);
    let args = arguments_of(alloc, last, token)?;
    if is_leaf(front, Kind::Super) {
        return super_invoked(alloc, inner, args, token);
    }
    let object = boxed(alloc, front, first)?;
    invoked_on(alloc, object, inner, args, token)
}

#[cycle(lowering)]
#[tactic(auto, using(crate::proofs::ExpressionViews::view_wrong))]
fn creation(alloc: Global, parts: &[Tree], first: u32) -> Result<Expression, AllocError>
    requires { first + widths (views parts.now) ≤ token_limit }
    ensures { IfOk result (λ e. expression_of e ≡ creation first (views parts.now)) }
{
    let [word, ty, behind @ ..] = parts else {
        return Ok(Expression::Wrong);
    };
    let at = first + width(word);
    match behind {
        [args] => {
            let args = arguments_of(alloc, args, at + width(ty))?;
            object(alloc, ty, at, args, first)
        }
        _ => array(alloc, ty, behind, first, at),
    }
}

// An array, by what its brackets hold. Its type begins at this number.
#[cycle(lowering)]
#[tactic(auto, using(crate::proofs::ExpressionViews::view_new_array, crate::proofs::ExpressionViews::view_wrong))]
fn array(
    alloc: Global,
    base: &Tree,
    brackets: &[Tree],
    first: u32,
    at: u32,
) -> Result<Expression, AllocError>
    requires { at + width (view base.now) + widths (views brackets.now) ≤ token_limit }
    ensures { IfOk result (λ e.
        expression_of e ≡ array first at (view base.now) (views brackets.now)) }
{
    let [bracket, inner, behind @ ..] = brackets else {
        return Ok(Expression::Wrong);
    };
    let bracket_at = at + width(base);
    let base = base_named(alloc, base)?;
    if is_leaf(inner, Kind::CloseBracket) {
        let pairs = empty_pairs(brackets);
        let behind_at = bracket_at + width(bracket) + width(inner);
        return listed(alloc, base, at, pairs, behind, behind_at, first);
    }
    let sizes = sizes(alloc, brackets, bracket_at)?;
    Ok(Expression::NewArray {
        base,
        base_token: at,
        sizes,
        brackets: empty_pairs(behind),
        token: first,
    })
}

// What stands in brackets, up to a pair with nothing between.
#[cycle(lowering)]
fn sizes(alloc: Global, parts: &[Tree], first: u32) -> Result<Vec<Expression>, AllocError>
    requires { first + widths (views parts.now) ≤ token_limit }
    ensures { IfOk result (λ found.
        row_of (map expression_of found.items) ≡ sizes first (views parts.now)) }
{
    let mut found = Vec::new(alloc);
    let mut at = first;
    let mut left = parts;
    while let [bracket, size, close, behind @ ..] = left {
        if is_leaf(size, Kind::CloseBracket) {
            return Ok(found);
        }
        at += width(bracket);
        found.push(expression(alloc, size, at)?)?;
        at += width(size) + width(close);
        left = behind;
    }
    Ok(found)
}

// An array with its elements, whose `{` is among these parts. Its type has its number and so many pairs.
#[cycle(lowering)]
#[tactic(auto, using(crate::proofs::ExpressionViews::view_new_list, crate::proofs::ExpressionViews::view_wrong))]
fn listed(
    alloc: Global,
    base: WrittenBase,
    base_token: u32,
    brackets: u32,
    parts: &[Tree],
    first: u32,
    token: u32,
) -> Result<Expression, AllocError>
    requires { first + widths (views parts.now) ≤ token_limit }
    ensures { IfOk result (λ e. expression_of e
        ≡ listed token (base_seen base) base_token brackets first (views parts.now)) }
{
    let mut brace = first;
    let mut left = parts;
    while let [part, behind @ ..] = left {
        if is_leaf(part, Kind::OpenBrace) {
            let elements = elements(alloc, behind, brace)?;
            return Ok(Expression::NewList {
                base,
                base_token,
                brackets,
                elements,
                brace,
                token,
            });
        }
        brace += width(part);
        left = behind;
    }
    Ok(Expression::Wrong)
}

// What stands in braces, behind the token of this number.
#[cycle(lowering)]
fn elements(alloc: Global, parts: &[Tree], first: u32) -> Result<Vec<Element>, AllocError>
    requires { first + widths (views parts.now) < token_limit }
    ensures { IfOk result (λ found.
        elements_of (map element_of found.items) ≡ elements first (views parts.now)) }
{
    let mut found = Vec::new(alloc);
    let mut before = first;
    let mut left = parts;
    while let [part, mark, behind @ ..] = left {
        if is_mark(part) {
            return Ok(found);
        }
        let initial = initial(alloc, part, before + 1)?;
        found.push(Element { before, initial })?;
        before += width(part) + width(mark);
        left = behind;
    }
    Ok(found)
}

/// What a variable or an element is given first, by a tree whose first token has this number.
#[cycle(lowering)]
#[tactic(auto, using(crate::proofs::ExpressionViews::view_value, crate::proofs::ExpressionViews::view_listed))]
pub fn initial(alloc: Global, tree: &Tree, first: u32) -> Result<Initial, AllocError>
    requires { first + width (view tree.now) ≤ token_limit }
    ensures { IfOk result (λ given. initial_of given ≡ initial first (view tree.now)) }
{
    match parts_of(tree, Form::Init) {
        Some(parts) => {
            let elements = inside(alloc, parts, first)?;
            Ok(Initial::Listed {
                elements,
                brace: first,
            })
        }
        None => {
            let value = expression(alloc, tree, first)?;
            Ok(Initial::Value { value })
        }
    }
}

// The elements between braces, by all the parts.
#[cycle(lowering)]
fn inside(alloc: Global, parts: &[Tree], first: u32) -> Result<Vec<Element>, AllocError>
    requires { first + widths (views parts.now) ≤ token_limit }
    ensures { IfOk result (λ found. elements_of (map element_of found.items)
        ≡ inside first (Node Form.Init (views parts.now))) }
{
    let [brace, behind @ ..] = parts else {
        return Ok(Vec::new(alloc));
    };
    match brace {
        Tree::Leaf(_) => elements(alloc, behind, first),
        Tree::Node { .. } => Ok(Vec::new(alloc)),
    }
}

/// The arguments of a call, by a tree whose first token has this number.
#[cycle(lowering)]
pub fn arguments_of(alloc: Global, tree: &Tree, first: u32) -> Result<Vec<Expression>, AllocError>
    requires { first + width (view tree.now) ≤ token_limit }
    ensures { IfOk result (λ found.
        row_of (map expression_of found.items) ≡ arguments_of first (view tree.now)) }
{
    let Some(parts) = parts_of(tree, Form::Args) else {
        return Ok(Vec::new(alloc));
    };
    let [paren, behind @ ..] = parts else {
        return Ok(Vec::new(alloc));
    };
    arguments(alloc, behind, first + width(paren))
}

// Expressions with one part behind each, or `)` alone.
#[cycle(lowering)]
fn arguments(alloc: Global, parts: &[Tree], first: u32) -> Result<Vec<Expression>, AllocError>
    requires { first + widths (views parts.now) ≤ token_limit }
    ensures { IfOk result (λ found.
        row_of (map expression_of found.items) ≡ arguments first (views parts.now)) }
{
    let mut found = Vec::new(alloc);
    let mut at = first;
    let mut left = parts;
    while let [value, mark, behind @ ..] = left {
        found.push(expression(alloc, value, at)?)?;
        at += width(value) + width(mark);
        left = behind;
    }
    Ok(found)
}
