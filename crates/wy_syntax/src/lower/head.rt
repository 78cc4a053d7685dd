//! Expressions that are statements, the head of a `for`, labels and values that may be absent (JLS 14.8, 14.14, 14.15 to 14.17).

ghost use Rattle.std.specs.Prelude.{◌≡◌, ◌≤◌, ◌+◌, ◌++◌, Bool, IfOk, map, option_map};
ghost use Rattle.wy_tree.specs.Ast.{view, views};
ghost use Rattle.wy_syntax.specs.Names.{width, widths, written};
ghost use Rattle.wy_syntax.specs.Statements.{effect, effects, effects_behind, for_parts, for_init, label, value, declarators};
ghost use Rattle.wy_syntax.specs.Syntax as plain;
ghost use Rattle.wy_syntax.specs.View.{effect_of, expression_of, for_init_of, named_of};
ghost use Rattle.wy_tree.specs.Tokens.{token_limit};

use crate::expression::Expression;
use crate::lower::expression::expression;
use crate::lower::variable::declarators;
use crate::name::Named;
use crate::part::{is_leaf, named, parts_of, width, written};
use crate::statement::{Effect, ForInit};
use std::alloc::{AllocError, Global};
use wy_tree::kind::Kind;
use wy_tree::tree::{Form, Tree};

/// An expression that is a statement.
pub fn effect(alloc: Global, tree: &Tree, first: u32) -> Result<Effect, AllocError>
    requires { first + width (view tree.now) ≤ token_limit }
    ensures { IfOk result (λ e. effect_of e ≡ effect first (view tree.now)) }
{
    let value = expression(alloc, tree, first)?;
    Ok(Effect {
        value,
        token: first,
    })
}

// The expressions behind those that were found: one a comma.
fn effects_behind(
    alloc: Global,
    before: Vec<Effect>,
    parts: &[Tree],
    first: u32,
) -> Result<Vec<Effect>, AllocError>
    requires { first + widths (views parts.now) ≤ token_limit }
    ensures { IfOk result (λ found. map effect_of found.items ≡ map effect_of before.items
        ++ effects_behind first (views parts.now)) }
{
    let mut found = before;
    let mut at = first;
    let mut left = parts;
    while let [mark, value, behind @ ..] = left {
        if !is_leaf(mark, Kind::Comma) {
            return Ok(found);
        }
        at += width(mark);
        found.push(effect(alloc, value, at)?)?;
        at += width(value);
        left = behind;
    }
    Ok(found)
}

/// Expressions with commas between them, up to a `)`.
pub fn effects(alloc: Global, parts: &[Tree], first: u32) -> Result<Vec<Effect>, AllocError>
    requires { first + widths (views parts.now) ≤ token_limit }
    ensures { IfOk result (λ found. map effect_of found.items ≡ effects first (views parts.now)) }
{
    let mut found = Vec::new(alloc);
    let [value, behind @ ..] = parts else {
        return Ok(found);
    };
    if is_leaf(value, Kind::CloseParen) {
        return Ok(found);
    }
    found.push(effect(alloc, value, first)?)?;
    effects_behind(alloc, found, behind, first + width(value))
}

// A type and what is declared of it.
fn declared(
    alloc: Global,
    is_final: bool,
    ty: &Tree,
    variables: &Tree,
    first: u32,
) -> Result<ForInit, AllocError>
    requires { first + width (view ty.now) + width (view variables.now) ≤ token_limit }
    ensures { IfOk result (λ i. for_init_of i ≡ plain.ForInit.Declared is_final (written first
        (view ty.now)) (declarators (first + width (view ty.now)) (view variables.now))) }
{
    let declarators = declarators(alloc, variables, first + width(ty))?;
    let ty = written(alloc, ty, first)?;
    Ok(ForInit::Declared {
        ty,
        is_final,
        declarators,
    })
}

// Expressions, which are three parts or more.
fn performed(alloc: Global, parts: &[Tree], first: u32) -> Result<ForInit, AllocError>
    requires { first + widths (views parts.now) ≤ token_limit }
    ensures { IfOk result (λ i.
        for_init_of i ≡ plain.ForInit.Effects (effects first (views parts.now))) }
{
    let effects = effects(alloc, parts, first)?;
    Ok(ForInit::Effects { effects })
}

fn for_parts(alloc: Global, parts: &[Tree], first: u32) -> Result<ForInit, AllocError>
    requires { first + widths (views parts.now) ≤ token_limit }
    ensures { IfOk result (λ i. for_init_of i ≡ for_parts first (views parts.now)) }
{
    if let [ty, variables] = parts {
        return declared(alloc, false, ty, variables, first);
    }
    let [word, ty, variables, ..] = parts else {
        return Ok(ForInit::Nothing);
    };
    if is_leaf(word, Kind::Final) {
        return declared(alloc, true, ty, variables, first + width(word));
    }
    performed(alloc, parts, first)
}

/// What stands first in the parentheses of a `for`, by a tree whose first token has this number.
pub fn for_init(alloc: Global, tree: &Tree, first: u32) -> Result<ForInit, AllocError>
    requires { first + width (view tree.now) ≤ token_limit }
    ensures { IfOk result (λ i. for_init_of i ≡ for_init first (view tree.now)) }
{
    let Some(parts) = parts_of(tree, Form::ForInit) else {
        let mut effects = Vec::new(alloc);
        effects.push(effect(alloc, tree, first)?)?;
        return Ok(ForInit::Effects { effects });
    };
    for_parts(alloc, parts, first)
}

/// The label behind `break` or `continue`.
pub fn label(alloc: Global, parts: &[Tree], first: u32) -> Result<Option<Named>, AllocError>
    ensures { IfOk result (λ l. option_map named_of l ≡ label first (views parts.now)) }
{
    let [name, _semicolon] = parts else {
        return Ok(None);
    };
    Ok(Some(named(alloc, name, first)?))
}

/// The value behind `return`.
pub fn value(alloc: Global, parts: &[Tree], first: u32) -> Result<Option<Expression>, AllocError>
    requires { first + widths (views parts.now) ≤ token_limit }
    ensures { IfOk result (λ v. option_map expression_of v ≡ value first (views parts.now)) }
{
    let [value, _semicolon] = parts else {
        return Ok(None);
    };
    Ok(Some(expression(alloc, value, first)?))
}
