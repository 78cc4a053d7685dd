//! Statements from what they are made of (JLS 14).

ghost use Rattle.std.specs.Prelude.{◌≡◌, ◌≤◌, ◌+◌, IfOk, false, map, option_map};
ghost use Rattle.wy_tree.specs.Ast.{view, views, Leaf};
ghost use Rattle.wy_tree.specs.Seen.{seen};
ghost use Rattle.wy_syntax.specs.Names.{width, widths, named, written};
ghost use Rattle.wy_syntax.specs.Statements.{statement, effect, label, value, thrown, declared, declarators};
ghost use Rattle.wy_syntax.specs.Syntax as plain;
ghost use Rattle.wy_syntax.specs.View.{body_of, effect_of, expression_of, for_init_of, other_body_of, statement_of};
ghost use Rattle.wy_tree.specs.Tokens.{token_limit};

use crate::expression::Expression;
use crate::lower::expression::expression;
use crate::lower::head::{effect, label, value};
use crate::lower::variable::declarators;
use crate::part::{named, width, written};
use crate::statement::{Effect, ForInit, Statement};
use std::alloc::{AllocError, Global};
use wy_tree::kind::{Kind, is_kind, kind_at};
use wy_tree::token::Token;
use wy_tree::tree::Tree;

/// `;`, or no statement.
#[tactic(auto, using(crate::proofs::StatementViews::view_empty, crate::proofs::StatementViews::view_wrong), unfolding(crate::specs::Statements::statement))]
pub fn lone(token: &Token, at: u32) -> Statement
    ensures { statement_of result ≡ statement at (Leaf (seen token.now)) }
{
    if is_kind(kind_at(token), Kind::Semicolon) {
        return Statement::Empty { token: at };
    }
    Statement::Wrong
}

/// An expression with `;` behind it.
#[tactic(auto, using(crate::proofs::StatementViews::view_effect))]
pub fn performed(alloc: Global, tree: &Tree, first: u32) -> Result<Statement, AllocError>
    requires { first + width (view tree.now) ≤ token_limit }
    ensures { IfOk result (λ s. statement_of s ≡ plain.Perform (effect first (view tree.now))) }
{
    let effect = effect(alloc, tree, first)?;
    Ok(Statement::Effect { effect })
}

/// A type and what is declared of it, behind which stands `;`.
#[tactic(auto, using(crate::proofs::StatementViews::view_declare, crate::proofs::StatementViews::view_wrong))]
pub fn declared(
    alloc: Global,
    is_final: bool,
    parts: &[Tree],
    first: u32,
) -> Result<Statement, AllocError>
    requires { first + widths (views parts.now) ≤ token_limit }
    ensures { IfOk result (λ s. statement_of s ≡ declared is_final first (views parts.now)) }
{
    let [ty, variables, ..] = parts else {
        return Ok(Statement::Wrong);
    };
    let declarators = declarators(alloc, variables, first + width(ty))?;
    let ty = written(alloc, ty, first)?;
    Ok(Statement::Declare {
        is_final,
        ty,
        declarators,
    })
}

/// `throw`, by what stands behind it.
#[tactic(auto, using(crate::proofs::StatementViews::view_throw, crate::proofs::StatementViews::view_wrong))]
pub fn thrown(
    alloc: Global,
    parts: &[Tree],
    first: u32,
    token: u32,
) -> Result<Statement, AllocError>
    requires { first + widths (views parts.now) ≤ token_limit }
    ensures { IfOk result (λ s. statement_of s ≡ thrown token first (views parts.now)) }
{
    let [value, ..] = parts else {
        return Ok(Statement::Wrong);
    };
    let value = expression(alloc, value, first)?;
    Ok(Statement::Throw { value, token })
}

/// `break`, by what stands behind it.
#[tactic(auto, using(crate::proofs::StatementViews::view_break))]
pub fn broken(
    alloc: Global,
    parts: &[Tree],
    first: u32,
    token: u32,
) -> Result<Statement, AllocError>
    ensures { IfOk result (λ s.
        statement_of s ≡ plain.Break (label first (views parts.now)) token) }
{
    let label = label(alloc, parts, first)?;
    Ok(Statement::Break { label, token })
}

/// `continue`, by what stands behind it.
#[tactic(auto, using(crate::proofs::StatementViews::view_continue))]
pub fn continued(
    alloc: Global,
    parts: &[Tree],
    first: u32,
    token: u32,
) -> Result<Statement, AllocError>
    ensures { IfOk result (λ s.
        statement_of s ≡ plain.Continue (label first (views parts.now)) token) }
{
    let label = label(alloc, parts, first)?;
    Ok(Statement::Continue { label, token })
}

/// `return`, by what stands behind it.
#[tactic(auto, using(crate::proofs::StatementViews::view_return))]
pub fn returned(
    alloc: Global,
    parts: &[Tree],
    first: u32,
    token: u32,
) -> Result<Statement, AllocError>
    requires { first + widths (views parts.now) ≤ token_limit }
    ensures { IfOk result (λ s.
        statement_of s ≡ plain.Return (value first (views parts.now)) token) }
{
    let value = value(alloc, parts, first)?;
    Ok(Statement::Return { value, token })
}

/// `if`, with a statement behind `else` or without.
#[tactic(auto, using(crate::proofs::StatementViews::view_if))]
pub fn conditional(
    test: Expression,
    main: Box<Statement>,
    other: Option<Box<Statement>>,
    token: u32,
) -> Statement
    ensures { statement_of result ≡ plain.If (expression_of test) (body_of main)
        (other_body_of other) token }
{
    Statement::If {
        test,
        main,
        other,
        token,
    }
}

/// `while`
#[tactic(auto, using(crate::proofs::StatementViews::view_while))]
pub fn repeated(test: Expression, body: Box<Statement>, token: u32) -> Statement
    ensures { statement_of result ≡ plain.While (expression_of test) (body_of body) token }
{
    Statement::While { test, body, token }
}

/// `do`
#[tactic(auto, using(crate::proofs::StatementViews::view_do))]
pub fn repeated_first(body: Box<Statement>, test: Expression, token: u32) -> Statement
    ensures { statement_of result ≡ plain.Do (body_of body) (expression_of test) token }
{
    Statement::Do { body, test, token }
}

/// `for`
#[tactic(auto, using(crate::proofs::StatementViews::view_for))]
pub fn counted(
    init: ForInit,
    test: Option<Expression>,
    updates: Vec<Effect>,
    body: Box<Statement>,
    token: u32,
) -> Statement
    ensures { statement_of result ≡ plain.For (for_init_of init) (option_map expression_of test)
        (map effect_of updates.items) (body_of body) token }
{
    Statement::For {
        init,
        test,
        updates,
        body,
        token,
    }
}

/// No statement, where one should stand in another.
#[tactic(auto, using(crate::proofs::StatementViews::view_wrong))]
pub fn wrong_body(alloc: Global) -> Result<Box<Statement>, AllocError>
    ensures { IfOk result (λ s. body_of s ≡ plain.Statement.Unknown) }
{
    Ok(Box::new(alloc, Statement::Wrong)?)
}

/// A statement with a label, whose name has this number.
#[tactic(auto, using(crate::proofs::StatementViews::view_labelled))]
pub fn labelled(
    alloc: Global,
    name: &Tree,
    at: u32,
    body: Box<Statement>,
) -> Result<Statement, AllocError>
    ensures { IfOk result (λ s.
        statement_of s ≡ plain.Labelled (named at (view name.now)) (body_of body)) }
{
    let name = named(alloc, name, at)?;
    Ok(Statement::Labelled { name, body })
}

/// A type and what is declared of it, by both.
#[tactic(auto, using(crate::proofs::StatementViews::view_declare))]
pub fn declaration(
    alloc: Global,
    ty: &Tree,
    variables: &Tree,
    first: u32,
) -> Result<Statement, AllocError>
    requires { first + width (view ty.now) + width (view variables.now) ≤ token_limit }
    ensures { IfOk result (λ s. statement_of s ≡ plain.Declare false (written first (view ty.now))
        (declarators (first + width (view ty.now)) (view variables.now))) }
{
    let declarators = declarators(alloc, variables, first + width(ty))?;
    let ty = written(alloc, ty, first)?;
    Ok(Statement::Declare {
        is_final: false,
        ty,
        declarators,
    })
}
