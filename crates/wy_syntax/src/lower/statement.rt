//! The statement that a tree is, production by production (JLS 14).
//! `first` is the number of the first token of the parts that a function is given, `token` that of the statement.

ghost use Rattle.std.specs.Prelude.{◌≡◌, ◌≤◌, ◌+◌, IfOk, OnOk, map, option_map};
ghost use Rattle.wy_tree.specs.Ast.{view, views, Node, more, none};
ghost use Rattle.wy_tree.specs.Conditions.{first_kind};
ghost use Rattle.wy_syntax.specs.Names.{width, widths};
ghost use Rattle.wy_syntax.specs.Statements.{statement, braces, block, statements, by_word, branch, otherwise, loop_while, loop_do, loop_for, behind_init, for_test, body_behind, other, tried, catches, clause, caught, last_of};
ghost use Rattle.wy_syntax.specs.Syntax as plain;
ghost use Rattle.wy_syntax.specs.View.{body_of, statement_of, statements_of, block_of, clause_of, clauses_of, for_init_of, other_body_of, clauses_before, last_of as last_seen};
ghost use Rattle.wy_tree.specs.Tokens.{token_limit};

use crate::lower::act::{
    broken, conditional, continued, counted, declaration, declared, labelled, lone, performed,
    repeated, repeated_first, returned, thrown, wrong_body,
};
use crate::lower::expression::expression;
use crate::lower::head::{effects, for_init};
use crate::part::{is_leaf, leaf_kind, named, width, widths};
use crate::statement::{Block, Catch, ForInit, Statement};
use std::alloc::{AllocError, Global};
use wy_tree::kind::Kind;
use wy_tree::tree::{Form, Tree};

/// The statement of a tree whose first token has this number.
#[cycle(statement)]
#[tactic(auto, using(wy_tree::proofs::Views::view_leaf, wy_tree::proofs::Views::view_node))]
pub fn statement(alloc: Global, tree: &Tree, first: u32) -> Result<Statement, AllocError>
    requires { first + width (view tree.now) ≤ token_limit }
    ensures { IfOk result (λ s. statement_of s ≡ statement first (view tree.now)) }
{
    match tree {
        Tree::Leaf(token) => Ok(lone(token, first)),
        Tree::Node { form, parts } => production(alloc, *form, parts, first),
    }
}

// The statement of a tree, to stand in another.
#[cycle(statement)]
fn boxed(alloc: Global, tree: &Tree, first: u32) -> Result<Box<Statement>, AllocError>
    requires { first + width (view tree.now) ≤ token_limit }
    ensures { IfOk result (λ s. body_of s ≡ statement first (view tree.now)) }
{
    Ok(Box::new(alloc, statement(alloc, tree, first)?)?)
}

#[cycle(statement)]
fn production(
    alloc: Global,
    form: Form,
    parts: &[Tree],
    first: u32,
) -> Result<Statement, AllocError>
    requires { first + widths (views parts.now) ≤ token_limit }
    ensures { IfOk result (λ s. statement_of s ≡ statement first (Node form (views parts.now))) }
{
    match form {
        Form::Block => braced(alloc, parts, first),
        Form::Stmt => by_word(alloc, parts, first),
        _ => Ok(Statement::Wrong),
    }
}

#[cycle(statement)]
#[tactic(auto, using(crate::proofs::StatementViews::view_block))]
fn braced(alloc: Global, parts: &[Tree], first: u32) -> Result<Statement, AllocError>
    requires { first + widths (views parts.now) ≤ token_limit }
    ensures { IfOk result (λ s.
        statement_of s ≡ plain.Statement.Block (braces first (views parts.now))) }
{
    let block = braces(alloc, parts, first)?;
    Ok(Statement::Block { block })
}

// `{`, statements and `}`
#[cycle(statement)]
fn braces(alloc: Global, parts: &[Tree], first: u32) -> Result<Block, AllocError>
    requires { first + widths (views parts.now) ≤ token_limit }
    ensures { IfOk result (λ b. block_of b ≡ braces first (views parts.now)) }
{
    let [brace, behind @ ..] = parts else {
        return Ok(empty_block(alloc, first));
    };
    let end = first + widths(behind);
    let parts = statements(alloc, behind, first + width(brace))?;
    Ok(Block {
        brace: first,
        parts,
        end,
    })
}

#[tactic(auto, using(crate::proofs::StatementViews::view_braced))]
fn empty_block(alloc: Global, first: u32) -> Block
    ensures { block_of result ≡ plain.braced first plain.done first }
{
    Block {
        brace: first,
        parts: Vec::new(alloc),
        end: first,
    }
}

/// The block of a tree whose first token has this number.
#[cycle(statement)]
#[tactic(auto, using(wy_tree::proofs::Views::view_leaf, wy_tree::proofs::Views::view_node))]
pub fn block(alloc: Global, tree: &Tree, first: u32) -> Result<Block, AllocError>
    requires { first + width (view tree.now) ≤ token_limit }
    ensures { IfOk result (λ b. block_of b ≡ block first (view tree.now)) }
{
    match tree {
        Tree::Leaf(_) => Ok(empty_block(alloc, first)),
        Tree::Node { parts, .. } => braces(alloc, parts, first),
    }
}

// Statements up to `}`.
#[cycle(statement)]
fn statements(alloc: Global, parts: &[Tree], first: u32) -> Result<Vec<Statement>, AllocError>
    requires { first + widths (views parts.now) ≤ token_limit }
    ensures { IfOk result (λ found.
        statements_of (map statement_of found.items) ≡ statements first (views parts.now)) }
{
    let mut found = Vec::new(alloc);
    let mut at = first;
    let mut left = parts;
    while let [part, behind @ ..] = left {
        let [_next, ..] = behind else {
            return Ok(found);
        };
        found.push(statement(alloc, part, at)?)?;
        at += width(part);
        left = behind;
    }
    Ok(found)
}

#[cycle(statement)]
fn by_word(alloc: Global, parts: &[Tree], first: u32) -> Result<Statement, AllocError>
    requires { first + widths (views parts.now) ≤ token_limit }
    ensures { IfOk result (λ s.
        statement_of s ≡ by_word (first_kind (views parts.now)) first (views parts.now)) }
{
    let [word, behind @ ..] = parts else {
        return Ok(Statement::Wrong);
    };
    by_kind(alloc, leaf_kind(word), word, behind, first)
}

// A statement by the kind of its first part.
#[cycle(statement)]
fn by_kind(
    alloc: Global,
    kind: Kind,
    word: &Tree,
    behind: &[Tree],
    first: u32,
) -> Result<Statement, AllocError>
    requires { first + width (view word.now) + widths (views behind.now) ≤ token_limit }
    ensures { IfOk result (λ s.
        statement_of s ≡ by_word kind first (more (view word.now) (views behind.now))) }
{
    let at = first + width(word);
    match kind {
        Kind::If => branch(alloc, behind, at, first),
        Kind::While => loop_while(alloc, behind, at, first),
        Kind::Do => loop_do(alloc, behind, at, first),
        Kind::For => loop_for(alloc, behind, at, first),
        Kind::Break => broken(alloc, behind, at, first),
        Kind::Continue => continued(alloc, behind, at, first),
        Kind::Return => returned(alloc, behind, at, first),
        Kind::Throw => thrown(alloc, behind, at, first),
        Kind::Try => tried(alloc, behind, at, first),
        Kind::Final => declared(alloc, true, behind, at),
        _ => other(alloc, word, behind, first),
    }
}

// An `if`, from its `(` on.
#[cycle(statement)]
fn branch(alloc: Global, parts: &[Tree], first: u32, token: u32) -> Result<Statement, AllocError>
    requires { first + widths (views parts.now) ≤ token_limit }
    ensures { IfOk result (λ s. statement_of s ≡ branch token first (views parts.now)) }
{
    let [paren, test, close, main, behind @ ..] = parts else {
        return Ok(Statement::Wrong);
    };
    let test_at = first + width(paren);
    let main_at = test_at + width(test) + width(close);
    let other_at = main_at + width(main);
    let main = boxed(alloc, main, main_at)?;
    let other = otherwise(alloc, behind, other_at)?;
    let test = expression(alloc, test, test_at)?;
    Ok(conditional(test, main, other, token))
}

// The statement behind `else`.
#[cycle(statement)]
fn otherwise(
    alloc: Global,
    parts: &[Tree],
    first: u32,
) -> Result<Option<Box<Statement>>, AllocError>
    requires { first + widths (views parts.now) ≤ token_limit }
    ensures { IfOk result (λ s. other_body_of s ≡ otherwise first (views parts.now)) }
{
    let [word, body] = parts else {
        return Ok(None);
    };
    let body = boxed(alloc, body, first + width(word))?;
    Ok(Some(body))
}

// A `while`, from its `(` on.
#[cycle(statement)]
fn loop_while(
    alloc: Global,
    parts: &[Tree],
    first: u32,
    token: u32,
) -> Result<Statement, AllocError>
    requires { first + widths (views parts.now) ≤ token_limit }
    ensures { IfOk result (λ s. statement_of s ≡ loop_while token first (views parts.now)) }
{
    let [paren, test, close, body] = parts else {
        return Ok(Statement::Wrong);
    };
    let test_at = first + width(paren);
    let body_at = test_at + width(test) + width(close);
    let body = boxed(alloc, body, body_at)?;
    let test = expression(alloc, test, test_at)?;
    Ok(repeated(test, body, token))
}

// A `do`, from its body on.
#[cycle(statement)]
fn loop_do(alloc: Global, parts: &[Tree], first: u32, token: u32) -> Result<Statement, AllocError>
    requires { first + widths (views parts.now) ≤ token_limit }
    ensures { IfOk result (λ s. statement_of s ≡ loop_do token first (views parts.now)) }
{
    let [body, word, paren, test, ..] = parts else {
        return Ok(Statement::Wrong);
    };
    let test_at = first + width(body) + width(word) + width(paren);
    let body = boxed(alloc, body, first)?;
    let test = expression(alloc, test, test_at)?;
    Ok(repeated_first(body, test, token))
}

// A `for`, from its `(` on.
#[cycle(statement)]
fn loop_for(alloc: Global, parts: &[Tree], first: u32, token: u32) -> Result<Statement, AllocError>
    requires { first + widths (views parts.now) ≤ token_limit }
    ensures { IfOk result (λ s. statement_of s ≡ loop_for token first (views parts.now)) }
{
    let [paren, init, behind @ ..] = parts else {
        return Ok(Statement::Wrong);
    };
    let init_at = first + width(paren);
    let at = init_at + width(init);
    if is_leaf(init, Kind::Semicolon) {
        return for_test(alloc, ForInit::Nothing, behind, at, token);
    }
    let init = for_init(alloc, init, init_at)?;
    let [semicolon, further @ ..] = behind else {
        return Ok(Statement::Wrong);
    };
    for_test(alloc, init, further, at + width(semicolon), token)
}

// A `for`, from its test on.
#[cycle(statement)]
fn for_test(
    alloc: Global,
    init: ForInit,
    parts: &[Tree],
    first: u32,
    token: u32,
) -> Result<Statement, AllocError>
    requires { first + widths (views parts.now) ≤ token_limit }
    ensures { IfOk result (λ s.
        statement_of s ≡ for_test token (for_init_of init) first (views parts.now)) }
{
    let [test, behind @ ..] = parts else {
        return Ok(Statement::Wrong);
    };
    let [next, further @ ..] = behind else {
        return Ok(Statement::Wrong);
    };
    let at = first + width(test);
    if is_leaf(test, Kind::Semicolon) {
        let updates = effects(alloc, behind, at)?;
        let body = body_behind(alloc, behind, at)?;
        return Ok(counted(init, None, updates, body, token));
    }
    let updates_at = at + width(next);
    let updates = effects(alloc, further, updates_at)?;
    let body = body_behind(alloc, further, updates_at)?;
    let test = expression(alloc, test, first)?;
    Ok(counted(init, Some(test), updates, body, token))
}

// The statement behind `)`.
#[cycle(statement)]
fn body_behind(alloc: Global, parts: &[Tree], first: u32) -> Result<Box<Statement>, AllocError>
    requires { first + widths (views parts.now) ≤ token_limit }
    ensures { IfOk result (λ s. body_of s ≡ body_behind first (views parts.now)) }
{
    let mut at = first;
    let mut left = parts;
    while let [part, behind @ ..] = left {
        let [body, ..] = behind else {
            return wrong_body(alloc);
        };
        at += width(part);
        if is_leaf(part, Kind::CloseParen) {
            return boxed(alloc, body, at);
        }
        left = behind;
    }
    wrong_body(alloc)
}

// An expression, a label or a declaration.
#[cycle(statement)]
fn other(alloc: Global, front: &Tree, behind: &[Tree], first: u32) -> Result<Statement, AllocError>
    requires { first + width (view front.now) + widths (views behind.now) ≤ token_limit }
    ensures { IfOk result (λ s. statement_of s ≡ other first (view front.now) (views behind.now)) }
{
    match behind {
        [_semicolon] => performed(alloc, front, first),
        [mark, last] => two_behind(alloc, front, mark, last, first),
        _ => Ok(Statement::Wrong),
    }
}

// A label with its statement, or a type with what is declared of it.
#[cycle(statement)]
fn two_behind(
    alloc: Global,
    front: &Tree,
    mark: &Tree,
    last: &Tree,
    first: u32,
) -> Result<Statement, AllocError>
    requires { first + width (view front.now) + width (view mark.now) + width
        (view last.now) ≤ token_limit }
    ensures { IfOk result (λ s. statement_of s ≡ other first (view front.now)
        (more (view mark.now) (more (view last.now) none))) }
{
    let at = first + width(front);
    if is_leaf(mark, Kind::Colon) {
        let body = boxed(alloc, last, at + width(mark))?;
        return labelled(alloc, front, first, body);
    }
    declaration(alloc, front, mark, first)
}

// A `try`, from its block on.
#[cycle(statement)]
#[tactic(auto, using(crate::proofs::StatementViews::view_try))]
fn tried(alloc: Global, parts: &[Tree], first: u32, token: u32) -> Result<Statement, AllocError>
    requires { first + widths (views parts.now) ≤ token_limit }
    ensures { IfOk result (λ s. statement_of s ≡ tried token first (views parts.now)) }
{
    let [main, behind @ ..] = parts else {
        return Ok(Statement::Wrong);
    };
    let at = first + width(main);
    let main = block(alloc, main, first)?;
    let catches = catches(alloc, behind, at)?;
    let last = last_of(alloc, behind, at)?;
    Ok(Statement::Try {
        main,
        catches,
        last,
        token,
    })
}

// The clauses of a `try`.
#[cycle(statement)]
fn catches(alloc: Global, parts: &[Tree], first: u32) -> Result<Vec<Catch>, AllocError>
    requires { first + widths (views parts.now) ≤ token_limit }
    ensures { IfOk result (λ found.
        clauses_of (map clause_of found.items) ≡ catches first (views parts.now)) }
{
    let mut found = Vec::new(alloc);
    let mut at = first;
    let mut left = parts;
    while let [part, behind @ ..] = left {
        let Tree::Node { parts: inner, .. } = part else {
            return Ok(found);
        };
        put_clause(alloc, &mut found, inner, at)?;
        at += widths(inner);
        left = behind;
    }
    Ok(found)
}

// Puts the clause of these parts, if they are one, behind those that were found.
#[cycle(statement)]
fn put_clause(
    alloc: Global,
    found: &mut Vec<Catch>,
    parts: &[Tree],
    first: u32,
) -> Result<(), AllocError>
    requires { first + widths (views parts.now) ≤ token_limit }
    ensures { OnOk result
        ((rest : plain.Catches) → clauses_before (map clause_of found.new.items) rest
        ≡ clauses_before (map clause_of found.old.items) (clause first (views parts.now) rest)) }
{
    match parts {
        [word, paren, class, name, close, body] => {
            let at = first + width(word) + width(paren);
            found.push(caught(alloc, false, class, name, close, body, at)?)?;
            Ok(())
        }
        [word, paren, modifier, class, name, close, body] => {
            let at = first + width(word) + width(paren) + width(modifier);
            found.push(caught(alloc, true, class, name, close, body, at)?)?;
            Ok(())
        }
        _ => Ok(()),
    }
}

// A clause of a `try`, whose class has this number.
#[cycle(statement)]
#[tactic(auto, using(crate::proofs::StatementViews::view_clause))]
fn caught(
    alloc: Global,
    is_final: bool,
    class: &Tree,
    name: &Tree,
    close: &Tree,
    body: &Tree,
    first: u32,
) -> Result<Catch, AllocError>
    requires { first + width (view class.now) + width (view name.now) + width
        (view close.now) + width (view body.now) ≤ token_limit }
    ensures { IfOk result (λ c. (rest : plain.Catches) → clause_of c rest
        ≡ caught is_final first (view class.now) (view name.now) (block (first + width
        (view class.now) + width (view name.now) + width (view close.now)) (view body.now)) rest) }
{
    let name_at = first + width(class);
    let body_at = name_at + width(name) + width(close);
    let block = block(alloc, body, body_at)?;
    let class = named(alloc, class, first)?;
    let name = named(alloc, name, name_at)?;
    Ok(Catch {
        is_final,
        class,
        name,
        block,
    })
}

// The block behind `finally`.
#[cycle(statement)]
fn last_of(alloc: Global, parts: &[Tree], first: u32) -> Result<Option<Block>, AllocError>
    requires { first + widths (views parts.now) ≤ token_limit }
    ensures { IfOk result (λ last.
        last_seen (option_map block_of last) ≡ last_of first (views parts.now)) }
{
    let mut at = first;
    let mut left = parts;
    while let [part, behind @ ..] = left {
        let [body, ..] = behind else {
            return Ok(None);
        };
        at += width(part);
        if is_leaf(part, Kind::Finally) {
            let block = block(alloc, body, at)?;
            return Ok(Some(block));
        }
        left = behind;
    }
    Ok(None)
}
