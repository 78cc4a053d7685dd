//! Declarators, and what a variable is given first (JLS 8.3, 14.4).

ghost use Rattle.std.specs.Prelude.{◌≡◌, ◌≤◌, ◌+◌, IfOk, map, option_map};
ghost use Rattle.wy_tree.specs.Ast.{view, views};
ghost use Rattle.wy_syntax.specs.Names.{width, widths};
ghost use Rattle.wy_syntax.specs.Statements.{initial_in, declarator, declarator_list, declarators, lone_declarator};
ghost use Rattle.wy_syntax.specs.View.{initial_of, declarator_of, declarators_of};
ghost use Rattle.wy_tree.specs.Tokens.{token_limit};

use crate::expression::Initial;
use crate::lower::expression::initial;
use crate::part::{is_leaf, named, pairs, parts_of, width};
use crate::statement::Declarator;
use std::alloc::{AllocError, Global};
use wy_tree::kind::Kind;
use wy_tree::tree::{Form, Tree};

// What stands behind `=`, if it does.
fn initial_in(alloc: Global, parts: &[Tree], first: u32) -> Result<Option<Initial>, AllocError>
    requires { first + widths (views parts.now) ≤ token_limit }
    ensures { IfOk result (λ given.
        option_map initial_of given ≡ initial_in first (views parts.now)) }
{
    let mut at = first;
    let mut left = parts;
    while let [mark, behind @ ..] = left {
        let [value, ..] = behind else {
            return Ok(None);
        };
        at += width(mark);
        if is_leaf(mark, Kind::Assign) {
            return Ok(Some(initial(alloc, value, at)?));
        }
        left = behind;
    }
    Ok(None)
}

// A name alone.
fn lone(alloc: Global, tree: &Tree, first: u32) -> Result<Declarator, AllocError>
    ensures { IfOk result (λ d. declarator_of d ≡ lone_declarator first (view tree.now)) }
{
    let name = named(alloc, tree, first)?;
    Ok(Declarator {
        name,
        brackets: 0,
        initial: None,
    })
}

// A name, with the pairs behind it and what it is given first.
fn declarator(alloc: Global, tree: &Tree, first: u32) -> Result<Declarator, AllocError>
    requires { first + width (view tree.now) ≤ token_limit }
    ensures { IfOk result (λ d. declarator_of d ≡ declarator first (view tree.now)) }
{
    let Some(parts) = parts_of(tree, Form::Decl) else {
        return lone(alloc, tree, first);
    };
    let [name, behind @ ..] = parts else {
        return lone(alloc, tree, first);
    };
    let at = first + width(name);
    let name = named(alloc, name, first)?;
    let initial = initial_in(alloc, behind, at)?;
    Ok(Declarator {
        name,
        brackets: pairs(behind),
        initial,
    })
}

// Declarators with commas between them.
fn declarator_list(alloc: Global, parts: &[Tree], first: u32) -> Result<Vec<Declarator>, AllocError>
    requires { first + widths (views parts.now) ≤ token_limit }
    ensures { IfOk result (λ found.
        declarators_of found ≡ declarator_list first (views parts.now)) }
{
    let mut found = Vec::new(alloc);
    let mut at = first;
    let mut left = parts;
    while let [part, comma, behind @ ..] = left {
        found.push(declarator(alloc, part, at)?)?;
        at += width(part) + width(comma);
        left = behind;
    }
    let [part, ..] = left else {
        return Ok(found);
    };
    found.push(declarator(alloc, part, at)?)?;
    Ok(found)
}

/// What is declared, by a tree whose first token has this number.
pub fn declarators(alloc: Global, tree: &Tree, first: u32) -> Result<Vec<Declarator>, AllocError>
    requires { first + width (view tree.now) ≤ token_limit }
    ensures { IfOk result (λ found. declarators_of found ≡ declarators first (view tree.now)) }
{
    let Some(parts) = parts_of(tree, Form::Decls) else {
        let mut found = Vec::new(alloc);
        found.push(declarator(alloc, tree, first)?)?;
        return Ok(found);
    };
    declarator_list(alloc, parts, first)
}
