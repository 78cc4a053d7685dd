//! Modifiers in front of a declaration (JLS 8.1.1, 8.3.1, 8.4.3).

ghost use Rattle.std.specs.Prelude.{◌≡◌, IfOk, map};
ghost use Rattle.wy_tree.specs.Ast.{view};
ghost use Rattle.wy_tree.specs.Grammar.{is_modifying};
ghost use Rattle.wy_tree.specs.Kinds.{kind_of};
ghost use Rattle.wy_tree.specs.Seen.{seen};
ghost use Rattle.wy_syntax.specs.Declarations.{behind_modifiers, is_modifier, key_of, modifier_named, modifier_of, modifiers_of};
ghost use Rattle.wy_syntax.specs.View.{placed_of};
ghost use Rattle.wy_declaration.specs.Parts.{parts_of};

use crate::part::Parts;
use std::alloc::{AllocError, Global};
use wy_syntax::declaration::{Modifier, Placed};
use wy_tree::kind::{Kind, is_kind, kind_at};
use wy_tree::token::Token;
use wy_tree::tree::{Form, Tree};

/// A modifier by its word.
#[tactic(auto, unfolding(wy_syntax::specs::Declarations::modifier_named))]
fn modifier_named(word: &str) -> Modifier
    ensures { result ≡ modifier_named word.now }
{
    if word == "public" {
        Modifier::Public
    } else if word == "private" {
        Modifier::Private
    } else if word == "protected" {
        Modifier::Protected
    } else if word == "static" {
        Modifier::Static
    } else if word == "final" {
        Modifier::Final
    } else {
        Modifier::Abstract
    }
}

/// The bytes of a keyword, or none.
fn key_of(token: &Token) -> &str
    ensures { result.now ≡ key_of (seen token.now) }
{
    match token {
        Token::Key(word) => word.as_str(),
        _ => "",
    }
}

/// The modifier that a part is.
#[tactic(auto, using(wy_tree::proofs::Views::view_leaf, wy_tree::proofs::Views::view_node))]
fn modifier_of(tree: &Tree) -> Modifier
    ensures { result ≡ modifier_of (view tree.now) }
{
    match tree {
        Tree::Leaf(token) => modifier_named(key_of(token)),
        Tree::Node { .. } => Modifier::Override,
    }
}

/// Whether a part is a modifier.
#[tactic(auto, using(wy_tree::proofs::Views::view_leaf, wy_tree::proofs::Views::view_node))]
fn is_modifier(tree: &Tree) -> bool
    ensures { result ≡ is_modifier (view tree.now) }
{
    match tree {
        Tree::Leaf(token) => is_modifying(token),
        Tree::Node { form, .. } => *form == Form::Mod,
    }
}

/// Whether a token is a modifier.
fn is_modifying(token: &Token) -> bool
    ensures { result ≡ is_modifying (kind_of (seen token.now)) }
{
    let kind = kind_at(token);
    is_kind(kind, Kind::Modifier) || is_kind(kind, Kind::Static) || is_kind(kind, Kind::Final)
}

/// The modifiers in front.
#[tactic(auto, using(crate::proofs::Rows::grown, wy_syntax::proofs::Heads::row_ends), unfolding(wy_syntax::specs::Declarations::modifiers_of))]
pub fn modifiers(alloc: Global, parts: Parts) -> Result<Vec<Placed>, AllocError>
    ensures { IfOk result (λ found.
        map placed_of found.items ≡ modifiers_of (parts_of parts.entry)) }
{
    let mut found = Vec::new(alloc);
    let mut left = parts;
    while let Some((part, behind)) = left.split() {
        if !is_modifier(part.tree) {
            return Ok(found);
        }
        found.push(Placed {
            modifier: modifier_of(part.tree),
            token: part.at,
        })?;
        left = behind;
    }
    Ok(found)
}

/// What stands behind the modifiers.
#[tactic(auto, unfolding(wy_syntax::specs::Declarations::behind_modifiers))]
pub fn behind_modifiers(parts: Parts<'_>) -> Parts<'_>
    ensures { parts_of result ≡ behind_modifiers (parts_of parts.entry) }
{
    let mut left = parts;
    while let Some((part, behind)) = left.split() {
        if !is_modifier(part.tree) {
            return left;
        }
        left = behind;
    }
    left
}
