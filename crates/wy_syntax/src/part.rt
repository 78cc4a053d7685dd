//! The parts of a production: how many tokens they have, which tokens they are, and what names and types they write
//! (JLS 3.8, 3.9, 4.3, 10.2).

ghost use Rattle.std.specs.Prelude.{◌≡◌, ◌<◌, ◌^◌, IfOk, MatchOption, string_bytes};
ghost use Rattle.wy_tree.specs.Ast.{Asts, view, views, Node};
ghost use Rattle.wy_tree.specs.Conditions.{leaf_kind, pairs};
ghost use Rattle.wy_tree.specs.Seen.{seen};
ghost use Rattle.wy_syntax.specs.Names.{width, widths, is_leaf, word_of, name_of, named, sign_of, base_of, base_named, written};
ghost use Rattle.wy_syntax.specs.View.{named_of, base_seen, type_seen};

use crate::name::{Named, WrittenBase, WrittenType};
use crate::operator::primitive_named;
use std::alloc::{AllocError, Global};
use wy_tree::kind::{Kind, is_kind, kind_at};
use wy_tree::token::Token;
use wy_tree::tree::{Form, Tree};

/// How many tokens a tree has.
#[cycle(width)]
#[tactic(auto, using(wy_tree::proofs::Views::view_leaf, wy_tree::proofs::Views::view_node))]
pub fn width(tree: &Tree) -> u32
    requires { width (view tree.now) < 2 ^ 32 }
    ensures { result ≡ width (view tree.now) }
{
    match tree {
        Tree::Leaf(_) => 1,
        Tree::Node { parts, .. } => widths(parts),
    }
}

/// How many tokens parts have.
#[cycle(width)]
pub fn widths(parts: &[Tree]) -> u32
    requires { widths (views parts.now) < 2 ^ 32 }
    ensures { result ≡ widths (views parts.now) }
{
    let mut total: u32 = 0;
    let mut left = parts;
    while let [first, behind @ ..] = left {
        total += width(first);
        left = behind;
    }
    total
}

/// Whether a tree is a token of this kind.
#[tactic(auto, using(wy_tree::proofs::Views::view_leaf, wy_tree::proofs::Views::view_node))]
pub fn is_leaf(tree: &Tree, kind: Kind) -> bool
    ensures { result ≡ is_leaf kind (view tree.now) }
{
    match tree {
        Tree::Leaf(token) => is_kind(kind_at(token), kind),
        Tree::Node { .. } => false,
    }
}

/// The bytes of a name, or none.
pub fn word_of(token: &Token) -> &str
    ensures { result.now ≡ word_of (seen token.now) }
{
    match token {
        Token::Word(name) => name.as_str(),
        _ => "",
    }
}

/// The bytes of a sign, or none.
pub fn sign_of(token: &Token) -> &str
    ensures { result.now ≡ sign_of (seen token.now) }
{
    match token {
        Token::Sign(sign) => sign.as_str(),
        _ => "",
    }
}

/// The name that a leaf is.
#[tactic(auto, using(wy_tree::proofs::Views::view_leaf, wy_tree::proofs::Views::view_node))]
pub fn name_of(alloc: Global, tree: &Tree) -> Result<String, AllocError>
    ensures { IfOk result (λ s. string_bytes s ≡ name_of (view tree.now)) }
{
    match tree {
        Tree::Leaf(token) => String::from_str(alloc, word_of(token)),
        Tree::Node { .. } => Ok(String::new(alloc)),
    }
}

/// The name that a leaf is, with its number.
pub fn named(alloc: Global, tree: &Tree, token: u32) -> Result<Named, AllocError>
    ensures { IfOk result (λ n. named_of n ≡ named token (view tree.now)) }
{
    let name = name_of(alloc, tree)?;
    Ok(Named { name, token })
}

// What a type begins with, by its first token.
fn base_of(alloc: Global, token: &Token) -> Result<WrittenBase, AllocError>
    ensures { IfOk result (λ b. base_seen b ≡ base_of (seen token.now)) }
{
    match token {
        Token::Key(word) => Ok(WrittenBase::Primitive(primitive_named(word.as_str()))),
        _ => Ok(WrittenBase::Class(String::from_str(alloc, word_of(token))?)),
    }
}

/// What a type begins with, by its first part.
#[tactic(auto, using(wy_tree::proofs::Views::view_leaf, wy_tree::proofs::Views::view_node))]
pub fn base_named(alloc: Global, tree: &Tree) -> Result<WrittenBase, AllocError>
    ensures { IfOk result (λ b. base_seen b ≡ base_named (view tree.now)) }
{
    match tree {
        Tree::Leaf(token) => base_of(alloc, token),
        Tree::Node { .. } => Ok(WrittenBase::Class(String::new(alloc))),
    }
}

/// The bracket pairs that stand directly among parts.
pub fn pairs(parts: &[Tree]) -> u32
    requires { widths (views parts.now) < 2 ^ 32 }
    ensures { result ≡ pairs (views parts.now) }
{
    let mut found: u32 = 0;
    let mut left = parts;
    while let [first, behind @ ..] = left {
        if is_leaf(first, Kind::OpenBracket) {
            found += 1;
        }
        left = behind;
    }
    found
}

/// A type as it is written: its first token alone, or with pairs of brackets behind it.
#[tactic(auto, using(wy_tree::proofs::Views::view_leaf, wy_tree::proofs::Views::view_node))]
pub fn written(alloc: Global, tree: &Tree, token: u32) -> Result<WrittenType, AllocError>
    requires { width (view tree.now) < 2 ^ 32 }
    ensures { IfOk result (λ t. type_seen t ≡ written token (view tree.now)) }
{
    match tree {
        Tree::Leaf(first) => {
            let base = base_of(alloc, first)?;
            Ok(WrittenType {
                base,
                token,
                brackets: 0,
            })
        }
        Tree::Node { form, parts } => written_by(alloc, *form, parts, token),
    }
}

// A type by its parts: pairs of brackets stand behind the first.
#[tactic(auto, using(crate::proofs::Parts::not_written))]
fn written_by(
    alloc: Global,
    form: Form,
    parts: &[Tree],
    token: u32,
) -> Result<WrittenType, AllocError>
    requires { widths (views parts.now) < 2 ^ 32 }
    ensures { IfOk result (λ t. type_seen t ≡ written token (Node form (views parts.now))) }
{
    match form {
        Form::TypeNode => bracketed(alloc, parts, token),
        _ => Ok(WrittenType {
            base: WrittenBase::Class(String::new(alloc)),
            token,
            brackets: 0,
        }),
    }
}

fn bracketed(alloc: Global, parts: &[Tree], token: u32) -> Result<WrittenType, AllocError>
    requires { widths (views parts.now) < 2 ^ 32 }
    ensures { IfOk result (λ t.
        type_seen t ≡ written token (Node Form.TypeNode (views parts.now))) }
{
    let Some((first, behind)) = parts.split_first() else {
        return Ok(WrittenType {
            base: WrittenBase::Class(String::new(alloc)),
            token,
            brackets: 0,
        });
    };
    let base = base_named(alloc, first)?;
    Ok(WrittenType {
        base,
        token,
        brackets: pairs(behind),
    })
}

/// The parts of a tree of this form.
#[tactic(auto, using(wy_tree::proofs::Views::view_leaf, wy_tree::proofs::Views::view_node))]
pub fn parts_of(tree: &Tree, wanted: Form) -> Option<&[Tree]>
    ensures { MatchOption result ((ts : Asts) → view tree.now ≡ Node wanted ts → ⊥) (λ parts.
        view tree.now ≡ Node wanted (views parts.now)) }
{
    match tree {
        Tree::Node { form, parts } if *form == wanted => Some(parts),
        _ => None,
    }
}

/// The kind of a token, or of nothing.
#[tactic(auto, using(wy_tree::proofs::Views::view_leaf, wy_tree::proofs::Views::view_node))]
pub fn leaf_kind(tree: &Tree) -> Kind
    ensures { result ≡ leaf_kind (view tree.now) }
{
    match tree {
        Tree::Leaf(token) => kind_at(token),
        Tree::Node { .. } => Kind::Nothing,
    }
}
