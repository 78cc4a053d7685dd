//! The tokens of a tree, and its depth.

ghost use Rattle.std.specs.Prelude.{◌≡◌, ◌<◌, ◌+◌, ◌^◌, map, reverse, IfOk, OnOk};
ghost use Rattle.wy_tree.specs.Seen.{seen};
ghost use Rattle.wy_tree.specs.Ast.{view, views, joined, deep, deepest, tokens, views_of};

use crate::token::{Token, copied};
use crate::tree::Tree;
use std::alloc::{AllocError, Global};

/// The tokens of a tree from left to right.
pub fn tokens_of(alloc: Global, tree: &Tree) -> Result<Vec<Token>, AllocError>
    ensures { IfOk result (λ found. map seen found.items ≡ tokens (view tree.now)) }
{
    let mut found = Vec::new(alloc);
    let mut pending = Vec::new(alloc);
    pending.push(tree)?;
    while let Some(next) = pending.pop() {
        match next {
            Tree::Leaf(token) => found.push(copied(token)?)?,
            Tree::Node { parts, .. } => put_parts(&mut pending, parts)?,
        }
    }
    Ok(found)
}

// Puts parts before what is pending, whose first is the last of the `Vec`.
fn put_parts<'a>(pending: &mut Vec<&'a Tree>, parts: &'a [Tree]) -> Result<(), AllocError>
    ensures { OnOk result (views_of (reverse pending.new.items) ≡ joined (views parts.now)
        (views_of (reverse pending.old.items))) }
{
    let mut left = parts;
    while let Some((last, before)) = left.split_last() {
        pending.push(last)?;
        left = before;
    }
    Ok(())
}

/// The levels of a tree: 1 for a leaf, else one more than the deepest part has.
#[cycle(depth)]
#[tactic(auto, using(crate::proofs::Views::view_leaf, crate::proofs::Views::view_node))]
pub fn depth(tree: &Tree) -> u32
    requires { deep (view tree.now) < 2 ^ 32 }
    ensures { result ≡ deep (view tree.now) }
{
    match tree {
        Tree::Leaf(_) => 1,
        Tree::Node { parts, .. } => deepest_part(parts) + 1,
    }
}

#[cycle(depth)]
fn deepest_part(parts: &[Tree]) -> u32
    requires { deepest (views parts.now) + 1 < 2 ^ 32 }
    ensures { result ≡ deepest (views parts.now) }
{
    let mut most: u32 = 0;
    let mut left = parts;
    while let [first, behind @ ..] = left {
        most = most.max(depth(first));
        left = behind;
    }
    most
}
