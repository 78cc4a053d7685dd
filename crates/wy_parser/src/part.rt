//! Trees with their depths, and rows of them.

ghost use Rattle.std.specs.Prelude.{◌≡◌, ◌≤◌, ◌<◌, ◌+◌, max, IfOk, OnOk};
ghost use Rattle.wy_tree.specs.Seen.{seen};
ghost use Rattle.wy_tree.specs.Ast.{view, views, joined, none, one, more, deep, deepest, Leaf, Node};

use std::alloc::{AllocError, Global};
use wy_tree::token::{Token, copied};
use wy_tree::tree::{Form, Tree, leaf, node};

/// A tree and its depth.
#[derive(Drop)]
pub struct Sub {
    pub tree: Tree,
    pub depth: u32,
    ghost known: { depth ≡ deep (view tree) },
}

/// Parts in a row, and the depth of the deepest.
#[derive(Drop)]
pub struct PartList {
    pub items: Vec<Tree>,
    pub depth: u32,
    ghost known: { depth ≡ deepest (views items.items) },
}

/// The leaf of a token like this one.
pub fn tip(token: &Token) -> Result<Sub, AllocError>
    ensures tree { IfOk result (λ t. view t.tree ≡ Leaf (seen token.now)) }
    ensures depth { IfOk result (λ t. t.depth ≡ 1) }
{
    let tree = leaf(copied(token)?);
    Ok(Sub { tree, depth: 1 })
}

pub fn no_parts(alloc: Global) -> PartList
    ensures items { views result.items.items ≡ none }
    ensures depth { result.depth ≡ 0 }
{
    PartList {
        items: Vec::new(alloc),
        depth: 0,
    }
}

#[tactic(auto, using(wy_tree::proofs::Views::views_push, wy_tree::proofs::Views::deepest_push))]
pub fn push(parts: &mut PartList, part: Sub) -> Result<(), AllocError>
    ensures items { OnOk result (views parts.new.items.items ≡ joined (views parts.old.items.items)
        (one (view part.tree))) }
    ensures depth { OnOk result (parts.new.depth ≡ max parts.old.depth part.depth) }
{
    parts.items.push(part.tree)?;
    parts.depth = parts.depth.max(part.depth);
    Ok(())
}

/// The node of these parts.
pub fn node_of(form: Form, parts: PartList) -> Sub
    requires { parts.depth < 1000 }
    ensures tree { view result.tree ≡ Node form (views parts.items.items) }
    ensures depth { result.depth ≡ parts.depth + 1 }
{
    let PartList { items, depth } = parts;
    Sub {
        tree: node(form, items),
        depth: depth + 1,
    }
}

/// The node of a tree and of parts behind it.
pub fn node_around(form: Form, left: Sub, parts: PartList) -> Result<Sub, AllocError>
    requires left_short { left.depth < 1000 }
    requires parts_short { parts.depth < 1000 }
    ensures tree { IfOk result (λ t.
        view t.tree ≡ Node form (more (view left.tree) (views parts.items.items))) }
    ensures depth { IfOk result (λ t. t.depth ≡ max left.depth parts.depth + 1) }
{
    let PartList { mut items, depth } = parts;
    items.insert(0, left.tree)?;
    Ok(Sub {
        tree: node(form, items),
        depth: left.depth.max(depth) + 1,
    })
}
