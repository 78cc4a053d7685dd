//! The parts of a production, each with the number of its first token.

ghost use Rattle.std.specs.Prelude.{◌≤◌, ◌+◌};
ghost use Rattle.wy_tree.specs.Ast.{view, views};
ghost use Rattle.wy_syntax.specs.Names.{width, widths};
ghost use Rattle.wy_tree.specs.Tokens.{token_limit};

use wy_syntax::part::{parts_of, width};
use wy_tree::tree::{Form, Tree};

/// A part, and the number of its first token.
#[derive(Clone, Copy)]
pub struct Part<'a> {
    pub at: u32,
    pub tree: &'a Tree,
    pub ghost within: { at + width (view tree.now) ≤ token_limit },
}

/// Parts one behind another, and the number of their first token.
#[derive(Clone, Copy)]
pub struct Parts<'a> {
    pub at: u32,
    pub trees: &'a [Tree],
    pub ghost within: { at + widths (views trees.now) ≤ token_limit },
}

impl<'a> Part<'a> {
    ghost use Rattle.std.specs.Prelude.{◌≡◌, MatchOption};
    ghost use Rattle.wy_tree.specs.Ast.{Asts, Node, view};
    ghost use Rattle.wy_declaration.specs.Parts.{Inside};

    /// The parts of a tree of this form.
    pub fn parts(self, form: Form) -> Option<Parts<'a>>
        ensures { MatchOption result ((ts : Asts) → view self.entry.tree.now ≡ Node form ts → ⊥)
            (λ inner. Inside form self.entry inner) }
    {
        let trees = parts_of(self.tree, form)?;
        Some(Parts { at: self.at, trees })
    }
}

impl<'a> Parts<'a> {
    ghost use Rattle.std.specs.Prelude.{◌≡◌, ◌≤◌, ◌-◌, length, take, MatchOption};
    ghost use Rattle.wy_declaration.specs.Parts.{parts_of, IsEmpty, Splits};

    /// The first part, and those behind it.
    pub fn split(self) -> Option<(Part<'a>, Parts<'a>)>
        ensures { MatchOption result (IsEmpty self.entry) (λ r. Splits self.entry r.0 r.1) }
    {
        let [tree, trees @ ..] = self.trees else {
            return None;
        };
        let first = Part { at: self.at, tree };
        let behind = Parts {
            at: self.at + width(tree),
            trees,
        };
        Some((first, behind))
    }

    /// The parts in front of the last ones.
    pub fn front(self, last: Parts) -> Parts<'a>
        requires { length last.trees.now ≤ length self.trees.now }
        ensures { parts_of result ≡ take (length self.entry.trees.now - length last.entry.trees.now)
            (parts_of self.entry) }
    {
        Parts {
            at: self.at,
            trees: &self.trees[..self.trees.len() - last.trees.len()],
        }
    }
}
