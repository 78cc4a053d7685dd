//! Trees over tokens, one form for each production of the grammar (JLS 18, restated).

ghost use Rattle.std.specs.Prelude.{◌≡◌};
ghost use Rattle.wy_tree.specs.Ast.{Leaf, Node, view, views};
ghost use Rattle.wy_tree.specs.Seen.{seen};

use crate::token::Token;

/// A tree. A token is a leaf. A production that has a single part in a text makes no node of its own.
#[derive(Debug, Drop)]
pub enum Tree {
    Leaf(Token),
    /// A production with its parts: its tokens and nodes, those of its repetitions included.
    /// The `Unit` of a text without tokens is the only node without parts, and counts as a leaf.
    Node { form: Form, parts: Vec<Tree> },
}

/// The productions.
#[derive(Clone, Copy, Debug, PartialEq, Eq)]
pub enum Form {
    Unit,
    Class,
    Interface,
    Mod,
    Member,
    Params,
    Param,
    Throws,
    Result,
    TypeNode,
    Decls,
    Decl,
    Init,
    Block,
    Stmt,
    ForInit,
    Catch,
    Expr,
    Cond,
    Binary,
    Unary,
    Cast,
    Postfix,
    Primary,
    New,
    Args,
}

/// The leaf of a token.
pub fn leaf(token: Token) -> Tree
    ensures { view result ≡ Leaf (seen token) }
{
    Tree::Leaf(token)
}

/// The node of these parts.
pub fn node(form: Form, parts: Vec<Tree>) -> Tree
    ensures { view result ≡ Node form (views parts.items) }
{
    Tree::Node { form, parts }
}
