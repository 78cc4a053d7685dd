//! Which form a part has.

ghost use Rattle.std.specs.Prelude.{◌≡◌};
ghost use Rattle.wy_tree.specs.Ast.{view};
ghost use Rattle.wy_syntax.specs.Declarations.{is_arguments, is_block, is_params};

use wy_syntax::part::parts_of;
use wy_tree::tree::{Form, Tree};

/// Whether a tree is a block.
#[tactic(auto, using(crate::proofs::Forms::a_block, crate::proofs::Forms::no_block))]
pub fn is_block(tree: &Tree) -> bool
    ensures { result ≡ is_block (view tree.now) }
{
    parts_of(tree, Form::Block).is_some()
}

/// Whether a tree is a list of parameters.
#[tactic(auto, using(crate::proofs::Forms::a_list, crate::proofs::Forms::no_list))]
pub fn is_params(tree: &Tree) -> bool
    ensures { result ≡ is_params (view tree.now) }
{
    parts_of(tree, Form::Params).is_some()
}

/// Whether a tree is a list of arguments.
#[tactic(auto, using(crate::proofs::Forms::a_row, crate::proofs::Forms::no_row))]
pub fn is_arguments(tree: &Tree) -> bool
    ensures { result ≡ is_arguments (view tree.now) }
{
    parts_of(tree, Form::Args).is_some()
}
