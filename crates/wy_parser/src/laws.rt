//! Laws of the trees of tokens. Each function does nothing: its contract is the law.

ghost use Rattle.wy_tree.specs.Trees.{OneTree};

/// A list of tokens has at most one tree.
pub fn a_token_list_has_one_tree()
    ensures { OneTree }
{}
