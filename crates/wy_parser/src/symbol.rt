//! Tokens with their kinds, which are told once for each.

ghost use Rattle.std.specs.Prelude.{◌≡◌};
ghost use Rattle.wy_tree.specs.Seen.{seen};
ghost use Rattle.wy_tree.specs.Kinds.{kind_of};

use wy_tree::kind::Kind;
use wy_tree::token::Token;

/// A token and its kind.
#[derive(Drop)]
pub struct Symbol {
    pub kind: Kind,
    pub token: Token,
    ghost known: { kind ≡ kind_of (seen token) },
}
