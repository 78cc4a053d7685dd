//! Names behind a word, with commas between them (JLS 8.1.5, 8.4.6, 9.1.3).

ghost use Rattle.std.specs.Prelude.{◌≡◌, IfOk, map};
ghost use Rattle.wy_syntax.specs.Declarations.{names_behind};
ghost use Rattle.wy_syntax.specs.View.{named_of};
ghost use Rattle.wy_declaration.specs.Parts.{parts_of};

use crate::part::Parts;
use std::alloc::{AllocError, Global};
use wy_syntax::name::Named;
use wy_syntax::part::{is_leaf, named};
use wy_tree::kind::Kind;

/// The names behind the first part, up to a `{`: one a comma.
#[tactic(auto, using(crate::proofs::Rows::grown, wy_syntax::proofs::Heads::row_ends), unfolding(wy_syntax::specs::Declarations::names_behind))]
pub fn names_behind(alloc: Global, parts: Parts) -> Result<Vec<Named>, AllocError>
    ensures { IfOk result (λ found.
        map named_of found.items ≡ names_behind (parts_of parts.entry)) }
{
    let mut found = Vec::new(alloc);
    let mut left = parts;
    while let Some((mark, behind)) = left.split() {
        let Some((name, rest)) = behind.split() else {
            return Ok(found);
        };
        if is_leaf(mark.tree, Kind::OpenBrace) {
            return Ok(found);
        }
        found.push(named(alloc, name.tree, name.at)?)?;
        left = rest;
    }
    Ok(found)
}
