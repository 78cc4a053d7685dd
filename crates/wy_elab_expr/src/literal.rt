//! Literals (JLS 15.8.1).

ghost use Rattle.std.specs.Prelude.{◌≡◌};
ghost use Rattle.wy_tree.specs.Seen.{seen};
ghost use Rattle.wy_elab_expr.specs.Elaboration.{literal_meaning};
ghost use Rattle.wy_elab_expr.specs.Views.{GivesAlways, meaning_of};

use crate::build;
use crate::meaning::{Meaning, of_form};
use std::alloc::Global;
use wy_constant::{TypeError, literal_value};
use wy_kernel::form::Const;
use wy_kernel::types::Ty;
use wy_tree::token::Token;

/// A literal, or null.
#[tactic(auto, unfolding(crate::specs::Elaboration::literal_meaning))]
pub fn literal_meaning(alloc: Global, value: &Token, token: u32) -> Result<Meaning, TypeError>
    ensures { GivesAlways meaning_of result (literal_meaning (seen value.now) token) }
{
    match literal_value(value)? {
        Some(value) => Ok(Meaning::Known { value, token }),
        None => Ok(of_form(alloc, build::constant(Const::Null), Ty::Null)?),
    }
}
