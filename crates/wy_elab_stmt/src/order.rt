//! The order in which a program holds its constant texts.

ghost use Rattle.std.specs.Prelude.{◌≡◌, IfOk};
ghost use Rattle.wy_elab_stmt.specs.Program.{in_order};

use std::alloc::{AllocError, Global};
use wy_elab_expr::Texts;

/// Texts in the order of their first tokens. Those of one token keep their order.
#[tactic(auto, unfolding(crate::specs::Program::in_order))]
pub fn in_order(alloc: Global, texts: Texts) -> Result<Texts, AllocError>
    ensures { IfOk result (λ all. all ≡ in_order texts) }
{
    let mut list = texts.into_list();
    list.sort_by_key(|text| text.token)?;
    Ok(Texts::of(alloc, list)?)
}
