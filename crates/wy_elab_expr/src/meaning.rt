//! What an expression is found to be (JLS 5.2, 15.28). Nothing here reads an expression.

ghost use Rattle.std.specs.Prelude.{◌≡◌, IfOk};
ghost use Rattle.wy_kernel.specs.View.{expression};
ghost use Rattle.wy_elab_expr.specs.Meaning.{Formed};
ghost use Rattle.wy_elab_expr.specs.Views.{meaning_of};

use std::alloc::{AllocError, Global};
use wy_kernel::form::{Const, Expr};
use wy_kernel::types::Ty;

/// A constant with the first token of its expression, of which no form is made yet; or a form with its type.
#[derive(Drop)]
pub enum Meaning {
    Known { value: Const, token: u32 },
    Formed { form: Box<Expr>, ty: Ty },
}

/// A form with its type.
pub fn of_form(alloc: Global, form: Expr, ty: Ty) -> Result<Meaning, AllocError>
    ensures { IfOk result (λ m. meaning_of m ≡ Formed (expression form) ty) }
{
    Ok(Meaning::Formed {
        form: Box::new(alloc, form)?,
        ty,
    })
}
