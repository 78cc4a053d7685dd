//! Forms that speak of `this`.

ghost use Rattle.std.specs.Prelude.{◌≡◌, IfOk, map};
ghost use Rattle.wy_elab_expr.specs.Members.{this_form};
ghost use Rattle.wy_kernel.specs.Form as kernel;
ghost use Rattle.wy_kernel.specs.Subtyping as subtyping;
ghost use Rattle.wy_kernel.specs.View.{expression, row_of};

use std::alloc::{AllocError, Global};
use wy_elab_expr::class as class_type;
use wy_kernel::form::{CallForm, Const, Expr, Place};

#[tactic(auto, using(wy_kernel::proofs::ExpressionViews::view_read, wy_kernel::proofs::ExpressionViews::view_local))]
pub fn read_local(index: u32) -> Expr
    ensures { expression result ≡ kernel.Read (kernel.Local index) }
{
    Expr::Read {
        place: Place::Local { index },
    }
}

/// A call on `this`.
#[tactic(auto, using(wy_elab_expr::proofs::KernelViews::view_call_on))]
pub fn call_on_this(
    alloc: Global,
    form: CallForm,
    method: u32,
    class: u32,
    args: Vec<Expr>,
    site: u32,
) -> Result<Expr, AllocError>
    ensures { IfOk result (λ e. expression e ≡ kernel.Call form method (kernel.the this_form)
        (subtyping.class_type class) (row_of (map expression args.items)) site) }
{
    Ok(Expr::Call {
        form,
        method,
        receiver: Some(Box::new(alloc, read_local(0))?),
        ty: class_type(class),
        args,
        site,
    })
}

#[tactic(auto, using(wy_kernel::proofs::ExpressionViews::view_const))]
pub fn null() -> Expr
    ensures { expression result ≡ kernel.Const kernel.Null }
{
    Expr::Const { value: Const::Null }
}
