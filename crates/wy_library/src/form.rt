//! How the expressions of the library's bodies are made.

ghost use Rattle.std.specs.Prelude.{◌≡◌, IfOk, map};
ghost use Rattle.wy_kernel.specs.Form as kernel;
ghost use Rattle.wy_kernel.specs.Subtyping as subtyping;
ghost use Rattle.wy_kernel.specs.View.{expression, place as place_seen, row_of};
ghost use Rattle.wy_library.specs.Library as library;

use std::alloc::{AllocError, Global};
use wy_kernel::form::{CallForm, Const, Expr, LibOp, Place};
use wy_kernel::operator::BinOp;
use wy_kernel::types::{Base, Ty};

/// The type of a class.
pub fn class_type(class: u32) -> Ty
    ensures { result ≡ subtyping.class_type class }
{
    Ty::Of {
        base: Base::Class(class),
        brackets: 0,
    }
}

#[tactic(auto, using(wy_kernel::proofs::ExpressionViews::view_local))]
pub fn local(index: u32) -> Place
    ensures { place_seen result ≡ kernel.Local index }
{
    Place::Local { index }
}

/// A form, to stand in another.
pub fn boxed(alloc: Global, form: Expr) -> Result<Box<Expr>, AllocError>
    ensures { IfOk result (λ e. e.value ≡ form) }
{
    Ok(Box::new(alloc, form)?)
}

#[tactic(auto, using(wy_kernel::proofs::ExpressionViews::view_field))]
pub fn field(object: Box<Expr>, field: u32, site: u32) -> Place
    ensures { place_seen result ≡ kernel.Field (expression object.value) field site }
{
    Place::Field {
        object,
        field,
        site,
    }
}

#[tactic(auto, using(wy_kernel::proofs::ExpressionViews::view_read))]
pub fn read(place: Place) -> Expr
    ensures { expression result ≡ kernel.Read (place_seen place) }
{
    Expr::Read { place }
}

/// `this`
pub fn this() -> Expr
    ensures { expression result ≡ library.this_form }
{
    read(local(0))
}

/// The local of a body that has one beside `this`.
pub fn other() -> Expr
    ensures { expression result ≡ library.other_form }
{
    read(local(1))
}

#[tactic(auto, using(wy_kernel::proofs::ExpressionViews::view_const))]
pub fn null() -> Expr
    ensures { expression result ≡ kernel.Const kernel.Null }
{
    Expr::Const { value: Const::Null }
}

#[tactic(auto, using(wy_kernel::proofs::ExpressionViews::view_str))]
pub fn text(text: u32) -> Expr
    ensures { expression result ≡ kernel.Str text }
{
    Expr::Str { text }
}

#[tactic(auto, using(wy_kernel::proofs::ExpressionViews::view_set))]
pub fn set(place: Place, value: Box<Expr>, site: u32) -> Expr
    ensures { expression result ≡ kernel.Set (place_seen place) (expression value.value) site }
{
    Expr::Set { place, value, site }
}

/// `==`
#[tactic(auto, using(wy_kernel::proofs::ExpressionViews::view_bin))]
pub fn equal(left: Box<Expr>, right: Box<Expr>, site: u32) -> Expr
    ensures { expression result ≡ kernel.Bin BinOp.Eq (expression left.value)
        (expression right.value) site }
{
    Expr::Bin {
        op: BinOp::Eq,
        left,
        right,
        site,
    }
}

/// `+` of two texts.
#[tactic(auto, using(wy_kernel::proofs::ExpressionViews::view_cat))]
pub fn join(left: Box<Expr>, right: Box<Expr>, site: u32) -> Expr
    ensures { expression result ≡ kernel.Cat (expression left.value)
        (expression right.value) library.text_type library.text_type site }
{
    Expr::Cat {
        left,
        right,
        left_ty: class_type(1),
        right_ty: class_type(1),
        site,
    }
}

/// An operation of the library on `this`.
#[tactic(auto, using(wy_kernel::proofs::ExpressionViews::view_lib))]
pub fn on_this(alloc: Global, op: LibOp, site: u32) -> Result<Expr, AllocError>
    ensures { IfOk result (λ e. expression e ≡ kernel.Lib op (library.one library.this_form) site) }
{
    Ok(Expr::Lib {
        op,
        args: vec![in alloc; this()]?,
        site,
    })
}

/// A call on `this`.
#[tactic(auto, using(crate::proofs::FormViews::view_call_on))]
pub fn call_on_this(
    alloc: Global,
    form: CallForm,
    method: u32,
    class: u32,
    args: Vec<Expr>,
    site: u32,
) -> Result<Expr, AllocError>
    ensures { IfOk result (λ e. expression e ≡ kernel.Call form method (kernel.the
        library.this_form) (subtyping.class_type class) (row_of (map expression args.items)) site) }
{
    Ok(Expr::Call {
        form,
        method,
        receiver: Some(boxed(alloc, this())?),
        ty: class_type(class),
        args,
        site,
    })
}
