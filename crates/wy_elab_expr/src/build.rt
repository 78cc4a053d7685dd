//! How kernel forms are made.

ghost use Rattle.std.specs.Prelude.{◌≡◌, ◌<◌, false, IfOk, map, Some, None};
ghost use Rattle.wy_kernel.specs.Form as kernel;
ghost use Rattle.wy_kernel.specs.View.{constant_of, expression, place as place_seen, row_of};
ghost use Rattle.wy_elab_expr.specs.Members.{int_type, this_form};
ghost use Rattle.wy_elab_expr.specs.Operators.{lazy_form};
ghost use Rattle.wy_elab_expr.specs.Views.{inner_of};

use crate::bring::primitive;
use wy_kernel::form::{CallForm, CondForm, Const, Expr, LibOp, Place};
use wy_kernel::operator::{BinOp, Primitive, UnOp};
use wy_kernel::types::{NONE, Ty};

#[tactic(auto, using(wy_kernel::proofs::ExpressionViews::view_const))]
pub fn constant(value: Const) -> Expr
    ensures { expression result ≡ kernel.Const (constant_of value) }
{
    Expr::Const { value }
}

#[tactic(auto, using(wy_kernel::proofs::ExpressionViews::view_str))]
pub fn text(text: u32) -> Expr
    ensures { expression result ≡ kernel.Str text }
{
    Expr::Str { text }
}

#[tactic(auto, using(wy_kernel::proofs::ExpressionViews::view_read))]
pub fn read(place: Place) -> Expr
    ensures { expression result ≡ kernel.Read (place_seen place) }
{
    Expr::Read { place }
}

#[tactic(auto, using(wy_kernel::proofs::ExpressionViews::view_un))]
pub fn unary(op: UnOp, operand: Box<Expr>) -> Expr
    ensures { expression result ≡ kernel.Un op (inner_of operand) }
{
    Expr::Un { op, operand }
}

#[tactic(auto, using(wy_kernel::proofs::ExpressionViews::view_bin))]
pub fn binary(op: BinOp, left: Box<Expr>, right: Box<Expr>, site: u32) -> Expr
    ensures { expression result ≡ kernel.Bin op (inner_of left) (inner_of right) site }
{
    Expr::Bin {
        op,
        left,
        right,
        site,
    }
}

#[tactic(auto, using(wy_kernel::proofs::ExpressionViews::view_conv))]
pub fn conversion(to: Primitive, operand: Box<Expr>) -> Expr
    ensures { expression result ≡ kernel.Conv to (inner_of operand) }
{
    Expr::Conv { to, operand }
}

#[tactic(auto, using(wy_kernel::proofs::ExpressionViews::view_cast))]
pub fn cast(ty: Ty, operand: Box<Expr>, site: u32) -> Expr
    ensures { expression result ≡ kernel.Cast ty (inner_of operand) site }
{
    Expr::Cast { ty, operand, site }
}

#[tactic(auto, using(wy_kernel::proofs::ExpressionViews::view_instance))]
pub fn instance_of(ty: Ty, operand: Box<Expr>) -> Expr
    ensures { expression result ≡ kernel.InstanceOf ty (inner_of operand) }
{
    Expr::InstanceOf { ty, operand }
}

#[tactic(auto, using(wy_kernel::proofs::ExpressionViews::view_cat))]
pub fn join(left: Box<Expr>, right: Box<Expr>, left_ty: Ty, right_ty: Ty, site: u32) -> Expr
    ensures { expression result ≡ kernel.Cat (inner_of left)
        (inner_of right) left_ty right_ty site }
{
    Expr::Cat {
        left,
        right,
        left_ty,
        right_ty,
        site,
    }
}

/// `?:`
#[tactic(auto, using(crate::proofs::KernelViews::view_cond_choice))]
pub fn choice(test: Box<Expr>, main: Box<Expr>, other: Box<Expr>, site: u32) -> Expr
    ensures { expression result ≡ kernel.Cond CondForm.Choice (inner_of test)
        (kernel.the (inner_of main)) (kernel.the (inner_of other)) site }
{
    Expr::Cond {
        form: CondForm::Choice,
        test,
        yes: Some(main),
        no: Some(other),
        site,
    }
}

/// `&&` and `||`
#[tactic(auto, using(crate::proofs::KernelViews::view_cond_first, crate::proofs::KernelViews::view_cond_second))]
pub fn lazy(form: CondForm, left: Box<Expr>, right: Box<Expr>, site: u32) -> Expr
    ensures { expression result ≡ lazy_form form (inner_of left) (inner_of right) site }
{
    match form {
        CondForm::And => Expr::Cond {
            form: CondForm::And,
            test: left,
            yes: Some(right),
            no: None,
            site,
        },
        CondForm::Or => Expr::Cond {
            form: CondForm::Or,
            test: left,
            yes: None,
            no: Some(right),
            site,
        },
        CondForm::Choice => Expr::Cond {
            form: CondForm::Choice,
            test: left,
            yes: None,
            no: Some(right),
            site,
        },
    }
}

#[tactic(auto, using(wy_kernel::proofs::ExpressionViews::view_set))]
pub fn set(place: Place, value: Box<Expr>, site: u32) -> Expr
    ensures { expression result ≡ kernel.Set (place_seen place) (inner_of value) site }
{
    Expr::Set { place, value, site }
}

#[tactic(auto, using(wy_kernel::proofs::ExpressionViews::view_lib))]
pub fn library(op: LibOp, args: Vec<Expr>, site: u32) -> Expr
    ensures { expression result ≡ kernel.Lib op (row_of (map expression args.items)) site }
{
    Expr::Lib { op, args, site }
}

/// `new` by a constructor.
#[tactic(auto, using(wy_kernel::proofs::ExpressionViews::view_new, crate::proofs::Primitives::present_number))]
pub fn new_by(class: u32, constructor: u32, args: Vec<Expr>, site: u32) -> Expr
    requires { constructor < 4294967295 }
    ensures { expression result ≡ kernel.New class (Some constructor)
        (row_of (map expression args.items)) site }
{
    Expr::New {
        class,
        constructor,
        args,
        site,
    }
}

/// `new` of Object, which has no constructor to call.
#[tactic(auto, using(wy_kernel::proofs::ExpressionViews::view_new, crate::proofs::Primitives::present_none))]
pub fn new_plain(args: Vec<Expr>, site: u32) -> Expr
    ensures { expression result ≡ kernel.New 0 None (row_of (map expression args.items)) site }
{
    Expr::New {
        class: 0,
        constructor: NONE,
        args,
        site,
    }
}

#[tactic(auto, using(wy_kernel::proofs::ExpressionViews::view_new_array))]
pub fn new_array(
    ty: Ty,
    dims: Vec<Expr>,
    elements: Vec<Expr>,
    element_sites: Vec<u32>,
    site: u32,
) -> Expr
    ensures { expression result ≡ kernel.NewArray ty (row_of (map expression dims.items))
        (row_of (map expression elements.items)) element_sites.items site }
{
    Expr::NewArray {
        ty,
        dims,
        elements,
        element_sites,
        site,
    }
}

/// A call with a receiver.
#[tactic(auto, using(crate::proofs::KernelViews::view_call_on))]
pub fn call(
    form: CallForm,
    method: u32,
    receiver: Box<Expr>,
    ty: Ty,
    args: Vec<Expr>,
    site: u32,
) -> Expr
    ensures { expression result ≡ kernel.Call form method (kernel.the (inner_of receiver)) ty
        (row_of (map expression args.items)) site }
{
    Expr::Call {
        form,
        method,
        receiver: Some(receiver),
        ty,
        args,
        site,
    }
}

/// A call of a static method.
#[tactic(auto, using(crate::proofs::KernelViews::view_call_static))]
pub fn static_call(method: u32, args: Vec<Expr>, site: u32) -> Expr
    ensures { expression result ≡ kernel.Call CallForm.Static method kernel.absent Ty.Void
        (row_of (map expression args.items)) site }
{
    Expr::Call {
        form: CallForm::Static,
        method,
        receiver: None,
        ty: Ty::Void,
        args,
        site,
    }
}

/// `op=`
#[tactic(auto, using(crate::proofs::KernelViews::view_upd_value))]
pub fn update(
    place: Place,
    op: BinOp,
    value: Box<Expr>,
    value_ty: Ty,
    ty: Ty,
    wide: Option<Primitive>,
    site: u32,
) -> Expr
    ensures { expression result ≡ kernel.Upd (place_seen place) op
        (kernel.the (inner_of value)) value_ty ty wide false site }
{
    Expr::Upd {
        place,
        op,
        value: Some(value),
        value_ty,
        ty,
        wide,
        gives_old: false,
        site,
    }
}

/// `++` and `--`
#[tactic(auto, using(crate::proofs::KernelViews::view_upd_step))]
pub fn step(place: Place, op: BinOp, ty: Ty, wide: Primitive, gives_old: bool, site: u32) -> Expr
    ensures { expression result ≡ kernel.Upd (place_seen place) op kernel.absent int_type ty
        (Some wide) gives_old site }
{
    Expr::Upd {
        place,
        op,
        value: None,
        value_ty: primitive(Primitive::Int),
        ty,
        wide: Some(wide),
        gives_old,
        site,
    }
}

#[tactic(auto, using(wy_kernel::proofs::ExpressionViews::view_local))]
pub fn local(index: u32) -> Place
    ensures { place_seen result ≡ kernel.Local index }
{
    Place::Local { index }
}

#[tactic(auto, using(wy_kernel::proofs::ExpressionViews::view_static))]
pub fn static_field(field: u32, site: u32) -> Place
    ensures { place_seen result ≡ kernel.Static field site }
{
    Place::Static { field, site }
}

#[tactic(auto, using(wy_kernel::proofs::ExpressionViews::view_field))]
pub fn field(object: Box<Expr>, field: u32, site: u32) -> Place
    ensures { place_seen result ≡ kernel.Field (inner_of object) field site }
{
    Place::Field {
        object,
        field,
        site,
    }
}

#[tactic(auto, using(wy_kernel::proofs::ExpressionViews::view_elem))]
pub fn element(array: Box<Expr>, index: Box<Expr>, site: u32) -> Place
    ensures { place_seen result ≡ kernel.Elem (inner_of array) (inner_of index) site }
{
    Place::Elem { array, index, site }
}

/// `this`
pub fn this() -> Expr
    ensures { expression result ≡ this_form }
{
    read(local(0))
}
