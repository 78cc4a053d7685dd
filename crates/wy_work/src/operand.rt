//! The operands of an expression: what is evaluated first, in order, whatever comes after it.

ghost use Rattle.std.specs.Prelude.{◌≡◌, ◌++◌, ◌∷◌, [], IfSome, map};
ghost use Rattle.wy_kernel.specs.View.{expression, part_of, place, part_seen};
ghost use Rattle.wy_work.specs.Listed.{listed};
ghost use Rattle.wy_work.specs.Operands.{operands_of, place_operands, receiver_operands};

use wy_kernel::form::{CallForm, Expr, Place};

/// Up to three expressions, a row of them, or one and a row.
#[derive(Clone, Copy)]
pub enum Listed<'a> {
    None,
    One(&'a Expr),
    Two(&'a Expr, &'a Expr),
    Three(&'a Expr, &'a Expr, &'a Expr),
    Row(&'a [Expr]),
    Headed(&'a Expr, &'a [Expr]),
}

/// The operands of an expression.
pub fn operands<'a>(expr: &'a Expr) -> Option<Listed<'a>>
    ensures { IfSome result (λ l. listed l ≡ operands_of (expression expr.now)) }
{
    match expr {
        Expr::Const { .. } => Some(Listed::None),
        Expr::Str { .. } => Some(Listed::None),
        Expr::Read { place } => Some(of_place(place)),
        Expr::Set { place, value, .. } => Some(of_assignment(place, &**value)),
        Expr::Upd { place, .. } => Some(of_place(place)),
        Expr::Un { operand, .. } => Some(Listed::One(&**operand)),
        Expr::Bin { left, right, .. } => Some(Listed::Two(&**left, &**right)),
        Expr::Conv { operand, .. } => Some(Listed::One(&**operand)),
        _ => operands_of_other(expr),
    }
}

fn operands_of_other<'a>(expr: &'a Expr) -> Option<Listed<'a>>
    ensures { IfSome result (λ l. listed l ≡ operands_of (expression expr.now)) }
{
    match expr {
        Expr::Cond { .. } => Some(Listed::None),
        Expr::New { .. } => Some(Listed::None),
        Expr::Cast { operand, .. } => Some(Listed::One(&**operand)),
        Expr::InstanceOf { operand, .. } => Some(Listed::One(&**operand)),
        Expr::NewArray { dims, .. } => Some(Listed::Row(dims.as_slice())),
        Expr::Cat { left, right, .. } => Some(Listed::Two(&**left, &**right)),
        Expr::Lib { args, .. } => Some(Listed::Row(args.as_slice())),
        Expr::Call {
            form,
            receiver,
            args,
            ..
        } => { Some(of_call(*form, receiver, args.as_slice())) }
        _ => None,
    }
}

fn of_place<'a>(at: &'a Place) -> Listed<'a>
    ensures { listed result ≡ place_operands (place at.now) }
{
    match at {
        Place::Local { .. } => Listed::None,
        Place::Static { .. } => Listed::None,
        Place::Field { object, .. } => Listed::One(&**object),
        Place::Elem { array, index, .. } => Listed::Two(&**array, &**index),
    }
}

fn of_assignment<'a>(at: &'a Place, value: &'a Expr) -> Listed<'a>
    ensures { listed result ≡ place_operands (place at.now) ++ expression value.now ∷ [] }
{
    match at {
        Place::Local { .. } => Listed::One(value),
        Place::Static { .. } => Listed::One(value),
        Place::Field { object, .. } => Listed::Two(&**object, value),
        Place::Elem { array, index, .. } => Listed::Three(&**array, &**index, value),
    }
}

/// The receiver of a call, where it has one, and the arguments.
fn of_call<'a>(form: CallForm, receiver: &'a Option<Box<Expr>>, args: &'a [Expr]) -> Listed<'a>
    ensures { listed result ≡ receiver_operands form (part_seen receiver.now)
        ++ map expression args.now }
{
    match (form, receiver) {
        (CallForm::Static, _) => Listed::Row(args),
        (_, Some(receiver)) => Listed::Headed(&**receiver, args),
        (_, None) => Listed::Row(args),
    }
}
