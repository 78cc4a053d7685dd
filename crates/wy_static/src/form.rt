//! The forms of an expression, each with its owner. The recursion is as deep as the expressions stand in one another, which the
//! front end limits with the depth of its trees.

ghost use Rattle.std.specs.Prelude.{◌≡◌, ◌++◌, map, OnOk};
ghost use Rattle.wy_kernel.specs.View.{expression, place as place_seen, row_of, part_seen};
ghost use Rattle.wy_static.specs.Forms.{arm_owner, forms, forms_within, part_forms, place_forms, row_forms};
ghost use Rattle.wy_static.specs.Seen.{forms_seen};

use crate::point::Point;
use crate::way::Owner;
use std::alloc::{AllocError, Global};
use wy_kernel::form::{Expr, Place};

/// A form, and the innermost arm around it or else its statement.
#[derive(Clone, Copy)]
pub struct Owned<'a> {
    pub owner: Owner,
    pub form: &'a Expr,
}

/// What owns an arm's forms.
pub fn arm(site: u32, value: u32) -> Owner
    ensures { result ≡ arm_owner site value }
{
    Owner {
        point: Point::Arm { site, value },
        site,
    }
}

/// An expression and the forms within it, behind what was found.
#[cycle(forms)]
pub fn put_forms<'a>(out: &mut Vec<Owned<'a>>, owner: Owner, e: &'a Expr) -> Result<(), AllocError>
    ensures { OnOk result (forms_seen out.new.items
        ≡ forms_seen out.old.items ++ forms owner (expression e.now)) }
{
    out.push(Owned { owner, form: e })?;
    match e {
        Expr::Const { .. } | Expr::Str { .. } => Ok(()),
        Expr::Read { place } => put_place(out, owner, place),
        Expr::Set { place, value, .. } => {
            put_place(out, owner, place)?;
            put_forms(out, owner, value)
        }
        Expr::Upd { place, value, .. } => {
            put_place(out, owner, place)?;
            put_part(out, owner, value)
        }
        Expr::Un { operand, .. }
        | Expr::Conv { operand, .. }
        | Expr::Cast { operand, .. }
        | Expr::InstanceOf { operand, .. } => put_forms(out, owner, operand),
        Expr::Bin { left, right, .. } | Expr::Cat { left, right, .. } => {
            put_forms(out, owner, left)?;
            put_forms(out, owner, right)
        }
        Expr::Cond {
            test,
            yes,
            no,
            site,
            ..
        } => {
            put_forms(out, owner, test)?;
            put_part(out, arm(*site, 1), yes)?;
            put_part(out, arm(*site, 0), no)
        }
        Expr::New { args, .. } | Expr::Lib { args, .. } => put_row(out, owner, args),
        Expr::NewArray { dims, elements, .. } => {
            put_row(out, owner, dims)?;
            put_row(out, owner, elements)
        }
        Expr::Call { receiver, args, .. } => {
            put_part(out, owner, receiver)?;
            put_row(out, owner, args)
        }
    }
}

#[cycle(forms)]
fn put_place<'a>(out: &mut Vec<Owned<'a>>, owner: Owner, place: &'a Place) -> Result<(), AllocError>
    ensures { OnOk result (forms_seen out.new.items
        ≡ forms_seen out.old.items ++ place_forms owner (place_seen place.now)) }
{
    match place {
        Place::Local { .. } | Place::Static { .. } => Ok(()),
        Place::Field { object, .. } => put_forms(out, owner, object),
        Place::Elem { array, index, .. } => {
            put_forms(out, owner, array)?;
            put_forms(out, owner, index)
        }
    }
}

#[cycle(forms)]
fn put_part<'a>(
    out: &mut Vec<Owned<'a>>,
    owner: Owner,
    part: &'a Option<Box<Expr>>,
) -> Result<(), AllocError>
    ensures { OnOk result (forms_seen out.new.items
        ≡ forms_seen out.old.items ++ part_forms owner (part_seen part.now)) }
{
    match part {
        Some(e) => put_forms(out, owner, e),
        None => Ok(()),
    }
}

#[cycle(forms)]
fn put_row<'a>(out: &mut Vec<Owned<'a>>, owner: Owner, row: &'a [Expr]) -> Result<(), AllocError>
    ensures { OnOk result (forms_seen out.new.items
        ≡ forms_seen out.old.items ++ row_forms owner (row_of (map expression row.now))) }
{
    for e in row {
        put_forms(out, owner, e)?;
    }
    Ok(())
}
