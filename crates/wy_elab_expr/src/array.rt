//! Arrays that are made (JLS 10.6, 15.10).

ghost use Rattle.std.specs.Prelude.{◌≡◌, ◌+◌, [], length, map};
ghost use Rattle.wy_kernel.specs.Form as kernel;
ghost use Rattle.wy_kernel.specs.View.{expression};
ghost use Rattle.wy_elab_expr.specs.Elaboration.{or_type, with_brackets};
ghost use Rattle.wy_elab_expr.specs.Meaning.{Formed, give};
ghost use Rattle.wy_elab_expr.specs.Views.{GivesAlways, listing_of, meaning_of, row_seen};

use crate::build;
use crate::meaning::{Meaning, of_form};
use crate::names::with_brackets;
use crate::refusal::refused;
use std::alloc::Global;
use wy_constant::{Rule, TypeError};
use wy_kernel::form::Expr;
use wy_kernel::types::Ty;

/// Elements of an array initializer, with the token before each.
#[derive(Drop)]
pub struct Listing {
    pub forms: Vec<Expr>,
    pub sites: Vec<u32>,
}

/// The type, if there is one.
pub fn or_type(ty: Option<Ty>, token: u32) -> Result<Ty, TypeError>
    ensures { GivesAlways (λ t. t) result (or_type ty token) }
{
    match ty {
        Some(ty) => Ok(ty),
        None => Err(refused(Rule::BadAssign, token)),
    }
}

/// An array of the elements of an initializer.
pub fn listed_form(alloc: Global, ty: Ty, all: Listing, site: u32) -> Expr
    ensures { expression result ≡ kernel.NewArray ty kernel.none (listing_of all).forms
        (listing_of all).sites site }
{
    build::new_array(ty, Vec::new(alloc), all.forms, all.sites, site)
}

/// `new` with sizes. A type of more than 255 pairs of brackets is answered as want of memory.
pub fn new_array(
    alloc: Global,
    ty: Ty,
    many: usize,
    brackets: u32,
    dims: Vec<Expr>,
    token: u32,
) -> Result<Meaning, TypeError>
    ensures { GivesAlways meaning_of result (give (Formed (kernel.NewArray (with_brackets ty (many
        + brackets)) (row_seen dims) kernel.none [] token) (with_brackets ty (many + brackets)))) }
{
    if many > 255 || brackets > 255 {
        return Err(TypeError::NoMemory);
    }
    let ty = with_brackets(ty, many as u32 + brackets)?;
    let form = build::new_array(ty, dims, Vec::new(alloc), Vec::new(alloc), token);
    Ok(of_form(alloc, form, ty)?)
}

/// How many there are.
#[tactic(auto, using(crate::proofs::Rows::as_many))]
pub fn how_many(all: &[Meaning]) -> usize
    ensures { result ≡ length (map meaning_of all.now) }
{
    all.len()
}
