//! Where the jumps in a kernel statement go, and how far the test of a statement reaches (JLS 14.15 to 14.18).

ghost use Rattle.std.specs.Prelude.{◌≡◌, ◌++◌, OnOk, map, if◌then◌else◌};
ghost use Rattle.wy_elab_body.specs.Jumps.{has_clause, is_among, reach_of, targets, targets_of_all, targets_of_catches, targets_of_other, targets_within};
ghost use Rattle.wy_elab_body.specs.Views.{around_of};
ghost use Rattle.wy_kernel.specs.View.{act, clause, clauses_of, other, statement, statements_of};

use crate::around::Around;
use std::alloc::AllocError;
use wy_kernel::form::{Catch, Stmt, StmtForm};

/// Puts the targets of the jumps in a statement of the body whose block has the number `body`.
#[cycle(targets)]
#[tactic(auto, using(crate::proofs::TargetArms::of_statement))]
pub fn put_targets(all: &mut Vec<u32>, body: u32, catcher: u32, s: &Stmt) -> Result<(), AllocError>
    ensures { OnOk result
        (all.new.items ≡ all.old.items ++ targets body catcher (statement s.now)) }
{
    put_within(all, body, catcher, s.number, &s.form)
}

#[cycle(targets)]
#[tactic(auto, using(crate::proofs::TargetArms::of_block, crate::proofs::TargetArms::of_eval, crate::proofs::TargetArms::of_declare, crate::proofs::TargetArms::of_if, crate::proofs::TargetArms::of_while, crate::proofs::TargetArms::of_do, crate::proofs::TargetArms::of_for, crate::proofs::TargetArms::of_labelled, crate::proofs::TargetArms::of_jump, crate::proofs::TargetArms::of_return, crate::proofs::TargetArms::of_throw, crate::proofs::TargetArms::of_try, crate::proofs::TargetArms::of_print, crate::proofs::TargetArms::behind_nothing, std::proofs::Common::append_assoc))]
fn put_within(
    all: &mut Vec<u32>,
    body: u32,
    catcher: u32,
    number: u32,
    form: &StmtForm,
) -> Result<(), AllocError>
    ensures { OnOk result
        (all.new.items ≡ all.old.items ++ targets_within body catcher number (act form.now)) }
{
    match form {
        StmtForm::Block { parts } => put_all(all, body, catcher, parts.as_slice()),
        StmtForm::Eval { value: _ } => Ok(()),
        StmtForm::Declare { local: _ } => Ok(()),
        StmtForm::If { test: _, yes, no } => {
            put_targets(all, body, catcher, yes)?;
            put_other(all, body, catcher, no)
        }
        StmtForm::While {
            test: _,
            body: inner,
        } => put_targets(all, body, catcher, inner),
        StmtForm::Do {
            body: inner,
            test: _,
        } => put_targets(all, body, catcher, inner),
        StmtForm::For {
            inits: _,
            test: _,
            updates: _,
            body: inner,
        } => put_targets(all, body, catcher, inner),
        StmtForm::Labelled { body: inner } => put_targets(all, body, catcher, inner),
        StmtForm::Jump { target } => Ok(all.push(*target)?),
        StmtForm::Return { value: _ } => Ok(all.push(body)?),
        StmtForm::Throw { value: _ } => Ok(all.push(catcher)?),
        StmtForm::Try {
            first,
            catches,
            last,
        } => {
            let inner = catcher_in(catcher, number, catches.as_slice());
            put_targets(all, body, inner, first)?;
            put_catches(all, body, catcher, catches.as_slice())?;
            put_other(all, body, catcher, last)
        }
        StmtForm::Print {
            operand: _,
            ty: _,
            ends_line: _,
            site: _,
        } => Ok(()),
    }
}

// The `try` that a throw in its first block goes to: itself, if it has a catch.
#[tactic(auto, using(crate::proofs::TargetArms::has_some, crate::proofs::TargetArms::has_none))]
fn catcher_in(catcher: u32, number: u32, catches: &[Catch]) -> u32
    ensures { result
        ≡ (if has_clause (clauses_of (map clause catches.now)) then number else catcher) }
{
    if catches.len() > 0 { number } else { catcher }
}

#[cycle(targets)]
#[tactic(auto, using(crate::proofs::TargetArms::of_no_other, crate::proofs::TargetArms::of_other, crate::proofs::TargetArms::behind_nothing))]
pub fn put_other(
    all: &mut Vec<u32>,
    body: u32,
    catcher: u32,
    s: &Option<Box<Stmt>>,
) -> Result<(), AllocError>
    ensures { OnOk result
        (all.new.items ≡ all.old.items ++ targets_of_other body catcher (other s.now)) }
{
    match s {
        Some(s) => put_targets(all, body, catcher, s),
        None => Ok(()),
    }
}

#[cycle(targets)]
#[tactic(auto, using(crate::proofs::TargetArms::all_taken, crate::proofs::TargetArms::all_done, std::proofs::Common::append_assoc, crate::proofs::TargetArms::behind_nothing))]
fn put_all(all: &mut Vec<u32>, body: u32, catcher: u32, parts: &[Stmt]) -> Result<(), AllocError>
    ensures { OnOk result (all.new.items ≡ all.old.items
        ++ targets_of_all body catcher (statements_of (map statement parts.now))) }
{
    for part in parts {
        put_targets(all, body, catcher, part)?;
    }
    Ok(())
}

#[cycle(targets)]
#[tactic(auto, using(crate::proofs::TargetArms::catches_taken, crate::proofs::TargetArms::no_catches, std::proofs::Common::append_assoc, crate::proofs::TargetArms::behind_nothing))]
fn put_catches(
    all: &mut Vec<u32>,
    body: u32,
    catcher: u32,
    catches: &[Catch],
) -> Result<(), AllocError>
    ensures { OnOk result (all.new.items ≡ all.old.items
        ++ targets_of_catches body catcher (clauses_of (map clause catches.now))) }
{
    for catch in catches {
        put_targets(all, body, catcher, &catch.block)?;
    }
    Ok(())
}

/// The statement that the test of the one with this number reaches, where it guards jumps with these targets.
#[tactic(auto, unfolding(crate::specs::Jumps::reach_of))]
pub fn reach(around: &Around, number: u32, targets: &[u32]) -> u32
    ensures { result ≡ reach_of (around_of around.now) number targets.now }
{
    for outer in &around.enclosing {
        if is_among(targets, *outer) {
            return *outer;
        }
    }
    number
}

fn is_among(targets: &[u32], number: u32) -> bool
    ensures { result ≡ is_among targets.now number }
{
    targets.contains(&number)
}
