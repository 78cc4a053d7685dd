//! How kernel statements are made.

ghost use Rattle.std.specs.Prelude.{◌≡◌, ◌++◌, IfOk, map};
ghost use Rattle.wy_elab_body.specs.Statements.{Setting as PlainSetting, looping, other_targets_in, plain, row_of, targets_in, testing};
ghost use Rattle.wy_elab_body.specs.Views.{IsSetting, around_of};
ghost use Rattle.wy_kernel.specs.Form as kernel;
ghost use Rattle.wy_kernel.specs.View.{act, clause, clauses_of, expression, other, place as place_seen, statement, statements_of, test_of};

use crate::around::Around;
use crate::setting::Setting;
use crate::targets::{put_other, put_targets, reach};
use std::alloc::{AllocError, Global};
use wy_kernel::form::{Catch, Expr, Place, Stmt, StmtForm};
use wy_kernel::types::NONE;

/// A statement that records no Test.
#[tactic(auto, using(wy_kernel::proofs::Views::view_statement))]
pub fn plain(setting: &Setting, site: u32, is_askable: bool, form: StmtForm) -> Stmt
    ensures { (w : PlainSetting) → IsSetting setting.now w
        → statement result ≡ plain w site is_askable (act form) }
{
    Stmt {
        number: setting.number(site),
        site,
        askable: is_askable,
        reach: NONE,
        form,
    }
}

/// A statement whose test guards jumps with these targets.
#[tactic(auto, using(wy_kernel::proofs::Views::view_statement))]
pub fn testing(
    setting: &Setting,
    around: &Around,
    site: u32,
    guarded: &[u32],
    form: StmtForm,
) -> Stmt
    ensures { (w : PlainSetting) → IsSetting setting.now w
        → statement result ≡ testing w (around_of around.now) site guarded.now (act form) }
{
    let number = setting.number(site);
    Stmt {
        number,
        site,
        askable: true,
        reach: reach(around, number, guarded),
        form,
    }
}

/// The targets of the jumps in a statement.
pub fn targets_in(alloc: Global, around: &Around, s: &Stmt) -> Result<Vec<u32>, AllocError>
    ensures { IfOk result (λ all. all.items ≡ targets_in (around_of around.now) (statement s.now)) }
{
    let mut all = Vec::new(alloc);
    put_targets(&mut all, around.body, around.catcher, s)?;
    Ok(all)
}

/// The targets of the jumps in the arms of an `if`.
pub fn targets_in_arms(
    alloc: Global,
    around: &Around,
    yes: &Stmt,
    no: &Option<Box<Stmt>>,
) -> Result<Vec<u32>, AllocError>
    ensures { IfOk result (λ all. all.items ≡ targets_in (around_of around.now) (statement yes.now)
        ++ other_targets_in (around_of around.now) (other no.now)) }
{
    let mut all = targets_in(alloc, around, yes)?;
    put_other(&mut all, around.body, around.catcher, no)?;
    Ok(all)
}

/// A value that is assigned.
#[tactic(auto, using(wy_kernel::proofs::Views::view_eval, wy_kernel::proofs::ExpressionViews::view_set))]
pub fn evaluated_set(
    alloc: Global,
    place: Place,
    value: Expr,
    site: u32,
) -> Result<StmtForm, AllocError>
    ensures { IfOk result (λ form.
        act form ≡ kernel.Eval (kernel.Set (place_seen place) (expression value) site)) }
{
    let set = Expr::Set {
        place,
        value: Box::new(alloc, value)?,
        site,
    };
    Ok(StmtForm::Eval { value: set })
}

#[tactic(auto, using(wy_kernel::proofs::Views::view_block))]
pub fn block(parts: Vec<Stmt>) -> StmtForm
    ensures { act result ≡ kernel.Block (statements_of (map statement parts.items)) }
{
    StmtForm::Block { parts }
}

#[tactic(auto, using(wy_kernel::proofs::Views::view_if))]
pub fn if_form(
    alloc: Global,
    test: Expr,
    yes: Stmt,
    no: Option<Box<Stmt>>,
) -> Result<StmtForm, AllocError>
    ensures { IfOk result (λ form.
        act form ≡ kernel.If (expression test) (statement yes) (other no)) }
{
    Ok(StmtForm::If {
        test,
        yes: Box::new(alloc, yes)?,
        no,
    })
}

#[tactic(auto, using(wy_kernel::proofs::Views::view_while))]
pub fn while_form(alloc: Global, test: Expr, body: Stmt) -> Result<StmtForm, AllocError>
    ensures { IfOk result (λ form. act form ≡ kernel.While (expression test) (statement body)) }
{
    Ok(StmtForm::While {
        test,
        body: Box::new(alloc, body)?,
    })
}

#[tactic(auto, using(wy_kernel::proofs::Views::view_do))]
pub fn do_form(alloc: Global, body: Stmt, test: Expr) -> Result<StmtForm, AllocError>
    ensures { IfOk result (λ form. act form ≡ kernel.Do (statement body) (expression test)) }
{
    Ok(StmtForm::Do {
        body: Box::new(alloc, body)?,
        test,
    })
}

#[tactic(auto, using(wy_kernel::proofs::Views::view_for))]
pub fn for_form(
    alloc: Global,
    inits: Vec<Stmt>,
    test: Option<Expr>,
    updates: Vec<Stmt>,
    body: Stmt,
) -> Result<StmtForm, AllocError>
    ensures { IfOk result (λ form. act form ≡ kernel.For (statements_of (map statement inits.items))
        (test_of test) (statements_of (map statement updates.items)) (statement body)) }
{
    Ok(StmtForm::For {
        inits,
        test,
        updates,
        body: Box::new(alloc, body)?,
    })
}

#[tactic(auto, using(wy_kernel::proofs::Views::view_labelled))]
pub fn labelled(alloc: Global, body: Stmt) -> Result<StmtForm, AllocError>
    ensures { IfOk result (λ form. act form ≡ kernel.Labelled (statement body)) }
{
    Ok(StmtForm::Labelled {
        body: Box::new(alloc, body)?,
    })
}

#[tactic(auto, using(wy_kernel::proofs::Views::view_jump))]
pub fn jump(target: u32) -> StmtForm
    ensures { act result ≡ kernel.Jump target }
{
    StmtForm::Jump { target }
}

#[tactic(auto, using(wy_kernel::proofs::Views::view_return))]
pub fn return_form(value: Option<Expr>) -> StmtForm
    ensures { act result ≡ kernel.Return (test_of value) }
{
    StmtForm::Return { value }
}

#[tactic(auto, using(wy_kernel::proofs::Views::view_throw))]
pub fn throw(value: Expr) -> StmtForm
    ensures { act result ≡ kernel.Throw (expression value) }
{
    StmtForm::Throw { value }
}

#[tactic(auto, using(wy_kernel::proofs::Views::view_try))]
pub fn try_form(
    alloc: Global,
    first: Stmt,
    catches: Vec<Catch>,
    last: Option<Box<Stmt>>,
) -> Result<StmtForm, AllocError>
    ensures { IfOk result (λ form. act form ≡ kernel.Try (statement first)
        (clauses_of (map clause catches.items)) (other last)) }
{
    Ok(StmtForm::Try {
        first: Box::new(alloc, first)?,
        catches,
        last,
    })
}

/// A `for`, which records a Test where it has a condition.
#[tactic(auto, using(crate::proofs::Clauses::rows_are))]
pub fn looping(
    setting: &Setting,
    around: &Around,
    site: u32,
    inits: Vec<Stmt>,
    test: Option<Expr>,
    updates: Vec<Stmt>,
    body: Stmt,
) -> Result<Stmt, AllocError>
    ensures { IfOk result (λ s. (w : PlainSetting) → IsSetting setting.now w
        → statement s ≡ looping w (around_of around.now) site (test_of test) (targets_in
        (around_of around.now) (statement body)) (kernel.For (row_of (map statement inits.items))
        (test_of test) (row_of (map statement updates.items)) (statement body))) }
{
    match test {
        Some(test) => {
            let body = Box::new(setting.alloc, body)?;
            tested_loop(setting, around, site, inits, test, updates, body)
        }
        None => {
            let form = for_form(setting.alloc, inits, None, updates, body)?;
            Ok(plain(setting, site, true, form))
        }
    }
}

// A `for` with a condition.
#[tactic(auto, using(crate::proofs::Clauses::rows_are))]
fn tested_loop(
    setting: &Setting,
    around: &Around,
    site: u32,
    inits: Vec<Stmt>,
    test: Expr,
    updates: Vec<Stmt>,
    body: Box<Stmt>,
) -> Result<Stmt, AllocError>
    ensures { IfOk result (λ s. (w : PlainSetting) → IsSetting setting.now w → statement s ≡ testing
        w (around_of around.now) site (targets_in (around_of around.now) (statement body.value))
        (kernel.For (row_of (map statement inits.items)) (kernel.the (expression test))
        (row_of (map statement updates.items)) (statement body.value))) }
{
    let guarded = targets_in(setting.alloc, around, &body)?;
    let body = Box::into_inner(body);
    let form = for_form(setting.alloc, inits, Some(test), updates, body)?;
    Ok(testing(setting, around, site, guarded.as_slice(), form))
}
