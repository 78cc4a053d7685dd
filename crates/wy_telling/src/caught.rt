//! What the catch clauses of a program catch, by their sites.

ghost use Rattle.std.specs.Prelude.{◌≡◌, ◌++◌, IfOk, OnOk, map};
ghost use Rattle.std.specs.List.{flat_map};
ghost use Rattle.wy_telling.specs.Caught.{AreClauses, class_at, clauses_in};
ghost use Rattle.wy_telling.specs.Caught.{clauses_of as clauses_of_try};
ghost use Rattle.wy_kernel.specs.Parts.{program_of};
ghost use Rattle.wy_kernel.specs.Statements.{statements_of as all_statements};
ghost use Rattle.wy_kernel.specs.Substatements.{statements_seen};
ghost use Rattle.wy_kernel.specs.View.{clause, clauses_of, statement};

use std::alloc::{AllocError, Global};
use wy_kernel::form::{Catch, Stmt, StmtForm};
use wy_kernel::program::Program;
use wy_kernel::statements::statements_of;

/// Where a catch clause is, and the class that it catches.
#[derive(Clone, Copy)]
pub(crate) struct Clause {
    pub(crate) site: u32,
    pub(crate) class: u32,
}

fn put_clauses(out: &mut Vec<Clause>, catches: &[Catch]) -> Result<(), AllocError>
    ensures { OnOk result (out.new.items
        ≡ out.old.items ++ clauses_of_try (clauses_of (map clause catches.now))) }
{
    for catch in catches {
        out.push(Clause {
            site: catch.site,
            class: catch.class,
        })?;
    }
    Ok(())
}

fn put_statement(out: &mut Vec<Clause>, s: &Stmt) -> Result<(), AllocError>
    ensures { OnOk result (out.new.items ≡ out.old.items ++ clauses_in (statement s.now)) }
{
    match &s.form {
        StmtForm::Try { catches, .. } => put_clauses(out, catches),
        StmtForm::Block { .. }
        | StmtForm::Eval { .. }
        | StmtForm::Declare { .. }
        | StmtForm::If { .. }
        | StmtForm::While { .. }
        | StmtForm::Do { .. }
        | StmtForm::For { .. }
        | StmtForm::Labelled { .. }
        | StmtForm::Jump { .. }
        | StmtForm::Return { .. }
        | StmtForm::Throw { .. }
        | StmtForm::Print { .. } => Ok(()),
    }
}

fn put_all(out: &mut Vec<Clause>, all: &[&Stmt]) -> Result<(), AllocError>
    ensures { OnOk result (out.new.items
        ≡ out.old.items ++ flat_map clauses_in (statements_seen all.now)) }
{
    for s in all {
        put_statement(out, s)?;
    }
    Ok(())
}

/// The clauses of a program.
pub(crate) fn clauses(alloc: Global, program: &Program) -> Result<Vec<Clause>, AllocError>
    ensures { IfOk result (λ found. AreClauses
        (all_statements (program_of program.now)) found.items) }
{
    let all = statements_of(alloc, program)?;
    let mut found = Vec::new(alloc);
    put_all(&mut found, &all)?;
    Ok(found)
}

/// The class that the first clause at a site catches.
pub(crate) fn class_at(clauses: &[Clause], site: u32) -> Option<u32>
    ensures { result ≡ class_at clauses.now site }
{
    for clause in clauses {
        if clause.site == site {
            return Some(clause.class);
        }
    }
    None
}
