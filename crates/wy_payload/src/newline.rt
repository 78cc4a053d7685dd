//! The sites of the prints that end a line.

ghost use Rattle.std.specs.Prelude.{◌≡◌, ◌++◌, ◌∷◌, [], if◌then◌else◌, OnOk};
ghost use Rattle.wy_kernel.specs.Substatements.{statements_seen};
ghost use Rattle.wy_kernel.specs.View.{statement};
ghost use Rattle.wy_payload.specs.Bodies.{newline_of, newlines_of};

use std::alloc::AllocError;
use wy_kernel::form::{Stmt, StmtForm};

fn put_where(out: &mut Vec<u32>, ends_line: bool, site: u32) -> Result<(), AllocError>
    ensures { OnOk result (out.new.items
        ≡ out.old.items ++ (if ends_line then site ∷ [] else [])) }
{
    if ends_line {
        out.push(site)?;
    }
    Ok(())
}

fn put_own(out: &mut Vec<u32>, s: &Stmt) -> Result<(), AllocError>
    ensures { OnOk result (out.new.items ≡ out.old.items ++ newline_of (statement s.now)) }
{
    match &s.form {
        StmtForm::Print {
            ends_line,
            site,
            ..
        } => put_where(out, *ends_line, *site),
        StmtForm::Block { .. }
        | StmtForm::Eval { .. }
        | StmtForm::Declare { .. }
        | StmtForm::If { .. }
        | StmtForm::While { .. }
        | StmtForm::Do { .. }
        | StmtForm::For { .. }
        | StmtForm::Labelled { .. }
        | StmtForm::Jump { .. }
        | StmtForm::Return { .. }
        | StmtForm::Throw { .. }
        | StmtForm::Try { .. } => Ok(()),
    }
}

/// Puts those of statements behind what was found.
pub fn put_all(out: &mut Vec<u32>, all: &[&Stmt]) -> Result<(), AllocError>
    ensures { OnOk result (out.new.items
        ≡ out.old.items ++ newlines_of (statements_seen all.now)) }
{
    for s in all {
        put_own(out, s)?;
    }
    Ok(())
}
