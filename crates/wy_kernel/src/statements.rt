//! The statements of bodies and of a program, each before those within it. The recursion is as deep as the statements
//! stand in one another, which the front end limits with the depth of its trees.

ghost use Rattle.std.specs.Prelude.{◌≡◌, ◌++◌, map, option_map, IfOk, OnOk};
ghost use Rattle.wy_kernel.specs.Parts.{program_of};
ghost use Rattle.wy_kernel.specs.Statements.{statements, statements_of, statements_of_bodies, statements_of_body};
ghost use Rattle.wy_kernel.specs.Substatements.{statements_seen};
ghost use Rattle.wy_kernel.specs.View.{body_of, statement};

use crate::form::{Body, Stmt};
use crate::program::Program;
use std::alloc::{AllocError, Global};

/// A statement and those within it, behind what was found.
pub fn put_statement<'a>(out: &mut Vec<&'a Stmt>, s: &'a Stmt) -> Result<(), AllocError>
    ensures { OnOk result (statements_seen out.new.items
        ≡ statements_seen out.old.items ++ statements (statement s.now)) }
{
    out.push(s)?;
    for inner in s.form.substatements() {
        put_statement(out, inner)?;
    }
    Ok(())
}

fn put_body<'a>(out: &mut Vec<&'a Stmt>, body: &'a Option<Body>) -> Result<(), AllocError>
    ensures { OnOk result (statements_seen out.new.items ≡ statements_seen out.old.items
        ++ statements_of_body (option_map body_of body.now)) }
{
    match body {
        Some(body) => put_statement(out, &body.block),
        None => Ok(()),
    }
}

fn put_bodies<'a>(out: &mut Vec<&'a Stmt>, bodies: &'a [Option<Body>]) -> Result<(), AllocError>
    ensures { OnOk result (statements_seen out.new.items ≡ statements_seen out.old.items
        ++ statements_of_bodies (map (option_map body_of) bodies.now)) }
{
    for body in bodies {
        put_body(out, body)?;
    }
    Ok(())
}

/// The statements of all bodies of a program.
pub fn statements_of(alloc: Global, program: &Program) -> Result<Vec<&Stmt>, AllocError>
    ensures { IfOk result (λ all. statements_seen all.items
        ≡ statements_of (program_of program.now)) }
{
    let mut all = Vec::new(alloc);
    put_bodies(&mut all, &program.bodies)?;
    put_bodies(&mut all, &program.init_bodies)?;
    Ok(all)
}
