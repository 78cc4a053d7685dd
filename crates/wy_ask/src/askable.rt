//! The askable statements of a text.

ghost use Rattle.std.specs.Prelude.{◌≡◌, ◌++◌, slice_get, IfOk, OnOk};
ghost use Rattle.wy_kernel.specs.Parts.{program_of};
ghost use Rattle.wy_kernel.specs.Statements.{statements_of};
ghost use Rattle.wy_kernel.specs.Substatements.{statements_seen};
ghost use Rattle.wy_kernel.specs.View.{statement};
ghost use Rattle.wy_ask.specs.Lines.{askable_in, askable_of, own};

use std::alloc::{AllocError, Global};
use wy_kernel::form::Stmt;
use wy_kernel::program::Program;
use wy_kernel::statements::statements_of;

/// An askable statement: its number, the token where it stands, and the line of the token.
#[derive(Clone, Copy, Debug, PartialEq, Eq)]
pub struct Askable {
    pub number: u32,
    pub site: u32,
    pub line: u32,
}

/// The line of a token, by those of all tokens.
fn line_of(lines: &[u32], site: u32) -> Option<u32>
    ensures { result ≡ slice_get lines.now site }
{
    lines.get(site as usize).copied()
}

fn put_own(out: &mut Vec<Askable>, lines: &[u32], s: &Stmt) -> Result<(), AllocError>
    ensures { OnOk result (out.new.items
        ≡ out.old.items ++ own lines.now s.now.number s.now.site s.now.askable) }
{
    if !s.askable {
        return Ok(());
    }
    if let Some(line) = line_of(lines, s.site) {
        out.push(Askable {
            number: s.number,
            site: s.site,
            line,
        })?;
    }
    Ok(())
}

fn put_statement(out: &mut Vec<Askable>, lines: &[u32], s: &Stmt) -> Result<(), AllocError>
    ensures { OnOk result (out.new.items
        ≡ out.old.items ++ askable_of lines.now (statement s.now)) }
{
    put_own(out, lines, s)
}

/// Puts those of statements behind what was found.
fn put_all(out: &mut Vec<Askable>, lines: &[u32], all: &[&Stmt]) -> Result<(), AllocError>
    ensures { OnOk result (out.new.items
        ≡ out.old.items ++ askable_in lines.now (statements_seen all.now)) }
{
    for s in all {
        put_statement(out, lines, s)?;
    }
    Ok(())
}

/// The askable statements of a program whose sites are tokens of its text.
pub fn askable_in(alloc: Global, program: &Program) -> Result<Vec<Askable>, AllocError>
    ensures { IfOk result (λ all. all.items
        ≡ askable_in program.now.lines.items (statements_of (program_of program.now))) }
{
    let statements = statements_of(alloc, program)?;
    let mut all = Vec::new(alloc);
    put_all(&mut all, &program.lines, &statements)?;
    Ok(all)
}
