//! Statements and programs as text. A statement is a line: its number, its form, its token behind `@`, `ask` where it is askable,
//! how far its test reaches, and behind a colon its parts, statements by their numbers. Those within it follow. A body begins with a
//! line that says what it is of, the token at its end, and its locals with their tokens and types.

use crate::shown::{Page, show, show_type};
use std::alloc::{AllocError, Global};
use wy_kernel::form::{Body, Catch, Expr, Stmt, StmtForm};
use wy_kernel::program::Program;
use wy_kernel::types::{Local, NONE, Ty};

fn form_name(form: &StmtForm) -> &'static str {
    match form {
        StmtForm::Block { .. } => "Block",
        StmtForm::Eval { .. } => "Eval",
        StmtForm::Declare { .. } => "Declare",
        StmtForm::If { .. } => "If",
        StmtForm::While { .. } => "While",
        StmtForm::Do { .. } => "Do",
        StmtForm::For { .. } => "For",
        StmtForm::Labelled { .. } => "Labelled",
        StmtForm::Jump { .. } => "Jump",
        StmtForm::Return { .. } => "Return",
        StmtForm::Throw { .. } => "Throw",
        StmtForm::Try { .. } => "Try",
        StmtForm::Print { .. } => "Print",
    }
}

fn show_value(page: &mut Page, value: &Option<Expr>) -> Result<(), AllocError> {
    match value {
        Some(value) => show(page, value),
        None => page.word(" -"),
    }
}

fn show_numbers(page: &mut Page, parts: &[Stmt]) -> Result<(), AllocError> {
    page.word(" [")?;
    let mut is_first = true;
    for part in parts {
        page.named(if is_first { "" } else { " " }, part.number)?;
        is_first = false;
    }
    page.word("]")
}

fn show_number(page: &mut Page, part: &Option<Box<Stmt>>) -> Result<(), AllocError> {
    match part {
        Some(part) => page.named(" ", part.number),
        None => page.word(" -"),
    }
}

fn show_clauses(page: &mut Page, clauses: &[Catch]) -> Result<(), AllocError> {
    for clause in clauses {
        page.named(" catch #", clause.class)?;
        page.named(" l", clause.local)?;
        page.named("@", clause.site)?;
        page.named(" ", clause.block.number)?;
    }
    Ok(())
}

// The parts of an `if`, a loop or a `try`.
fn show_compound(page: &mut Page, form: &StmtForm) -> Result<(), AllocError> {
    match form {
        StmtForm::If { test, yes, no } => {
            show(page, test)?;
            page.named(" ", yes.number)?;
            show_number(page, no)
        }
        StmtForm::While { test, body } => {
            show(page, test)?;
            page.named(" ", body.number)
        }
        StmtForm::Do { body, test } => {
            page.named(" ", body.number)?;
            show(page, test)
        }
        StmtForm::For {
            inits,
            test,
            updates,
            body,
        } => {
            show_numbers(page, inits)?;
            show_value(page, test)?;
            show_numbers(page, updates)?;
            page.named(" ", body.number)
        }
        StmtForm::Try {
            first,
            catches,
            last,
        } => {
            page.named(" ", first.number)?;
            show_clauses(page, catches)?;
            page.word(" finally")?;
            show_number(page, last)
        }
        _ => Ok(()),
    }
}

fn show_print(
    page: &mut Page,
    operand: &Option<Expr>,
    ty: Ty,
    ends_line: bool,
    site: u32,
) -> Result<(), AllocError> {
    show_value(page, operand)?;
    page.word(" ")?;
    show_type(page, ty)?;
    page.word(if ends_line { " line" } else { "" })?;
    page.site(site)
}

fn show_parts(page: &mut Page, form: &StmtForm) -> Result<(), AllocError> {
    match form {
        StmtForm::Block { parts } => show_numbers(page, parts),
        StmtForm::Eval { value } => show(page, value),
        StmtForm::Declare { local } => page.named(" l", *local),
        StmtForm::Labelled { body } => page.named(" ", body.number),
        StmtForm::Jump { target } => page.named(" ", *target),
        StmtForm::Return { value } => show_value(page, value),
        StmtForm::Throw { value } => show(page, value),
        StmtForm::Print {
            operand,
            ty,
            ends_line,
            site,
        } => show_print(page, operand, *ty, *ends_line, *site),
        _ => show_compound(page, form),
    }
}

// The line of a statement.
fn show_line(page: &mut Page, stmt: &Stmt) -> Result<(), AllocError> {
    page.number(stmt.number)?;
    page.word(" ")?;
    page.word(form_name(&stmt.form))?;
    page.named(" @", stmt.site)?;
    page.word(if stmt.askable { " ask" } else { "" })?;
    if stmt.reach != NONE {
        page.named(" reach ", stmt.reach)?;
    }
    page.word(":")?;
    show_parts(page, &stmt.form)?;
    page.word("\n")
}

#[cycle(listed)]
fn list_other(page: &mut Page, part: &Option<Box<Stmt>>) -> Result<(), AllocError> {
    match part {
        Some(part) => list(page, part),
        None => Ok(()),
    }
}

#[cycle(listed)]
fn list_all(page: &mut Page, parts: &[Stmt]) -> Result<(), AllocError> {
    for part in parts {
        list(page, part)?;
    }
    Ok(())
}

#[cycle(listed)]
fn list_clauses(page: &mut Page, clauses: &[Catch]) -> Result<(), AllocError> {
    for clause in clauses {
        list(page, &clause.block)?;
    }
    Ok(())
}

#[cycle(listed)]
fn list_within(page: &mut Page, form: &StmtForm) -> Result<(), AllocError> {
    match form {
        StmtForm::Block { parts } => list_all(page, parts),
        StmtForm::If { yes, no, .. } => {
            list(page, yes)?;
            list_other(page, no)
        }
        StmtForm::While { body, .. } => list(page, body),
        StmtForm::Do { body, .. } => list(page, body),
        StmtForm::Labelled { body } => list(page, body),
        StmtForm::For {
            inits,
            updates,
            body,
            ..
        } => {
            list_all(page, inits)?;
            list_all(page, updates)?;
            list(page, body)
        }
        StmtForm::Try {
            first,
            catches,
            last,
        } => {
            list(page, first)?;
            list_clauses(page, catches)?;
            list_other(page, last)
        }
        _ => Ok(()),
    }
}

// A statement and those within it.
#[cycle(listed)]
fn list(page: &mut Page, stmt: &Stmt) -> Result<(), AllocError> {
    show_line(page, stmt)?;
    list_within(page, &stmt.form)
}

fn show_locals(page: &mut Page, locals: &[Local]) -> Result<(), AllocError> {
    let mut is_first = true;
    for local in locals {
        page.word(if is_first { " " } else { ", " })?;
        is_first = false;
        page.word(local.name.as_str())?;
        page.named("@", local.site)?;
        page.word(" ")?;
        show_type(page, local.ty)?;
    }
    Ok(())
}

fn list_body(page: &mut Page, body: &Body) -> Result<(), AllocError> {
    page.named(" to ", body.end)?;
    page.word(":")?;
    show_locals(page, body.locals.as_slice())?;
    page.word("\n")?;
    list(page, &body.block)
}

// How many methods the library has, whose bodies are not listed.
const LIBRARY: usize = 36;

fn list_methods(page: &mut Page, program: &Program) -> Result<(), AllocError> {
    let rows = program.methods.iter().zip(program.bodies.iter());
    for (number, (method, body)) in rows.enumerate() {
        if number >= LIBRARY {
            if let Some(body) = body {
                write!(page.text, "m{number} ")?;
                page.word(method.name.as_str())?;
                page.named(" @", method.site)?;
                list_body(page, body)?;
            }
        }
    }
    Ok(())
}

fn list_initializers(page: &mut Page, program: &Program) -> Result<(), AllocError> {
    for (number, body) in program.init_bodies.iter().enumerate() {
        if let Some(body) = body {
            write!(page.text, "init {number}")?;
            list_body(page, body)?;
        }
    }
    Ok(())
}

fn list_text(page: &mut Page, text: &[u16]) -> Result<(), AllocError> {
    page.word(" \"")?;
    for unit in text {
        if *unit < 128 {
            page.text.push(*unit as u8 as char)?;
        }
    }
    page.word("\"")
}

/// The bodies of a program's own methods and initializers, its constant texts, its main, and how many statements it has.
pub fn listed(alloc: Global, program: &Program) -> Result<String, AllocError> {
    let mut page = Page::new(alloc, true);
    list_methods(&mut page, program)?;
    list_initializers(&mut page, program)?;
    page.word("texts")?;
    for text in &program.fixed_texts {
        list_text(&mut page, text.as_slice())?;
    }
    page.named("\nmain ", program.main)?;
    page.named(" of ", program.statements)?;
    page.word("\n")?;
    Ok(page.text)
}

// A statement without its number and its token.
fn show_statement(page: &mut Page, form: &StmtForm) -> Result<(), AllocError> {
    page.word(form_name(form))?;
    page.word(":")?;
    show_parts(page, form)?;
    page.word("\n")
}

/// The statements of main's block, a line each, without numbers and tokens.
pub fn main_shown(alloc: Global, program: &Program) -> Result<String, AllocError> {
    let mut page = Page::new(alloc, false);
    if let Some(Some(body)) = program.bodies.get(program.main as usize) {
        if let StmtForm::Block { parts } = &body.block.form {
            for part in parts {
                show_statement(&mut page, &part.form)?;
            }
        }
    }
    Ok(page.text)
}
