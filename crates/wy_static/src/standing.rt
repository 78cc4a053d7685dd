//! In what the statements, arms and clauses of a program stand: the body, and for a statement or an arm the statement.

ghost use Rattle.std.specs.Prelude.{◌≡◌, ◌++◌, ◌∷◌, ◌<◌, [], length, map, option_map, IfOk, OnOk};
ghost use Rattle.std.specs.List.{flat_map, range_with_len};
ghost use Rattle.wy_kernel.specs.Parts.{program_of};
ghost use Rattle.wy_kernel.specs.Statements.{statements};
ghost use Rattle.wy_kernel.specs.Substatements.{statements_seen};
ghost use Rattle.wy_kernel.specs.View.{act, body_of, clause, clauses_of, expression, statement};
ghost use Rattle.wy_static.specs.Seen.{forms_seen};
ghost use Rattle.wy_static.specs.declared.point.Point.TheVariants as Point;
ghost use Rattle.wy_static.specs.Standings.{arm_standings, both_arms, standing, body_standings, catch_standings, form_standings, initializer_number, initializer_standings, method_standings, standings_in, standings_of, try_standings};

use crate::form::Owned;
use crate::point::Point;
use crate::rule::{owner_of, put_act_forms};
use std::alloc::{AllocError, Global};
use wy_kernel::form::{Body, Catch, Expr, Stmt, StmtForm};
use wy_kernel::program::Program;
use wy_kernel::statements;
use wy_kernel::types::NONE;

/// Initializers are numbered behind methods.
const FIRST_INITIALIZER: u32 = 2147483648;

/// The method in whose body a point stands, and the statement that it is, or the one around an arm.
#[derive(Clone, Copy)]
pub struct Standing {
    pub point: Point,
    pub method: u32,
    pub around: u32,
}

/// The number of a class's initializer; a class that leaves no room has none.
pub fn initializer_number(class: u32) -> u32
    ensures { result ≡ initializer_number class }
{
    if class < FIRST_INITIALIZER - 1 {
        FIRST_INITIALIZER + class
    } else {
        NONE
    }
}

fn put_arms(
    out: &mut Vec<Standing>,
    method: u32,
    around: u32,
    form: &Expr,
) -> Result<(), AllocError>
    ensures { OnOk result (out.new.items
        ≡ out.old.items ++ form_standings method around (expression form.now)) }
{
    match form {
        Expr::Cond { site, .. } => put_both_arms(out, method, around, *site),
        Expr::Const { .. }
        | Expr::Str { .. }
        | Expr::Read { .. }
        | Expr::Set { .. }
        | Expr::Upd { .. }
        | Expr::Un { .. }
        | Expr::Bin { .. }
        | Expr::Conv { .. }
        | Expr::Cast { .. }
        | Expr::InstanceOf { .. }
        | Expr::New { .. }
        | Expr::NewArray { .. }
        | Expr::Call { .. }
        | Expr::Cat { .. }
        | Expr::Lib { .. } => Ok(()),
    }
}

fn put_both_arms(
    out: &mut Vec<Standing>,
    method: u32,
    around: u32,
    site: u32,
) -> Result<(), AllocError>
    ensures { OnOk result (out.new.items ≡ out.old.items ++ both_arms method around site) }
{
    out.push(Standing {
        point: Point::Arm { site, value: 0 },
        method,
        around,
    })?;
    out.push(Standing {
        point: Point::Arm { site, value: 1 },
        method,
        around,
    })?;
    Ok(())
}

fn put_all_arms(
    out: &mut Vec<Standing>,
    method: u32,
    around: u32,
    forms: &[Owned],
) -> Result<(), AllocError>
    ensures { OnOk result (out.new.items ≡ out.old.items
        ++ flat_map (arm_standings method around) (forms_seen forms.now)) }
{
    for owned in forms {
        put_arms(out, method, around, owned.form)?;
    }
    Ok(())
}

fn put_catches(out: &mut Vec<Standing>, method: u32, clauses: &[Catch]) -> Result<(), AllocError>
    ensures { OnOk result (out.new.items
        ≡ out.old.items ++ catch_standings method (clauses_of (map clause clauses.now))) }
{
    for clause in clauses {
        out.push(Standing {
            point: Point::Catch(clause.site),
            method,
            around: NONE,
        })?;
    }
    Ok(())
}

fn put_try(out: &mut Vec<Standing>, method: u32, form: &StmtForm) -> Result<(), AllocError>
    ensures { OnOk result (out.new.items ≡ out.old.items ++ try_standings method (act form.now)) }
{
    match form {
        StmtForm::Try { catches, .. } => put_catches(out, method, catches),
        StmtForm::Block { .. }
        | StmtForm::Eval { .. }
        | StmtForm::Declare { .. }
        | StmtForm::If { .. }
        | StmtForm::While { .. }
        | StmtForm::Do { .. }
        | StmtForm::For { .. }
        | StmtForm::Labelled { .. }
        | StmtForm::Jump { .. }
        | StmtForm::Return { .. }
        | StmtForm::Throw { .. }
        | StmtForm::Print { .. } => Ok(()),
    }
}

fn put_own(out: &mut Vec<Standing>, method: u32, number: u32) -> Result<(), AllocError>
    ensures { OnOk result (out.new.items
        ≡ out.old.items ++ standing method number (Point.Statement number) ∷ []) }
{
    out.push(Standing {
        point: Point::Statement(number),
        method,
        around: number,
    })?;
    Ok(())
}

fn put_statement(
    alloc: Global,
    out: &mut Vec<Standing>,
    method: u32,
    s: &Stmt,
) -> Result<(), AllocError>
    ensures { OnOk result (out.new.items
        ≡ out.old.items ++ standings_in method (statement s.now)) }
{
    let mut forms = Vec::new(alloc);
    put_act_forms(&mut forms, owner_of(s), &s.form)?;
    put_own(out, method, s.number)?;
    put_all_arms(out, method, s.number, &forms)?;
    put_try(out, method, &s.form)
}

fn put_all(
    alloc: Global,
    out: &mut Vec<Standing>,
    method: u32,
    statements: &[&Stmt],
) -> Result<(), AllocError>
    ensures { OnOk result (out.new.items ≡ out.old.items
        ++ flat_map (standings_in method) (statements_seen statements.now)) }
{
    for s in statements {
        put_statement(alloc, out, method, s)?;
    }
    Ok(())
}

fn put_block(
    alloc: Global,
    out: &mut Vec<Standing>,
    method: u32,
    block: &Stmt,
) -> Result<(), AllocError>
    ensures { OnOk result (out.new.items ≡ out.old.items
        ++ flat_map (standings_in method) (statements (statement block.now))) }
{
    let mut found = Vec::new(alloc);
    statements::put_statement(&mut found, block)?;
    put_all(alloc, out, method, &found)
}

fn put_in_body(
    alloc: Global,
    out: &mut Vec<Standing>,
    method: u32,
    body: Option<&Body>,
) -> Result<(), AllocError>
    ensures { OnOk result (out.new.items
        ≡ out.old.items ++ body_standings method (option_map (λ b. body_of b.now) body.entry)) }
{
    match body {
        Some(body) => put_block(alloc, out, method, &body.block),
        None => Ok(()),
    }
}

fn put_methods(alloc: Global, out: &mut Vec<Standing>, program: &Program) -> Result<(), AllocError>
    ensures { OnOk result (out.new.items ≡ out.old.items
        ++ flat_map (method_standings (program_of program.now))
        (range_with_len 0 (length (program_of program.now).bodies))) }
{
    if program.bodies.len() >= NONE as usize {
        return Err(AllocError);
    }
    for n in 0..program.bodies.len() as u32 {
        put_in_body(alloc, out, n, program.body(n))?;
    }
    Ok(())
}

fn put_initializers(
    alloc: Global,
    out: &mut Vec<Standing>,
    program: &Program,
) -> Result<(), AllocError>
    ensures { OnOk result (out.new.items ≡ out.old.items
        ++ flat_map (initializer_standings (program_of program.now))
        (range_with_len 0 (length (program_of program.now).init_bodies))) }
{
    if program.init_bodies.len() >= NONE as usize {
        return Err(AllocError);
    }
    for n in 0..program.init_bodies.len() as u32 {
        put_in_body(alloc, out, initializer_number(n), program.init_body(n))?;
    }
    Ok(())
}

/// In what each statement, arm and clause of a program stands.
pub fn standings_of(alloc: Global, program: &Program) -> Result<Vec<Standing>, AllocError>
    ensures { IfOk result (λ all. all.items ≡ standings_of (program_of program.now)) }
{
    let mut out = Vec::new(alloc);
    put_methods(alloc, &mut out, program)?;
    put_initializers(alloc, &mut out, program)?;
    Ok(out)
}
