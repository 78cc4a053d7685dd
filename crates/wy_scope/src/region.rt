//! The region in which each statement stands. The recursion is as deep as the statements stand in one another, which the
//! front end limits with the depth of its trees.

ghost use Rattle.std.specs.Prelude.{◌≡◌, ◌++◌, ◌<◌, IfOk, List, OnOk, length, map, option_map};
ghost use Rattle.std.specs.List.{flat_map, range_with_len};
ghost use Rattle.wy_kernel.specs.Parts.{program_of};
ghost use Rattle.wy_kernel.specs.View.{act, body_of, clause, clauses_of, other, statement, statements_of, test_of};
ghost use Rattle.wy_scope.specs.Kept.{AreKept, KeepsFirst};
ghost use Rattle.wy_scope.specs.Regions.{arm_regions, initializer_regions, loop_region, method_regions, own_region, region_among, regions, regions_of, regions_of_all, regions_of_body, regions_of_clauses, regions_of_other, regions_within};

use std::alloc::{AllocError, Global};
use std::collections::BTreeMap;
use wy_kernel::form::{Body, Catch, Expr, Stmt, StmtForm};
use wy_kernel::program::Program;
use wy_kernel::types::NONE;
use wy_static::point::Point;

/// A statement, and the region in which it stands.
#[derive(Clone, Copy)]
pub(crate) struct Located {
    pub(crate) statement: u32,
    pub(crate) region: Point,
}

/// The region that the body of a loop and its updates are.
fn loop_region(region: Point, test: &Option<Expr>, body: &Stmt) -> Point
    ensures { result ≡ loop_region region (test_of test.now) (statement body.now) }
{
    match test {
        Some(_) => Point::Statement(body.number),
        None => region,
    }
}

#[cycle(regions)]
fn put_regions(out: &mut Vec<Located>, region: Point, s: &Stmt) -> Result<(), AllocError>
    ensures { OnOk result (out.new.items ≡ out.old.items ++ regions region (statement s.now)) }
{
    out.push(Located {
        statement: s.number,
        region,
    })?;
    put_within(out, region, &s.form)
}

/// A statement that is a region of its own.
#[cycle(regions)]
fn put_own(out: &mut Vec<Located>, s: &Stmt) -> Result<(), AllocError>
    ensures { OnOk result (out.new.items
        ≡ out.old.items ++ regions (own_region (statement s.now)) (statement s.now)) }
{
    put_regions(out, Point::Statement(s.number), s)
}

#[cycle(regions)]
fn put_within(out: &mut Vec<Located>, region: Point, form: &StmtForm) -> Result<(), AllocError>
    ensures { OnOk result (out.new.items ≡ out.old.items ++ regions_within region (act form.now)) }
{
    match form {
        StmtForm::Block { parts } => put_each(out, region, parts),
        StmtForm::If { yes, no, .. } => {
            put_own(out, yes)?;
            put_arm(out, no)
        }
        StmtForm::While { body, .. } => put_own(out, body),
        StmtForm::Do { body, .. } | StmtForm::Labelled { body } => put_regions(out, region, body),
        StmtForm::For {
            inits,
            test,
            updates,
            body,
        } => {
            let inner = loop_region(region, test, body);
            put_each(out, region, inits)?;
            put_regions(out, inner, body)?;
            put_each(out, inner, updates)
        }
        StmtForm::Try {
            first,
            catches,
            last,
        } => {
            put_regions(out, region, first)?;
            put_clauses(out, catches)?;
            put_other(out, region, last)
        }
        StmtForm::Eval { .. }
        | StmtForm::Declare { .. }
        | StmtForm::Jump { .. }
        | StmtForm::Return { .. }
        | StmtForm::Throw { .. }
        | StmtForm::Print { .. } => Ok(()),
    }
}

#[cycle(regions)]
fn put_arm(out: &mut Vec<Located>, arm: &Option<Box<Stmt>>) -> Result<(), AllocError>
    ensures { OnOk result (out.new.items ≡ out.old.items ++ arm_regions (other arm.now)) }
{
    match arm {
        Some(s) => put_own(out, s),
        None => Ok(()),
    }
}

#[cycle(regions)]
fn put_other(out: &mut Vec<Located>, region: Point, s: &Option<Box<Stmt>>) -> Result<(), AllocError>
    ensures { OnOk result (out.new.items
        ≡ out.old.items ++ regions_of_other region (other s.now)) }
{
    match s {
        Some(s) => put_regions(out, region, s),
        None => Ok(()),
    }
}

#[cycle(regions)]
fn put_each(out: &mut Vec<Located>, region: Point, parts: &[Stmt]) -> Result<(), AllocError>
    ensures { OnOk result (out.new.items ≡ out.old.items
        ++ regions_of_all region (statements_of (map statement parts.now))) }
{
    for s in parts {
        put_regions(out, region, s)?;
    }
    Ok(())
}

#[cycle(regions)]
fn put_clauses(out: &mut Vec<Located>, clauses: &[Catch]) -> Result<(), AllocError>
    ensures { OnOk result (out.new.items ≡ out.old.items
        ++ regions_of_clauses (clauses_of (map clause clauses.now))) }
{
    for clause in clauses {
        put_regions(out, Point::Catch(clause.site), &clause.block)?;
    }
    Ok(())
}

// ---- the program

fn put_in_body(out: &mut Vec<Located>, region: Point, body: Option<&Body>) -> Result<(), AllocError>
    ensures { OnOk result (out.new.items ≡ out.old.items
        ++ regions_of_body region (option_map (λ b. body_of b.now) body.entry)) }
{
    match body {
        Some(body) => put_regions(out, region, &body.block),
        None => Ok(()),
    }
}

fn put_methods(out: &mut Vec<Located>, program: &Program) -> Result<(), AllocError>
    ensures { OnOk result (out.new.items ≡ out.old.items
        ++ flat_map (method_regions (program_of program.now))
        (range_with_len 0 (length (program_of program.now).bodies))) }
{
    if program.bodies.len() >= NONE as usize {
        return Err(AllocError);
    }
    for n in 0..program.bodies.len() as u32 {
        put_in_body(out, Point::Entry(n), program.body(n))?;
    }
    Ok(())
}

fn put_initializers(out: &mut Vec<Located>, program: &Program) -> Result<(), AllocError>
    ensures { OnOk result (out.new.items ≡ out.old.items
        ++ flat_map (initializer_regions (program_of program.now))
        (range_with_len 0 (length (program_of program.now).init_bodies))) }
{
    if program.init_bodies.len() >= NONE as usize {
        return Err(AllocError);
    }
    for n in 0..program.init_bodies.len() as u32 {
        put_in_body(out, Point::Init(n), program.init_body(n))?;
    }
    Ok(())
}

/// Where the statements of a program stand, in the order of the text.
fn all_regions(alloc: Global, program: &Program) -> Result<Vec<Located>, AllocError>
    ensures { IfOk result (λ all. all.items ≡ regions_of (program_of program.now)) }
{
    let mut all = Vec::new(alloc);
    put_methods(&mut all, program)?;
    put_initializers(&mut all, program)?;
    Ok(all)
}

// ---- by their numbers

/// Keeps where a statement stands, unless it stands already.
fn keep_first(kept: &mut BTreeMap<u32, Point>, found: Located) -> Result<(), AllocError>
    ensures { OnOk result (KeepsFirst found kept.old kept.new) }
{
    if !kept.contains_key(&found.statement) {
        kept.insert(found.statement, found.region)?;
    }
    Ok(())
}

/// Where each statement of a program stands, by its number.
pub(crate) fn regions_of(
    alloc: Global,
    program: &Program,
) -> Result<BTreeMap<u32, Point>, AllocError>
    ensures { IfOk result (λ kept. AreKept (regions_of (program_of program.now)) kept) }
{
    let all = all_regions(alloc, program)?;
    let mut kept = BTreeMap::new(alloc);
    for found in &all {
        keep_first(&mut kept, *found)?;
    }
    Ok(kept)
}

/// The region of a point: itself, but for a statement that stands in another.
pub(crate) fn region_of(kept: &BTreeMap<u32, Point>, point: Point) -> Point
    ensures { (all : List Located) → AreKept all kept.now → result ≡ region_among all point }
{
    match point {
        Point::Statement(number) => kept.get(&number).copied().unwrap_or(point),
        _ => point,
    }
}
