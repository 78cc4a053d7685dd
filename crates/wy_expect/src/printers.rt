//! The statements of a program that print.
ghost use Rattle.std.specs.Prelude.{◌≡◌, ◌++◌, ◌∷◌, [], IfOk, OnOk};
ghost use Rattle.wy_expect.specs.Printers.{ArePrinters, is_among, print_of, prints_of, unprinted};
ghost use Rattle.wy_kernel.specs.Parts.{program_of};
ghost use Rattle.wy_kernel.specs.Statements.{statements_of};
ghost use Rattle.wy_kernel.specs.Substatements.{statements_seen};
ghost use Rattle.wy_kernel.specs.View.{statement};

use std::alloc::{AllocError, Global};
use std::marker::Model;
use wy_ask::never::{PlacedStatement, unbegun_in};
use wy_event::record::Cover;
use wy_kernel::form::{Stmt, StmtForm};
use wy_kernel::program::Program;
use wy_kernel::statements::statements_of;

/// Their numbers.
#[derive(Drop)]
struct Printers {
    numbers: Vec<u32>,
}

impl Model for Printers {
    ghost use Rattle.std.specs.Prelude.{IsSorted, List, ℕ};
    ghost use Rattle.std.specs.Ordering.{nat_cmp};

    ghost Value = { List ℕ };

    ghost view = { λ p. p.numbers.items };

    ghost invariant = { λ p. IsSorted nat_cmp p.numbers.items };
}

impl Printers {
    fn of(alloc: Global, program: &Program) -> Result<Printers, AllocError>
        ensures { IfOk result (λ printers. ArePrinters (program_of program.now) printers) }
    {
        let mut numbers = numbers(alloc, program)?;
        numbers.sort_unstable();
        Ok(Printers { numbers })
    }

    fn has(&self, number: u32) -> bool
        ensures { result ≡ is_among self.now number }
    {
        self.numbers.binary_search(&number).is_ok()
    }
}

fn numbers(alloc: Global, program: &Program) -> Result<Vec<u32>, AllocError>
    ensures { IfOk result (λ numbers. numbers.items
        ≡ prints_of (statements_of (program_of program.now))) }
{
    let all = statements_of(alloc, program)?;
    let mut numbers = Vec::new(alloc);
    put_numbers(&mut numbers, &all)?;
    Ok(numbers)
}

/// Puts those of the statements that print.
fn put_numbers(numbers: &mut Vec<u32>, all: &[&Stmt]) -> Result<(), AllocError>
    ensures { OnOk result (numbers.new.items
        ≡ numbers.old.items ++ prints_of (statements_seen all.now)) }
{
    for s in all {
        put_number(numbers, s)?;
    }
    Ok(())
}

fn put(numbers: &mut Vec<u32>, number: u32) -> Result<(), AllocError>
    ensures { OnOk result (numbers.new.items ≡ numbers.old.items ++ number ∷ []) }
{
    numbers.push(number)?;
    Ok(())
}

/// Puts the number of a statement that prints.
fn put_number(numbers: &mut Vec<u32>, s: &Stmt) -> Result<(), AllocError>
    ensures { OnOk result (numbers.new.items
        ≡ numbers.old.items ++ print_of (statement s.now)) }
{
    match &s.form {
        StmtForm::Print { .. } => put(numbers, s.number),
        StmtForm::Block { .. }
        | StmtForm::Eval { .. }
        | StmtForm::Declare { .. }
        | StmtForm::If { .. }
        | StmtForm::While { .. }
        | StmtForm::Do { .. }
        | StmtForm::For { .. }
        | StmtForm::Labelled { .. }
        | StmtForm::Jump { .. }
        | StmtForm::Return { .. }
        | StmtForm::Throw { .. }
        | StmtForm::Try { .. } => Ok(()),
    }
}

/// The statements that print and never began, by their sites.
pub fn unprinted(
    alloc: Global,
    program: &Program,
    coverage: &[Cover],
) -> Result<Vec<PlacedStatement>, AllocError>
    ensures { IfOk result (λ all. all.items
        ≡ unprinted (program_of program.now) program.now.lines.items coverage.now) }
{
    let printers = Printers::of(alloc, program)?;
    let never = unbegun_in(alloc, program, coverage)?;
    never
        .iter()
        .filter(|s| printers.has(s.statement.number))
        .copied()
        .collect(alloc)
}
