//! The statement that a word names.

ghost use Rattle.std.specs.Prelude.{◌≡◌, ◌-◌, IfOk, slice_get};
ghost use Rattle.wy_kernel.specs.Parts.{program_of};
ghost use Rattle.wy_kernel.specs.Statements.{statements_of};
ghost use Rattle.wy_ask.specs.Lines.{numbers_on};
ghost use Rattle.wy_ask.specs.Statements.{Finds, Rises, positive, word_in};

use crate::askable::askable_in;
use crate::names::number;
use crate::parts::cut;
use crate::question::AskError;
use std::alloc::{AllocError, Global};
use wy_kernel::program::Program;

/// A statement by its number, and the line and the place in it that name it.
#[derive(Clone, Copy, Debug, PartialEq, Eq)]
pub struct NamedStatement {
    pub number: u32,
    pub line: u32,
    pub place: u32,
}

/// The askable statement that a text names by its line and its place in it.
pub fn statement(alloc: Global, program: &Program, text: &str) -> Result<NamedStatement, AskError>
    ensures { Finds program.now.lines.items (statements_of (program_of program.now)) text.now
        result }
{
    let Some((line, place)) = word(text) else {
        return Err(AskError::BadQuestion);
    };
    let numbers = rising(alloc, program, line)?;
    match at_place(numbers.as_slice(), place) {
        Some(number) => Ok(NamedStatement {
            number,
            line,
            place,
        }),
        None => Err(AskError::NoSuch(line)),
    }
}

fn positive(line: u32, place: u32) -> Option<(u32, u32)>
    ensures { result ≡ positive line place }
{
    if line > 0 && place > 0 {
        Some((line, place))
    } else {
        None
    }
}

/// A line and a place in it.
fn word(text: &str) -> Option<(u32, u32)>
    ensures { result ≡ word_in text.now }
{
    match cut(text, '.') {
        Some((line, place)) => {
            let line = number(line)?;
            let place = number(place)?;
            positive(line, place)
        }
        None => {
            let line = number(text)?;
            positive(line, 1)
        }
    }
}

/// The numbers of the askable statements of a line.
fn numbers_on(alloc: Global, program: &Program, line: u32) -> Result<Vec<u32>, AllocError>
    ensures { IfOk result (λ numbers. numbers.items ≡ numbers_on program.now.lines.items line
        (statements_of (program_of program.now))) }
{
    let all = askable_in(alloc, program)?;
    all.iter()
        .filter(|s| s.line == line)
        .map(|s| s.number)
        .collect(alloc)
}

fn rising(alloc: Global, program: &Program, line: u32) -> Result<Vec<u32>, AllocError>
    ensures { IfOk result (λ numbers. Rises (numbers_on program.now.lines.items line
        (statements_of (program_of program.now))) numbers.items) }
{
    let mut numbers = numbers_on(alloc, program, line)?;
    numbers.sort()?;
    Ok(numbers)
}

fn at_place(numbers: &[u32], place: u32) -> Option<u32>
    ensures { result ≡ slice_get numbers.now (place - 1) }
{
    numbers.get(place.saturating_sub(1) as usize).copied()
}
