//! The askable statements that never began, by their sites, each with its place in its line.

ghost use Rattle.std.specs.Prelude.{◌≡◌, ◌+◌, ◌==◌, ℕ, [], IfOk, OnOk, filter, if◌then◌else◌};
ghost use Rattle.wy_kernel.specs.Parts.{program_of};
ghost use Rattle.wy_kernel.specs.Statements.{statements_of};
ghost use Rattle.wy_ask.specs.Counted.{count_at};
ghost use Rattle.wy_ask.specs.Listing.{never_began, placed, places_in, unbegun_in};

use crate::askable::{Askable, askable_in};
use std::alloc::{AllocError, Global};
use std::collections::BTreeMap;
use wy_event::record::Cover;
use wy_kernel::program::Program;

/// A statement with its place among the askable ones of its line, counted from 1 by their numbers.
#[derive(Clone, Copy, Debug, PartialEq, Eq)]
pub struct PlacedStatement {
    pub statement: Askable,
    pub place: u32,
}

fn one_more(n: u32) -> Result<u32, AllocError>
    ensures { IfOk result (λ m. m ≡ n + 1) }
{
    n.checked_add(1).ok_or(AllocError)
}

/// The next place of a line, by how many of its statements had one.
fn next_place(counts: &mut BTreeMap<u32, u32>, line: u32) -> Result<u32, AllocError>
    ensures place { IfOk result (λ place. place ≡ 1 + count_at counts.old line) }
    ensures counts { OnOk result ((q : ℕ)
        → count_at counts.new q ≡ count_at counts.old q + (if line == q then 1 else 0)) }
{
    let place = one_more(counts.get(&line).copied().unwrap_or(0))?;
    counts.insert(line, place)?;
    Ok(place)
}

/// Statements in the order of their numbers, with their places.
fn with_places(alloc: Global, statements: &[Askable]) -> Result<Vec<PlacedStatement>, AllocError>
    ensures { IfOk result (λ all. all.items ≡ placed [] statements.now) }
{
    let mut counts = BTreeMap::new(alloc);
    let mut all = Vec::new(alloc);
    for statement in statements {
        let place = next_place(&mut counts, statement.line)?;
        all.push(PlacedStatement {
            statement: *statement,
            place,
        })?;
    }
    Ok(all)
}

fn places_in(alloc: Global, program: &Program) -> Result<Vec<PlacedStatement>, AllocError>
    ensures { IfOk result (λ all. all.items
        ≡ places_in program.now.lines.items (statements_of (program_of program.now))) }
{
    let mut statements = askable_in(alloc, program)?;
    statements.sort_by_key(|s| s.number)?;
    with_places(alloc, statements.as_slice())
}

fn never_began(coverage: &[Cover], s: &PlacedStatement) -> bool
    ensures { result ≡ never_began coverage.now s.now }
{
    match coverage.get(s.statement.number as usize) {
        Some(cover) => cover.begins == 0,
        None => true,
    }
}

fn unbegun(
    alloc: Global,
    places: &[PlacedStatement],
    coverage: &[Cover],
) -> Result<Vec<PlacedStatement>, AllocError>
    ensures { IfOk result (λ all. all.items ≡ filter (never_began coverage.now) places.now) }
{
    places
        .iter()
        .filter(|s| never_began(coverage, s))
        .copied()
        .collect(alloc)
}

/// The statements that never began, by their sites.
pub fn unbegun_in(
    alloc: Global,
    program: &Program,
    coverage: &[Cover],
) -> Result<Vec<PlacedStatement>, AllocError>
    ensures { IfOk result (λ all. all.items ≡ unbegun_in program.now.lines.items
        (statements_of (program_of program.now)) coverage.now) }
{
    let places = places_in(alloc, program)?;
    let mut all = unbegun(alloc, places.as_slice(), coverage)?;
    all.sort_by_key(|s| s.statement.site)?;
    Ok(all)
}
