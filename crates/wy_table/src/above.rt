//! The rows of a hierarchy: from those of the direct supertypes of a class, and by a walk where these are not all there.

ghost use Rattle.std.specs.Prelude.{◌≡◌, ◌≢◌, ◌<◌, ◌||◌, [], ◌∷◌, ℕ, IfOk, IsTrue, OnOk, Some, length, map, nat_eq, slice_index, slice_index_or};
ghost use Rattle.std.specs.List.{All, list_any};
ghost use Rattle.std.specs.Option.{option_to_list};
ghost use Rattle.wy_kernel.specs.Rows.{TakesEach};
ghost use Rattle.wy_kernel.specs.Subtyping.{named_above};
ghost use Rattle.wy_kernel.specs.Table.{NamesAmong};
ghost use Rattle.wy_kernel.specs.View.{class_of, present};
ghost use Rattle.wy_table.specs.Above.{AreBegun, AreMarked, AreRows, IsRow, MakesRow};
ghost use Rattle.wy_table.specs.Numbering.{IsNumbering};
ghost use Rattle.wy_table.specs.Spans.{is_covered};

use crate::spans::{Span, marked, single, union};
use std::alloc::{AllocError, Global};
use wy_kernel::types::{Class, NONE};

/// A row for each class, over the numbers of the classes at or above it.
/// Cheap for a class that stands in the order behind its supertypes, else linear in the number of classes.
pub fn rows(
    alloc: Global,
    classes: &[Class],
    numbers: &[u32],
    order: &[u32],
) -> Result<Vec<Vec<Span>>, AllocError>
    requires few { length classes.now < 4294967295 }
    requires among { NamesAmong (map class_of classes.now) }
    requires numbered { IsNumbering (length classes.now) numbers.now }
    ensures { IfOk result (λ rows. AreRows (map class_of classes.now) numbers.now
        (map (λ row. row.items) rows.items)) }
{
    let mut rows = empty_rows(alloc, classes.len())?;
    for c in order {
        if (*c as usize) < classes.len() {
            make(alloc, &mut rows, classes, numbers, *c)?;
        }
    }
    for c in 0..classes.len() {
        make(alloc, &mut rows, classes, numbers, c as u32)?;
    }
    Ok(rows)
}

fn empty_rows(alloc: Global, many: usize) -> Result<Vec<Vec<Span>>, AllocError>
    ensures long { IfOk result (λ rows. length rows.items ≡ many) }
    ensures empty { IfOk result (λ rows. All (λ row. row.items ≡ []) rows.items) }
{
    let mut rows = Vec::new(alloc);
    for _ in 0..many {
        rows.push(Vec::new(alloc))?;
    }
    Ok(rows)
}

// Makes the row of a class, unless it is there.
fn make(
    alloc: Global,
    rows: &mut Vec<Vec<Span>>,
    classes: &[Class],
    numbers: &[u32],
    c: u32,
) -> Result<(), AllocError>
    requires here { c < length classes.now }
    requires few { length classes.now < 4294967295 }
    requires among { NamesAmong (map class_of classes.now) }
    requires numbered { IsNumbering (length classes.now) numbers.now }
    requires begun { AreBegun (map class_of classes.now) numbers.now
        (map (λ row. row.items) rows.old.items) }
    ensures made { OnOk result (MakesRow (map class_of classes.now) numbers.now c
        (map (λ row. row.items) rows.old.items) (map (λ row. row.items) rows.new.items)) }
{
    if rows[c as usize].is_empty() {
        let row = row_of(alloc, rows.as_slice(), classes, numbers, c)?;
        rows[c as usize] = row;
    }
    Ok(())
}

fn row_of(
    alloc: Global,
    rows: &[Vec<Span>],
    classes: &[Class],
    numbers: &[u32],
    c: u32,
) -> Result<Vec<Span>, AllocError>
    requires here { c < length classes.now }
    requires few { length classes.now < 4294967295 }
    requires among { NamesAmong (map class_of classes.now) }
    requires numbered { IsNumbering (length classes.now) numbers.now }
    requires begun { AreBegun (map class_of classes.now) numbers.now
        (map (λ row. row.items) rows.now) }
    ensures { IfOk result (λ row. IsRow (map class_of classes.now) numbers.now c row.items) }
{
    let above = directly_above(alloc, &classes[c as usize])?;
    if are_made(rows, above.as_slice()) {
        together(alloc, rows, numbers[c as usize], above.as_slice())
    } else {
        walk(alloc, classes, numbers, c)
    }
}

/// What a class extends and implements.
pub fn directly_above(alloc: Global, class: &Class) -> Result<Vec<u32>, AllocError>
    ensures { IfOk result (λ row. row.items ≡ named_above (Some (class_of class.now))) }
{
    let mut row = superclass(alloc, class.above)?;
    row.extend_from_slice(class.interfaces.as_slice())?;
    Ok(row)
}

#[tactic(auto, unfolding(wy_kernel::specs::View::present))]
fn superclass(alloc: Global, above: u32) -> Result<Vec<u32>, AllocError>
    ensures { IfOk result (λ row. row.items ≡ option_to_list (present above)) }
{
    if above == NONE {
        Ok(Vec::new(alloc))
    } else {
        Ok(vec![in alloc; above]?)
    }
}

fn are_made(rows: &[Vec<Span>], above: &[u32]) -> bool
    requires { All (λ d. d < length rows.now) above.now }
    ensures { IsTrue result
        → All (λ d. slice_index_or (map (λ row. row.items) rows.now) d [] ≢ []) above.now }
{
    for d in above {
        if rows[*d as usize].is_empty() {
            return false;
        }
    }
    true
}

// A row of a number and of what the rows of these classes cover.
fn together(
    alloc: Global,
    rows: &[Vec<Span>],
    number: u32,
    above: &[u32],
) -> Result<Vec<Span>, AllocError>
    requires { All (λ d. d < length rows.now) above.now }
    ensures { IfOk result (λ row. (n : ℕ) → is_covered n row.items ≡ (nat_eq n number
        || list_any (λ d. is_covered n (slice_index_or (map (λ row. row.items) rows.now) d []))
        above.now)) }
{
    let mut row = vec![in alloc; single(number)]?;
    for d in above {
        row = union(alloc, row.as_slice(), rows[*d as usize].as_slice())?;
    }
    Ok(row)
}

// The row of a class by a walk over what is above it: those that were found are gone through in the order in which they were.
fn walk(alloc: Global, classes: &[Class], numbers: &[u32], c: u32) -> Result<Vec<Span>, AllocError>
    requires here { c < length classes.now }
    requires few { length classes.now < 4294967295 }
    requires among { NamesAmong (map class_of classes.now) }
    requires numbered { IsNumbering (length classes.now) numbers.now }
    ensures { IfOk result (λ row. IsRow (map class_of classes.now) numbers.now c row.items) }
{
    let mut marks = vec![in alloc; false; classes.len()]?;
    marks[numbers[c as usize] as usize] = true;
    let mut found = vec![in alloc; c]?;
    let mut done = 0;
    while done < found.len() {
        let class = found[done];
        let above = directly_above(alloc, &classes[class as usize])?;
        take_each(&mut found, &mut marks, numbers, above.as_slice())?;
        done += 1;
    }
    marked(alloc, marks.as_slice())
}

fn take_each(
    found: &mut Vec<u32>,
    marks: &mut Vec<bool>,
    numbers: &[u32],
    others: &[u32],
) -> Result<(), AllocError>
    requires among { All (λ d. d < length numbers.now) others.now }
    requires numbered { IsNumbering (length numbers.now) numbers.now }
    requires marked { AreMarked numbers.now found.old.items marks.old.items }
    ensures takes { OnOk result (TakesEach found.old.items others.now found.new.items) }
    ensures marked { OnOk result (AreMarked numbers.now found.new.items marks.new.items) }
{
    for other in others {
        take(found, marks, numbers, *other)?;
    }
    Ok(())
}

fn take(
    found: &mut Vec<u32>,
    marks: &mut Vec<bool>,
    numbers: &[u32],
    other: u32,
) -> Result<(), AllocError>
    requires here { other < length numbers.now }
    requires numbered { IsNumbering (length numbers.now) numbers.now }
    requires marked { AreMarked numbers.now found.old.items marks.old.items }
    ensures takes { OnOk result (TakesEach found.old.items (other ∷ []) found.new.items) }
    ensures marked { OnOk result (AreMarked numbers.now found.new.items marks.new.items) }
{
    let number = numbers[other as usize] as usize;
    if !marks[number] {
        marks[number] = true;
        found.push(other)?;
    }
    Ok(())
}
