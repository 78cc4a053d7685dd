//! Rows of numbers by spans: what a row covers, and the row of two rows together.

ghost use Rattle.std.specs.Prelude.{◌≡◌, ◌⊎◌, ◌<◌, ◌^◌, ◌||◌, ℕ, IfOk, MatchBool, OnOk, false, length, slice_index_or};
ghost use Rattle.std.specs.Option.{IfSome};
ghost use Rattle.wy_table.specs.Spans.{is_covered, is_within};

use std::alloc::{AllocError, Global};

/// The numbers from the first to the last, both included.
#[derive(Clone, Copy, Debug, PartialEq, Eq)]
pub struct Span {
    pub first: u32,
    pub last: u32,
}

/// Whether a number is in one of the spans of a row.
pub fn is_covered(row: &[Span], n: u32) -> bool
    ensures { result ≡ is_covered n row.now }
{
    for span in row {
        if span.first <= n && n <= span.last {
            return true;
        }
    }
    false
}

/// A row of what either of two rows covers. Where both are in order, so is it, and no two of its spans touch.
pub fn union(alloc: Global, a: &[Span], b: &[Span]) -> Result<Vec<Span>, AllocError>
    ensures { IfOk result (λ row. (n : ℕ) →
        is_covered n row.items ≡ (is_covered n a.now || is_covered n b.now)) }
{
    let mut row = Vec::new(alloc);
    let mut i = 0;
    let mut j = 0;
    while i < a.len() || j < b.len() {
        if is_left_next(a, i, b, j) {
            join(&mut row, a[i])?;
            i += 1;
        } else {
            join(&mut row, b[j])?;
            j += 1;
        }
    }
    Ok(row)
}

// Whether the next span of two rows is that of the first.
fn is_left_next(a: &[Span], i: usize, b: &[Span], j: usize) -> bool
    requires { (i < length a.now) ⊎ (j < length b.now) }
    ensures { MatchBool result (i < length a.now) (j < length b.now) }
{
    if j >= b.len() {
        return true;
    }
    i < a.len() && a[i].first <= b[j].first
}

/// A row of the places that are marked.
pub fn marked(alloc: Global, marks: &[bool]) -> Result<Vec<Span>, AllocError>
    requires { length marks.now < 2 ^ 32 }
    ensures { IfOk result (λ row. (n : ℕ) →
        is_covered n row.items ≡ slice_index_or marks.now n false) }
{
    let mut row = Vec::new(alloc);
    for n in 0..marks.len() {
        if marks[n] {
            join(&mut row, single(n as u32))?;
        }
    }
    Ok(row)
}

/// The span of one number.
pub fn single(n: u32) -> Span
    ensures first { result.first ≡ n }
    ensures last { result.last ≡ n }
{
    Span { first: n, last: n }
}

// Adds a span behind a row: to the last span, where the two are one.
fn join(row: &mut Vec<Span>, next: Span) -> Result<(), AllocError>
    ensures { OnOk result ((n : ℕ) →
        is_covered n row.new.items ≡ (is_covered n row.old.items || is_within n next)) }
{
    match row.pop() {
        Some(last) => join_both(row, last, next),
        None => {
            row.push(next)?;
            Ok(())
        }
    }
}

fn join_both(row: &mut Vec<Span>, last: Span, next: Span) -> Result<(), AllocError>
    ensures { OnOk result ((n : ℕ) → is_covered n row.new.items
        ≡ (is_covered n row.old.items || (is_within n last || is_within n next))) }
{
    match one(last, next) {
        Some(both) => row.push(both)?,
        None => {
            row.push(last)?;
            row.push(next)?;
        }
    }
    Ok(())
}

// Two spans as one, where the second begins in the first or right behind it.
fn one(last: Span, next: Span) -> Option<Span>
    ensures { IfSome result (λ both. (n : ℕ) →
        is_within n both ≡ (is_within n last || is_within n next)) }
{
    if last.first <= next.first && next.first.saturating_sub(1) <= last.last {
        Some(Span {
            first: last.first,
            last: last.last.max(next.last),
        })
    } else {
        None
    }
}
