//! The supertypes of each class: the closure of what it extends and implements (JLS 4.10).

ghost use Rattle.std.specs.Prelude.{◌≡◌, ◌<◌, [], ◌∷◌, IfOk, OnOk, length, map};
ghost use Rattle.wy_kernel.specs.Rows.{TakesEach};
ghost use Rattle.wy_kernel.specs.Subtyping.{named_above};
ghost use Rattle.wy_kernel.specs.Table.{HasSupertypes, KeepsSupertypes, NamesAmong};
ghost use Rattle.wy_kernel.specs.View.{class_of};

use crate::types::{Class, NONE};
use std::alloc::{AllocError, Global};

/// For each class, its supertypes, each once.
pub fn supertypes(alloc: Global, classes: &[Class]) -> Result<Vec<Vec<u32>>, AllocError>
    requires few { length classes.now < 4294967295 }
    requires among { NamesAmong (map class_of classes.now) }
    ensures { IfOk result (λ rows.
        KeepsSupertypes (map class_of classes.now) (map (λ row. row.items) rows.items)) }
{
    let mut rows = Vec::new(alloc);
    for c in 0..classes.len() {
        rows.push(supertypes_of(alloc, classes, c as u32)?)?;
    }
    Ok(rows)
}

// The supertypes of one class: those that were found are gone through in the order in which they were.
fn supertypes_of(alloc: Global, classes: &[Class], c: u32) -> Result<Vec<u32>, AllocError>
    requires here { c < length classes.now }
    requires few { length classes.now < 4294967295 }
    requires among { NamesAmong (map class_of classes.now) }
    ensures { IfOk result (λ row. HasSupertypes (map class_of classes.now) c row.items) }
{
    let mut row = vec![in alloc; c]?;
    let mut done = 0;
    while done < row.len() {
        let class = row[done];
        take_above(&mut row, &classes[class as usize])?;
        done += 1;
    }
    Ok(row)
}

// Takes what a class extends and implements.
#[tactic(auto, unfolding(crate::specs::View::present))]
fn take_above(row: &mut Vec<u32>, class: &Class) -> Result<(), AllocError>
    ensures { OnOk result
        (TakesEach row.old.items (named_above (Some (class_of class.now))) row.new.items) }
{
    if class.above != NONE {
        take(row, class.above)?;
    }
    take_each(row, class.interfaces.as_slice())
}

fn take_each(row: &mut Vec<u32>, others: &[u32]) -> Result<(), AllocError>
    ensures { OnOk result (TakesEach row.old.items others.now row.new.items) }
{
    for other in others {
        take(row, *other)?;
    }
    Ok(())
}

fn take(row: &mut Vec<u32>, other: u32) -> Result<(), AllocError>
    ensures { OnOk result (TakesEach row.old.items (other ∷ []) row.new.items) }
{
    if !row.contains(&other) {
        row.push(other)?;
    }
    Ok(())
}
