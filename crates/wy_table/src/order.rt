//! In which order rows are made and classes are numbered. Speed and the length of rows depend on it, and nothing else:
//! whatever the order, each row is that of its class.

ghost use Rattle.std.specs.Prelude.{◌≡◌, ◌<◌, ◌^◌, IfOk, length};

use crate::above::directly_above;
use std::alloc::{AllocError, Global};
use wy_kernel::types::{Class, NONE};

/// The classes, each behind its direct supertypes. Of classes that are above themselves one is put before those above it, so that the
/// others and what is below them can stand behind theirs.
pub fn supertypes_first(alloc: Global, classes: &[Class]) -> Result<Vec<u32>, AllocError>
    requires { length classes.now < 2 ^ 32 }
{
    let above = lists_above(alloc, classes)?;
    let below = lists_below(alloc, above.as_slice())?;
    let mut waits_for = Vec::new(alloc);
    let mut order = Vec::new(alloc);
    for c in 0..classes.len() {
        let many = list_of(&above, c as u32).len();
        waits_for.push(many)?;
        if many == 0 {
            order.push(c as u32)?;
        }
    }
    release_all(&mut order, &mut waits_for, &below, 0)?;
    let mut seen = vec![in alloc; NONE; classes.len()]?;
    for c in 0..classes.len() {
        if let Some(d) = cyclic_above(&above, &waits_for, &mut seen, c as u32) {
            let from = order.len();
            put(&mut order, &mut waits_for, d)?;
            release_all(&mut order, &mut waits_for, &below, from)?;
        }
    }
    Ok(order)
}

// Puts a class into the order, though it waits for others.
fn put(order: &mut Vec<u32>, waits_for: &mut [usize], c: u32) -> Result<(), AllocError> {
    if let Some(count) = waits_for.get_mut(c as usize) {
        *count = 0;
    }
    order.push(c)?;
    Ok(())
}

// Goes through the order from a place on, also through what comes into it meanwhile.
fn release_all(
    order: &mut Vec<u32>,
    waits_for: &mut [usize],
    below: &[Vec<u32>],
    from: usize,
) -> Result<(), AllocError> {
    for k in from..below.len() {
        match order.get(k).copied() {
            Some(c) => release(order, waits_for, list_of(below, c))?,
            None => break,
        }
    }
    Ok(())
}

// One class that these wait for is in the order: those that wait for no other are put there.
fn release(
    order: &mut Vec<u32>,
    waits_for: &mut [usize],
    waiting: &[u32],
) -> Result<(), AllocError> {
    for c in waiting {
        if let Some(count) = waits_for.get_mut(*c as usize) {
            if *count == 1 {
                order.push(*c)?;
            }
            *count = count.saturating_sub(1);
        }
    }
    Ok(())
}

// A class that is above itself, and is class `c` or above it, where `c` waits for others.
fn cyclic_above(above: &[Vec<u32>], waits_for: &[usize], seen: &mut [u32], c: u32) -> Option<u32> {
    if !waits(waits_for, c) {
        return None;
    }
    let mut at = c;
    for _ in 0..above.len() {
        if let Some(by) = seen.get_mut(at as usize) {
            if *by == c {
                break;
            }
            *by = c;
        }
        match first_waiting(list_of(above, at), waits_for) {
            Some(d) => at = d,
            None => break,
        }
    }
    Some(at)
}

fn first_waiting(classes: &[u32], waits_for: &[usize]) -> Option<u32> {
    for c in classes {
        if waits(waits_for, *c) {
            return Some(*c);
        }
    }
    None
}

fn waits(waits_for: &[usize], c: u32) -> bool {
    match waits_for.get(c as usize) {
        Some(count) => *count > 0,
        None => false,
    }
}

/// The classes as a walk over a forest meets them, each before what is below it, and the largest tree first: so chains stay together.
/// The parent of a class is the first of its direct supertypes that stands before it in the order.
pub fn depth_first(
    alloc: Global,
    classes: &[Class],
    order: &[u32],
) -> Result<Vec<u32>, AllocError> {
    let above = lists_above(alloc, classes)?;
    let parents = parents(alloc, above.as_slice(), order)?;
    let sizes = sizes(alloc, parents.as_slice(), order)?;
    let mut children = empty_lists(alloc, classes.len())?;
    let mut stack = Vec::new(alloc);
    for c in order.iter().rev() {
        match parent_of(parents.as_slice(), *c) {
            Some(parent) => add(&mut children, parent, *c)?,
            None => stack.push(*c)?,
        }
    }
    let mut met = Vec::new(alloc);
    for _ in 0..classes.len() {
        match stack.pop() {
            Some(c) => {
                met.push(c)?;
                push_children(&mut stack, list_of(&children, c), sizes.as_slice())?;
            }
            None => break,
        }
    }
    Ok(met)
}

// The parent of each class.
fn parents(
    alloc: Global,
    above: &[Vec<u32>],
    order: &[u32],
) -> Result<Vec<Option<u32>>, AllocError> {
    let mut parents = vec![in alloc; None; above.len()]?;
    let mut is_met = vec![in alloc; false; above.len()]?;
    for c in order {
        let parent = first_met(list_of(above, *c), is_met.as_slice());
        if let Some(place) = parents.get_mut(*c as usize) {
            *place = parent;
        }
        if let Some(mark) = is_met.get_mut(*c as usize) {
            *mark = true;
        }
    }
    Ok(parents)
}

fn first_met(classes: &[u32], is_met: &[bool]) -> Option<u32> {
    for c in classes {
        if is_met.get(*c as usize).copied().unwrap_or(false) {
            return Some(*c);
        }
    }
    None
}

// How many classes the tree below each class has, with itself.
fn sizes(alloc: Global, parents: &[Option<u32>], order: &[u32]) -> Result<Vec<usize>, AllocError> {
    let mut sizes = vec![in alloc; 1; parents.len()]?;
    for c in order.iter().rev() {
        if let Some(parent) = parent_of(parents, *c) {
            let size = size_of(sizes.as_slice(), *c);
            if let Some(sum) = sizes.get_mut(parent as usize) {
                *sum = sum.saturating_add(size);
            }
        }
    }
    Ok(sizes)
}

// Puts children on a stack, the one of the largest tree last.
fn push_children(
    stack: &mut Vec<u32>,
    children: &[u32],
    sizes: &[usize],
) -> Result<(), AllocError> {
    let mut largest = None;
    let mut size = 0;
    for child in children {
        if size_of(sizes, *child) > size {
            size = size_of(sizes, *child);
            largest = Some(*child);
        }
    }
    for child in children {
        if largest != Some(*child) {
            stack.push(*child)?;
        }
    }
    if let Some(child) = largest {
        stack.push(child)?;
    }
    Ok(())
}

fn empty_lists(alloc: Global, many: usize) -> Result<Vec<Vec<u32>>, AllocError> {
    let mut lists = Vec::new(alloc);
    for _ in 0..many {
        lists.push(Vec::new(alloc))?;
    }
    Ok(lists)
}

// What each class extends and implements.
fn lists_above(alloc: Global, classes: &[Class]) -> Result<Vec<Vec<u32>>, AllocError>
    ensures { IfOk result (λ above. length above.items ≡ length classes.now) }
{
    let mut above = Vec::new(alloc);
    for class in classes {
        above.push(directly_above(alloc, class)?)?;
    }
    Ok(above)
}

// The classes that extend or implement each class.
fn lists_below(alloc: Global, above: &[Vec<u32>]) -> Result<Vec<Vec<u32>>, AllocError>
    requires { length above.now < 2 ^ 32 }
{
    let mut below = empty_lists(alloc, above.len())?;
    for (c, list) in above.iter().enumerate() {
        for d in list {
            add(&mut below, *d, c as u32)?;
        }
    }
    Ok(below)
}

fn add(lists: &mut [Vec<u32>], to: u32, c: u32) -> Result<(), AllocError> {
    if let Some(list) = lists.get_mut(to as usize) {
        list.push(c)?;
    }
    Ok(())
}

fn list_of(lists: &[Vec<u32>], c: u32) -> &[u32] {
    match lists.get(c as usize) {
        Some(list) => list.as_slice(),
        None => &[],
    }
}

fn parent_of(parents: &[Option<u32>], c: u32) -> Option<u32> {
    parents.get(c as usize).copied().flatten()
}

fn size_of(sizes: &[usize], c: u32) -> usize {
    sizes.get(c as usize).copied().unwrap_or(0)
}
