//! Which classes and interfaces others extend or implement: no class inherits a method of any other.

ghost use Rattle.std.specs.Prelude.{◌↔◌, ℕ, IfOk, IsTrue, Some};
ghost use Rattle.std.specs.List.{Contains};
ghost use Rattle.wy_kernel.specs.Subtyping.{named_above};
ghost use Rattle.wy_kernel.specs.View.{class_of};
ghost use Rattle.wy_members.specs.Alike.{IsExtended, IsMarked};
ghost use Rattle.wy_overloads.specs.LineageView.{lineage_of};

use std::alloc::{AllocError, Global};
use wy_kernel::builtin::OBJECT;
use wy_kernel::types::{Class, NONE};
use wy_overloads::lineage::Lineage;

/// A mark for each class, set where others extend or implement it.
pub fn extended(alloc: Global, lineage: &Lineage) -> Result<Vec<bool>, AllocError>
    ensures { IfOk result (λ marks.
        (d : ℕ) → IsExtended (lineage_of lineage.now).classes d → IsMarked marks.items d) }
{
    let mut marks = vec![in alloc; false; lineage.classes() as usize]?;
    mark_all(&mut marks, lineage);
    Ok(marks)
}

fn mark_all(marks: &mut [bool], lineage: &Lineage)
    ensures { (d : ℕ) → IsExtended (lineage_of lineage.now).classes d → IsMarked marks.new d }
{
    mark(marks, OBJECT);
    for c in 0..lineage.classes() {
        mark_above(marks, lineage.class(c));
    }
}

#[tactic(auto, unfolding(wy_kernel::specs::View::present))]
fn mark_above(marks: &mut [bool], class: &Class)
    ensures above { (d : ℕ) → Contains (named_above (Some (class_of class.now))) d
        → IsMarked marks.new d }
    ensures kept { (d : ℕ) → IsMarked marks.old d → IsMarked marks.new d }
{
    if class.above != NONE {
        mark(marks, class.above);
    }
    mark_each(marks, class.interfaces.as_slice());
}

fn mark_each(marks: &mut [bool], classes: &[u32])
    ensures each { (d : ℕ) → Contains classes.now d → IsMarked marks.new d }
    ensures kept { (d : ℕ) → IsMarked marks.old d → IsMarked marks.new d }
{
    for d in classes {
        mark(marks, *d);
    }
}

fn mark(marks: &mut [bool], d: u32)
    ensures here { IsMarked marks.new d }
    ensures kept { (c : ℕ) → IsMarked marks.old c → IsMarked marks.new c }
{
    if (d as usize) < marks.len() {
        marks[d as usize] = true;
    }
}

/// Whether the mark of a class is set, if it has one.
pub fn is_marked(marks: &[bool], d: u32) -> bool
    ensures { IsTrue result ↔ IsMarked marks.now d }
{
    (d as usize) >= marks.len() || marks[d as usize]
}
