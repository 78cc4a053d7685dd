//! What is at or above each class, in memory that does not grow with the depth of a chain (JLS 4.10).
//! A class may be above itself here.

ghost use Rattle.std.specs.Prelude.{◌≡◌, ◌<◌, ◌↔◌, IfOk, IsTrue, length, map};
ghost use Rattle.wy_kernel.specs.Table.{KeepsSupertypes, NamesAmong};
ghost use Rattle.wy_kernel.specs.View.{class_of};
ghost use Rattle.wy_table.specs.Hierarchy.{IsListed, rows_of};

use crate::above::rows;
use crate::numbering::numbers;
use crate::order::{depth_first, supertypes_first};
use crate::spans::{Span, is_covered};
use std::alloc::{AllocError, Global};
use wy_kernel::types::Class;

/// A number for each class, and for each class a row over the numbers of all classes at or above it.
#[derive(Drop)]
pub struct Hierarchy {
    pub numbers: Vec<u32>,
    pub rows: Vec<Vec<Span>>,
}

impl Hierarchy {
    /// Whether class `d` is class `c` or above it. Costs a step for each span of a row.
    pub fn is_above(&self, c: u32, d: u32) -> bool
        ensures { IsTrue result ↔ IsListed (rows_of self.now) c d }
    {
        if c as usize >= self.rows.len() || d as usize >= self.numbers.len() {
            return false;
        }
        is_covered(self.rows[c as usize].as_slice(), self.numbers[d as usize])
    }
}

/// The hierarchy of these classes. A row has few spans where the classes are near a forest.
pub fn hierarchy_of(alloc: Global, classes: &[Class]) -> Result<Hierarchy, AllocError>
    requires few { length classes.now < 4294967295 }
    requires among { NamesAmong (map class_of classes.now) }
    ensures { IfOk result (λ h. KeepsSupertypes (map class_of classes.now) (rows_of h)) }
{
    let order = supertypes_first(alloc, classes)?;
    let placed = depth_first(alloc, classes, order.as_slice())?;
    let numbers = numbers(alloc, classes.len(), placed.as_slice())?;
    let rows = rows(alloc, classes, numbers.as_slice(), order.as_slice())?;
    Ok(Hierarchy { numbers, rows })
}
