//! Classes and interfaces that are above themselves (JLS 8.1.4, 9.1.3), and those that other rules judge.

ghost use Rattle.std.specs.Prelude.{◌↔◌, ℕ, IfOk, IsTrue};
ghost use Rattle.std.specs.List.{Contains};
ghost use Rattle.std.specs.Option.{option_to_list};
ghost use Rattle.wy_kernel.specs.Subtyping.{Supertype};
ghost use Rattle.wy_kernel.specs.View.{present};
ghost use Rattle.wy_members.specs.Broken.{IsAboveItself};
ghost use Rattle.wy_members.specs.Least.{Among, IsLeast};
ghost use Rattle.wy_overloads.specs.LineageView.{lineage_of};
ghost use Rattle.wy_members.specs.Within.{AreCyclic, CycleAt, IsJudgedIn};

use crate::broken::least::{lesser, token_where};
use std::alloc::{AllocError, Global};
use wy_kernel::types::NONE;
use wy_overloads::lineage::Lineage;
use wy_overloads::subtyping::is_supertype;

/// Classes and methods, and which of the classes are above themselves: what says which classes are judged.
#[derive(Clone, Copy)]
pub struct Judged<'a> {
    pub lineage: &'a Lineage<'a>,
    /// The classes that are above themselves.
    pub cyclic: &'a [u32],
    pub ghost exact: { ∥ AreCyclic (lineage_of lineage.now).classes cyclic.now ∥₁ },
}

pub fn least_cycle(lineage: &Lineage) -> Option<u32>
    ensures { IsLeast
        (Among (lineage_of lineage.now).classes (CycleAt (lineage_of lineage.now).classes)) result }
{
    let mut least = None;
    for c in 0..lineage.classes() {
        let cycle = token_where(is_above_itself(lineage, c), lineage.class(c).site);
        least = lesser(least, cycle);
    }
    least
}

/// The classes that are above themselves.
pub fn cyclic_classes(alloc: Global, lineage: &Lineage) -> Result<Vec<u32>, AllocError>
    ensures { IfOk result (λ cyclic. AreCyclic (lineage_of lineage.now).classes cyclic.items) }
{
    let mut cyclic = Vec::new(alloc);
    for c in 0..lineage.classes() {
        if is_above_itself(lineage, c) {
            cyclic.push(c)?;
        }
    }
    Ok(cyclic)
}

/// Whether rules beyond names and cycles judge a class: no class at or above it is above itself.
/// Costs a step for each class of the program that is above itself.
pub fn is_judged(judged: &Judged, c: u32) -> bool
    ensures { IsTrue result ↔ IsJudgedIn (lineage_of judged.now.lineage.now).classes c }
{
    for d in judged.cyclic {
        if is_supertype(judged.lineage, c, *d) {
            return false;
        }
    }
    true
}

fn is_above_itself(lineage: &Lineage, c: u32) -> bool
    ensures { IsTrue result ↔ IsAboveItself (lineage_of lineage.now).classes c }
{
    if c >= lineage.classes() {
        return false;
    }
    let class = lineage.class(c);
    is_named_below(lineage, class.above, c) || is_any_below(lineage, &class.interfaces, c)
}

#[tactic(auto, unfolding(wy_kernel::specs::View::present))]
fn is_named_below(lineage: &Lineage, above: u32, c: u32) -> bool
    ensures { IsTrue result ↔ ((d : ℕ) × Contains (option_to_list (present above)) d
        × Supertype (lineage_of lineage.now).classes d c) }
{
    above != NONE && is_supertype(lineage, above, c)
}

fn is_any_below(lineage: &Lineage, numbers: &[u32], c: u32) -> bool
    ensures { IsTrue result
        ↔ ((d : ℕ) × Contains numbers.now d × Supertype (lineage_of lineage.now).classes d c) }
{
    for d in numbers {
        if is_supertype(lineage, *d, c) {
            return true;
        }
    }
    false
}
