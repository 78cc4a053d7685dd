//! Lists of types, results and signatures side by side (JLS 8.4.2, 8.4.5).

ghost use Rattle.std.specs.Prelude.{◌≡◌, ◌↔◌, IsTrue};
ghost use Rattle.wy_kernel.specs.Subtyping.{Substitutable};
ghost use Rattle.wy_kernel.specs.View.{method_of};
ghost use Rattle.wy_overloads.specs.Choice.{EachBelow, IsEquivalent};
ghost use Rattle.wy_overloads.specs.LineageView.{lineage_of};

use crate::lineage::Lineage;
use crate::member::is_member;
use crate::subtyping::{is_below, is_reference};
use wy_kernel::types::{Method, Ty};

/// Whether each type of the first list is below the one at its place in the second, and there are as many.
pub fn are_below(lineage: &Lineage, lower: &[Ty], upper: &[Ty]) -> bool
    ensures { IsTrue result ↔ EachBelow (lineage_of lineage.now).classes lower.now upper.now }
{
    if lower.len() != upper.len() {
        return false;
    }
    for i in 0..lower.len() {
        if !is_below(lineage, &lower[i], &upper[i]) {
            return false;
        }
    }
    true
}

/// Whether two types are one.
pub fn is_same_type(a: &Ty, b: &Ty) -> bool
    ensures { IsTrue result ↔ (a.now ≡ b.now) }
{
    *a == *b
}

/// Whether two lists have the same types.
pub fn are_same_types(a: &[Ty], b: &[Ty]) -> bool
    ensures { IsTrue result ↔ (a.now ≡ b.now) }
{
    a == b
}

/// Whether a method with result `a` may stand for one with result `b`: they are the same, or `a` is a lower reference.
pub fn is_substitutable(lineage: &Lineage, a: &Ty, b: &Ty) -> bool
    ensures { IsTrue result ↔ Substitutable (lineage_of lineage.now).classes a.now b.now }
{
    is_same_type(a, b) || is_reference(a) && is_below(lineage, a, b)
}

/// Whether a type has the other method with the name and the parameter types of this one.
pub fn is_equivalent(lineage: &Lineage, ty: &Ty, m: &Method, other: &Method) -> bool
    ensures { IsTrue result ↔ IsEquivalent (lineage_of lineage.now).classes ty.now (method_of m.now)
        (method_of other.now) }
{
    is_member(lineage, ty, m.name.as_str(), other)
        && are_same_types(other.params.as_slice(), m.params.as_slice())
}
