//! Which of the methods with one name and equal parameter types counts, where a type has several (JLS 8.4.8, 9.4.1).

ghost use Rattle.std.specs.Prelude.{◌≡◌, ◌↔◌, IsTrue};
ghost use Rattle.wy_kernel.specs.View.{method_of};
ghost use Rattle.wy_overloads.specs.Choice.{Counts, HasHigherResult, HasLowestResult, IsFurther, IsMethod, IsNearest, NearestHasBody};
ghost use Rattle.wy_overloads.specs.LineageView.{lineage_of};

use crate::lineage::Lineage;
use crate::member::{is_class, type_of_class};
use crate::signature::{is_equivalent, is_same_type, is_substitutable};
use crate::subtyping::is_below;
use wy_kernel::types::{Method, Ty};

/// Whether method `k` is the one that counts among its equals.
pub fn is_counted(lineage: &Lineage, ty: &Ty, k: u32, m: &Method) -> bool
    requires { IsMethod (lineage_of lineage.now) k (method_of m.now) }
    ensures { IsTrue result ↔ Counts (lineage_of lineage.now) ty.now k (method_of m.now) }
{
    if !m.is_abstract && is_nearest(lineage, ty, k, m) {
        return true;
    }
    has_lowest_result(lineage, ty, k, m) && !nearest_has_body(lineage, ty, k, m)
}

// Whether a class declares method `k`, and no class nearer to the type an equal one.
fn is_nearest(lineage: &Lineage, ty: &Ty, k: u32, m: &Method) -> bool
    requires { IsMethod (lineage_of lineage.now) k (method_of m.now) }
    ensures { IsTrue result ↔ IsNearest (lineage_of lineage.now) ty.now k (method_of m.now) }
{
    if !is_class(lineage, m.class) {
        return false;
    }
    let candidates = lineage.alike(ty, k, m);
    for i in 0..candidates.len() {
        let j = candidates.at(i);
        let other = lineage.method(j);
        if is_equivalent(lineage, ty, m, other) && !is_further(lineage, k, m, j, other) {
            return false;
        }
    }
    true
}

// Whether method `j`, if a class declares it, is declared by a class above that of method `k`, or behind it in the same class.
fn is_further(lineage: &Lineage, k: u32, m: &Method, j: u32, other: &Method) -> bool
    ensures { IsTrue result
        ↔ IsFurther (lineage_of lineage.now).classes k (method_of m.now) j (method_of other.now) }
{
    if other.class == m.class && j < k {
        return false;
    }
    let nearer = type_of_class(m.class);
    let above = type_of_class(other.class);
    !is_class(lineage, other.class) || is_below(lineage, &nearer, &above)
}

// Whether the result of method `k` may stand for that of each of its equals, and `k` is the first with this result.
fn has_lowest_result(lineage: &Lineage, ty: &Ty, k: u32, m: &Method) -> bool
    requires { IsMethod (lineage_of lineage.now) k (method_of m.now) }
    ensures { IsTrue result ↔ HasLowestResult (lineage_of lineage.now) ty.now k (method_of m.now) }
{
    let candidates = lineage.alike(ty, k, m);
    for i in 0..candidates.len() {
        let j = candidates.at(i);
        let other = lineage.method(j);
        if is_equivalent(lineage, ty, m, other) && !has_higher_result(lineage, k, m, j, other) {
            return false;
        }
    }
    true
}

fn has_higher_result(lineage: &Lineage, k: u32, m: &Method, j: u32, other: &Method) -> bool
    ensures { IsTrue result ↔ HasHigherResult (lineage_of lineage.now).classes k (method_of m.now) j
        (method_of other.now) }
{
    if is_same_type(&other.result, &m.result) && j < k {
        return false;
    }
    is_substitutable(lineage, &m.result, &other.result)
}

/// Whether a class declares an equal of method `k` with a body, and no class nearer to the type declares one.
pub fn nearest_has_body(lineage: &Lineage, ty: &Ty, k: u32, m: &Method) -> bool
    requires { IsMethod (lineage_of lineage.now) k (method_of m.now) }
    ensures { IsTrue result ↔ NearestHasBody (lineage_of lineage.now) ty.now (method_of m.now) }
{
    let candidates = lineage.alike(ty, k, m);
    for i in 0..candidates.len() {
        let j = candidates.at(i);
        let other = lineage.method(j);
        if !other.is_abstract
            && is_equivalent(lineage, ty, m, other)
            && is_nearest(lineage, ty, j, other)
        {
            return true;
        }
    }
    false
}
