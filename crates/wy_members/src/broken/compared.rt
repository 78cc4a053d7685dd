//! The methods that are compared with one another (JLS 8.4.8), and where the rules on what a class inherits begin:
//! of all methods with one name and the same parameter types at one of them.

ghost use Rattle.std.specs.Prelude.{◌<◌, ◌↔◌, ℕ, IfOk, IsTrue, false, true};
ghost use Rattle.wy_kernel.specs.View.{method_of};
ghost use Rattle.wy_members.specs.Alike.{HasAlike, HasEarlier, IsExtended, IsFound, IsMarked, IsSought, ListsFound, abstract_alone};
ghost use Rattle.wy_overloads.specs.Choice.{IsMethod};
ghost use Rattle.wy_overloads.specs.LineageView.{lineage_of};
ghost use Rattle.wy_table.specs.Methods.{IsAlike};

use crate::broken::extended::is_marked;
use std::alloc::{AllocError, Global};
use wy_kernel::types::Method;
use wy_overloads::lineage::Lineage;
use wy_overloads::signature::are_same_types;
use wy_table::methods::is_by_name;

/// What is compared, with the first of each set of methods that have one name and the same parameter types.
#[derive(Clone, Copy)]
pub struct Compared<'a> {
    pub lineage: &'a Lineage<'a>,
    /// Those of which there is another one.
    pub shared: &'a [u32],
    /// Those that are abstract.
    pub unfinished: &'a [u32],
    pub ghost lists_shared: { ∥ ListsFound (lineage_of lineage.now) false shared.now ∥₁ },
    pub ghost lists_unfinished: { ∥ ListsFound (lineage_of lineage.now) true unfinished.now ∥₁ },
}

/// Which of the methods that are called by name are sought.
#[derive(Clone, Copy)]
pub enum Sought {
    Each,
    Abstract,
}

/// For each method that is sought, that a class may inherit and that has an alike one or is abstract, the first that is alike to it.
/// Linear in the number of methods.
pub fn first_alike(
    alloc: Global,
    lineage: &Lineage,
    marks: &[bool],
    sought: Sought,
) -> Result<Vec<u32>, AllocError>
    requires { (d : ℕ) → IsExtended (lineage_of lineage.now).classes d → IsMarked marks.now d }
    ensures { IfOk result (λ numbers.
        ListsFound (lineage_of lineage.now) (abstract_alone sought) numbers.items) }
{
    match sought {
        Sought::Each => first_found(alloc, lineage, marks, false),
        Sought::Abstract => first_found(alloc, lineage, marks, true),
    }
}

/// The first of each signature among the methods that are found, in order of their numbers.
fn first_found(
    alloc: Global,
    lineage: &Lineage,
    marks: &[bool],
    only_abstract: bool,
) -> Result<Vec<u32>, AllocError>
    requires { (d : ℕ) → IsExtended (lineage_of lineage.now).classes d → IsMarked marks.now d }
    ensures { IfOk result (λ numbers.
        ListsFound (lineage_of lineage.now) only_abstract numbers.items) }
{
    let mut numbers = Vec::new(alloc);
    for k in 0..lineage.methods() {
        let m = lineage.method(k);
        if is_found(lineage, marks, only_abstract, k, m)
            && !has_earlier(lineage, marks, only_abstract, k, m)
        {
            numbers.push(k)?;
        }
    }
    Ok(numbers)
}

fn is_found(lineage: &Lineage, marks: &[bool], only_abstract: bool, k: u32, m: &Method) -> bool
    requires { IsMethod (lineage_of lineage.now) k (method_of m.now) }
    ensures { IsFound (lineage_of lineage.now) (IsMarked marks.now) only_abstract k
        (method_of m.now) → IsTrue result }
{
    is_sought(only_abstract, m)
        && is_marked(marks, m.class)
        && (only_abstract || has_alike(lineage, marks, k, m))
}

/// Whether a method is called by its name, and abstract where only such a one is looked for.
pub fn is_sought(only_abstract: bool, m: &Method) -> bool
    ensures { IsTrue result ↔ IsSought only_abstract (method_of m.now) }
{
    is_by_name(m.form) && (m.is_abstract || !only_abstract)
}

// Whether another method of a marked class is listed with method `k`.
fn has_alike(lineage: &Lineage, marks: &[bool], k: u32, m: &Method) -> bool
    requires { IsMethod (lineage_of lineage.now) k (method_of m.now) }
    ensures { HasAlike (lineage_of lineage.now) (IsMarked marks.now) k (method_of m.now)
        → IsTrue result }
{
    for j in lineage.alike_by_name(k, m) {
        if *j != k && is_marked(marks, lineage.method(*j).class) {
            return true;
        }
    }
    false
}

// Whether a method of a marked class with a lower number is alike to method `k`.
fn has_earlier(lineage: &Lineage, marks: &[bool], only_abstract: bool, k: u32, m: &Method) -> bool
    requires { IsMethod (lineage_of lineage.now) k (method_of m.now) }
    ensures { IsTrue result ↔ HasEarlier (lineage_of lineage.now) (IsMarked marks.now) only_abstract
        k (method_of m.now) }
{
    for j in lineage.alike_by_name(k, m) {
        let other = lineage.method(*j);
        if is_earlier(marks, only_abstract, k, m, *j, other) {
            return true;
        }
    }
    false
}

fn is_earlier(
    marks: &[bool],
    only_abstract: bool,
    k: u32,
    m: &Method,
    j: u32,
    other: &Method,
) -> bool
    ensures { IsTrue result ↔ ((j < k) × IsSought only_abstract (method_of other.now)
        × IsMarked marks.now other.now.class × IsAlike (method_of m.now) (method_of other.now)) }
{
    j < k && is_sought(only_abstract, other) && is_marked(marks, other.class) && is_alike(m, other)
}

fn is_alike(m: &Method, other: &Method) -> bool
    ensures { IsTrue result ↔ IsAlike (method_of m.now) (method_of other.now) }
{
    other.name.as_str() == m.name.as_str()
        && are_same_types(other.params.as_slice(), m.params.as_slice())
}
