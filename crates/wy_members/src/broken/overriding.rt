//! Whether the methods of a class, and those that it inherits, may override one another (JLS 8.4.3.3, 8.4.8, 9.4.1).
//! A method is compared with those alone that have its name and parameter types; private ones are none of these.

ghost use Rattle.std.specs.Prelude.{◌≡◌, ◌↔◌, IsTrue, MatchOption, false, true};
ghost use Rattle.wy_kernel.specs.Program.{Method as PlainMethod};
ghost use Rattle.wy_kernel.specs.Subtyping.{Substitutable, class_type};
ghost use Rattle.wy_kernel.specs.View.{method_of};
ghost use Rattle.wy_members.specs.Alike.{AreByName, AreMethods, InheritsAlike, InheritsAlikeWrongly, IsEqualSought, LeavesAlikeAbstract, SomeListed, abstract_alone};
ghost use Rattle.wy_members.specs.Broken.{HasNoCommonResult, StandsForEach};
ghost use Rattle.wy_overloads.specs.Choice.{IsEquivalent, IsMethod};
ghost use Rattle.wy_overloads.specs.LineageView.{lineage_of};
ghost use Rattle.wy_members.specs.Within.{Conflicts, DiffersInForm, InheritsWrongly, IsCommonResult, LeavesAbstract, OverridesWrongly, SomeMethod, StandsWrongly, WrongToOverride};

use crate::broken::compared::{Compared, Sought, is_sought};
use wy_kernel::types::{Method, Ty};
use wy_overloads::counting::{is_counted, nearest_has_body};
use wy_overloads::lineage::Lineage;
use wy_overloads::member::type_of_class;
use wy_overloads::signature::{is_equivalent, is_substitutable};

/// Whether method `k` overrides or hides one of another class that it may not.
pub fn overrides_wrongly(lineage: &Lineage, k: u32, m: &Method) -> bool
    requires { IsMethod (lineage_of lineage.now) k (method_of m.now) }
    ensures { IsTrue result ↔ OverridesWrongly (lineage_of lineage.now) (method_of m.now) }
{
    let class = type_of_class(m.class);
    for j in lineage.alike_by_name(k, m) {
        let other = lineage.method(*j);
        if is_wrong_to_override(lineage, &class, m, other) {
            return true;
        }
    }
    false
}

fn is_wrong_to_override(lineage: &Lineage, class: &Ty, m: &Method, other: &Method) -> bool
    requires { class.now ≡ class_type m.now.class }
    ensures { IsTrue result
        ↔ WrongToOverride (lineage_of lineage.now).classes (method_of m.now) (method_of other.now) }
{
    other.class != m.class
        && conflicts(lineage, m, other)
        && is_equivalent(lineage, class, m, other)
}

fn conflicts(lineage: &Lineage, m: &Method, other: &Method) -> bool
    ensures { IsTrue result
        ↔ Conflicts (lineage_of lineage.now).classes (method_of m.now) (method_of other.now) }
{
    other.is_final || m.form != other.form || !is_substitutable(lineage, &m.result, &other.result)
}

/// Whether a class inherits methods that may not stand together.
pub fn inherits_wrongly(compared: &Compared, c: u32) -> bool
    ensures { IsTrue result ↔ InheritsWrongly (lineage_of compared.now.lineage.now) c }
{
    for k in compared.shared {
        let m = compared.lineage.method(*k);
        if inherits_alike_wrongly(compared.lineage, c, *k, m) {
            return true;
        }
    }
    false
}

// Whether a class inherits a method alike to method `k`, and it stands wrongly there.
fn inherits_alike_wrongly(lineage: &Lineage, c: u32, k: u32, m: &Method) -> bool
    requires { IsMethod (lineage_of lineage.now) k (method_of m.now) }
    ensures { IsTrue result
        ↔ InheritsAlikeWrongly (lineage_of lineage.now) c (method_of m.now) }
{
    match inherited_alike(lineage, c, k, m, Sought::Each) {
        Some(j) => stands_wrongly(lineage, &type_of_class(c), j, lineage.method(j)),
        None => false,
    }
}

/// Whether a class inherits an abstract method, and the nearest class that declares an equal one gives it no body.
pub fn leaves_abstract(compared: &Compared, c: u32) -> bool
    ensures { IsTrue result ↔ LeavesAbstract (lineage_of compared.now.lineage.now) c }
{
    for k in compared.unfinished {
        let m = compared.lineage.method(*k);
        if leaves_alike_abstract(compared.lineage, c, *k, m) {
            return true;
        }
    }
    false
}

// Whether a class inherits an abstract method alike to method `k`, and no nearest class gives it a body.
fn leaves_alike_abstract(lineage: &Lineage, c: u32, k: u32, m: &Method) -> bool
    requires { IsMethod (lineage_of lineage.now) k (method_of m.now) }
    ensures { IsTrue result ↔ LeavesAlikeAbstract (lineage_of lineage.now) c (method_of m.now) }
{
    inherited_alike(lineage, c, k, m, Sought::Abstract).is_some()
        && !nearest_has_body(lineage, &type_of_class(c), k, m)
}

// A method alike to method `k` that a class has from a class or an interface above it: it declares none with this name and these
// parameter types.
fn inherited_alike(lineage: &Lineage, c: u32, k: u32, m: &Method, sought: Sought) -> Option<u32>
    requires { IsMethod (lineage_of lineage.now) k (method_of m.now) }
    ensures { MatchOption result
        (SomeMethod (lineage_of lineage.now)
        (InheritsAlike (lineage_of lineage.now) c (abstract_alone sought) (method_of m.now)) → ⊥)
        (λ j. (other : PlainMethod) × IsMethod (lineage_of lineage.now) j other
        × InheritsAlike (lineage_of lineage.now) c (abstract_alone sought) (method_of m.now)
        j other) }
{
    match sought {
        Sought::Each => inherited_where(lineage, c, k, m, false),
        Sought::Abstract => inherited_where(lineage, c, k, m, true),
    }
}

/// The first other method with this signature that the class inherits, where it declares none itself.
fn inherited_where(
    lineage: &Lineage,
    c: u32,
    k: u32,
    m: &Method,
    only_abstract: bool,
) -> Option<u32>
    requires { IsMethod (lineage_of lineage.now) k (method_of m.now) }
    ensures { MatchOption result
        (SomeMethod (lineage_of lineage.now)
        (InheritsAlike (lineage_of lineage.now) c only_abstract (method_of m.now)) → ⊥)
        (λ j. (other : PlainMethod) × IsMethod (lineage_of lineage.now) j other
        × InheritsAlike (lineage_of lineage.now) c only_abstract (method_of m.now) j other) }
{
    let class = type_of_class(c);
    let found = equal_of(lineage, &class, k, m, only_abstract)?;
    if declares_among(lineage, lineage.alike_by_name(k, m), c, m) {
        return None;
    }
    if declares_among(lineage, lineage.constructors_of(&class), c, m) {
        return None;
    }
    Some(found)
}

// Whether a class declares a method of the list that is equal to `m`.
fn declares_among(lineage: &Lineage, numbers: &[u32], c: u32, m: &Method) -> bool
    requires { AreMethods (lineage_of lineage.now) numbers.now }
    ensures { IsTrue result ↔ SomeListed (lineage_of lineage.now) numbers.now (λ j other.
        IsEquivalent (lineage_of lineage.now).classes (class_type c) (method_of m.now) other
        × (other.class ≡ c)) }
{
    let class = type_of_class(c);
    for j in numbers {
        let other = lineage.method(*j);
        if other.class == c && is_equivalent(lineage, &class, m, other) {
            return true;
        }
    }
    false
}

// A method of the type that is equal to method `k` and called by its name.
fn equal_of(lineage: &Lineage, ty: &Ty, k: u32, m: &Method, only_abstract: bool) -> Option<u32>
    requires { IsMethod (lineage_of lineage.now) k (method_of m.now) }
    ensures { MatchOption result
        (SomeMethod (lineage_of lineage.now) (λ j other.
        IsEqualSought (lineage_of lineage.now) ty.now only_abstract (method_of m.now) other) → ⊥)
        (λ j. (other : PlainMethod) × IsMethod (lineage_of lineage.now) j other
        × IsEqualSought (lineage_of lineage.now) ty.now only_abstract (method_of m.now) other) }
{
    for j in lineage.alike_by_name(k, m) {
        let other = lineage.method(*j);
        if is_sought(only_abstract, other) && is_equivalent(lineage, ty, m, other) {
            return Some(*j);
        }
    }
    None
}

fn stands_wrongly(lineage: &Lineage, ty: &Ty, k: u32, m: &Method) -> bool
    requires here { IsMethod (lineage_of lineage.now) k (method_of m.now) }
    requires by_name { AreByName (lineage_of lineage.now) ty.now (method_of m.now) }
    ensures { IsTrue result ↔ StandsWrongly (lineage_of lineage.now) ty.now (method_of m.now) }
{
    differs_in_form(lineage, ty, k, m) || has_no_common_result(lineage, ty, k, m)
}

fn differs_in_form(lineage: &Lineage, ty: &Ty, k: u32, m: &Method) -> bool
    requires here { IsMethod (lineage_of lineage.now) k (method_of m.now) }
    requires by_name { AreByName (lineage_of lineage.now) ty.now (method_of m.now) }
    ensures { IsTrue result ↔ DiffersInForm (lineage_of lineage.now) ty.now (method_of m.now) }
{
    for j in lineage.alike_by_name(k, m) {
        let other = lineage.method(*j);
        if m.form != other.form && is_equivalent(lineage, ty, m, other) {
            return true;
        }
    }
    false
}

fn has_no_common_result(lineage: &Lineage, ty: &Ty, k: u32, m: &Method) -> bool
    requires here { IsMethod (lineage_of lineage.now) k (method_of m.now) }
    requires by_name { AreByName (lineage_of lineage.now) ty.now (method_of m.now) }
    ensures { IsTrue result ↔ HasNoCommonResult (lineage_of lineage.now) ty.now (method_of m.now) }
{
    for j in lineage.alike_by_name(k, m) {
        let other = lineage.method(*j);
        if is_common_result(lineage, ty, m, *j, other) {
            return false;
        }
    }
    true
}

fn is_common_result(lineage: &Lineage, ty: &Ty, m: &Method, j: u32, other: &Method) -> bool
    requires here { IsMethod (lineage_of lineage.now) j (method_of other.now) }
    requires by_name { AreByName (lineage_of lineage.now) ty.now (method_of m.now) }
    ensures { IsTrue result
        ↔ IsCommonResult (lineage_of lineage.now) ty.now (method_of m.now) j (method_of other.now) }
{
    is_equivalent(lineage, ty, m, other)
        && is_counted(lineage, ty, j, other)
        && stands_for_each(lineage, ty, j, other)
}

fn stands_for_each(lineage: &Lineage, ty: &Ty, k: u32, m: &Method) -> bool
    requires here { IsMethod (lineage_of lineage.now) k (method_of m.now) }
    requires by_name { AreByName (lineage_of lineage.now) ty.now (method_of m.now) }
    ensures { IsTrue result ↔ StandsForEach (lineage_of lineage.now) ty.now (method_of m.now) }
{
    for j in lineage.alike_by_name(k, m) {
        let other = lineage.method(*j);
        if !stands_for(lineage, ty, m, other) {
            return false;
        }
    }
    true
}

fn stands_for(lineage: &Lineage, ty: &Ty, m: &Method, other: &Method) -> bool
    ensures { IsTrue result ↔ (IsEquivalent (lineage_of lineage.now).classes ty.now
        (method_of m.now) (method_of other.now)
        → Substitutable (lineage_of lineage.now).classes m.now.result other.now.result) }
{
    is_substitutable(lineage, &m.result, &other.result) || !is_equivalent(lineage, ty, m, other)
}
