//! The methods that a type has: those that the classes and interfaces above it declare (JLS 8.2, 9.2, 10.7).

ghost use Rattle.std.specs.Prelude.{◌≡◌, ◌↔◌, ℕ, IsTrue, Some};
ghost use Rattle.wy_kernel.specs.Subtyping.{class_type};
ghost use Rattle.wy_kernel.specs.View.{method_of};
ghost use Rattle.wy_overloads.specs.Choice.{DeclaredFor, HasSome, IsClass, IsMember, IsOfLibrary};
ghost use Rattle.wy_overloads.specs.LineageView.{lineage_of};

use crate::lineage::Lineage;
use crate::subtyping::{is_below, is_reference};
use wy_kernel::builtin::FIRST_SOURCE_CLASS;
use wy_kernel::types::{Base, Method, MethodForm, Ty};

/// The type of a class or an interface.
pub fn type_of_class(class: u32) -> Ty
    ensures { result ≡ class_type class }
{
    Ty::Of {
        base: Base::Class(class),
        brackets: 0,
    }
}

/// The class or the interface that a type is.
pub fn class_of_type(ty: &Ty) -> Option<u32>
    ensures { (class : ℕ) → ty.now ≡ class_type class → result ≡ Some class }
{
    match *ty {
        Ty::Of {
            base: Base::Class(class),
            brackets: _,
        } => Some(class),
        Ty::Of {
            base: Base::Primitive(_),
            brackets: _,
        } => None,
        Ty::Void => None,
        Ty::Null => None,
    }
}

/// Whether a type has this method, by this name.
pub fn is_member(lineage: &Lineage, ty: &Ty, name: &str, m: &Method) -> bool
    ensures { IsTrue result
        ↔ IsMember (lineage_of lineage.now).classes ty.now name.now (method_of m.now) }
{
    m.name.as_str() == name && is_declared_for(lineage, ty, m.class, m.form)
}

fn is_declared_for(lineage: &Lineage, ty: &Ty, class: u32, form: MethodForm) -> bool
    ensures { IsTrue result ↔ DeclaredFor (lineage_of lineage.now).classes ty.now class form }
{
    match form {
        MethodForm::Static => is_reference(ty) && is_below(lineage, ty, &type_of_class(class)),
        MethodForm::Instance => is_reference(ty) && is_below(lineage, ty, &type_of_class(class)),
        MethodForm::Constructor => is_type_of_class(ty, class),
        MethodForm::Fields => false,
    }
}

fn is_type_of_class(ty: &Ty, class: u32) -> bool
    ensures { IsTrue result ↔ (ty.now ≡ class_type class) }
{
    match *ty {
        Ty::Of {
            base: Base::Class(c),
            brackets,
        } => c == class && brackets == 0,
        Ty::Of {
            base: Base::Primitive(_),
            brackets: _,
        } => false,
        Ty::Void => false,
        Ty::Null => false,
    }
}

/// Whether this is a class and no interface.
pub fn is_class(lineage: &Lineage, class: u32) -> bool
    ensures { IsTrue result ↔ IsClass (lineage_of lineage.now).classes class }
{
    class < lineage.classes() && !lineage.class(class).is_interface
}

/// Whether a type is an array or a class of the library.
pub fn is_of_library(ty: &Ty) -> bool
    ensures { IsTrue result ↔ IsOfLibrary ty.now }
{
    match *ty {
        Ty::Of {
            base: Base::Class(c),
            brackets,
        } => brackets > 0 || c < FIRST_SOURCE_CLASS,
        Ty::Of {
            base: Base::Primitive(_),
            brackets,
        } => brackets > 0,
        Ty::Void => false,
        Ty::Null => false,
    }
}

/// Whether a type has any method of this name.
pub fn has_some(lineage: &Lineage, ty: &Ty, name: &str) -> bool
    ensures { IsTrue result ↔ HasSome (lineage_of lineage.now) ty.now name.now }
{
    let candidates = lineage.named(ty, name);
    for i in 0..candidates.len() {
        if is_member(lineage, ty, name, lineage.method(candidates.at(i))) {
            return true;
        }
    }
    false
}
