//! Subtyping, by what a lineage has at or above each class (JLS 4.10).
//! No walk over classes, and no memory.

ghost use Rattle.std.specs.Prelude.{◌≡◌, ◌↔◌, IsTrue};
ghost use Rattle.wy_table.specs.ClassTable.{table_of};
ghost use Rattle.wy_kernel.specs.Program.{object_class};
ghost use Rattle.wy_kernel.specs.Subtyping.{Below, IsReference, Supertype};
ghost use Rattle.wy_overloads.specs.LineageView.{lineage_of};

use crate::lineage::Lineage;
use wy_constant::widens;
use wy_kernel::builtin::OBJECT;
use wy_kernel::operator::Primitive;
use wy_kernel::types::{Base, Ty};
use wy_table::table::ClassTable;

/// Whether type `a` is below type `b`.
pub fn subtype(table: &ClassTable, a: &Ty, b: &Ty) -> bool
    ensures { IsTrue result ↔ Below (table_of table.now).classes a.now b.now }
{
    is_below(&Lineage::of_table(table), a, b)
}

/// Whether type `a` is below type `b` by the supertypes of a lineage.
pub fn is_below(lineage: &Lineage, a: &Ty, b: &Ty) -> bool
    ensures { IsTrue result ↔ Below (lineage_of lineage.now).classes a.now b.now }
{
    match (*a, *b) {
        (
            Ty::Of {
                base: lower,
                brackets: m,
            },
            Ty::Of {
                base: upper,
                brackets: n,
            },
        ) => {
            if m == n {
                is_base_below(lineage, lower, upper, m)
            } else {
                n < m && is_object(upper)
            }
        }
        (
            Ty::Null,
            Ty::Of {
                base: _,
                brackets: _,
            },
        ) => is_reference(b),
        (Ty::Null, Ty::Null) => true,
        (Ty::Void, Ty::Void) => true,
        (Ty::Null, Ty::Void) => false,
        (Ty::Void, Ty::Null) => false,
        (
            Ty::Void,
            Ty::Of {
                base: _,
                brackets: _,
            },
        ) => false,
        (
            Ty::Of {
                base: _,
                brackets: _,
            },
            Ty::Void,
        ) => false,
        (
            Ty::Of {
                base: _,
                brackets: _,
            },
            Ty::Null,
        ) => false,
    }
}

/// Whether a type is a class, an interface or an array.
pub fn is_reference(ty: &Ty) -> bool
    ensures { IsTrue result ↔ IsReference ty.now }
{
    match *ty {
        Ty::Void => false,
        Ty::Null => false,
        Ty::Of {
            base: Base::Class(_),
            brackets: _,
        } => true,
        Ty::Of {
            base: Base::Primitive(_),
            brackets,
        } => brackets > 0,
    }
}

// Whether `lower` is below `upper` where both have so many brackets.
fn is_base_below(lineage: &Lineage, lower: Base, upper: Base, brackets: u8) -> bool
    ensures { IsTrue result
        ↔ Below (lineage_of lineage.now).classes (Ty.Of lower brackets) (Ty.Of upper brackets) }
{
    match (lower, upper) {
        (Base::Class(c), Base::Class(d)) => d == OBJECT || is_supertype(lineage, c, d),
        (Base::Primitive(p), Base::Primitive(q)) => {
            if brackets == 0 {
                widens(p, q)
            } else {
                is_same(p, q)
            }
        }
        (Base::Class(_), Base::Primitive(_)) => false,
        (Base::Primitive(_), Base::Class(_)) => false,
    }
}

fn is_same(a: Primitive, b: Primitive) -> bool
    ensures { IsTrue result ↔ (a ≡ b) }
{
    a == b
}

fn is_object(base: Base) -> bool
    ensures { IsTrue result ↔ (base ≡ Base.Class object_class) }
{
    match base {
        Base::Class(c) => c == OBJECT,
        Base::Primitive(_) => false,
    }
}

/// Whether class b is class a, or a class or an interface above it.
pub fn is_supertype(lineage: &Lineage, a: u32, b: u32) -> bool
    ensures { IsTrue result ↔ Supertype (lineage_of lineage.now).classes a b }
{
    a == b || a < lineage.classes() && lineage.is_above(a, b)
}
