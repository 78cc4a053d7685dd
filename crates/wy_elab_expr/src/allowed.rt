//! Which casts and assignments are allowed (JLS 5.2, 5.5; two references as this project has it, without the rules on methods).

ghost use Rattle.std.specs.Prelude.{◌≡◌, slice_get};
ghost use Rattle.wy_table.specs.ClassTable.{table_of};
ghost use Rattle.wy_elab_expr.specs.Operators.{can_cast, can_cast_bases, can_cast_by, can_cast_primitive, can_cast_reference, class_of, is_interface, is_open, is_related, may_meet};
ghost use Rattle.wy_elab_expr.specs.Views.{Judged};

use crate::kinds::{is_nullable, primitive_in};
use wy_kernel::operator::Primitive;
use wy_kernel::types::{Base, Ty};
use wy_overloads::subtype;
use wy_table::table::ClassTable;

/// Whether a type is below another.
pub fn is_below(table: &ClassTable, a: Ty, b: Ty) -> bool
    ensures { Judged (table_of table.now) (λ j. result ≡ j.below a b) }
{
    subtype(table, &a, &b)
}

/// Whether a number names an interface.
pub fn is_interface(table: &ClassTable, class: u32) -> bool
    ensures { result ≡ is_interface (class_of (table_of table.now) class) }
{
    class < table.classes() && table.class(class).is_interface
}

fn is_open(table: &ClassTable, class: u32) -> bool
    ensures { result ≡ is_open (class_of (table_of table.now) class) }
{
    if class >= table.classes() {
        return false;
    }
    let class = table.class(class);
    class.is_interface || !class.is_final
}

fn may_meet(table: &ClassTable, a: Base, b: Base) -> bool
    ensures { result ≡ may_meet (table_of table.now) a b }
{
    match (a, b) {
        (Base::Class(c), Base::Class(d)) => {
            is_interface(table, c) && is_open(table, d)
                || is_interface(table, d) && is_open(table, c)
        }
        (_, _) => false,
    }
}

fn is_related(table: &ClassTable, a: Ty, b: Ty) -> bool
    ensures { Judged (table_of table.now) (λ j. result ≡ is_related j a b) }
{
    is_nullable(a) && is_nullable(b) && (is_below(table, a, b) || is_below(table, b, a))
}

fn can_cast_bases(table: &ClassTable, a: Base, m: u8, b: Base, n: u8) -> bool
    ensures { Judged (table_of table.now) (λ j.
        result ≡ can_cast_bases j (table_of table.now) a m b n) }
{
    let from = Ty::Of {
        base: a,
        brackets: m,
    };
    let to = Ty::Of {
        base: b,
        brackets: n,
    };
    if is_related(table, from, to) {
        return true;
    }
    if m == 0 && n == 0 {
        return may_meet(table, a, b);
    }
    m > 0 && n > 0 && can_cast_bases(table, a, m - 1, b, n - 1)
}

fn can_cast_reference(table: &ClassTable, a: Ty, b: Ty) -> bool
    ensures { Judged (table_of table.now) (λ j.
        result ≡ can_cast_reference j (table_of table.now) a b) }
{
    match (a, b) {
        (
            Ty::Of {
                base: from,
                brackets: m,
            },
            Ty::Of {
                base: to,
                brackets: n,
            },
        ) => can_cast_bases(table, from, m, to, n),
        (_, _) => is_related(table, a, b),
    }
}

fn can_cast_primitive(p: Primitive, q: Primitive) -> bool
    ensures { result ≡ can_cast_primitive p q }
{
    match (p, q) {
        (Primitive::Bool, Primitive::Bool) => true,
        (Primitive::Bool, _) => false,
        (_, Primitive::Bool) => false,
        (_, _) => true,
    }
}

/// Whether a value of the first type may be cast to the second.
#[tactic(auto, unfolding(crate::specs::Operators::can_cast))]
pub fn can_cast(table: &ClassTable, a: Ty, b: Ty) -> bool
    ensures { Judged (table_of table.now) (λ j. result ≡ can_cast j (table_of table.now) a b) }
{
    match (primitive_in(a), primitive_in(b)) {
        (Some(p), Some(q)) => can_cast_primitive(p, q),
        (None, None) => can_cast_reference(table, a, b),
        (_, _) => false,
    }
}
