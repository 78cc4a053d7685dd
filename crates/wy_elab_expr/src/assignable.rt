//! Which values may be assigned to which variables (JLS 5.2).

ghost use Rattle.std.specs.Prelude.{◌≡◌, ℕ};
ghost use Rattle.wy_table.specs.ClassTable.{table_of};
ghost use Rattle.wy_kernel.specs.Subtyping.{primitive_type};
ghost use Rattle.wy_kernel.specs.Table.{constant_value};
ghost use Rattle.wy_elab_expr.specs.Meaning.{Known};
ghost use Rattle.wy_elab_expr.specs.Operators.{fits_into, is_assignable};
ghost use Rattle.wy_elab_expr.specs.Views.{Judged, meaning_of};

use crate::allowed::is_below;
use crate::bring::type_of;
use crate::kinds::is_void;
use crate::meaning::Meaning;
use wy_constant::has_int;
use wy_kernel::form::Const;
use wy_kernel::operator::Primitive;
use wy_kernel::types::{Base, Ty};
use wy_table::table::ClassTable;

// Whether byte, short or char has the value of a constant.
fn constant_fits(p: Primitive, c: &Const) -> bool
    ensures { (token : ℕ)
        → result ≡ fits_into (primitive_type p) (Known (constant_value c.now) token) }
{
    match c {
        Const::Byte(n) => has_int(p, i32::from(*n)),
        Const::Short(n) => has_int(p, i32::from(*n)),
        Const::Char(unit) => has_int(p, i32::from(*unit)),
        Const::Int(n) => has_int(p, *n),
        Const::Null => false,
        Const::Bool(_) => false,
        Const::Long(_) => false,
        Const::Text(_) => false,
    }
}

fn fits_into(to: Ty, m: &Meaning) -> bool
    ensures { result ≡ fits_into to (meaning_of m.now) }
{
    match (to, m) {
        (
            Ty::Of {
                base: Base::Primitive(p),
                brackets: 0,
            },
            Meaning::Known { value, token: _ },
        ) => constant_fits(p, value),
        (_, _) => false,
    }
}

/// Whether a value may be assigned to a variable of a type.
#[tactic(auto, unfolding(crate::specs::Operators::is_assignable))]
pub fn is_assignable(table: &ClassTable, to: Ty, m: &Meaning) -> bool
    ensures { Judged (table_of table.now) (λ j. result ≡ is_assignable j to (meaning_of m.now)) }
{
    let from = type_of(m);
    !is_void(from) && (is_below(table, from, to) || fits_into(to, m))
}
