//! Classes by name, and the field that a class has by a name (JLS 6.5, 8.3).

ghost use Rattle.std.specs.Prelude.{◌≡◌, option_map, slice_get};
ghost use Rattle.wy_table.specs.ClassTable.{table_of};
ghost use Rattle.wy_kernel.specs.Table.{constant_value};
ghost use Rattle.wy_constant.specs.Fields.{class_named, field_constant, field_of, superclass};

use wy_kernel::form::Const;
use wy_kernel::types::NONE;
use wy_table::table::ClassTable;

/// The number of the class or interface of this name.
pub fn class_by_name(table: &ClassTable, name: &str) -> Option<u32>
    ensures { result ≡ class_named (table_of table.now).classes name.now }
{
    table.class_number(name)
}

/// The superclass of a class, if it has one.
#[tactic(auto, unfolding(wy_kernel::specs::View::present))]
pub fn class_above(table: &ClassTable, class: u32) -> Option<u32>
    ensures { result ≡ superclass (slice_get (table_of table.now).classes class) }
{
    if class >= table.classes() {
        return None;
    }
    let above = table.class(class).above;
    if above == NONE { None } else { Some(above) }
}

/// The field that a name denotes in a class: that of the nearest class from it upward, a private one too.
#[tactic(auto, using(crate::proofs::Upward::up_here, crate::proofs::Upward::up_further, crate::proofs::Upward::up_none, crate::proofs::Upward::up_end))]
pub fn field_by_name(table: &ClassTable, class: u32, name: &str) -> Option<u32>
    ensures { result ≡ field_of (table_of table.now) class name.now }
{
    let mut at = class;
    let mut left = table.classes();
    'upward: while left > 0 {
        if let Some(field) = table.field_number(at, name) {
            return Some(field);
        }
        match class_above(table, at) {
            Some(above) => at = above,
            None => return None,
        }
        left -= 1;
    }
    None
}

/// The value of a field that is a constant variable.
#[tactic(auto, unfolding(wy_table::specs::ClassTable::table_of))]
pub fn constant_of_field(table: &ClassTable, field: u32) -> Option<&Const>
    ensures { option_map (λ c.
        constant_value c.now) result ≡ field_constant (table_of table.now) field }
{
    match table.constants.as_slice().get(field as usize) {
        Some(c) => c.as_ref(),
        None => None,
    }
}
