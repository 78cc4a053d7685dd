//! The values of the fields that are constant variables (JLS 4.12.4, 15.28): fields are gone through in the order of the text until nothing
//! new follows. Locals are not looked at here.

ghost use Rattle.std.specs.Prelude.{◌≡◌, ◌+◌, ◌<◌, IfOk, MatchBool, OnOk, OnSome, Some, length, option_map, slice_get, slice_set};
ghost use Rattle.wy_table.specs.ClassTable.{table_of};
ghost use Rattle.wy_kernel.specs.Table.{constant_value};
ghost use Rattle.wy_syntax.specs.View.{expression_of};
ghost use Rattle.wy_constant.specs.Constant.{text_length};
ghost use Rattle.wy_members.specs.Constants.{initial_value_of, told, with_constants};
ghost use Rattle.wy_members.specs.Sweep.{GoesOn, IsFinished, news, unknown};
ghost use Rattle.wy_members.specs.Initializers.{initializers_seen};

use std::alloc::{AllocError, Global};
use wy_constant::{Scope, constant_of, constant_variable, units_in};
use wy_kernel::form::Const;
use wy_kernel::limit::UNIT_LIMIT;
use wy_syntax::expression::Expression;
use wy_table::table::ClassTable;

fn initial_value(
    alloc: Global,
    table: &ClassTable,
    field: u32,
    e: &Expression,
) -> Result<Option<Const>, AllocError>
    requires { field < length (table_of table.now).fields }
    ensures { IfOk result (λ c. option_map constant_value c ≡ initial_value_of (table_of table.now)
        (slice_get (table_of table.now).fields field) (Some (Some (expression_of e.now)))) }
{
    let row = table.field(field);
    let scope = Scope::new(alloc, row.class, !row.is_static)?;
    match constant_of(alloc, table, &scope, e)? {
        Some(c) => Ok(constant_variable(&row.ty, c)),
        None => Ok(None),
    }
}

// The value of a field by those that the table has.
fn told(
    alloc: Global,
    table: &ClassTable,
    all: &[Option<&Expression>],
    field: u32,
) -> Result<Option<Const>, AllocError>
    requires { field < length (table_of table.now).fields }
    ensures { IfOk result (λ c.
        option_map constant_value c ≡ told (table_of table.now) (initializers_seen all.now) field) }
{
    match all.get(field as usize) {
        Some(Some(e)) => initial_value(alloc, table, field, e),
        Some(None) => Ok(None),
        None => Ok(None),
    }
}

// Takes the units of a constant's text from those that are left. Where too few are left, memory counts
// as run out.
fn take_units(left: &mut usize, value: &Option<Const>) -> Result<(), AllocError>
    ensures { OnOk result
        (left.old ≡ left.new + text_length (option_map constant_value value.now)) }
{
    let units = units_in(value);
    if units > *left {
        return Err(AllocError);
    }
    *left -= units;
    Ok(())
}

// The same, of a field that the table has no value of. Its text takes its units from those that are left.
fn news(
    alloc: Global,
    table: &ClassTable,
    all: &[Option<&Expression>],
    field: u32,
    left: &mut usize,
) -> Result<Option<Const>, AllocError>
    requires { field < length (table_of table.now).fields }
    ensures { IfOk result (λ c.
        option_map constant_value c ≡ news (table_of table.now) (initializers_seen all.now) field) }
{
    if table.field_constant(field).is_some() {
        return Ok(None);
    }
    let value = told(alloc, table, all, field)?;
    take_units(left, &value)?;
    Ok(value)
}

fn learn(table: &mut ClassTable, field: u32, value: Const)
    requires { field < length (table_of table.old).fields }
    ensures same { table_of table.new ≡ with_constants (table_of table.old)
        (slice_set (table_of table.old).constants field (Some (constant_value value))) }
    ensures within { field < length (table_of table.old).constants }
{
    table.constants[field as usize] = Some(value);
}

// Goes through all fields once, and says whether any value was new.
fn sweep(
    alloc: Global,
    table: &mut ClassTable,
    all: &[Option<&Expression>],
    left: &mut usize,
) -> Result<bool, AllocError>
    ensures goes_on { OnOk result
        (GoesOn (initializers_seen all.now) (table_of table.old) (table_of table.new)) }
    ensures found { IfOk result (λ found. MatchBool found
        (unknown (table_of table.new).constants < unknown (table_of table.old).constants)
        (IsFinished (table_of table.new) (initializers_seen all.now))) }
{
    let mut found = false;
    for field in 0..table.fields() {
        if let Some(value) = news(alloc, table, all, field, left)? {
            learn(table, field, value);
            found = true;
        }
    }
    Ok(found)
}

/// Gives the table the value of each field that is a constant variable, by the initializers of its fields. Their texts
/// have at most as many units in all as those of a run; past that, memory counts as run out.
pub fn find_constants(
    alloc: Global,
    table: &mut ClassTable,
    all: &[Option<&Expression>],
) -> Result<(), AllocError>
    ensures goes_on { OnOk result
        (GoesOn (initializers_seen all.now) (table_of table.old) (table_of table.new)) }
    ensures finished { OnOk result (IsFinished (table_of table.new) (initializers_seen all.now)) }
{
    let mut left = UNIT_LIMIT as usize;
    loop {
        if !sweep(alloc, table, all, &mut left)? {
            return Ok(());
        }
    }
}
