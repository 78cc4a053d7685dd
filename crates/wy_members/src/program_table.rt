//! The table of a program in which no class is above itself: its rows, their supertypes, and the values of its constant fields.
//! No rule is decided here.

ghost use Rattle.std.specs.Prelude.{◌≡◌, IfOk, None, map, option_map};
ghost use Rattle.wy_table.specs.ClassTable.{table_of};
ghost use Rattle.wy_kernel.specs.Subtyping.{IsAcyclic};
ghost use Rattle.wy_kernel.specs.Table.{constant_value};
ghost use Rattle.wy_kernel.specs.View.{field_of};
ghost use Rattle.wy_members.specs.Constants.{IsTableOf};
ghost use Rattle.wy_members.specs.Declarations.{no_constants, table};
ghost use Rattle.wy_members.specs.Names.{unit_of};
ghost use Rattle.wy_members.specs.Rows.{AreRows};

use crate::constant_field::find_constants;
use crate::initializer::initializers;
use crate::names::Names;
use crate::rows::Rows;
use std::alloc::{AllocError, Global};
use wy_kernel::form::Const;
use wy_kernel::types::Field;
use wy_table::hierarchy::hierarchy_of;
use wy_table::methods::MethodIndex;
use wy_table::names::DeclaredNames;
use wy_table::table::ClassTable;

fn unknown() -> Option<Const>
    ensures { option_map constant_value result ≡ None }
{
    None
}

// A place for the constant of each field.
fn no_constants(alloc: Global, fields: &[Field]) -> Result<Vec<Option<Const>>, AllocError>
    ensures { IfOk result (λ places.
        map (option_map constant_value) places.items ≡ no_constants (map field_of fields.now)) }
{
    let mut places = Vec::new(alloc);
    let mut left = fields;
    while let [_field, behind @ ..] = left {
        places.push(unknown())?;
        left = behind;
    }
    Ok(places)
}

// The table without the values of constant fields.
fn table_of_rows(alloc: Global, names: &Names, rows: Rows) -> Result<ClassTable, AllocError>
    requires rows { AreRows (unit_of names.now) rows }
    requires acyclic { IsAcyclic (table (unit_of names.now)).classes }
    ensures { IfOk result (λ t. table_of t ≡ table (unit_of names.now)) }
{
    let hierarchy = hierarchy_of(alloc, rows.classes.as_slice())?;
    let constants = no_constants(alloc, rows.fields.as_slice())?;
    let declared = DeclaredNames::of(alloc, rows.classes.as_slice(), rows.fields.as_slice())?;
    let index = MethodIndex::of(alloc, rows.methods.as_slice())?;
    let Rows {
        classes,
        methods,
        fields,
    } = rows;
    Ok(ClassTable {
        classes,
        methods,
        fields,
        constants,
        hierarchy,
        names: declared,
        index,
    })
}

/// The table of a program in which no class is above itself, from its rows.
pub fn program_table(alloc: Global, names: &Names, rows: Rows) -> Result<ClassTable, AllocError>
    requires rows { AreRows (unit_of names.now) rows }
    requires acyclic { IsAcyclic (table (unit_of names.now)).classes }
    ensures { IfOk result (λ t. IsTableOf (unit_of names.now) (table_of t)) }
{
    let mut table = table_of_rows(alloc, names, rows)?;
    let all = initializers(alloc, names.unit)?;
    find_constants(alloc, &mut table, all.as_slice())?;
    Ok(table)
}
