//! The classes, methods and fields of a program by number, those of java.lang first (JLS 8, 9).
//! No rule is decided here, and no constant computed.

ghost use Rattle.std.specs.Prelude.{◌≡◌, ◌<◌, IfOk, length, map};
ghost use Rattle.wy_kernel.specs.Builtin.{no_site};
ghost use Rattle.wy_kernel.specs.View.{class_of, field_of, method_of};
ghost use Rattle.wy_members.specs.Declarations.{table};
ghost use Rattle.wy_members.specs.Names.{unit_of};
ghost use Rattle.wy_members.specs.Rows.{AreRows};

use crate::class_row::add_classes;
use crate::field_row::add_fields;
use crate::method_row::add_methods;
use crate::names::Names;
use std::alloc::{AllocError, Global};
use wy_kernel::builtin;
use wy_kernel::types::{Class, Field, Method, NONE};

/// The rows of a program's table.
#[derive(Drop)]
pub struct Rows {
    pub classes: Vec<Class>,
    pub methods: Vec<Method>,
    pub fields: Vec<Field>,
}

/// The rows of what a program declares, behind those of java.lang.
pub fn rows_of(alloc: Global, names: &Names) -> Result<Rows, AllocError>
    ensures { IfOk result (λ rows. AreRows (unit_of names.now) rows) }
{
    let classes = all_classes(alloc, names)?;
    let methods = all_methods(alloc, names)?;
    let fields = all_fields(alloc, names)?;
    Ok(Rows {
        classes,
        methods,
        fields,
    })
}

#[tactic(auto, unfolding(crate::specs::Declarations::table))]
fn all_classes(alloc: Global, names: &Names) -> Result<Vec<Class>, AllocError>
    ensures value { IfOk result (λ rows.
        map class_of rows.items ≡ (table (unit_of names.now)).classes) }
    ensures few { IfOk result (λ rows. length rows.items < no_site) }
{
    let mut rows = builtin::classes(alloc)?;
    add_classes(&mut rows, alloc, names)?;
    if rows.len() < NONE as usize {
        Ok(rows)
    } else {
        Err(AllocError)
    }
}

#[tactic(auto, unfolding(crate::specs::Declarations::table))]
fn all_methods(alloc: Global, names: &Names) -> Result<Vec<Method>, AllocError>
    ensures value { IfOk result (λ rows.
        map method_of rows.items ≡ (table (unit_of names.now)).methods) }
    ensures few { IfOk result (λ rows. length rows.items < no_site) }
{
    let mut rows = builtin::methods(alloc)?;
    add_methods(&mut rows, alloc, names)?;
    if rows.len() < NONE as usize {
        Ok(rows)
    } else {
        Err(AllocError)
    }
}

#[tactic(auto, unfolding(crate::specs::Declarations::table))]
fn all_fields(alloc: Global, names: &Names) -> Result<Vec<Field>, AllocError>
    ensures value { IfOk result (λ rows.
        map field_of rows.items ≡ (table (unit_of names.now)).fields) }
    ensures few { IfOk result (λ rows. length rows.items < no_site) }
{
    let mut rows = builtin::fields(alloc)?;
    add_fields(&mut rows, names)?;
    if rows.len() < NONE as usize {
        Ok(rows)
    } else {
        Err(AllocError)
    }
}
