//! `this`, and the fields that `super` names (JLS 15.8.3, 15.11.2).

ghost use Rattle.std.specs.Prelude.{if◌then◌else◌};
ghost use Rattle.wy_table.specs.ClassTable.{table_of};
ghost use Rattle.wy_kernel.specs.Subtyping.{class_type};
ghost use Rattle.wy_elab_expr.specs.Meaning.{Formed, give, refuse};
ghost use Rattle.wy_elab_expr.specs.Members.{this_form};
ghost use Rattle.wy_elab_expr.specs.Elaboration.{super_read};
ghost use Rattle.wy_elab_expr.specs.Views.{GivesAlways, meaning_of};

use crate::assignment::{read, super_spot};
use crate::bring::class;
use crate::build;
use crate::meaning::{Meaning, of_form};
use crate::refusal::refused;
use std::alloc::Global;
use wy_constant::{Rule, Scope, TypeError};
use wy_table::table::ClassTable;

/// `this`
pub fn read_this(alloc: Global, scope: &Scope, token: u32) -> Result<Meaning, TypeError>
    ensures { GivesAlways meaning_of result (if scope.now.has_this then give
        (Formed this_form (class_type scope.now.class)) else refuse Rule.NotInStatic token) }
{
    if scope.has_this() {
        Ok(of_form(alloc, build::this(), class(scope.class()))?)
    } else {
        Err(refused(Rule::NotInStatic, token))
    }
}

/// `super.name`
pub fn read_super(
    alloc: Global,
    table: &ClassTable,
    scope: &Scope,
    name: &str,
    token: u32,
) -> Result<Meaning, TypeError>
    ensures { GivesAlways meaning_of result
        (super_read (table_of table.now) scope.now name.now token) }
{
    let p = super_spot(alloc, table, scope, name, token)?;
    Ok(read(alloc, p)?)
}
