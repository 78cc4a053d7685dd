//! The constants that names denote (JLS 6.5.6, 15.28).

ghost use Rattle.std.specs.Prelude.{◌≡◌, IfOk, option_map, pos, negsuc};
ghost use Rattle.wy_value.specs.declared.value.Value.{Value};
ghost use Rattle.wy_table.specs.ClassTable.{table_of};
ghost use Rattle.wy_kernel.specs.Table.{constant_value};
ghost use Rattle.wy_constant.specs.Constant.{can_name_class, class_value, field_value, limit, member_constant, name_constant, qualified, simple};
ghost use Rattle.wy_constant.specs.Scopes.{variable_of};

use crate::fields::{class_by_name, constant_of_field, field_by_name};
use crate::scope::Scope;
use crate::simple::copied;
use std::alloc::AllocError;
use wy_kernel::form::Const;
use wy_table::table::ClassTable;

fn copied_if(c: Option<&Const>) -> Result<Option<Const>, AllocError>
    ensures { IfOk result (λ k.
        option_map constant_value k ≡ option_map (λ x. constant_value x.now) c.entry) }
{
    match c {
        Some(c) => Ok(Some(copied(c)?)),
        None => Ok(None),
    }
}

fn constant_of_variable(c: &Option<Const>) -> Result<Option<Const>, AllocError>
    ensures { IfOk result (λ k. option_map constant_value k ≡ option_map constant_value c.now) }
{
    match c {
        Some(c) => Ok(Some(copied(c)?)),
        None => Ok(None),
    }
}

fn field_constant_of(table: &ClassTable, field: Option<u32>) -> Result<Option<Const>, AllocError>
    ensures { IfOk result (λ c.
        option_map constant_value c ≡ field_value (table_of table.now) field) }
{
    match field {
        Some(field) => copied_if(constant_of_field(table, field)),
        None => Ok(None),
    }
}

/// The value of the constant variable that a name denotes.
#[tactic(auto, unfolding(crate::specs::Constant::name_constant))]
pub fn value_of_name(
    table: &ClassTable,
    scope: &Scope,
    name: &str,
) -> Result<Option<Const>, AllocError>
    ensures { IfOk result (λ c.
        option_map constant_value c ≡ name_constant (table_of table.now) scope.now name.now) }
{
    match scope.variable(name) {
        Some(v) => constant_of_variable(&v.constant),
        None => field_constant_of(table, field_by_name(table, scope.class(), name)),
    }
}

#[tactic(auto, unfolding(crate::specs::Constant::can_name_class))]
pub fn may_be_class(table: &ClassTable, scope: &Scope, name: &str) -> bool
    ensures { result ≡ can_name_class (table_of table.now) scope.now name.now }
{
    !(scope.variable(name).is_some() || field_by_name(table, scope.class(), name).is_some())
}

fn limit_of_int(name: &str) -> Option<Const>
    ensures { option_map constant_value result ≡ limit (Value.Int (pos 2147483647))
        (Value.Int (negsuc 2147483647)) name.now }
{
    if name == "MAX_VALUE" {
        Some(Const::Int(2147483647))
    } else if name == "MIN_VALUE" {
        Some(Const::Int(-2147483648))
    } else {
        None
    }
}

fn limit_of_long(name: &str) -> Option<Const>
    ensures { option_map constant_value result ≡ limit (Value.Long (pos 9223372036854775807))
        (Value.Long (negsuc 9223372036854775807)) name.now }
{
    if name == "MAX_VALUE" {
        Some(Const::Long(9223372036854775807))
    } else if name == "MIN_VALUE" {
        Some(Const::Long(-9223372036854775808))
    } else {
        None
    }
}

fn value_in_class(
    table: &ClassTable,
    class: Option<u32>,
    name: &str,
) -> Result<Option<Const>, AllocError>
    ensures { IfOk result (λ c.
        option_map constant_value c ≡ class_value (table_of table.now) class name.now) }
{
    match class {
        Some(class) => field_constant_of(table, field_by_name(table, class, name)),
        None => Ok(None),
    }
}

#[tactic(auto, unfolding(crate::specs::Constant::member_constant))]
pub fn value_of_member(
    table: &ClassTable,
    class: &str,
    name: &str,
) -> Result<Option<Const>, AllocError>
    ensures { IfOk result (λ c.
        option_map constant_value c ≡ member_constant (table_of table.now) class.now name.now) }
{
    if class == "Integer" {
        Ok(limit_of_int(name))
    } else if class == "Long" {
        Ok(limit_of_long(name))
    } else {
        value_in_class(table, class_by_name(table, class), name)
    }
}

/// The value of the constant variable that a class has by a name, where an expression is the name of one.
pub fn value_of_qualified(
    table: &ClassTable,
    scope: &Scope,
    class: Option<&str>,
    name: &str,
) -> Result<Option<Const>, AllocError>
    ensures { IfOk result (λ c. option_map constant_value c
        ≡ qualified (table_of table.now) scope.now (option_map (λ n. n.now) class.entry) name.now) }
{
    match class {
        Some(class) => {
            if may_be_class(table, scope, class) {
                value_of_member(table, class, name)
            } else {
                Ok(None)
            }
        }
        None => Ok(None),
    }
}
