//! The table of a program, or the refusal that its declarations are due.

ghost use Rattle.std.specs.Prelude.{◌≡◌, ℕ, Err, IfOk, MatchOption, OnOk, map};
ghost use Rattle.wy_constant.specs.declared.rule.Rule.{Rule};
ghost use Rattle.wy_table.specs.ClassTable.{table_of};
ghost use Rattle.wy_syntax.specs.View.{declaration_of};
ghost use Rattle.wy_members.specs.Constants.{IsTableOf};
ghost use Rattle.wy_members.specs.Names.{unit_of};
ghost use Rattle.wy_members.specs.Refusal.{IsRefusal, KeepsRules};
ghost use Rattle.wy_members.specs.Rows.{AreRows};

use crate::broken::breach::Breach;
use crate::broken::refusal::refusal;
use crate::names::{Names, names_of};
use crate::program_table::program_table;
use crate::rows::{Rows, rows_of};
use std::alloc::Global;
use wy_constant::TypeError;
use wy_syntax::declaration::Declaration;
use wy_table::table::ClassTable;

/// The classes, methods and fields of a program with the values of its constant fields, or the first rule on declarations that it
/// breaks, at the least token (JLS 8, 9).
pub fn class_table_of(alloc: Global, unit: &[Declaration]) -> Result<ClassTable, TypeError>
    ensures table { IfOk result (λ t. IsTableOf (map declaration_of unit.now) (table_of t)) }
    ensures keeps { OnOk result (KeepsRules (map declaration_of unit.now)) }
    ensures refused { (rule : Rule) (token : ℕ) → result ≡ Err (TypeError.Broken rule token)
        → IsRefusal (map declaration_of unit.now) rule token }
{
    match names_of(alloc, unit) {
        Ok(names) => table_of_names(alloc, &names),
        Err(_) => Err(TypeError::NoMemory),
    }
}

fn table_of_names(alloc: Global, names: &Names) -> Result<ClassTable, TypeError>
    ensures table { IfOk result (λ t. IsTableOf (unit_of names.now) (table_of t)) }
    ensures keeps { OnOk result (KeepsRules (unit_of names.now)) }
    ensures refused { (rule : Rule) (token : ℕ) → result ≡ Err (TypeError.Broken rule token)
        → IsRefusal (unit_of names.now) rule token }
{
    match rows_of(alloc, names) {
        Ok(rows) => table_of_rows(alloc, names, rows),
        Err(_) => Err(TypeError::NoMemory),
    }
}

fn table_of_rows(alloc: Global, names: &Names, rows: Rows) -> Result<ClassTable, TypeError>
    requires { AreRows (unit_of names.now) rows }
    ensures table { IfOk result (λ t. IsTableOf (unit_of names.now) (table_of t)) }
    ensures keeps { OnOk result (KeepsRules (unit_of names.now)) }
    ensures refused { (rule : Rule) (token : ℕ) → result ≡ Err (TypeError.Broken rule token)
        → IsRefusal (unit_of names.now) rule token }
{
    match refusal(alloc, names, &rows) {
        Ok(found) => table_or_refusal(alloc, names, rows, found),
        Err(_) => Err(TypeError::NoMemory),
    }
}

// The table, or the refusal that was found to be due.
fn table_or_refusal(
    alloc: Global,
    names: &Names,
    rows: Rows,
    found: Option<Breach>,
) -> Result<ClassTable, TypeError>
    requires rows { AreRows (unit_of names.now) rows }
    requires judged { MatchOption found (KeepsRules (unit_of names.now)) (λ b.
        IsRefusal (unit_of names.now) b.rule b.token) }
    ensures table { IfOk result (λ t. IsTableOf (unit_of names.now) (table_of t)) }
    ensures keeps { OnOk result (KeepsRules (unit_of names.now)) }
    ensures refused { (rule : Rule) (token : ℕ) → result ≡ Err (TypeError.Broken rule token)
        → IsRefusal (unit_of names.now) rule token }
{
    match found {
        Some(breach) => Err(TypeError::Broken {
            rule: breach.rule,
            token: breach.token,
        }),
        None => match program_table(alloc, names, rows) {
            Ok(table) => Ok(table),
            Err(_) => Err(TypeError::NoMemory),
        },
    }
}
