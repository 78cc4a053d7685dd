//! The table of a program, by its tree.

ghost use Rattle.std.specs.Prelude.{◌≡◌, ◌≤◌, ℕ, Err, IfOk, OnOk};
ghost use Rattle.wy_constant.specs.declared.rule.Rule.{Rule};
ghost use Rattle.wy_table.specs.ClassTable.{table_of};
ghost use Rattle.wy_members.specs.Constants.{IsTableOf};
ghost use Rattle.wy_members.specs.Refusal.{IsRefusal, KeepsRules};
ghost use Rattle.wy_syntax.specs.Declarations.{unit};
ghost use Rattle.wy_syntax.specs.Names.{width};
ghost use Rattle.wy_tree.specs.Ast.{view};
ghost use Rattle.wy_tree.specs.Tokens.{token_limit};

use crate::unit_table::class_table_of;
use std::alloc::Global;
use wy_constant::TypeError;
use wy_declaration::unit;
use wy_table::table::ClassTable;
use wy_tree::tree::Tree;

/// The classes, methods and fields of the program that a tree is, with the values of its constant fields; or the first rule on
/// declarations that it breaks, at the least token, counted from the tree's first (JLS 8, 9).
pub fn class_table(alloc: Global, tree: &Tree) -> Result<ClassTable, TypeError>
    requires { width (view tree.now) ≤ token_limit }
    ensures table { IfOk result (λ t. IsTableOf (unit 0 (view tree.now)) (table_of t)) }
    ensures keeps { OnOk result (KeepsRules (unit 0 (view tree.now))) }
    ensures refused { (rule : Rule) (token : ℕ) → result ≡ Err (TypeError.Broken rule token)
        → IsRefusal (unit 0 (view tree.now)) rule token }
{
    let declarations = unit(alloc, tree, 0)?;
    class_table_of(alloc, declarations.as_slice())
}
