//! Expressions that are trees, as a parser gives them.

ghost use Rattle.std.specs.Prelude.{◌≡◌, ◌≤◌, ◌+◌, IfOk, OnErr, option_map};
ghost use Rattle.wy_constant.specs.Constant.{constant};
ghost use Rattle.wy_constant.specs.Scope.{with_texts};
ghost use Rattle.wy_elab_expr.specs.Elaboration.{typed};
ghost use Rattle.wy_elab_expr.specs.Views.{GetsTo, Judged, typed_of};
ghost use Rattle.wy_table.specs.ClassTable.{table_of};
ghost use Rattle.wy_kernel.specs.Table.{constant_value};
ghost use Rattle.wy_syntax.specs.Expressions.{expression};
ghost use Rattle.wy_syntax.specs.Names.{width};
ghost use Rattle.wy_tree.specs.Ast.{view};
ghost use Rattle.wy_tree.specs.Tokens.{token_limit};

use crate::typed::{Typed, typed_expression};
use std::alloc::{AllocError, Global};
use wy_constant::{Scope, TypeError, constant_of};
use wy_kernel::form::Const;
use wy_syntax::lower::expression::expression;
use wy_table::table::ClassTable;
use wy_tree::tree::Tree;

/// The form of the expression that a tree is, in its own type; or the first rule that it breaks, operands before their operator.
/// `first` is the number of the tree's first token, from which sites and refusals count. The texts that the form holds are those of
/// the scope. An `Err` leaves the scope as it is.
pub fn expr(
    alloc: Global,
    table: &ClassTable,
    scope: &mut Scope,
    tree: &Tree,
    first: u32,
) -> Result<Typed, TypeError>
    requires { first + width (view tree.now) ≤ token_limit }
    ensures typed { Judged (table_of table.now) (λ j. GetsTo typed_of result scope.new.texts (typed
        j (table_of table.now) scope.old (expression first (view tree.now)) scope.old.texts)) }
    ensures texts { scope.new ≡ with_texts scope.old scope.new.texts }
    ensures err { OnErr result (scope.new ≡ scope.old) }
{
    let e = Box::new(alloc, expression(alloc, tree, first)?)?;
    typed_expression(alloc, table, scope, &e)
}

/// The value of the expression that a tree is, and None exactly where it isn't a constant one (JLS 15.28).
pub fn constant(
    alloc: Global,
    table: &ClassTable,
    scope: &Scope,
    tree: &Tree,
) -> Result<Option<Const>, AllocError>
    requires { width (view tree.now) ≤ token_limit }
    ensures { IfOk result (λ c. option_map constant_value c
        ≡ constant (table_of table.now) scope.now (expression 0 (view tree.now))) }
{
    let e = Box::new(alloc, expression(alloc, tree, 0)?)?;
    constant_of(alloc, table, scope, &e)
}
