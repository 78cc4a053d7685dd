//! Expressions with their types, as what stands around them takes them (JLS 15). Nothing here reads an expression.

ghost use Rattle.std.specs.Prelude.{◌≡◌, OnErr};
ghost use Rattle.wy_table.specs.ClassTable.{table_of};
ghost use Rattle.wy_syntax.specs.View.{expression_of};
ghost use Rattle.wy_constant.specs.Scope.{with_texts};
ghost use Rattle.wy_elab_expr.specs.Elaboration.{typed};
ghost use Rattle.wy_elab_expr.specs.Views.{GetsTo, Judged, typed_of};

use crate::bring::{formed, type_of};
use crate::elaboration::elaborated;
use crate::texts::Texts;
use std::alloc::Global;
use wy_constant::{Scope, TypeError};
use wy_kernel::form::Expr;
use wy_kernel::types::Ty;
use wy_syntax::expression::Expression;
use wy_table::table::ClassTable;

/// A form and its type.
#[derive(Drop)]
pub struct Typed {
    pub form: Expr,
    pub ty: Ty,
}

/// The form of an expression in its own type; the texts that it holds are those of the scope. An `Err` leaves the scope as it is.
#[tactic(auto, unfolding(crate::specs::Elaboration::typed))]
pub fn typed_expression(
    alloc: Global,
    table: &ClassTable,
    scope: &mut Scope,
    e: &Expression,
) -> Result<Typed, TypeError>
    ensures typed { Judged (table_of table.now) (λ j. GetsTo typed_of result scope.new.texts
        (typed j (table_of table.now) scope.old (expression_of e.now) scope.old.texts)) }
    ensures texts { scope.new ≡ with_texts scope.old scope.new.texts }
    ensures err { OnErr result (scope.new ≡ scope.old) }
{
    let mut texts = Texts::of(alloc, scope.copied_texts()?)?;
    let m = elaborated(alloc, table, scope, &mut texts, e)?;
    let ty = type_of(&m);
    let form = formed(alloc, &mut texts, m)?;
    scope.keep_texts(texts.into_list());
    Ok(Typed { form, ty })
}
