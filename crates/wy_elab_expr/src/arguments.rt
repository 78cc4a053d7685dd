//! Arguments: their types, and their forms in the types of parameters (JLS 15.12.2, 15.12.4.2).

ghost use Rattle.std.specs.Prelude.{◌≡◌, IfOk, map};
ghost use Rattle.wy_table.specs.ClassTable.{table_of};
ghost use Rattle.wy_kernel.specs.View.{expression};
ghost use Rattle.wy_elab_expr.specs.Members.{brought_all, method_for, of_choice, some_void, types_of};
ghost use Rattle.wy_elab_expr.specs.Views.{GetsTo, GivesAlways, Judged, behind, meaning_of, row_seen};

use crate::bring::{brought, type_of};
use crate::kinds::is_void;
use crate::meaning::Meaning;
use crate::refusal::refused;
use crate::texts::Texts;
use std::alloc::{AllocError, Global};
use wy_constant::{Rule, TypeError};
use wy_kernel::form::Expr;
use wy_kernel::types::Ty;
use wy_overloads::choose;
use wy_table::table::ClassTable;

/// Whether an argument has no value.
pub fn some_void(args: &[Meaning]) -> bool
    ensures { result ≡ some_void (map meaning_of args.now) }
{
    let mut left = args;
    while let [first, behind @ ..] = left {
        if is_void(type_of(first)) {
            return true;
        }
        left = behind;
    }
    false
}

/// The types of arguments.
pub fn types_of(alloc: Global, args: &[Meaning]) -> Result<Vec<Ty>, AllocError>
    ensures { IfOk result (λ v. v.items ≡ types_of (map meaning_of args.now)) }
{
    let mut types = Vec::new(alloc);
    for m in args {
        types.push(type_of(m))?;
    }
    Ok(types)
}

fn chosen(
    table: &ClassTable,
    ty: Ty,
    name: &str,
    types: &[Ty],
    token: u32,
) -> Result<u32, TypeError>
    ensures { Judged (table_of table.now) (λ j.
        GivesAlways (λ k. k) result (of_choice (j.choice ty name.now types.now) token)) }
{
    choose(table, &ty, name, types, token)
}

/// The method that a type has by a name for arguments.
#[tactic(auto, unfolding(crate::specs::Members::method_for))]
pub fn method_for(
    alloc: Global,
    table: &ClassTable,
    ty: Ty,
    name: &str,
    args: &[Meaning],
    token: u32,
) -> Result<u32, TypeError>
    ensures { Judged (table_of table.now) (λ j.
        GivesAlways (λ k. k) result (method_for j ty name.now (map meaning_of args.now) token)) }
{
    if some_void(args) {
        return Err(refused(Rule::BadOperand, token));
    }
    let types = types_of(alloc, args)?;
    chosen(table, ty, name, types.as_slice(), token)
}

/// Each argument brought to the type of its parameter, behind other forms.
pub fn brought_all(
    alloc: Global,
    texts: &mut Texts,
    mut forms: Vec<Expr>,
    params: &[Ty],
    args: Vec<Meaning>,
) -> Result<Vec<Expr>, TypeError>
    ensures { GetsTo row_seen result texts.new (behind (map expression forms.items)
        (brought_all params.now (map meaning_of args.items) texts.old)) }
{
    let mut waiting = args;
    waiting.reverse();
    for to in params {
        let Some(m) = waiting.pop() else {
            return Ok(forms);
        };
        let form = brought(alloc, texts, *to, m)?;
        forms.push(form)?;
    }
    Ok(forms)
}
