//! The choice of the method that a call means, by the types of its arguments (JLS 15.12.2).

ghost use Rattle.std.specs.Prelude.{◌≡◌, ◌≢◌, ◌↔◌, ℕ, Ok, Err, IsTrue, MatchOption};
ghost use Rattle.wy_table.specs.ClassTable.{table_of};
ghost use Rattle.wy_kernel.specs.View.{method_of};
ghost use Rattle.wy_overloads.specs.Choice.{Applies, Chosen, IsMethod, IsMostSpecific, Refused, SomeApplies};
ghost use Rattle.wy_constant.specs.declared.rule.Rule.{Rule};
ghost use Rattle.wy_overloads.specs.LineageView.{lineage_of};

use crate::counting::is_counted;
use crate::likely::likely;
use crate::lineage::Lineage;
use crate::member::{has_some, is_member, is_of_library};
use crate::signature::are_below;
use wy_constant::{Rule, TypeError};
use wy_kernel::types::{Method, Ty};
use wy_table::table::ClassTable;

/// The number of the method that `receiver` has by this name for arguments of these types. A refusal is at `token`.
pub fn choose(
    table: &ClassTable,
    receiver: &Ty,
    name: &str,
    args: &[Ty],
    token: u32,
) -> Result<u32, TypeError>
    ensures chosen { (m : ℕ) → (result ≡ Ok m)
        ↔ Chosen (table_of table.now) receiver.now name.now args.now m }
    ensures refused { (rule : Rule) → (result ≡ Err (TypeError.Broken rule token))
        ↔ Refused (table_of table.now) receiver.now name.now args.now rule }
    ensures no_memory { result ≢ Err TypeError.NoMemory }
{
    let lineage = Lineage::of_table(table);
    match chosen(&lineage, receiver, name, args) {
        Some(method) => Ok(method),
        None => Err(TypeError::Broken {
            rule: refusal(&lineage, receiver, name, args),
            token,
        }),
    }
}

fn chosen(lineage: &Lineage, ty: &Ty, name: &str, args: &[Ty]) -> Option<u32>
    ensures { MatchOption result ((k : ℕ) → Chosen (lineage_of lineage.now) ty.now name.now args.now
        k → ⊥) (λ k. Chosen (lineage_of lineage.now) ty.now name.now args.now k) }
{
    if let Some(k) = likely(lineage, ty, name, args) {
        if is_chosen(lineage, ty, name, args, k, lineage.method(k)) {
            return Some(k);
        }
    }
    chosen_of_all(lineage, ty, name, args)
}

// The same by a look at each method, by which the time is quadratic in the number of those that are applicable.
fn chosen_of_all(lineage: &Lineage, ty: &Ty, name: &str, args: &[Ty]) -> Option<u32>
    ensures { MatchOption result ((k : ℕ) → Chosen (lineage_of lineage.now) ty.now name.now args.now
        k → ⊥) (λ k. Chosen (lineage_of lineage.now) ty.now name.now args.now k) }
{
    let candidates = lineage.named(ty, name);
    for i in 0..candidates.len() {
        let k = candidates.at(i);
        if is_chosen(lineage, ty, name, args, k, lineage.method(k)) {
            return Some(k);
        }
    }
    None
}

fn is_chosen(lineage: &Lineage, ty: &Ty, name: &str, args: &[Ty], k: u32, m: &Method) -> bool
    requires { IsMethod (lineage_of lineage.now) k (method_of m.now) }
    ensures { IsTrue result ↔ Chosen (lineage_of lineage.now) ty.now name.now args.now k }
{
    applies(lineage, ty, name, args, m)
        && is_most_specific(lineage, ty, name, args, m)
        && is_counted(lineage, ty, k, m)
}

// The rule by which there is no choice.
fn refusal(lineage: &Lineage, ty: &Ty, name: &str, args: &[Ty]) -> Rule
    ensures { ((k : ℕ) → Chosen (lineage_of lineage.now) ty.now name.now args.now k → ⊥)
        → Refused (lineage_of lineage.now) ty.now name.now args.now result }
{
    if some_applies(lineage, ty, name, args) {
        Rule::Ambiguous
    } else if is_of_library(ty) && !has_some(lineage, ty, name) {
        Rule::NotOffered
    } else {
        Rule::NoMethod
    }
}

/// Whether a type has a method by this name that takes arguments of these types.
pub fn applies(lineage: &Lineage, ty: &Ty, name: &str, args: &[Ty], m: &Method) -> bool
    ensures { IsTrue result
        ↔ Applies (lineage_of lineage.now).classes ty.now name.now args.now (method_of m.now) }
{
    is_member(lineage, ty, name, m) && are_below(lineage, args, m.params.as_slice())
}

fn is_most_specific(lineage: &Lineage, ty: &Ty, name: &str, args: &[Ty], m: &Method) -> bool
    ensures { IsTrue result
        ↔ IsMostSpecific (lineage_of lineage.now) ty.now name.now args.now (method_of m.now) }
{
    let candidates = lineage.named(ty, name);
    for i in 0..candidates.len() {
        let other = lineage.method(candidates.at(i));
        if applies(lineage, ty, name, args, other)
            && !are_below(lineage, m.params.as_slice(), other.params.as_slice())
        {
            return false;
        }
    }
    true
}

fn some_applies(lineage: &Lineage, ty: &Ty, name: &str, args: &[Ty]) -> bool
    ensures { IsTrue result ↔ SomeApplies (lineage_of lineage.now) ty.now name.now args.now }
{
    let candidates = lineage.named(ty, name);
    for i in 0..candidates.len() {
        if applies(lineage, ty, name, args, lineage.method(candidates.at(i))) {
            return true;
        }
    }
    false
}
