//! Calls of the library's methods (JLS 15.12). A list has the more specific ones in front, so that the first that takes the arguments is meant.

ghost use Rattle.std.specs.Prelude.{◌≡◌, ◌&&◌, bytes_eq, map, option_map};
ghost use Rattle.wy_table.specs.ClassTable.{table_of};
ghost use Rattle.wy_elab_expr.specs.Members.{applicable, are_below, brought_all, has_name, library_call, library_form};
ghost use Rattle.wy_elab_expr.specs.Views.{GetsTo, Judged, fronted, inner_of, library_method, meaning_of, row_seen};

use crate::allowed::is_below;
use crate::arguments::{brought_all, some_void, types_of};
use crate::build;
use crate::library::LibraryMethod;
use crate::meaning::{Meaning, of_form};
use crate::refusal::refused;
use crate::texts::Texts;
use std::alloc::Global;
use wy_constant::{Rule, TypeError};
use wy_kernel::form::Expr;
use wy_kernel::types::Ty;
use wy_table::table::ClassTable;

// Whether each type is below the one at its place, and there are as many.
fn are_below(table: &ClassTable, types: &[Ty], params: &[Ty]) -> bool
    ensures { Judged (table_of table.now) (λ j. result ≡ are_below j types.now params.now) }
{
    let mut lower = types;
    let mut upper = params;
    while let [a, behind @ ..] = lower {
        let [p, after @ ..] = upper else {
            return false;
        };
        if !is_below(table, *a, *p) {
            return false;
        }
        lower = behind;
        upper = after;
    }
    upper.is_empty()
}

fn does_apply(table: &ClassTable, m: &LibraryMethod, name: &str, types: &[Ty]) -> bool
    ensures { Judged (table_of table.now) (λ j. result ≡ (bytes_eq (library_method m.now).name
        name.now && are_below j types.now (library_method m.now).params)) }
{
    m.name == name && are_below(table, types, m.params)
}

fn applicable(
    table: &ClassTable,
    methods: &[LibraryMethod],
    name: &str,
    types: &[Ty],
) -> Option<LibraryMethod>
    ensures { Judged (table_of table.now) (λ j. option_map library_method result
        ≡ applicable j (map library_method methods.now) name.now types.now) }
{
    let mut left = methods;
    while let [first, behind @ ..] = left {
        if does_apply(table, first, name, types) {
            return Some(*first);
        }
        left = behind;
    }
    None
}

/// Whether one of the methods has this name.
pub fn has_name(methods: &[LibraryMethod], name: &str) -> bool
    ensures { result ≡ has_name (map library_method methods.now) name.now }
{
    let mut left = methods;
    while let [first, behind @ ..] = left {
        if first.name == name {
            return true;
        }
        left = behind;
    }
    false
}

fn forms_behind(
    alloc: Global,
    texts: &mut Texts,
    object: Option<Box<Expr>>,
    params: &[Ty],
    args: Vec<Meaning>,
) -> Result<Vec<Expr>, TypeError>
    ensures { GetsTo row_seen result texts.new (fronted (option_map inner_of object)
        (brought_all params.now (map meaning_of args.items) texts.old)) }
{
    match object {
        Some(object) => {
            let forms = vec![in alloc; Box::into_inner(object)]?;
            brought_all(alloc, texts, forms, params, args)
        }
        None => {
            let forms = Vec::new(alloc);
            brought_all(alloc, texts, forms, params, args)
        }
    }
}

fn library_form(
    alloc: Global,
    texts: &mut Texts,
    m: Option<LibraryMethod>,
    is_offered: bool,
    object: Option<Box<Expr>>,
    args: Vec<Meaning>,
    token: u32,
) -> Result<Meaning, TypeError>
    ensures { GetsTo meaning_of result texts.new (library_form (option_map library_method m)
        is_offered (option_map inner_of object) (map meaning_of args.items) token texts.old) }
{
    match m {
        Some(m) => {
            let args = forms_behind(alloc, texts, object, m.params, args)?;
            let form = build::library(m.op, args, token);
            Ok(of_form(alloc, form, m.outcome)?)
        }
        None => {
            if is_offered {
                Err(refused(Rule::NoMethod, token))
            } else {
                Err(refused(Rule::NotOffered, token))
            }
        }
    }
}

/// A call of a method of the library, the receiver before the arguments.
#[tactic(auto, unfolding(crate::specs::Members::library_call))]
pub fn library_call(
    alloc: Global,
    table: &ClassTable,
    texts: &mut Texts,
    methods: &[LibraryMethod],
    object: Option<Box<Expr>>,
    name: &str,
    args: Vec<Meaning>,
    token: u32,
) -> Result<Meaning, TypeError>
    ensures { Judged (table_of table.now) (λ j.
        GetsTo meaning_of result texts.new (library_call j (map library_method methods.now)
        (option_map inner_of object) name.now (map meaning_of args.items) token texts.old)) }
{
    if some_void(args.as_slice()) {
        return Err(refused(Rule::BadOperand, token));
    }
    let types = types_of(alloc, args.as_slice())?;
    let m = applicable(table, methods, name, types.as_slice());
    let is_offered = has_name(methods, name);
    library_form(alloc, texts, m, is_offered, object, args, token)
}
