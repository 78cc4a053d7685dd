//! Calls on a class and on an object (JLS 15.12.1).

ghost use Rattle.std.specs.Prelude.{◌≡◌, map, option_map};
ghost use Rattle.wy_table.specs.ClassTable.{table_of};
ghost use Rattle.wy_constant.specs.Fields.{class_named};
ghost use Rattle.wy_elab_expr.specs.Elaboration.{called_on, called_on_class, called_on_known, class_methods, is_of_texts};
ghost use Rattle.wy_elab_expr.specs.Views.{GetsTo, Judged, class_name_of, library_method, meaning_of};

use crate::arguments::some_void;
use crate::bring::{class, formed_in, type_of};
use crate::call::{Through, called};
use crate::fields::is_library_name;
use crate::kinds::{is_text, is_void};
use crate::library::{
    LibraryMethod, integer_methods, math_methods, text_methods, value_of_methods,
};
use crate::library_call::{has_name, library_call};
use crate::meaning::Meaning;
use crate::names::ClassName;
use crate::refusal::refused;
use crate::texts::Texts;
use std::alloc::Global;
use wy_constant::{Rule, Scope, TypeError, class_by_name};
use wy_table::table::ClassTable;

fn class_methods(class: &str) -> &'static [LibraryMethod]
    ensures { map library_method result.now ≡ class_methods class.now }
{
    if class == "Integer" {
        integer_methods()
    } else if class == "Math" {
        math_methods()
    } else if class == "String" {
        value_of_methods()
    } else {
        &[]
    }
}

// Whether a class has the method for objects alone.
fn is_of_texts(class: &str, name: &str) -> bool
    ensures { result ≡ is_of_texts class.now name.now }
{
    class == "String" && has_name(text_methods(), name) && !has_name(value_of_methods(), name)
}

fn called_on_known(
    alloc: Global,
    table: &ClassTable,
    scope: &Scope,
    texts: &mut Texts,
    c: Option<u32>,
    name: &str,
    args: Vec<Meaning>,
    token: u32,
) -> Result<Meaning, TypeError>
    ensures { Judged (table_of table.now) (λ j. GetsTo meaning_of result texts.new (called_on_known
        j (table_of table.now) scope.now c name.now (map meaning_of args.items) token texts.old)) }
{
    match c {
        Some(c) => called(
            alloc,
            table,
            scope,
            texts,
            Through::OfClass,
            class(c),
            name,
            args,
            token,
        ),
        None => Err(refused(Rule::NotOffered, token)),
    }
}

/// A call on a class.
#[tactic(auto, unfolding(crate::specs::Elaboration::called_on_class))]
pub fn called_on_class(
    alloc: Global,
    table: &ClassTable,
    scope: &Scope,
    texts: &mut Texts,
    of: ClassName,
    name: &str,
    args: Vec<Meaning>,
    token: u32,
) -> Result<Meaning, TypeError>
    ensures { Judged (table_of table.now) (λ j.
        GetsTo meaning_of result texts.new (called_on_class j (table_of table.now) scope.now
        (class_name_of of.entry) name.now (map meaning_of args.items) token texts.old)) }
{
    if is_of_texts(of.name, name) {
        if some_void(args.as_slice()) {
            return Err(refused(Rule::BadOperand, token));
        }
        return Err(refused(Rule::NotInStatic, token));
    }
    if is_library_name(of.name) || of.name == "String" {
        let methods = class_methods(of.name);
        return library_call(alloc, table, texts, methods, None, name, args, token);
    }
    let c = class_by_name(table, of.name);
    called_on_known(alloc, table, scope, texts, c, name, args, token)
}

/// A call on an object.
#[tactic(auto, unfolding(crate::specs::Elaboration::called_on))]
pub fn called_on(
    alloc: Global,
    table: &ClassTable,
    scope: &Scope,
    texts: &mut Texts,
    m: Meaning,
    name: &str,
    args: Vec<Meaning>,
    token: u32,
) -> Result<Meaning, TypeError>
    ensures { Judged (table_of table.now) (λ j.
        GetsTo meaning_of result texts.new (called_on j (table_of table.now) scope.now
        (meaning_of m) name.now (map meaning_of args.items) token texts.old)) }
{
    let ty = type_of(&m);
    if is_void(ty) {
        return Err(refused(Rule::BadOperand, token));
    }
    let object = formed_in(alloc, texts, m)?;
    if is_text(ty) {
        let methods = text_methods();
        return library_call(
            alloc,
            table,
            texts,
            methods,
            Some(object),
            name,
            args,
            token,
        );
    }
    let through = Through::Object(object);
    called(alloc, table, scope, texts, through, ty, name, args, token)
}
