//! The methods of the members whose types are known: the others are compared with none.
//! That a type is unknown is refused elsewhere.

ghost use Rattle.std.specs.Prelude.{◌≡◌, ◌<◌, ◌++◌, IfOk, OnOk, filter, length, map};
ghost use Rattle.std.specs.List.{list_all};
ghost use Rattle.wy_kernel.specs.Builtin.{no_site};
ghost use Rattle.wy_kernel.specs.View.{method_of};
ghost use Rattle.wy_syntax.specs.View.{class_of, member_of, outcome_of, parameter_of, type_seen};
ghost use Rattle.wy_syntax.specs.Syntax.{Parameter as PlainParameter};
ghost use Rattle.wy_members.specs.Broken.{is_known, known_part};
ghost use Rattle.wy_members.specs.Declarations.{class_by_class, methods_of, table};
ghost use Rattle.wy_members.specs.Known.{is_known_result, is_known_type, members_seen};
ghost use Rattle.wy_members.specs.Names.{unit_of};

use crate::method_row::add_methods_of;
use crate::names::{Names, next_number};
use std::alloc::{AllocError, Global};
use wy_kernel::builtin;
use wy_kernel::builtin::FIRST_SOURCE_CLASS;
use wy_kernel::types::{Method, NONE};
use wy_syntax::declaration::{ClassSyntax, Declaration, Member, Outcome, Parameter};
use wy_syntax::name::{WrittenBase, WrittenType};

/// The methods of a program without the members of unknown types, those of the library first.
pub fn known_methods(alloc: Global, names: &Names) -> Result<Vec<Method>, AllocError>
    ensures value { IfOk result (λ methods.
        map method_of methods.items ≡ (table (known_part (unit_of names.now))).methods) }
    ensures few { IfOk result (λ methods. length methods.items < no_site) }
{
    let mut methods = builtin::methods(alloc)?;
    add_known_methods(&mut methods, alloc, names)?;
    if methods.len() < NONE as usize {
        Ok(methods)
    } else {
        Err(AllocError)
    }
}

fn add_known_methods(rows: &mut Vec<Method>, alloc: Global, names: &Names) -> Result<(), AllocError>
    ensures { OnOk result (map method_of rows.new.items ≡ map method_of rows.old.items
        ++ class_by_class (methods_of (unit_of names.now)) (known_part (unit_of names.now))) }
{
    let mut number = FIRST_SOURCE_CLASS;
    let mut left = names.unit;
    while let [first, behind @ ..] = left {
        if let Declaration::Class(class) = first {
            let members = known_members(alloc, names, class)?;
            add_methods_of(rows, alloc, names, number, class, members.as_slice())?;
            number = next_number(number)?;
        }
        left = behind;
    }
    Ok(())
}

fn known_members<'a>(
    alloc: Global,
    names: &Names,
    class: &'a ClassSyntax,
) -> Result<Vec<&'a Member>, AllocError>
    ensures { IfOk result (λ members. members_seen members.items
        ≡ filter (is_known (unit_of names.now)) (map member_of class.now.members.items)) }
{
    let mut members = Vec::new(alloc);
    let mut left = class.members.as_slice();
    while let [first, behind @ ..] = left {
        if is_known(names, first) {
            members.push(first)?;
        }
        left = behind;
    }
    Ok(members)
}

fn is_known(names: &Names, member: &Member) -> bool
    ensures { result ≡ is_known (unit_of names.now) (member_of member.now) }
{
    match member {
        Member::Fields { ty, .. } => is_known_type(names, ty),
        Member::Method { header, result, .. } => {
            is_known_result(names, result) && are_known(names, header.params.as_slice())
        }
        Member::Constructor { header, .. } => are_known(names, header.params.as_slice()),
        Member::Nothing => true,
        Member::Initializer { .. } => true,
        Member::Wrong => true,
    }
}

fn is_known_result(names: &Names, outcome: &Outcome) -> bool
    ensures { result ≡ is_known_result (unit_of names.now) (outcome_of outcome.now) }
{
    match outcome {
        Outcome::Value(ty) => is_known_type(names, ty),
        Outcome::Nothing => true,
    }
}

fn are_known(names: &Names, params: &[Parameter]) -> bool
    ensures { result ≡ list_all (λ (p : PlainParameter).
        is_known_type (unit_of names.now) p.ty) (map parameter_of params.now) }
{
    let mut left = params;
    while let [first, behind @ ..] = left {
        if !is_known_type(names, &first.ty) {
            return false;
        }
        left = behind;
    }
    true
}

fn is_known_type(names: &Names, ty: &WrittenType) -> bool
    ensures { result ≡ is_known_type (unit_of names.now) (type_seen ty.now) }
{
    match &ty.base {
        WrittenBase::Class(name) => names.denoted(name.as_str()).is_some(),
        WrittenBase::Primitive(_) => true,
    }
}
