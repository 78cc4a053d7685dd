//! The rows of methods, constructors and units of instance initializers (JLS 8.4, 8.6, 8.8, 9.4).

ghost use Rattle.std.specs.Prelude.{◌≡◌, ◌++◌, IfOk, OnOk, codes, map, option_map};
ghost use Rattle.std.specs.List.{list_any};
ghost use Rattle.wy_kernel.specs.View.{method_of};
ghost use Rattle.wy_syntax.specs.View.{class_of as class_syntax, declaration_of, declarator_of, header_of, member_of, outcome_of};
ghost use Rattle.wy_members.specs.Declarations.{class_by_class, fields_unit, form_of, implied, implied_constructor, initializes_objects, is_constructor, is_given_first, method_in, method_row, methods_in, methods_of, result_type};
ghost use Rattle.wy_members.specs.Known.{members_seen, with_members};
ghost use Rattle.wy_members.specs.Names.{unit_of};

use crate::names::{Names, next_number};
use crate::written_type::{has, parameter_types, result_type};
use std::alloc::{AllocError, Global};
use wy_kernel::builtin::FIRST_SOURCE_CLASS;
use wy_kernel::types::{Method, MethodForm, Ty};
use wy_syntax::declaration::{ClassSyntax, Declaration, Header, Member, Modifier, Outcome};
use wy_syntax::statement::Declarator;

fn method_row(
    alloc: Global,
    names: &Names,
    number: u32,
    class: &ClassSyntax,
    header: &Header,
    name: &str,
    result_type: Ty,
    form: MethodForm,
) -> Result<Method, AllocError>
    ensures { IfOk result (λ row. method_of row ≡ method_row (unit_of names.now) number
        (class_syntax class.now) (header_of header.now) name.now result_type form) }
{
    let modifiers = header.modifiers.as_slice();
    Ok(Method {
        name: name.to_string(alloc)?,
        site: header.name.token,
        class: number,
        params: parameter_types(alloc, names, header.params.as_slice())?,
        result: result_type,
        form,
        is_private: has(Modifier::Private, modifiers),
        is_abstract: class.is_interface || has(Modifier::Abstract, modifiers),
        is_final: has(Modifier::Final, modifiers),
    })
}

fn form_of(header: &Header) -> MethodForm
    ensures { result ≡ form_of (header_of header.now) }
{
    if has(Modifier::Static, header.modifiers.as_slice()) {
        MethodForm::Static
    } else {
        MethodForm::Instance
    }
}

fn row_of_method(
    alloc: Global,
    names: &Names,
    number: u32,
    class: &ClassSyntax,
    header: &Header,
    outcome: &Outcome,
) -> Result<Method, AllocError>
    ensures { IfOk result (λ row.
        method_of row ≡ method_row (unit_of names.now) number (class_syntax class.now)
        (header_of header.now) (header_of header.now).name.name (result_type (unit_of names.now)
        (outcome_of outcome.now)) (form_of (header_of header.now))) }
{
    let name = header.name.name.as_str();
    let gives = result_type(names, outcome)?;
    let form = form_of(header);
    method_row(alloc, names, number, class, header, name, gives, form)
}

fn row_of_constructor(
    alloc: Global,
    names: &Names,
    number: u32,
    class: &ClassSyntax,
    header: &Header,
) -> Result<Method, AllocError>
    ensures { IfOk result (λ row.
        method_of row ≡ method_row (unit_of names.now) number (class_syntax class.now)
        (header_of header.now) (codes "new") Ty.Void MethodForm.Constructor) }
{
    let form = MethodForm::Constructor;
    method_row(alloc, names, number, class, header, "new", Ty::Void, form)
}

// The row of the method or the constructor that a member is.
fn row_of_member(
    alloc: Global,
    names: &Names,
    number: u32,
    class: &ClassSyntax,
    member: &Member,
) -> Result<Option<Method>, AllocError>
    ensures { IfOk result (λ row. option_map method_of row ≡ method_in (unit_of names.now) number
        (class_syntax class.now) (member_of member.now)) }
{
    match member {
        Member::Method {
            header,
            result: outcome,
            body: _,
        } => Ok(Some(row_of_method(alloc, names, number, class, header, outcome)?)),
        Member::Constructor {
            header,
            own_call: _,
            brace: _,
            parts: _,
            end: _,
        } => Ok(Some(row_of_constructor(alloc, names, number, class, header)?)),
        _ => Ok(None),
    }
}

fn add_declared(
    rows: &mut Vec<Method>,
    alloc: Global,
    names: &Names,
    number: u32,
    class: &ClassSyntax,
    members: &[&Member],
) -> Result<(), AllocError>
    ensures { OnOk result (map method_of rows.new.items ≡ map method_of rows.old.items ++ methods_in
        (unit_of names.now) number (class_syntax class.now) (members_seen members.now)) }
{
    let mut left = members;
    while let [first, behind @ ..] = left {
        if let Some(row) = row_of_member(alloc, names, number, class, first)? {
            rows.push(row)?;
        }
        left = behind;
    }
    Ok(())
}

fn implied(
    alloc: Global,
    number: u32,
    class: &ClassSyntax,
    name: &str,
    form: MethodForm,
) -> Result<Method, AllocError>
    ensures { IfOk result (λ row.
        method_of row ≡ implied number (class_syntax class.now) name.now form) }
{
    Ok(Method {
        name: name.to_string(alloc)?,
        site: class.name.token,
        class: number,
        params: Vec::new(alloc),
        result: Ty::Void,
        form,
        is_private: false,
        is_abstract: false,
        is_final: false,
    })
}

fn some_is_given_first(declarators: &[Declarator]) -> bool
    ensures { result ≡ list_any is_given_first (map declarator_of declarators.now) }
{
    let mut left = declarators;
    while let [first, behind @ ..] = left {
        if first.initial.is_some() {
            return true;
        }
        left = behind;
    }
    false
}

/// Whether a member gives the instances of its class something first.
pub fn initializes_objects(member: &Member) -> bool
    ensures { result ≡ initializes_objects (member_of member.now) }
{
    match member {
        Member::Initializer {
            is_static,
            block: _,
        } => !*is_static,
        Member::Fields {
            modifiers,
            ty: _,
            declarators,
        } => {
            !has(Modifier::Static, modifiers.as_slice())
                && some_is_given_first(declarators.as_slice())
        }
        _ => false,
    }
}

fn some_initializes_objects(members: &[&Member]) -> bool
    ensures { result ≡ list_any initializes_objects (members_seen members.now) }
{
    let mut left = members;
    while let [first, behind @ ..] = left {
        if initializes_objects(first) {
            return true;
        }
        left = behind;
    }
    false
}

/// Whether a member is a constructor.
pub fn is_constructor(member: &Member) -> bool
    ensures { result ≡ is_constructor (member_of member.now) }
{
    match member {
        Member::Constructor {
            header: _,
            own_call: _,
            brace: _,
            parts: _,
            end: _,
        } => true,
        _ => false,
    }
}

fn some_is_constructor(members: &[&Member]) -> bool
    ensures { result ≡ list_any is_constructor (members_seen members.now) }
{
    let mut left = members;
    while let [first, behind @ ..] = left {
        if is_constructor(first) {
            return true;
        }
        left = behind;
    }
    false
}

fn add_fields_unit(
    rows: &mut Vec<Method>,
    alloc: Global,
    number: u32,
    class: &ClassSyntax,
    members: &[&Member],
) -> Result<(), AllocError>
    ensures { OnOk result (map method_of rows.new.items ≡ map method_of rows.old.items
        ++ fields_unit number (with_members (class_syntax class.now) (members_seen members.now))) }
{
    if some_initializes_objects(members) {
        rows.push(implied(alloc, number, class, "<fields>", MethodForm::Fields)?)?;
    }
    Ok(())
}

fn add_implied_constructor(
    rows: &mut Vec<Method>,
    alloc: Global,
    number: u32,
    class: &ClassSyntax,
    members: &[&Member],
) -> Result<(), AllocError>
    ensures { OnOk result
        (map method_of rows.new.items ≡ map method_of rows.old.items ++ implied_constructor number
        (with_members (class_syntax class.now) (members_seen members.now))) }
{
    if !(class.is_interface || some_is_constructor(members)) {
        rows.push(implied(alloc, number, class, "new", MethodForm::Constructor)?)?;
    }
    Ok(())
}

/// Adds the rows of the methods that a class with these members declares or implies.
pub fn add_methods_of(
    rows: &mut Vec<Method>,
    alloc: Global,
    names: &Names,
    number: u32,
    class: &ClassSyntax,
    members: &[&Member],
) -> Result<(), AllocError>
    ensures { OnOk result (map method_of rows.new.items ≡ map method_of rows.old.items
        ++ methods_of (unit_of names.now) number
        (with_members (class_syntax class.now) (members_seen members.now))) }
{
    add_fields_unit(rows, alloc, number, class, members)?;
    add_implied_constructor(rows, alloc, number, class, members)?;
    add_declared(rows, alloc, names, number, class, members)
}

fn members_of(alloc: Global, class: &ClassSyntax) -> Result<Vec<&Member>, AllocError>
    ensures { IfOk result (λ members.
        members_seen members.items ≡ map member_of class.now.members.items) }
{
    let mut members = Vec::new(alloc);
    let mut left = class.members.as_slice();
    while let [first, behind @ ..] = left {
        members.push(first)?;
        left = behind;
    }
    Ok(members)
}

/// Adds the rows of the methods that a program declares or implies, class by class.
pub fn add_methods(rows: &mut Vec<Method>, alloc: Global, names: &Names) -> Result<(), AllocError>
    ensures { OnOk result (map method_of rows.new.items ≡ map method_of rows.old.items
        ++ class_by_class (methods_of (unit_of names.now)) (unit_of names.now)) }
{
    let mut number = FIRST_SOURCE_CLASS;
    let mut left = names.unit;
    while let [first, behind @ ..] = left {
        if let Declaration::Class(class) = first {
            let members = members_of(alloc, class)?;
            add_methods_of(rows, alloc, names, number, class, members.as_slice())?;
            number = next_number(number)?;
        }
        left = behind;
    }
    Ok(())
}
