//! The rows of fields (JLS 8.3).

ghost use Rattle.std.specs.Prelude.{◌≡◌, ◌++◌, IfOk, OnOk, map};
ghost use Rattle.wy_kernel.specs.View.{field_of};
ghost use Rattle.wy_syntax.specs.View.{class_of as class_syntax, declarator_of, member_of, placed_of, type_seen};
ghost use Rattle.wy_members.specs.Declarations.{class_by_class, field_row, field_rows, fields_among, fields_in, fields_of};
ghost use Rattle.wy_members.specs.Names.{unit_of};

use crate::names::{Names, next_number};
use crate::written_type::{has, type_with};
use std::alloc::{AllocError, Global};
use wy_kernel::builtin::FIRST_SOURCE_CLASS;
use wy_kernel::types::Field;
use wy_syntax::declaration::{Declaration, Member, Modifier, Placed};
use wy_syntax::name::WrittenType;
use wy_syntax::statement::Declarator;

fn field_row(
    names: &Names,
    number: u32,
    modifiers: &[Placed],
    ty: &WrittenType,
    declarator: &Declarator,
) -> Result<Field, AllocError>
    ensures { IfOk result (λ row. field_of row ≡ field_row (unit_of names.now) number
        (map placed_of modifiers.now) (type_seen ty.now) (declarator_of declarator.now)) }
{
    let is_final = has(Modifier::Final, modifiers);
    Ok(Field {
        name: declarator.name.name.clone()?,
        site: declarator.name.token,
        class: number,
        ty: type_with(names, ty, declarator.brackets)?,
        is_static: has(Modifier::Static, modifiers),
        is_final,
        is_fixed: is_final && declarator.initial.is_some(),
        is_private: has(Modifier::Private, modifiers),
    })
}

fn add_declared(
    rows: &mut Vec<Field>,
    names: &Names,
    number: u32,
    modifiers: &[Placed],
    ty: &WrittenType,
    declarators: &[Declarator],
) -> Result<(), AllocError>
    ensures { OnOk result (map field_of rows.new.items ≡ map field_of rows.old.items
        ++ field_rows (unit_of names.now) number (map placed_of modifiers.now) (type_seen ty.now)
        (map declarator_of declarators.now)) }
{
    let mut left = declarators;
    while let [first, behind @ ..] = left {
        rows.push(field_row(names, number, modifiers, ty, first)?)?;
        left = behind;
    }
    Ok(())
}

fn add_member(
    rows: &mut Vec<Field>,
    names: &Names,
    number: u32,
    member: &Member,
) -> Result<(), AllocError>
    ensures { OnOk result (map field_of rows.new.items ≡ map field_of rows.old.items
        ++ fields_in (unit_of names.now) number (member_of member.now)) }
{
    match member {
        Member::Fields {
            modifiers,
            ty,
            declarators,
        } => add_declared(
            rows,
            names,
            number,
            modifiers.as_slice(),
            ty,
            declarators.as_slice(),
        ),
        _ => Ok(()),
    }
}

fn add_members(
    rows: &mut Vec<Field>,
    names: &Names,
    number: u32,
    members: &[Member],
) -> Result<(), AllocError>
    ensures { OnOk result (map field_of rows.new.items ≡ map field_of rows.old.items
        ++ fields_among (unit_of names.now) number (map member_of members.now)) }
{
    let mut left = members;
    while let [first, behind @ ..] = left {
        add_member(rows, names, number, first)?;
        left = behind;
    }
    Ok(())
}

/// Adds the rows of the fields that a program declares, class by class.
pub fn add_fields(rows: &mut Vec<Field>, names: &Names) -> Result<(), AllocError>
    ensures { OnOk result (map field_of rows.new.items ≡ map field_of rows.old.items
        ++ class_by_class (fields_of (unit_of names.now)) (unit_of names.now)) }
{
    let mut number = FIRST_SOURCE_CLASS;
    let mut left = names.unit;
    while let [first, behind @ ..] = left {
        if let Declaration::Class(class) = first {
            add_members(rows, names, number, class.members.as_slice())?;
            number = next_number(number)?;
        }
        left = behind;
    }
    Ok(())
}
