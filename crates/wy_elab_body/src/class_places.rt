//! The places of the statements of a class, those that are implied among them (JLS 8.3.2, 8.6, 8.7, 8.8.7).

ghost use Rattle.std.specs.Prelude.{◌≡◌, ◌++◌, IfOk, OnOk, Some, map, flat_map, option_map};
ghost use Rattle.wy_elab_body.specs.Places.{calls_superclass, class_places, declares_constructor, first_calls, has_fields_unit, implied_calls, implied_constructor_places, initialized_places, is_object, member_places, place_if, places_of};
ghost use Rattle.wy_table.specs.ClassTable.{table_of};
ghost use Rattle.wy_syntax.specs.View.{class_of, declaration_of, declarator_of, member_of, own_call_of};

use crate::place::{Place, Role};
use crate::places::{put, put_block, put_statements, put_written};
use std::alloc::{AllocError, Global};
use wy_constant::class_above;
use wy_kernel::builtin::FIRST_SOURCE_CLASS;
use wy_members::{initializes_objects, is_constructor};
use wy_syntax::declaration::{ClassSyntax, Declaration, Member, OwnCall};
use wy_syntax::statement::Declarator;
use wy_table::table::ClassTable;

/// Whether the constructors of a class call one of its superclass, which Object has none of.
#[tactic(auto, unfolding(crate::specs::Places::calls_superclass))]
pub fn calls_superclass(table: &ClassTable, class: u32) -> bool
    ensures { result ≡ calls_superclass (table_of table.now) class }
{
    match class_above(table, class) {
        Some(above) => above != 0,
        None => false,
    }
}

/// Whether a class has instance initializers.
pub fn has_fields_unit(class: &ClassSyntax) -> bool
    ensures { result ≡ has_fields_unit (class_of class.now) }
{
    let mut left = class.members.as_slice();
    while let [first, behind @ ..] = left {
        if initializes_objects(first) {
            return true;
        }
        left = behind;
    }
    false
}

/// Whether a class declares a constructor.
pub fn declares_constructor(class: &ClassSyntax) -> bool
    ensures { result ≡ declares_constructor (class_of class.now) }
{
    let mut left = class.members.as_slice();
    while let [first, behind @ ..] = left {
        if is_constructor(first) {
            return true;
        }
        left = behind;
    }
    false
}

fn put_if(all: &mut Vec<Place>, is_there: bool, site: u32, role: Role) -> Result<(), AllocError>
    ensures { OnOk result (all.new.items ≡ all.old.items ++ place_if is_there site role) }
{
    if is_there {
        put(all, site, role)?;
    }
    Ok(())
}

#[tactic(auto, using(std::proofs::Common::append_assoc))]
fn put_implied_calls(
    all: &mut Vec<Place>,
    table: &ClassTable,
    number: u32,
    class: &ClassSyntax,
    site: u32,
) -> Result<(), AllocError>
    ensures { OnOk result (all.new.items ≡ all.old.items
        ++ implied_calls (table_of table.now) number (class_of class.now) site) }
{
    put_if(all, calls_superclass(table, number), site, Role::SuperCall)?;
    put_if(all, has_fields_unit(class), site, Role::FieldsCall)
}

#[tactic(auto, using(std::proofs::Common::append_assoc))]
fn put_own_call(
    all: &mut Vec<Place>,
    table: &ClassTable,
    number: u32,
    class: &ClassSyntax,
    site: u32,
    call: &OwnCall,
) -> Result<(), AllocError>
    ensures { OnOk result (all.new.items ≡ all.old.items ++ first_calls (table_of table.now) number
        (class_of class.now) site (Some (own_call_of call.now))) }
{
    if call.is_super {
        put_if(
            all,
            calls_superclass(table, number),
            call.token,
            Role::Written,
        )?;
        put_if(all, has_fields_unit(class), site, Role::FieldsCall)
    } else {
        put_written(all, call.token)
    }
}

fn put_first_calls(
    all: &mut Vec<Place>,
    table: &ClassTable,
    number: u32,
    class: &ClassSyntax,
    site: u32,
    own_call: &Option<OwnCall>,
) -> Result<(), AllocError>
    ensures { OnOk result (all.new.items ≡ all.old.items ++ first_calls (table_of table.now) number
        (class_of class.now) site (option_map own_call_of own_call.now)) }
{
    match own_call {
        Some(call) => put_own_call(all, table, number, class, site, call),
        None => put_implied_calls(all, table, number, class, site),
    }
}

fn put_initialized(all: &mut Vec<Place>, declarators: &[Declarator]) -> Result<(), AllocError>
    ensures { OnOk result
        (all.new.items ≡ all.old.items ++ initialized_places (map declarator_of declarators.now)) }
{
    let mut left = declarators;
    while let [first, behind @ ..] = left {
        if first.initial.is_some() {
            put_written(all, first.name.token)?;
        }
        left = behind;
    }
    Ok(())
}

#[tactic(auto, unfolding(crate::specs::Places::member_places), using(std::proofs::Common::append_assoc, crate::proofs::PlaceArms::behind_nothing))]
fn put_member(
    all: &mut Vec<Place>,
    table: &ClassTable,
    number: u32,
    class: &ClassSyntax,
    member: &Member,
) -> Result<(), AllocError>
    ensures { OnOk result (all.new.items ≡ all.old.items
        ++ member_places (table_of table.now) number (class_of class.now) (member_of member.now)) }
{
    match member {
        Member::Initializer {
            is_static: _,
            block,
        } => put_block(all, block),
        Member::Fields {
            modifiers: _,
            ty: _,
            declarators,
        } => put_initialized(all, declarators.as_slice()),
        Member::Method {
            header: _,
            result: _,
            body,
        } => match body {
            Some(block) => put_block(all, block),
            None => Ok(()),
        },
        Member::Constructor {
            header,
            own_call,
            brace,
            parts,
            end: _,
        } => {
            put_first_calls(all, table, number, class, header.name.token, own_call)?;
            put_written(all, *brace)?;
            put_statements(all, parts.as_slice())
        }
        Member::Nothing => Ok(()),
        Member::Wrong => Ok(()),
    }
}

fn put_members(
    all: &mut Vec<Place>,
    table: &ClassTable,
    number: u32,
    class: &ClassSyntax,
) -> Result<(), AllocError>
    ensures { OnOk result (all.new.items ≡ all.old.items ++ flat_map (member_places
        (table_of table.now) number (class_of class.now)) (map member_of class.now.members.items)) }
{
    let mut left = class.members.as_slice();
    while let [first, behind @ ..] = left {
        put_member(all, table, number, class, first)?;
        left = behind;
    }
    Ok(())
}

#[tactic(auto, using(std::proofs::Common::append_assoc, crate::proofs::PlaceArms::behind_nothing))]
fn put_implied_constructor(
    all: &mut Vec<Place>,
    table: &ClassTable,
    number: u32,
    class: &ClassSyntax,
) -> Result<(), AllocError>
    ensures { OnOk result (all.new.items ≡ all.old.items
        ++ implied_constructor_places (table_of table.now) number (class_of class.now)) }
{
    if declares_constructor(class) {
        return Ok(());
    }
    put(all, class.name.token, Role::ConstructorBody)?;
    put_implied_calls(all, table, number, class, class.name.token)
}

#[tactic(auto, unfolding(crate::specs::Places::class_places), using(crate::proofs::PlaceArms::four_more, crate::proofs::PlaceArms::behind_nothing))]
fn put_class(
    all: &mut Vec<Place>,
    table: &ClassTable,
    number: u32,
    class: &ClassSyntax,
) -> Result<(), AllocError>
    ensures { OnOk result (all.new.items ≡ all.old.items
        ++ class_places (table_of table.now) number (class_of class.now)) }
{
    if class.is_interface {
        return Ok(());
    }
    let site = class.name.token;
    put(all, site, Role::InitializerBody)?;
    put_if(all, has_fields_unit(class), site, Role::FieldsBody)?;
    put_implied_constructor(all, table, number, class)?;
    put_members(all, table, number, class)
}

/// The places of all statements of a program.
pub fn places_of(
    alloc: Global,
    table: &ClassTable,
    unit: &[Declaration],
) -> Result<Vec<Place>, AllocError>
    ensures { IfOk result (λ all.
        all.items ≡ places_of (table_of table.now) (map declaration_of unit.now)) }
{
    let mut all = Vec::new(alloc);
    let mut number = FIRST_SOURCE_CLASS;
    let mut left = unit;
    while let [first, behind @ ..] = left {
        if let Declaration::Class(class) = first {
            put_class(&mut all, table, number, class)?;
            if number == 4294967295 {
                return Err(AllocError);
            }
            number += 1;
        }
        left = behind;
    }
    Ok(all)
}
