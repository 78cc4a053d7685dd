//! The initializers of final fields, by the numbers of the fields (JLS 8.3.2).
//! Whether one is a constant expression is not decided here.

ghost use Rattle.std.specs.Prelude.{◌≡◌, ◌++◌, IfOk, OnOk, map, option_map};
ghost use Rattle.wy_syntax.specs.View.{declaration_of, declarator_of, expression_of, initial_of, member_of, placed_of};
ghost use Rattle.wy_members.specs.Constants.{expression_in, initializer, initializer_rows, initializers, initializers_among, initializers_in, library_initializers, written_initializers};
ghost use Rattle.wy_members.specs.Initializers.{initializers_seen};

use crate::written_type::has;
use std::alloc::{AllocError, Global};
use wy_syntax::declaration::{Declaration, Member, Modifier, Placed};
use wy_syntax::expression::{Expression, Initial};
use wy_syntax::statement::Declarator;

#[tactic(auto, using(wy_syntax::proofs::ExpressionViews::view_value, wy_syntax::proofs::ExpressionViews::view_listed))]
fn expression_in(initial: &Option<Initial>) -> Option<&Expression>
    ensures { option_map (λ e.
        expression_of e.now) result ≡ expression_in (option_map initial_of initial.now) }
{
    match initial {
        Some(Initial::Value { value }) => Some(value),
        Some(
            Initial::Listed {
                elements: _,
                brace: _,
            },
        ) => None,
        None => None,
    }
}

fn initializer<'a>(modifiers: &[Placed], declarator: &'a Declarator) -> Option<&'a Expression>
    ensures { option_map (λ e. expression_of e.now) result
        ≡ initializer (map placed_of modifiers.now) (declarator_of declarator.now) }
{
    if has(Modifier::Final, modifiers) {
        expression_in(&declarator.initial)
    } else {
        None
    }
}

fn add_declared<'a>(
    found: &mut Vec<Option<&'a Expression>>,
    modifiers: &[Placed],
    declarators: &'a [Declarator],
) -> Result<(), AllocError>
    ensures { OnOk result (initializers_seen found.new.items ≡ initializers_seen found.old.items
        ++ initializer_rows (map placed_of modifiers.now) (map declarator_of declarators.now)) }
{
    let mut left = declarators;
    while let [first, behind @ ..] = left {
        found.push(initializer(modifiers, first))?;
        left = behind;
    }
    Ok(())
}

fn add_member<'a>(
    found: &mut Vec<Option<&'a Expression>>,
    member: &'a Member,
) -> Result<(), AllocError>
    ensures { OnOk result (initializers_seen found.new.items ≡ initializers_seen found.old.items
        ++ initializers_in (member_of member.now)) }
{
    match member {
        Member::Fields {
            modifiers,
            ty: _,
            declarators,
        } => add_declared(found, modifiers.as_slice(), declarators.as_slice()),
        _ => Ok(()),
    }
}

fn add_members<'a>(
    found: &mut Vec<Option<&'a Expression>>,
    members: &'a [Member],
) -> Result<(), AllocError>
    ensures { OnOk result (initializers_seen found.new.items ≡ initializers_seen found.old.items
        ++ initializers_among (map member_of members.now)) }
{
    let mut left = members;
    while let [first, behind @ ..] = left {
        add_member(found, first)?;
        left = behind;
    }
    Ok(())
}

/// The initializer of each field that is final and has one that is an expression.
#[tactic(auto, unfolding(crate::specs::Constants::initializers, wy_kernel::specs::Builtin::fields))]
pub fn initializers(
    alloc: Global,
    unit: &[Declaration],
) -> Result<Vec<Option<&Expression>>, AllocError>
    ensures { IfOk result (λ found.
        initializers_seen found.items ≡ initializers (map declaration_of unit.now)) }
{
    // The library has one field.
    let mut found = vec![in alloc; None]?;
    let mut left = unit;
    while let [first, behind @ ..] = left {
        if let Declaration::Class(class) = first {
            add_members(&mut found, class.members.as_slice())?;
        }
        left = behind;
    }
    Ok(found)
}
