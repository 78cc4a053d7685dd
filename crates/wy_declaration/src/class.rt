//! Classes and interfaces (JLS 8.1, 9.1).

ghost use Rattle.std.specs.Prelude.{◌≡◌, [], IfOk, MatchOption, map, option_map};
ghost use Rattle.wy_syntax.specs.Declarations.{behind_brace, class_behind, implemented_in, interface_behind, members_in, methods_in, superclass_in};
ghost use Rattle.wy_syntax.specs.View.{declaration_of, member_of, named_of, placed_of};
ghost use Rattle.wy_declaration.specs.Methods.{MethodFirst};
ghost use Rattle.wy_declaration.specs.Parts.{parts_of};

use crate::member::{member, method_in};
use crate::names::names_behind;
use crate::part::Parts;
use std::alloc::{AllocError, Global};
use wy_syntax::declaration::{ClassSyntax, Declaration, Member, Placed};
use wy_syntax::name::Named;
use wy_syntax::part::{is_leaf, named};
use wy_tree::kind::Kind;

// The members of a class up to the last part, which is `}`.
fn members(alloc: Global, parts: Parts) -> Result<Vec<Member>, AllocError>
    ensures { IfOk result (λ found. map member_of found.items ≡ members_in (parts_of parts.entry)) }
{
    let mut found = Vec::new(alloc);
    let mut left = parts;
    while let Some((part, behind)) = left.split() {
        let Some(_) = behind.split() else {
            return Ok(found);
        };
        found.push(member(alloc, part)?)?;
        left = behind;
    }
    Ok(found)
}

// The parts before the first `;`, and those behind it.
fn front_method(parts: Parts<'_>) -> Option<(Parts<'_>, Parts<'_>)>
    ensures { MatchOption result (methods_in [] (parts_of parts.entry) ≡ []) (λ r.
        MethodFirst parts.entry r.0 r.1) }
{
    let mut left = parts;
    while let Some((part, behind)) = left.split() {
        let Some(_) = behind.split() else {
            return None;
        };
        if is_leaf(part.tree, Kind::Semicolon) {
            return Some((parts.front(left), behind));
        }
        left = behind;
    }
    None
}

// The methods of an interface up to the last part, which is `}`: one a `;`.
fn methods(alloc: Global, parts: Parts) -> Result<Vec<Member>, AllocError>
    ensures { IfOk result (λ found.
        map member_of found.items ≡ methods_in [] (parts_of parts.entry)) }
{
    let mut found = Vec::new(alloc);
    let mut left = parts;
    while let Some((method, behind)) = front_method(left) {
        found.push(method_in(alloc, method)?)?;
        left = behind;
    }
    Ok(found)
}

// What stands behind the first `{`.
fn behind_brace(parts: Parts<'_>) -> Parts<'_>
    ensures { parts_of result ≡ behind_brace (parts_of parts.entry) }
{
    let mut left = parts;
    while let Some((part, behind)) = left.split() {
        left = behind;
        if is_leaf(part.tree, Kind::OpenBrace) {
            return left;
        }
    }
    left
}

// The name behind `extends` in front.
fn superclass(alloc: Global, parts: Parts) -> Result<Option<Named>, AllocError>
    ensures { IfOk result (λ above.
        option_map named_of above ≡ superclass_in (parts_of parts.entry)) }
{
    let Some((word, behind)) = parts.split() else {
        return Ok(None);
    };
    let Some((name, _)) = behind.split() else {
        return Ok(None);
    };
    if !is_leaf(word.tree, Kind::Extends) {
        return Ok(None);
    }
    let name = named(alloc, name.tree, name.at)?;
    Ok(Some(name))
}

// The names behind `implements` before the `{`.
fn implemented(alloc: Global, parts: Parts) -> Result<Vec<Named>, AllocError>
    ensures { IfOk result (λ found.
        map named_of found.items ≡ implemented_in (parts_of parts.entry)) }
{
    let mut left = parts;
    while let Some((part, behind)) = left.split() {
        if is_leaf(part.tree, Kind::OpenBrace) {
            return Ok(Vec::new(alloc));
        }
        if is_leaf(part.tree, Kind::Implements) {
            return names_behind(alloc, left);
        }
        left = behind;
    }
    Ok(Vec::new(alloc))
}

/// A class from the word `class` on.
pub fn class(
    alloc: Global,
    modifiers: Vec<Placed>,
    parts: Parts,
    end: u32,
) -> Result<Declaration, AllocError>
    ensures { IfOk result (λ d. declaration_of d ≡ class_behind (map placed_of modifiers.items) end
        (parts_of parts.entry)) }
{
    let Some((_word, behind)) = parts.split() else {
        return Ok(Declaration::Wrong);
    };
    let Some((name, behind)) = behind.split() else {
        return Ok(Declaration::Wrong);
    };
    let name = named(alloc, name.tree, name.at)?;
    let above = superclass(alloc, behind)?;
    let interfaces = implemented(alloc, behind)?;
    let members = members(alloc, behind_brace(behind))?;
    Ok(Declaration::Class(ClassSyntax {
        is_interface: false,
        modifiers,
        name,
        above,
        interfaces,
        members,
        end,
    }))
}

/// An interface from the word `interface` on.
pub fn interface(
    alloc: Global,
    modifiers: Vec<Placed>,
    parts: Parts,
    end: u32,
) -> Result<Declaration, AllocError>
    ensures { IfOk result (λ d. declaration_of d
        ≡ interface_behind (map placed_of modifiers.items) end (parts_of parts.entry)) }
{
    let Some((_word, behind)) = parts.split() else {
        return Ok(Declaration::Wrong);
    };
    let Some((name, behind)) = behind.split() else {
        return Ok(Declaration::Wrong);
    };
    let name = named(alloc, name.tree, name.at)?;
    let interfaces = names_behind(alloc, behind)?;
    let members = methods(alloc, behind_brace(behind))?;
    Ok(Declaration::Class(ClassSyntax {
        is_interface: true,
        modifiers,
        name,
        above: None,
        interfaces,
        members,
        end,
    }))
}
