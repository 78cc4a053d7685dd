//! Members of classes and interfaces (JLS 8.2, 8.3, 8.4, 8.6, 8.7, 9.4).

ghost use Rattle.std.specs.Prelude.{◌≡◌, Bool, IfOk, MatchOption, map, option_map, true};
ghost use Rattle.wy_tree.specs.Ast.{view};
ghost use Rattle.wy_syntax.specs.Declarations.{behind_modifiers, behind_throws, body_of, member_behind, member_in, member_seen, method_in, modifiers_of, result_of, type_at};
ghost use Rattle.wy_syntax.specs.Statements.{block, declarators};
ghost use Rattle.wy_syntax.specs.Syntax as plain;
ghost use Rattle.wy_syntax.specs.View.{block_of, header_of, member_of, outcome_of, placed_of};
ghost use Rattle.wy_declaration.specs.Parts.{part_of, parts_of};

use crate::constructor::constructor;
use crate::header::{behind_throws, header};
use crate::modifier::{behind_modifiers, modifiers};
use crate::part::{Part, Parts};
use crate::shape::{is_block, is_params};
use std::alloc::{AllocError, Global};
use wy_syntax::declaration::{Header, Member, Outcome, Placed};
use wy_syntax::lower::statement::block;
use wy_syntax::lower::variable::declarators;
use wy_syntax::part::{is_leaf, written};
use wy_syntax::statement::Block;
use wy_tree::kind::Kind;
use wy_tree::tree::Form;

// What a method gives, by the part before its name.
fn outcome(alloc: Global, part: Part) -> Result<Outcome, AllocError>
    ensures { IfOk result (λ o. outcome_of o ≡ result_of (part_of part.entry)) }
{
    if is_leaf(part.tree, Kind::Void) {
        return Ok(Outcome::Nothing);
    }
    let ty = written(alloc, part.tree, part.at)?;
    Ok(Outcome::Value(ty))
}

// The body of a method: a block that nothing follows.
fn body(alloc: Global, parts: Parts) -> Result<Option<Block>, AllocError>
    ensures { IfOk result (λ b. option_map block_of b ≡ body_of (parts_of parts.entry)) }
{
    let Some((part, behind)) = parts.split() else {
        return Ok(None);
    };
    if let Some(_) = behind.split() {
        return Ok(None);
    }
    if !is_block(part.tree) {
        return Ok(None);
    }
    let block = block(alloc, part.tree, part.at)?;
    Ok(Some(block))
}

// A method by its header, the part before its name and what stands behind its parameters.
fn method(alloc: Global, header: Header, front: Part, behind: Parts) -> Result<Member, AllocError>
    ensures { IfOk result (λ m. member_of m ≡ plain.Method (header_of header)
        (result_of (part_of front.entry)) (body_of (behind_throws (parts_of behind.entry)))) }
{
    let result = outcome(alloc, front)?;
    let body = body(alloc, behind_throws(behind))?;
    Ok(Member::Method {
        header,
        result,
        body,
    })
}

// A type and what is declared of it.
fn fields(
    alloc: Global,
    modifiers: Vec<Placed>,
    ty: Part,
    variables: Part,
) -> Result<Member, AllocError>
    ensures { IfOk result (λ m. member_of m ≡ plain.Fields (map placed_of modifiers.items) (type_at
        (part_of ty.entry)) (declarators variables.entry.at (view variables.entry.tree.now))) }
{
    let ty = written(alloc, ty.tree, ty.at)?;
    let declarators = declarators(alloc, variables.tree, variables.at)?;
    Ok(Member::Fields {
        modifiers,
        ty,
        declarators,
    })
}

// A constructor, a method or fields, behind the modifiers.
fn member_behind(alloc: Global, modifiers: Vec<Placed>, parts: Parts) -> Result<Member, AllocError>
    ensures { IfOk result (λ m.
        member_of m ≡ member_behind (map placed_of modifiers.items) (parts_of parts.entry)) }
{
    let Some((front, behind)) = parts.split() else {
        return Ok(Member::Wrong);
    };
    let Some((middle, further)) = behind.split() else {
        return Ok(Member::Wrong);
    };
    let Some((last, rest)) = further.split() else {
        return Ok(Member::Wrong);
    };
    if is_params(middle.tree) {
        let header = header(alloc, modifiers, front, middle, further)?;
        return constructor(alloc, header, behind_throws(further));
    }
    if is_params(last.tree) {
        let header = header(alloc, modifiers, middle, last, rest)?;
        return method(alloc, header, front, rest);
    }
    fields(alloc, modifiers, front, middle)
}

// An initializer by its block.
fn initializer(alloc: Global, is_static: bool, part: Part) -> Result<Member, AllocError>
    ensures { IfOk result (λ m. member_of m ≡ plain.Initializer is_static
        (block part.entry.at (view part.entry.tree.now))) }
{
    let block = block(alloc, part.tree, part.at)?;
    Ok(Member::Initializer { is_static, block })
}

// The block of an initializer with a word in front.
fn static_block(parts: Parts<'_>) -> Option<Part<'_>>
    ensures { MatchOption result
        (member_in (parts_of parts.entry) ≡ member_behind (modifiers_of (parts_of parts.entry))
        (behind_modifiers (parts_of parts.entry)))
        (λ p.
        member_in (parts_of parts.entry) ≡ plain.Initializer true (block p.at (view p.tree.now))) }
{
    let (_word, behind) = parts.split()?;
    let (part, rest) = behind.split()?;
    if let Some(_) = rest.split() {
        return None;
    }
    if is_block(part.tree) {
        Some(part)
    } else {
        None
    }
}

// A member by its parts.
fn member_in(alloc: Global, parts: Parts) -> Result<Member, AllocError>
    ensures { IfOk result (λ m. member_of m ≡ member_in (parts_of parts.entry)) }
{
    if let Some(part) = static_block(parts) {
        return initializer(alloc, true, part);
    }
    let modifiers = modifiers(alloc, parts)?;
    member_behind(alloc, modifiers, behind_modifiers(parts))
}

/// A member of a class.
pub fn member(alloc: Global, part: Part) -> Result<Member, AllocError>
    ensures { IfOk result (λ m.
        member_of m ≡ member_seen part.entry.at (view part.entry.tree.now)) }
{
    if is_block(part.tree) {
        return initializer(alloc, false, part);
    }
    if let Some(parts) = part.parts(Form::Member) {
        return member_in(alloc, parts);
    }
    if is_leaf(part.tree, Kind::Semicolon) {
        Ok(Member::Nothing)
    } else {
        Ok(Member::Wrong)
    }
}

/// A method of an interface by the parts before its `;`, or nothing.
pub fn method_in(alloc: Global, parts: Parts) -> Result<Member, AllocError>
    ensures { IfOk result (λ m. member_of m ≡ method_in (parts_of parts.entry)) }
{
    let Some(_) = parts.split() else {
        return Ok(Member::Nothing);
    };
    let modifiers = modifiers(alloc, parts)?;
    member_behind(alloc, modifiers, behind_modifiers(parts))
}
