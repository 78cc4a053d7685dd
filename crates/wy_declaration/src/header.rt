//! What stands before the body of a method or a constructor (JLS 8.4.1, 8.4.6).

ghost use Rattle.std.specs.Prelude.{◌≡◌, IfOk, map};
ghost use Rattle.wy_tree.specs.Ast.{none, view, views};
ghost use Rattle.wy_syntax.specs.Declarations.{behind_throws, header, parameter, parameter_in, parameter_of, parameters, parameters_of, throws_in, throws_of};
ghost use Rattle.wy_syntax.specs.View.{header_of, named_of, parameter_of as parameter_seen, placed_of};
ghost use Rattle.wy_declaration.specs.Parts.{part_of, parts_of};

use crate::names::names_behind;
use crate::part::{Part, Parts};
use std::alloc::{AllocError, Global};
use wy_syntax::declaration::{Header, Parameter, Placed};
use wy_syntax::name::{Named, WrittenBase, WrittenType};
use wy_syntax::part::{is_leaf, named, pairs, written};
use wy_tree::kind::Kind;
use wy_tree::tree::{Form, Tree};

// A parameter without a type and a name.
fn lacking(alloc: Global, is_final: bool, at: u32) -> Parameter
    ensures { parameter_seen result ≡ parameter_of is_final at none }
{
    Parameter {
        is_final,
        ty: WrittenType {
            base: WrittenBase::Class(String::new(alloc)),
            token: at,
            brackets: 0,
        },
        name: Named {
            name: String::new(alloc),
            token: at,
        },
        brackets: 0,
    }
}

// A type, a name and pairs.
fn declared(alloc: Global, is_final: bool, parts: Parts) -> Result<Parameter, AllocError>
    ensures { IfOk result (λ p.
        parameter_seen p ≡ parameter_of is_final parts.entry.at (views parts.entry.trees.now)) }
{
    let Some((ty, behind)) = parts.split() else {
        return Ok(lacking(alloc, is_final, parts.at));
    };
    let Some((name, behind)) = behind.split() else {
        return Ok(lacking(alloc, is_final, parts.at));
    };
    let ty = written(alloc, ty.tree, ty.at)?;
    let name = named(alloc, name.tree, name.at)?;
    Ok(Parameter {
        is_final,
        ty,
        name,
        brackets: pairs(behind.trees),
    })
}

// A parameter by its parts, after `final` or without it.
fn parameter_in(alloc: Global, parts: Parts) -> Result<Parameter, AllocError>
    ensures { IfOk result (λ p.
        parameter_seen p ≡ parameter_in parts.entry.at (views parts.entry.trees.now)) }
{
    let Some((word, behind)) = parts.split() else {
        return Ok(lacking(alloc, false, parts.at));
    };
    if is_leaf(word.tree, Kind::Final) {
        return declared(alloc, true, behind);
    }
    declared(alloc, false, parts)
}

fn parameter(alloc: Global, part: Part) -> Result<Parameter, AllocError>
    ensures { IfOk result (λ p.
        parameter_seen p ≡ parameter part.entry.at (view part.entry.tree.now)) }
{
    match part.tree {
        Tree::Leaf(_) => Ok(lacking(alloc, false, part.at)),
        Tree::Node { parts, .. } => parameter_in(
            alloc,
            Parts {
                at: part.at,
                trees: parts,
            },
        ),
    }
}

// Parameters with one part behind each.
fn parameter_list(alloc: Global, parts: Parts) -> Result<Vec<Parameter>, AllocError>
    ensures { IfOk result (λ found.
        map parameter_seen found.items ≡ parameters parts.entry.at (views parts.entry.trees.now)) }
{
    let mut found = Vec::new(alloc);
    let mut left = parts;
    while let Some((part, behind)) = left.split() {
        let Some((_mark, rest)) = behind.split() else {
            return Ok(found);
        };
        found.push(parameter(alloc, part)?)?;
        left = rest;
    }
    Ok(found)
}

fn parameters(alloc: Global, part: Part) -> Result<Vec<Parameter>, AllocError>
    ensures { IfOk result (λ found.
        map parameter_seen found.items ≡ parameters_of part.entry.at (view part.entry.tree.now)) }
{
    let Some(parts) = part.parts(Form::Params) else {
        return Ok(Vec::new(alloc));
    };
    let Some((_paren, behind)) = parts.split() else {
        return Ok(Vec::new(alloc));
    };
    parameter_list(alloc, behind)
}

// The names of a `throws` in front.
fn throws(alloc: Global, parts: Parts) -> Result<Vec<Named>, AllocError>
    ensures { IfOk result (λ found. map named_of found.items ≡ throws_in (parts_of parts.entry)) }
{
    let Some((part, _behind)) = parts.split() else {
        return Ok(Vec::new(alloc));
    };
    let Some(inner) = part.parts(Form::Throws) else {
        return Ok(Vec::new(alloc));
    };
    names_behind(alloc, inner)
}

/// What stands behind a `throws` in front.
pub fn behind_throws(parts: Parts<'_>) -> Parts<'_>
    ensures { parts_of result ≡ behind_throws (parts_of parts.entry) }
{
    let Some((part, behind)) = parts.split() else {
        return parts;
    };
    match part.parts(Form::Throws) {
        Some(_inner) => behind,
        None => parts,
    }
}

/// A header by its modifiers, its name, its parameters and what stands behind them.
pub fn header(
    alloc: Global,
    modifiers: Vec<Placed>,
    name: Part,
    params: Part,
    behind: Parts,
) -> Result<Header, AllocError>
    ensures { IfOk result (λ h. header_of h ≡ header (map placed_of modifiers.items)
        (part_of name.entry) (part_of params.entry) (parts_of behind.entry)) }
{
    let throws = throws(alloc, behind)?;
    let params = parameters(alloc, params)?;
    let name = named(alloc, name.tree, name.at)?;
    Ok(Header {
        modifiers,
        name,
        params,
        throws,
    })
}
