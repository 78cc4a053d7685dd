//! What stands at the top of a program (JLS 7.3, 7.6).

ghost use Rattle.std.specs.Prelude.{◌≡◌, ◌≤◌, ◌+◌, IfOk, map};
ghost use Rattle.wy_tree.specs.Ast.{view, views};
ghost use Rattle.wy_syntax.specs.Declarations.{declaration, declarations, unit};
ghost use Rattle.wy_syntax.specs.Names.{width};
ghost use Rattle.wy_syntax.specs.View.{declaration_of};
ghost use Rattle.wy_tree.specs.Tokens.{token_limit};

use crate::class::{class, interface};
use crate::constructor::end;
use crate::modifier::{behind_modifiers, modifiers};
use crate::part::{Part, Parts};
use std::alloc::{AllocError, Global};
use wy_syntax::declaration::Declaration;
use wy_syntax::part::is_leaf;
use wy_tree::kind::Kind;
use wy_tree::tree::{Form, Tree};

fn declaration(alloc: Global, part: Part) -> Result<Declaration, AllocError>
    ensures { IfOk result (λ d.
        declaration_of d ≡ declaration part.entry.at (view part.entry.tree.now)) }
{
    if let Some(parts) = part.parts(Form::Class) {
        let modifiers = modifiers(alloc, parts)?;
        return class(alloc, modifiers, behind_modifiers(parts), end(parts));
    }
    if let Some(parts) = part.parts(Form::Interface) {
        let modifiers = modifiers(alloc, parts)?;
        return interface(alloc, modifiers, behind_modifiers(parts), end(parts));
    }
    if is_leaf(part.tree, Kind::Semicolon) {
        Ok(Declaration::Nothing)
    } else {
        Ok(Declaration::Wrong)
    }
}

fn declarations(alloc: Global, parts: Parts) -> Result<Vec<Declaration>, AllocError>
    ensures { IfOk result (λ found. map declaration_of found.items ≡ declarations parts.entry.at
        (views parts.entry.trees.now)) }
{
    let mut found = Vec::new(alloc);
    let mut left = parts;
    while let Some((part, behind)) = left.split() {
        found.push(declaration(alloc, part)?)?;
        left = behind;
    }
    Ok(found)
}

/// The declarations of a program, by its tree.
pub fn unit(alloc: Global, tree: &Tree, first: u32) -> Result<Vec<Declaration>, AllocError>
    requires { first + width (view tree.now) ≤ token_limit }
    ensures { IfOk result (λ all. map declaration_of all.items ≡ unit first (view tree.now)) }
{
    let whole = Part { at: first, tree };
    if let Some(parts) = whole.parts(Form::Unit) {
        return declarations(alloc, parts);
    }
    let mut found = Vec::new(alloc);
    found.push(declaration(alloc, whole)?)?;
    Ok(found)
}
