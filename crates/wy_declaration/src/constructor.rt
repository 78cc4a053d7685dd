//! Constructors behind their header (JLS 8.8.5).

ghost use Rattle.std.specs.Prelude.{◌≡◌, ◌&&◌, IfOk, map, option_map};
ghost use Rattle.wy_tree.specs.Ast.{view};
ghost use Rattle.wy_tree.specs.Conditions.{leaf_kind};
ghost use Rattle.wy_tree.specs.Grammar.{is_own};
ghost use Rattle.wy_syntax.specs.Declarations.{behind_own_call, constructor_of, end_in, is_arguments, own_call_in, statements_in};
ghost use Rattle.wy_syntax.specs.View.{header_of, member_of, own_call_of, statement_of, statements_of};
ghost use Rattle.wy_declaration.specs.Parts.{parts_of};

use crate::part::{Part, Parts};
use crate::shape::is_arguments;
use std::alloc::{AllocError, Global};
use wy_syntax::declaration::{Header, Member, OwnCall};
use wy_syntax::lower::expression::arguments_of;
use wy_syntax::lower::statement::statement;
use wy_syntax::part::is_leaf;
use wy_syntax::statement::Statement;
use wy_tree::kind::Kind;

// Statements up to the last part, which is `}`.
fn statements(alloc: Global, parts: Parts) -> Result<Vec<Statement>, AllocError>
    ensures { IfOk result (λ found.
        statements_of (map statement_of found.items) ≡ statements_in (parts_of parts.entry)) }
{
    let mut found = Vec::new(alloc);
    let mut left = parts;
    while let Some((part, behind)) = left.split() {
        let Some(_) = behind.split() else {
            return Ok(found);
        };
        found.push(statement(alloc, part.tree, part.at)?)?;
        left = behind;
    }
    Ok(found)
}

/// The number of the last part's first token.
pub fn end(parts: Parts) -> u32
    ensures { result ≡ end_in (parts_of parts.entry) }
{
    let mut left = parts;
    while let Some((part, behind)) = left.split() {
        let Some(_) = behind.split() else {
            return part.at;
        };
        left = behind;
    }
    0
}

// Whether `this` or `super` is called by these two parts.
fn is_own_call(word: Part, args: Part) -> bool
    ensures { result ≡ (is_own (leaf_kind (view word.entry.tree.now))
        && is_arguments (view args.entry.tree.now)) }
{
    (is_leaf(word.tree, Kind::This) || is_leaf(word.tree, Kind::Super)) && is_arguments(args.tree)
}

// The call of a constructor in front of the statements.
fn own_call(alloc: Global, parts: Parts) -> Result<Option<OwnCall>, AllocError>
    ensures { IfOk result (λ call.
        option_map own_call_of call ≡ own_call_in (parts_of parts.entry)) }
{
    let Some((word, behind)) = parts.split() else {
        return Ok(None);
    };
    let Some((args, _)) = behind.split() else {
        return Ok(None);
    };
    if !is_own_call(word, args) {
        return Ok(None);
    }
    let is_super = is_leaf(word.tree, Kind::Super);
    let paren = args.at;
    let args = arguments_of(alloc, args.tree, paren)?;
    Ok(Some(OwnCall {
        is_super,
        args,
        paren,
        token: word.at,
    }))
}

// The statements behind that call.
fn behind_own_call(parts: Parts<'_>) -> Parts<'_>
    ensures { parts_of result ≡ behind_own_call (parts_of parts.entry) }
{
    let Some((word, behind)) = parts.split() else {
        return parts;
    };
    let Some((args, behind)) = behind.split() else {
        return parts;
    };
    let Some((_semicolon, behind)) = behind.split() else {
        return parts;
    };
    if is_own_call(word, args) {
        behind
    } else {
        parts
    }
}

/// A constructor by its header and its body.
pub fn constructor(alloc: Global, header: Header, parts: Parts) -> Result<Member, AllocError>
    ensures { IfOk result (λ m.
        member_of m ≡ constructor_of (header_of header) (parts_of parts.entry)) }
{
    let Some((brace, behind)) = parts.split() else {
        return Ok(Member::Wrong);
    };
    let own_call = own_call(alloc, behind)?;
    let parts = statements(alloc, behind_own_call(behind))?;
    Ok(Member::Constructor {
        header,
        own_call,
        brace: brace.at,
        parts,
        end: end(behind),
    })
}
