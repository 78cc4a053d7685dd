//! Which expression a watch text is (JLS 8.3).

ghost use Rattle.std.specs.Prelude.{◌≡◌, ◌≤◌, IfOk, IfSome, map, option_map, length};
ghost use Rattle.wy_parser.specs.Symbols.{spanned_seen};
ghost use Rattle.wy_syntax.specs.View.{declaration_of, declarator_of, expression_of, initial_of, member_of};
ghost use Rattle.wy_tree.specs.Ast.{view};
ghost use Rattle.wy_tree.specs.Tokens.{Tokens, spanned_token, token_limit};
ghost use Rattle.wy_tree.specs.Trees.{IsTreeOf};
ghost use Rattle.wy_watch.specs.Only.{IsOnly};
ghost use Rattle.wy_watch.specs.Watched.{Declares, initializer, of_class, of_declarator, of_member, value_in, watch_limit, wrapped};

use std::alloc::{AllocError, Global};
use wy_declaration::unit;
use wy_lexer::{LexError, lex};
use wy_parser::parse::{ParseError, parse};
use wy_syntax::declaration::{Declaration, Member};
use wy_syntax::expression::{Expression, Initial};
use wy_syntax::statement::Declarator;
use wy_tree::laws::tokens_stand_in_order;
use wy_tree::token::Spanned;
use wy_tree::tree::Tree;

/// A watch text has at most so many bytes.
pub const WATCH_LIMIT: u32 = 4_096;

const BEFORE: &str = "class W { int w =";

const BEHIND: &str = "; }";

/// The class that a text is put into.
fn wrapped(alloc: Global, text: &[u8]) -> Result<Vec<u8>, AllocError>
    ensures { IfOk result (λ source. source.items ≡ wrapped text.now) }
{
    let mut source = Vec::from_slice(alloc, BEFORE.as_bytes())?;
    source.extend_from_slice(text)?;
    source.extend_from_slice(BEHIND.as_bytes())?;
    Ok(source)
}

/// The tokens of a source, where it has any.
fn tokens(alloc: Global, source: &[u8]) -> Result<Option<Vec<Spanned>>, AllocError>
    requires short { length source.now ≤ token_limit }
    ensures tokens { IfOk result (λ found. IsOnly (Tokens source.now)
        (option_map (λ v. map spanned_token v.items) found)) }
    ensures few { IfOk result (λ found. IfSome found (λ v. length v.items ≤ token_limit)) }
{
    tokens_stand_in_order();
    match lex(alloc, source) {
        Ok(tokens) => Ok(Some(tokens)),
        Err(LexError::NotUtf8 { byte: _ }) => Ok(None),
        Err(LexError::BadToken { byte: _ }) => Ok(None),
        Err(LexError::BadLiteral { byte: _ }) => Ok(None),
        Err(LexError::NoMemory) => Err(AllocError),
    }
}

/// The tree of tokens, where they have one.
fn tree(alloc: Global, tokens: &[Spanned]) -> Result<Option<Tree>, AllocError>
    requires few { length tokens.now ≤ token_limit }
    ensures { IfOk result (λ found. IsOnly (IsTreeOf (map spanned_seen tokens.now))
        (option_map view found)) }
{
    match parse(alloc, tokens) {
        Ok(tree) => Ok(Some(tree)),
        Err(ParseError::Syntax { token: _ }) => Ok(None),
        Err(ParseError::NoMemory) => Err(AllocError),
    }
}

/// What a source declares, where it has a tree.
fn declared(alloc: Global, source: &[u8]) -> Result<Option<Vec<Declaration>>, AllocError>
    requires short { length source.now ≤ token_limit }
    ensures { IfOk result (λ found. IsOnly (Declares source.now)
        (option_map (λ v. map declaration_of v.items) found)) }
{
    let Some(tokens) = tokens(alloc, source)? else {
        return Ok(None);
    };
    let Some(tree) = tree(alloc, &tokens)? else {
        return Ok(None);
    };
    Ok(Some(unit(alloc, &tree, 0)?))
}

/// What a watch text declares once it is put into a class.
pub(crate) fn watched(alloc: Global, text: &[u8]) -> Result<Option<Vec<Declaration>>, AllocError>
    requires short { length text.now ≤ watch_limit }
    ensures { IfOk result (λ found. IsOnly (Declares (wrapped text.now))
        (option_map (λ v. map declaration_of v.items) found)) }
{
    let source = wrapped(alloc, text)?;
    declared(alloc, &source)
}

#[tactic(auto, using(wy_syntax::proofs::ExpressionViews::view_value, wy_syntax::proofs::ExpressionViews::view_listed))]
fn value_in(initial: &Initial) -> Option<&Expression>
    ensures { option_map (λ e. expression_of e.now) result ≡ value_in (initial_of initial.now) }
{
    match initial {
        Initial::Value { value } => Some(value),
        Initial::Listed {
            elements: _,
            brace: _,
        } => None,
    }
}

fn initializer(initial: &Option<Initial>) -> Option<&Expression>
    ensures { option_map (λ e. expression_of e.now) result
        ≡ initializer (option_map initial_of initial.now) }
{
    match initial {
        Some(initial) => value_in(initial),
        None => None,
    }
}

fn of_declarator(declarators: &[Declarator]) -> Option<&Expression>
    ensures { option_map (λ e. expression_of e.now) result ≡ of_declarator (map declarator_of declarators.now) }
{
    match declarators {
        [declarator] => initializer(&declarator.initial),
        _ => None,
    }
}

fn of_member(members: &[Member]) -> Option<&Expression>
    ensures { option_map (λ e. expression_of e.now) result ≡ of_member (map member_of members.now) }
{
    match members {
        [
            Member::Fields {
                modifiers: _,
                ty: _,
                declarators,
            },
        ] => of_declarator(declarators),
        _ => None,
    }
}

/// The initializer of the one field of the one class that is declared.
pub(crate) fn of_class(all: &[Declaration]) -> Option<&Expression>
    ensures { option_map (λ e. expression_of e.now) result ≡ of_class (map declaration_of all.now) }
{
    match all {
        [Declaration::Class(class)] => of_member(&class.members),
        _ => None,
    }
}
