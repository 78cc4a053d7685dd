//! From a text to its program: its tokens, the tree that they must have, and what that declares.

ghost use Rattle.std.specs.Prelude.{◌≡◌, ◌≤◌, map, length, IfOk, IfErr};
ghost use Rattle.wy_kernel.specs.Limits.{source_limit};
ghost use Rattle.wy_program.specs.Programs.{IsProgramOf, unplaced};
ghost use Rattle.wy_program.specs.Sources.{IsCauseOf, IsTypedAs, LacksTree, LacksTypes};
ghost use Rattle.wy_program.specs.Texts.{Reads};
ghost use Rattle.wy_tree.specs.Ast.{view};
ghost use Rattle.wy_tree.specs.Tokens.{spanned_token, Tokens};
ghost use Rattle.wy_tree.specs.Trees.{IsTreeOf};

use crate::typed::{TypedProgram, typed_program};
use std::alloc::Global;
use wy_constant::{LexFault, SourceRefusal, TypeError};
use wy_lexer::{LexError, lex};
use wy_parser::parse::{ParseError, parse};
use wy_tree::laws::tokens_stand_in_order;
use wy_tree::line::line_of;
use wy_tree::token::Spanned;
use wy_tree::tree::Tree;

/// Why a text gives no program: it is none, or memory ran out.
#[derive(Clone, Copy, Debug, PartialEq, Eq)]
pub enum SourceError {
    Refused(SourceRefusal),
    NoMemory,
}

fn lexed(alloc: Global, source: &[u8]) -> Result<Vec<Spanned>, SourceError>
    requires { length source.now ≤ source_limit }
    ensures found { IfOk result (λ v. Tokens source.now (map spanned_token v.items)) }
    ensures few { IfOk result (λ v. length v.items ≤ source_limit) }
    ensures refused { IfErr result (λ e. IsCauseOf source.now e) }
{
    tokens_stand_in_order();
    match lex(alloc, source) {
        Ok(tokens) => Ok(tokens),
        Err(LexError::NotUtf8 { byte }) => Err(SourceError::Refused(SourceRefusal::NoTokens {
            fault: LexFault::NotUtf8,
            byte,
        })),
        Err(LexError::BadToken { byte }) => Err(SourceError::Refused(SourceRefusal::NoTokens {
            fault: LexFault::BadToken,
            byte,
        })),
        Err(LexError::BadLiteral { byte }) => Err(SourceError::Refused(SourceRefusal::NoTokens {
            fault: LexFault::BadLiteral,
            byte,
        })),
        Err(LexError::NoMemory) => Err(SourceError::NoMemory),
    }
}

fn parsed(alloc: Global, tokens: &[Spanned]) -> Result<Tree, SourceError>
    requires { length tokens.now ≤ source_limit }
    ensures found { IfOk result (λ t. IsTreeOf (unplaced (map spanned_token tokens.now)) (view t)) }
    ensures refused { IfErr result (λ e. LacksTree (map spanned_token tokens.now) e) }
{
    match parse(alloc, tokens) {
        Ok(tree) => Ok(tree),
        Err(ParseError::Syntax { token }) => {
            let line = line_of(tokens, token);
            Err(SourceError::Refused(SourceRefusal::NoTree { line, token }))
        }
        Err(ParseError::NoMemory) => Err(SourceError::NoMemory),
    }
}

fn typed(alloc: Global, tree: &Tree, tokens: &[Spanned]) -> Result<TypedProgram, SourceError>
    requires few { length tokens.now ≤ source_limit }
    requires read { Reads (map spanned_token tokens.now) (view tree.now) }
    ensures found { IfOk result (λ p.
        IsTypedAs (map spanned_token tokens.now) (view tree.now) p.program) }
    ensures refused { IfErr result (λ e.
        LacksTypes (map spanned_token tokens.now) (view tree.now) e) }
{
    match typed_program(alloc, tree, tokens) {
        Ok(program) => Ok(program),
        Err(TypeError::Broken { rule, token }) => {
            let line = line_of(tokens, token);
            Err(SourceError::Refused(SourceRefusal::Broken { rule, line, token }))
        }
        Err(TypeError::NoMemory) => Err(SourceError::NoMemory),
    }
}

/// The program of a text, which keeps that it fits its types, or why the text is none: the first of its tokens, their tree, and the
/// rules.
pub fn program_of_source(alloc: Global, source: &[u8]) -> Result<TypedProgram, SourceError>
    requires { length source.now ≤ source_limit }
    ensures program { IfOk result (λ p. IsProgramOf source.now p.program) }
    ensures refused { IfErr result (λ e. IsCauseOf source.now e) }
{
    let tokens = lexed(alloc, source)?;
    let tree = parsed(alloc, tokens.as_slice())?;
    typed(alloc, &tree, tokens.as_slice())
}
