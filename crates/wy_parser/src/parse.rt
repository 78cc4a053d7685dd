//! The tree of all the tokens.

ghost use Rattle.std.specs.Prelude.{◌≡◌, ◌≤◌, ◌<◌, map, length, IfOk, IfErr};
ghost use Rattle.wy_tree.specs.Ast.{view};
ghost use Rattle.wy_parser.specs.Symbols.{symbols_seen, spanned_seen};
ghost use Rattle.wy_parser.specs.Parsed.{Tells, NamesLast, IsSyntax, whole};
ghost use Rattle.wy_parser.specs.Looks.{looked_whole};
ghost use Rattle.wy_tree.specs.Trees.{IsTreeOf, IsOnlyTreeOf};
ghost use Rattle.wy_parser.specs.Causes.{IsCause, IsPlaced};
ghost use Rattle.wy_tree.specs.Tokens.{token_limit};

use crate::read::tree;
use crate::stop::Stop;
use crate::symbol::Symbol;
use std::alloc::{AllocError, Global};
use thiserror::Error;
use wy_tree::grammar::Sort;
use wy_tree::kind::kind_at;
use wy_tree::token::{Spanned, copied};
use wy_tree::tree::Tree;

/// Why tokens have no tree.
#[derive(Debug, Drop, Error)]
pub enum ParseError {
    /// They are no text of the grammar; the number is that of a token, or the number of tokens.
    #[error("token {token} is not expected")]
    Syntax { token: u32 },
    #[error("out of memory")]
    NoMemory,
}

/// The tree of these tokens.
pub fn parse(alloc: Global, tokens: &[Spanned]) -> Result<Tree, ParseError>
    requires { length tokens.now ≤ token_limit }
    // What is found is a tree of the grammar, and its leaves are the tokens.
    ensures found { IfOk result (λ t. IsTreeOf (map spanned_seen tokens.now) (view t)) }
    // No other tree of the grammar has these leaves.
    ensures only { IfOk result (λ t. IsOnlyTreeOf (map spanned_seen tokens.now) (view t)) }
    // Tokens are refused only where no tree of the grammar has them as its leaves.
    ensures refused { IfErr result (λ e. IsCause (map spanned_seen tokens.now) e) }
    // What is named is the number of tokens, or one through which no tree goes: no list that agrees with them through it has one.
    ensures place { IfErr result (λ e. IsPlaced (map spanned_seen tokens.now) e) }
    // It is the last that reading looks at.
    ensures last { let all = map spanned_seen tokens.now in
        IfErr result (λ e. NamesLast e (length all) (looked_whole all)) }
{
    match symbols(alloc, tokens) {
        Ok(all) => whole_tree(alloc, &all),
        Err(_) => Err(ParseError::NoMemory),
    }
}

// The tokens with their kinds.
fn symbols(alloc: Global, tokens: &[Spanned]) -> Result<Vec<Symbol>, AllocError>
    ensures { IfOk result (λ v. symbols_seen v.items ≡ map spanned_seen tokens.now) }
{
    let mut all = Vec::new(alloc);
    let mut left = tokens;
    while let [first, behind @ ..] = left {
        let kind = kind_at(&first.token);
        let token = copied(&first.token)?;
        all.push(Symbol { kind, token })?;
        left = behind;
    }
    Ok(all)
}

#[tactic(auto, unfolding(crate::specs::Parsed::whole))]
fn whole_tree(alloc: Global, all: &[Symbol]) -> Result<Tree, ParseError>
    requires { length all.now ≤ token_limit }
    ensures exact { Tells result (whole (symbols_seen all.now)) }
    ensures last { IfErr result (λ e.
        NamesLast e (length (symbols_seen all.now)) (looked_whole (symbols_seen all.now))) }
{
    let mut seen = all.len();
    match tree(alloc, Sort::Unit, all, 300, 24, &mut seen) {
        Ok((sub, [])) => Ok(sub.tree),
        Ok((_, rest)) => Err(refusal(all.len(), seen.min(rest.len()))),
        Err(Stop::NoTree) => Err(refusal(all.len(), seen)),
        Err(Stop::Memory) => Err(ParseError::NoMemory),
    }
}

// The refusal where so many tokens stand at and behind the last one that was looked at.
fn refusal(total: usize, seen: usize) -> ParseError
    requires few { total ≤ token_limit }
    requires within { seen ≤ total }
    ensures last { NamesLast result total seen }
    ensures told { IsSyntax result }
{
    let token = (total - seen) as u32;
    ParseError::Syntax { token }
}
