//! The tokens of a text, one after another (JLS 3.2).

ghost use Rattle.std.specs.Prelude.{ℕ, ◌≡◌, ◌≤◌, ◌∷◌, map, length, List, IfOk, IfErr};
ghost use Rattle.std.specs.Str.{IsUtf8};
ghost use Rattle.wy_tree.specs.Tokens.{SpannedToken, spanned_token, Refusal, refusal_at, Tokens, Refuses, IsNotUtf8};
ghost use Rattle.wy_lexer.specs.declared.error.LexError.TheVariants.{NotUtf8};
ghost use Rattle.wy_lexer.specs.Lexing.{IsCause, refused, Finds, Fails};

use crate::bytes::line_ends;
use crate::class::{class_of, is_literal};
use crate::error::LexError;
use crate::piece::{Found, Piece, piece_at};
use std::alloc::Global;
use wy_tree::token::Spanned;

/// Where no piece fits.
fn refusal(first: u8, rest: &[u8], byte: u32) -> LexError
    ensures { result ≡ refused (refusal_at byte (first ∷ rest.now)) }
{
    if is_literal(class_of(first, rest)) {
        LexError::BadLiteral { byte }
    } else {
        LexError::BadToken { byte }
    }
}

fn tokens(alloc: Global, text: &[u8]) -> Result<Vec<Spanned>, LexError>
    requires small { length text.now ≤ 1048576 }
    requires utf8 { IsUtf8 text.now }
    ensures found { IfOk result (λ v. Tokens text.now (map spanned_token v.items)) }
    ensures cause { IfErr result (λ e. IsCause text.now e) }
{
    let mut tokens = Vec::new(alloc);
    let mut rest = text;
    let mut start: u32 = 0;
    let mut line: u32 = 1;
    while let Some((first, behind)) = rest.split_first() {
        let Found { piece, length } = piece_at(alloc, rest, *first, behind)?;
        let end = start + length as u32;
        match piece {
            Piece::Between => {}
            Piece::Lexeme(token) => tokens.push(Spanned {
                token,
                start,
                end,
                line,
            })?,
            Piece::Fault => return Err(refusal(*first, behind, start)),
        }
        let (bytes, next) = rest.split_at(length);
        line += line_ends(bytes) as u32;
        start = end;
        rest = next;
    }
    Ok(tokens)
}

/// The tokens of a text, or the first byte at which it has none.
pub fn lex(alloc: Global, text: &[u8]) -> Result<Vec<Spanned>, LexError>
    requires { length text.now ≤ 1048576 }
    // What is found are the text's tokens.
    ensures found { IfOk result (λ v. Tokens text.now (map spanned_token v.items)) }
    // The fault that is named is the text's.
    ensures cause { IfErr result (λ e. IsCause text.now e) }
    // Where the text has tokens, they are found; where it has a fault, it is named.
    ensures tokens { (spans : List SpannedToken) → Tokens text.now spans
        → Finds (λ v. map spanned_token v.items) spans result }
    ensures fault { (r : Refusal) → Refuses text.now r → Fails (refused r) result }
    ensures not_utf8 { (byte : ℕ) → IsNotUtf8 text.now byte → Fails (NotUtf8 byte) result }
{
    match str::from_utf8(text) {
        Ok(_) => tokens(alloc, text),
        Err(error) => Err(LexError::NotUtf8 {
            byte: error.valid_up_to() as u32,
        }),
    }
}
