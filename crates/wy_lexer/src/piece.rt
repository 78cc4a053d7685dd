//! The longest piece at the front of a text: white space, a comment or a token (JLS 3.2).

ghost use Rattle.std.specs.Prelude.{◌≡◌, ◌≤◌, ◌<◌, ◌∷◌, ◌+◌, ◌==◌, ◌&&◌, true, option_map, length, drop, take, IfOk, IfSome};
ghost use Rattle.std.specs.List.{list_all};
ghost use Rattle.std.specs.Str.{IsAscii};
ghost use Rattle.std.specs.Prelude.{string_bytes};
ghost use Rattle.wy_tree.specs.Seen.{seen};
ghost use Rattle.wy_tree.specs.Words.{is_sign};
ghost use Rattle.wy_tree.specs.Pieces.{close_at, name_of};
ghost use Rattle.wy_lexer.specs.Reading.{found_seen, has_sign, blank_found, name_found, number_found, line_comment_found, block_comment_found, char_found, text_found, sign_length, sign_found, found};

use crate::bytes::{line_length, number_length, word_length};
use crate::class::{Class, class_of};
use crate::literal::{char_literal, text_literal};
use crate::number::number_of;
use crate::words::is_sign;
use std::alloc::{AllocError, Global};
use wy_tree::token::Token;
use wy_tree::word::is_key;

/// What stands at a place.
#[derive(Drop)]
pub enum Piece {
    /// White space or a comment.
    Between,
    Lexeme(Token),
    /// No piece, or what is begun as one and is none.
    Fault,
}

/// A piece and how many bytes it has; none where nothing fits.
#[derive(Drop)]
pub struct Found {
    pub piece: Piece,
    pub length: usize,
}

/// Bytes of ASCII as a text.
fn ascii(alloc: Global, bytes: &[u8]) -> Result<String, AllocError>
    requires { IsAscii bytes.now }
    ensures { IfOk result (λ s. string_bytes s ≡ bytes.now) }
{
    let text = String::from_utf8(bytes.to_vec(alloc)?);
    Ok(text.unwrap())
}

fn blank(first: u8, rest: &[u8]) -> Found
    ensures same { found_seen result ≡ blank_found first rest.now }
    ensures within { result.length ≤ 1 + length rest.now }
{
    match rest.split_first() {
        Some((b'\n', _)) if first == b'\r' => Found {
            piece: Piece::Between,
            length: 2,
        },
        _ => Found {
            piece: Piece::Between,
            length: 1,
        },
    }
}

fn name(alloc: Global, text: &[u8]) -> Result<Found, AllocError>
    ensures same { IfOk result (λ f. found_seen f ≡ name_found text.now) }
    ensures within { IfOk result (λ f. f.length ≤ length text.now) }
{
    let length = word_length(text);
    let (bytes, _) = text.split_at(length);
    let token = if is_key(bytes) {
        Token::Key(ascii(alloc, bytes)?)
    } else {
        Token::Word(ascii(alloc, bytes)?)
    };
    Ok(Found {
        piece: Piece::Lexeme(token),
        length,
    })
}

fn number(text: &[u8]) -> Found
    ensures same { found_seen result ≡ number_found text.now }
    ensures within { result.length ≤ length text.now }
{
    let length = number_length(text);
    let (run, _) = text.split_at(length);
    match number_of(run) {
        Some(token) => Found {
            piece: Piece::Lexeme(token),
            length,
        },
        None => Found {
            piece: Piece::Fault,
            length,
        },
    }
}

fn line_comment(text: &[u8]) -> Found
    ensures same { found_seen result ≡ line_comment_found text.now }
    ensures within { result.length ≤ length text.now }
{
    Found {
        piece: Piece::Between,
        length: line_length(text),
    }
}

fn is_close(before: u8, byte: u8) -> bool
    ensures { result ≡ (before == 42 && byte == 47) }
{
    before == b'*' && byte == b'/'
}

/// How many bytes there are through the first `*/`.
fn close_at(text: &[u8]) -> Option<usize>
    ensures same { result ≡ close_at text.now }
    ensures within { IfSome result (λ n. n ≤ length text.now) }
{
    let mut before = 0;
    for (i, byte) in text.iter().enumerate() {
        if is_close(before, *byte) {
            return Some(i + 1);
        }
        before = *byte;
    }
    None
}

fn block_comment(text: &[u8]) -> Found
    requires { 2 ≤ length text.now }
    ensures same { found_seen result ≡ block_comment_found text.now }
    ensures within { result.length ≤ length text.now }
{
    let (_, body) = text.split_at(2);
    match close_at(body) {
        Some(length) => Found {
            piece: Piece::Between,
            length: 2 + length,
        },
        None => Found {
            piece: Piece::Fault,
            length: text.len(),
        },
    }
}

/// A character literal, with the text behind its opening quote.
fn character(rest: &[u8]) -> Found
    ensures same { found_seen result ≡ char_found rest.now }
    ensures within { result.length ≤ 1 + length rest.now }
{
    match char_literal(rest) {
        Some((unit, behind)) => Found {
            piece: Piece::Lexeme(Token::Char(unit)),
            length: 1 + (rest.len() - behind.len()),
        },
        None => Found {
            piece: Piece::Fault,
            length: 0,
        },
    }
}

/// A string literal, with the text behind its opening quote.
fn quoted(alloc: Global, rest: &[u8]) -> Result<Found, AllocError>
    ensures same { IfOk result (λ f. found_seen f ≡ text_found rest.now) }
    ensures within { IfOk result (λ f. f.length ≤ 1 + length rest.now) }
{
    match text_literal(alloc, rest)? {
        Some((units, behind)) => Ok(Found {
            piece: Piece::Lexeme(Token::Text(units)),
            length: 1 + (rest.len() - behind.len()),
        }),
        None => Ok(Found {
            piece: Piece::Fault,
            length: 0,
        }),
    }
}

/// Whether so many bytes are at the front, and a sign.
fn has_sign(text: &[u8], length: usize) -> bool
    ensures { result ≡ has_sign text.now length }
{
    match text.get(..length) {
        Some(bytes) => is_sign(bytes),
        None => false,
    }
}

/// How many bytes the longest sign at the front has; none where there is no sign.
#[tactic(auto, unfolding(crate::specs::Reading::sign_length))]
fn sign_length(text: &[u8]) -> usize
    ensures same { result ≡ sign_length text.now }
    ensures within { result ≤ length text.now }
{
    if has_sign(text, 4) {
        4
    } else if has_sign(text, 3) {
        3
    } else if has_sign(text, 2) {
        2
    } else if has_sign(text, 1) {
        1
    } else {
        0
    }
}

fn sign(alloc: Global, text: &[u8]) -> Result<Found, AllocError>
    ensures same { IfOk result (λ f. found_seen f ≡ sign_found text.now) }
    ensures within { IfOk result (λ f. f.length ≤ length text.now) }
{
    let length = sign_length(text);
    if length == 0 {
        return Ok(Found {
            piece: Piece::Fault,
            length,
        });
    }
    let (bytes, _) = text.split_at(length);
    Ok(Found {
        piece: Piece::Lexeme(Token::Sign(ascii(alloc, bytes)?)),
        length,
    })
}

/// The longest piece at the front of a text, of which `first` is the first byte and `rest` the others.
#[tactic(auto, unfolding(crate::specs::Reading::found, wy_tree::specs::Pieces::class_of))]
pub fn piece_at(alloc: Global, text: &[u8], first: u8, rest: &[u8]) -> Result<Found, AllocError>
    requires { text.now ≡ first ∷ rest.now }
    ensures same { IfOk result (λ f. found_seen f ≡ found first rest.now) }
    ensures within { IfOk result (λ f. f.length ≤ length text.now) }
{
    match class_of(first, rest) {
        Class::Blank => Ok(blank(first, rest)),
        Class::Name => name(alloc, text),
        Class::Number => Ok(number(text)),
        Class::LineComment => Ok(line_comment(text)),
        Class::BlockComment => Ok(block_comment(text)),
        Class::Character => Ok(character(rest)),
        Class::Quoted => quoted(alloc, rest),
        Class::Other => sign(alloc, text),
    }
}
