//! The tokens of a text (JLS 3.5 to 3.12).

ghost use Rattle.std.specs.Prelude.{◌≡◌, IfOk};
ghost use Rattle.wy_tree.specs.Seen.{seen};

use std::alloc::AllocError;

/// A text has at most so many tokens, since it has at most so many bytes.
pub const TOKEN_LIMIT: u32 = 1_048_576;

/// A token.
#[derive(Debug, Drop)]
pub enum Token {
    /// An identifier.
    Word(String),
    /// A keyword, `true`, `false` or `null`.
    Key(String),
    /// An int literal by its 32 bits. It is decimal if it is `0` or begins with 1 to 9.
    Int { value: u32, decimal: bool },
    /// A long literal by its 64 bits.
    Long { value: u64, decimal: bool },
    /// A character literal, one 16-bit unit.
    Char(u16),
    /// A string literal, its 16-bit units.
    Text(Vec<u16>),
    /// A separator or an operator, as it is written.
    Sign(String),
}

/// A token with the bytes that it stands at, from `start` up to `end`, and its line, from 1.
#[derive(Debug, Drop)]
pub struct Spanned {
    pub token: Token,
    pub start: u32,
    pub end: u32,
    pub line: u32,
}

/// The same token again.
pub fn copied(token: &Token) -> Result<Token, AllocError>
    ensures { IfOk result (λ t. seen t ≡ seen token.now) }
{
    match token {
        Token::Word(text) => Ok(Token::Word(text.clone()?)),
        Token::Key(text) => Ok(Token::Key(text.clone()?)),
        Token::Int { value, decimal } => Ok(Token::Int {
            value: *value,
            decimal: *decimal,
        }),
        Token::Long { value, decimal } => Ok(Token::Long {
            value: *value,
            decimal: *decimal,
        }),
        Token::Char(unit) => Ok(Token::Char(*unit)),
        Token::Text(units) => Ok(Token::Text(units.clone()?)),
        Token::Sign(text) => Ok(Token::Sign(text.clone()?)),
    }
}
