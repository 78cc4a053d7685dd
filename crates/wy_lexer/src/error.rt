//! Why a text has no tokens.

use std::alloc::{AllocError, AllocFailed};
use thiserror::Error;

/// Why `lex` gave no tokens. Each place is counted in bytes from the text's start.
#[derive(Clone, Copy, Debug, Drop, Error, PartialEq, Eq)]
pub enum LexError {
    /// The text isn't UTF-8; the place is the first byte of the first ill-formed sequence.
    #[error("NotUtf8 at byte {byte}")]
    NotUtf8 { byte: u32 },
    /// What begins here is no token: an unclosed comment, or a character that begins none.
    #[error("BadToken at byte {byte}")]
    BadToken { byte: u32 },
    /// The literal that begins here has a fault.
    #[error("BadLiteral at byte {byte}")]
    BadLiteral { byte: u32 },
    /// No memory was left.
    #[error("NoMemory")]
    NoMemory,
}

impl From<AllocError> for LexError {
    ghost use Rattle.std.specs.Prelude.{◌≡◌};
    ghost use Rattle.wy_lexer.specs.declared.error.LexError.TheVariants.{NoMemory};

    ghost from_gives = { λ _ e. e ≡ NoMemory };

    fn from(_e: AllocError) -> LexError {
        LexError::NoMemory
    }
}

impl<T: Drop> From<AllocFailed<T>> for LexError {
    ghost use Rattle.std.specs.Prelude.{◌≡◌};
    ghost use Rattle.wy_lexer.specs.declared.error.LexError.TheVariants.{NoMemory};

    ghost from_gives = { λ _ e. e ≡ NoMemory };

    fn from(_e: AllocFailed<T>) -> LexError {
        LexError::NoMemory
    }
}
