//! Why a source is no program.

use crate::rule::Rule;

/// Why no piece of a text fits at a byte.
#[derive(Clone, Copy, Debug, PartialEq, Eq)]
pub enum LexFault {
    NotUtf8,
    BadToken,
    BadLiteral,
}

/// Why a text is no program. Tokens count from 0; one that is as great as their number stands behind them.
#[derive(Clone, Copy, Debug, PartialEq, Eq)]
pub enum SourceRefusal {
    /// It has no tokens.
    NoTokens { fault: LexFault, byte: u32 },
    /// Its tokens have no tree.
    NoTree { line: u32, token: u32 },
    /// It breaks a rule of declarations, types or jumps at a token.
    Broken { rule: Rule, line: u32, token: u32 },
}
