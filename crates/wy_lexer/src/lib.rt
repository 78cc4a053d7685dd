//! From a text to its tokens (JLS chapter 3), or to the byte at which it has none.
//! What a token and a text's tokens are is said in `wy_tree`; no tree is read here.
#![tactic(auto)]

mod bytes;
mod class;
pub mod error;
pub mod lexer;
mod literal;
mod number;
mod piece;
mod words;

pub use error::LexError;
pub use lexer::lex;
