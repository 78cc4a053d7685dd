//! The line of a token by its number.

ghost use Rattle.std.specs.Prelude.{◌≡◌, map};
ghost use Rattle.wy_tree.specs.Lines.{line_of};
ghost use Rattle.wy_tree.specs.Tokens.{spanned_token};

use crate::token::Spanned;

/// The line of the token of this number, from 0. A number past the last token stands for the last one;
/// where there is no token, the line is 1.
pub fn line_of(tokens: &[Spanned], token: u32) -> u32
    ensures { result ≡ line_of (map spanned_token tokens.now) token }
{
    let number = (token as usize).min(tokens.len().saturating_sub(1));
    match tokens.get(number) {
        Some(spanned) => spanned.line,
        None => 1,
    }
}
