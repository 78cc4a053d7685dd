//! What stands at a token, and around it in its statement.
ghost use Rattle.std.specs.Prelude.{◌≡◌, IfOk, map};
ghost use Rattle.wy_explain.specs.Views.{front_of as seen_front, window_of};
ghost use Rattle.wy_explain.specs.Windows.{ahead_of, front_of, is_border, text_of, window_at};
ghost use Rattle.wy_tree.specs.Tokens.{spanned_token};

use std::alloc::{AllocError, Global};
use wy_tree::token::Spanned;

/// What stands before a token: where the last one before it ends, that one, and those of the same
/// statement.
#[derive(Drop)]
pub struct Front<'a> {
    pub end: u32,
    pub last: &'a [u8],
    pub words: Vec<&'a [u8]>,
}

/// What stands at a refusal: its place, the word there and the one before it, those before it in its
/// statement, and those behind it.
#[derive(Drop)]
pub struct Window<'a> {
    pub place: u32,
    pub here: &'a [u8],
    pub last: &'a [u8],
    pub before: Vec<&'a [u8]>,
    pub ahead: Vec<&'a [u8]>,
}

/// What stands between the tokens in front and those behind.
pub fn around<'a>(
    alloc: Global,
    source: &'a [u8],
    front: &[Spanned],
    back: &[Spanned],
) -> Result<Window<'a>, AllocError>
    ensures { IfOk result (λ w. window_of w ≡ window_at source.entry.now
        (front_of source.entry.now (map spanned_token front.now)) (map spanned_token back.now)) }
{
    let before = front_of(alloc, source, front)?;
    match back.split_first() {
        Some((token, more)) => Ok(Window {
            place: token.start,
            here: text_of(source, token),
            last: before.last,
            before: before.words,
            ahead: ahead_of(alloc, source, more)?,
        }),
        None => Ok(Window {
            place: before.end,
            here: &[],
            last: before.last,
            before: before.words,
            ahead: Vec::new(alloc),
        }),
    }
}

/// The text of a token.
fn text_of<'a>(source: &'a [u8], token: &Spanned) -> &'a [u8]
    ensures { result.now ≡ text_of source.entry.now (spanned_token token.now) }
{
    let end = (token.end as usize).min(source.len());
    let start = (token.start as usize).min(end);
    &source[start..end]
}

/// Whether a statement ends at the word.
fn is_border(word: &[u8]) -> bool
    ensures { result ≡ is_border word.now }
{
    word == b";".as_slice() || word == b"{".as_slice() || word == b"}".as_slice()
}

#[tactic(auto, unfolding(crate::specs::Windows::front_of))]
fn front_of<'a>(alloc: Global, source: &'a [u8], front: &[Spanned]) -> Result<Front<'a>, AllocError>
    ensures { IfOk result (λ f.
        seen_front f ≡ front_of source.entry.now (map spanned_token front.now)) }
{
    let mut end = 0;
    let mut last: &[u8] = &[];
    let mut words = Vec::new(alloc);
    for token in front {
        end = token.end;
        last = text_of(source, token);
        if is_border(last) {
            words.clear();
        } else {
            words.push(last)?;
        }
    }
    Ok(Front { end, last, words })
}

/// The words up to the end of the statement.
fn ahead_of<'a>(
    alloc: Global,
    source: &'a [u8],
    tokens: &[Spanned],
) -> Result<Vec<&'a [u8]>, AllocError>
    ensures { IfOk result (λ words. map (λ w. w.now) words.items
        ≡ ahead_of source.entry.now (map spanned_token tokens.now)) }
{
    let mut words = Vec::new(alloc);
    for token in tokens {
        let word = text_of(source, token);
        if is_border(word) {
            return Ok(words);
        }
        words.push(word)?;
    }
    Ok(words)
}
