//! Where a place of a text is, by what stands before it.
ghost use Rattle.std.specs.Prelude.{◌≡◌, ◌<◌, ◌≤◌, ◌^◌, IfOk, length};
ghost use Rattle.std.specs.List.{before_first, position_or_len};
ghost use Rattle.wy_explain.specs.Places.{caret_line, indent, is_inner, last_line, line_number};
ghost use Rattle.wy_tree.specs.Bytes.{is_line_end};

use std::alloc::{AllocError, Global};

fn is_line_end(byte: u8) -> bool
    ensures { result ≡ is_line_end byte }
{
    byte == b'\n' || byte == b'\r'
}

/// The line that the bytes end in.
#[tactic(auto, unfolding(crate::specs::Places::line_number, wy_tree::specs::Bytes::line_ends))]
pub fn line_number(before: &[u8]) -> usize
    requires { length before.now < 2 ^ 32 }
    ensures { result ≡ line_number before.now }
{
    let mut ends = 0;
    let mut last = 0;
    for byte in before {
        if *byte == b'\r' || (*byte == b'\n' && last != b'\r') {
            ends += 1;
        }
        last = *byte;
    }
    1 + ends
}

/// What stands behind the last line end.
#[tactic(auto, unfolding(crate::specs::Places::last_line))]
pub fn last_line(alloc: Global, before: &[u8]) -> Result<Vec<u8>, AllocError>
    ensures { IfOk result (λ line. line.items ≡ last_line before.now) }
{
    let mut line = Vec::new(alloc);
    for byte in before {
        if is_line_end(*byte) {
            line.clear();
        } else {
            line.push(*byte)?;
        }
    }
    Ok(line)
}

/// What stands before the first line end.
pub fn first_line(rest: &[u8]) -> &[u8]
    ensures { result.now ≡ before_first is_line_end rest.entry.now }
{
    &rest[..line_length(rest)]
}

/// How many bytes stand before the first line end.
fn line_length(rest: &[u8]) -> usize
    ensures same { result ≡ position_or_len is_line_end rest.now }
    ensures within { result ≤ length rest.now }
{
    for (i, byte) in rest.iter().enumerate() {
        if is_line_end(*byte) {
            return i;
        }
    }
    rest.len()
}

/// The line below, with a caret behind what stands before the place.
#[tactic(auto, unfolding(crate::specs::Places::caret_line))]
pub fn caret_line(alloc: Global, before: &[u8]) -> Result<Vec<u8>, AllocError>
    ensures { IfOk result (λ line. line.items ≡ caret_line before.now) }
{
    let line = last_line(alloc, before)?;
    let mut blanks = indent(alloc, line.as_slice())?;
    blanks.push(b'^')?;
    Ok(blanks)
}

/// A blank for each character, and a tab for each tab.
#[tactic(auto, unfolding(crate::specs::Places::indent))]
fn indent(alloc: Global, line: &[u8]) -> Result<Vec<u8>, AllocError>
    ensures { IfOk result (λ blanks. blanks.items ≡ indent line.now) }
{
    let mut blanks = Vec::new(alloc);
    for byte in line {
        if is_inner(*byte) {
            continue;
        }
        if *byte == b'\t' {
            blanks.push(b'\t')?;
        } else {
            blanks.push(b' ')?;
        }
    }
    Ok(blanks)
}

/// Whether a byte goes on a character.
fn is_inner(byte: u8) -> bool
    ensures { result ≡ is_inner byte }
{
    byte >= 128 && byte <= 191
}
