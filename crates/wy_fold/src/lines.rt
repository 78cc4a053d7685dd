//! The lines of a source by their numbers.
ghost use Rattle.std.specs.Prelude.{◌≡◌, IfOk, map};
ghost use Rattle.wy_fold.specs.SourceLines.{goes_with, line_text, source_lines, trimmed};
ghost use Rattle.wy_tree.specs.Bytes.{is_line_end};

use std::alloc::{AllocError, Global};

fn is_line_end(byte: u8) -> bool
    ensures { result ≡ is_line_end byte }
{
    byte == b'\n' || byte == b'\r'
}

/// Whether a byte goes with the one before as one end of a line.
fn goes_with(before: u8, byte: u8) -> bool
    ensures { result ≡ goes_with before byte }
{
    byte == b'\n' && before == b'\r'
}

/// The lines of a text without their ends.
#[tactic(auto, unfolding(crate::specs::SourceLines::source_lines))]
pub fn source_lines<'a>(alloc: Global, source: &'a [u8]) -> Result<Vec<&'a [u8]>, AllocError>
    ensures { IfOk result (λ lines.
        map (λ l. l.now) lines.items ≡ source_lines source.entry.now) }
{
    let mut lines = Vec::new(alloc);
    let mut start = 0;
    let mut last = 0;
    for (i, byte) in source.iter().enumerate() {
        if goes_with(last, *byte) {
            start = i + 1;
        } else if is_line_end(*byte) {
            lines.push(&source[start..i])?;
            start = i + 1;
        }
        last = *byte;
    }
    lines.push(&source[start..])?;
    Ok(lines)
}

/// The line of a number, from 1, without the blanks that it begins with; nothing for 0.
pub(crate) fn trimmed_line<'a>(lines: &[&'a [u8]], number: u32) -> &'a [u8]
    ensures { result.now ≡ trimmed (line_text (map (λ l. l.now) lines.entry.now) number) }
{
    if number == 0 {
        return b"";
    }
    match lines.get(number as usize - 1) {
        Some(line) => line.trim_ascii_start(),
        None => b"",
    }
}
