//! The line at which what is expected and what was found part.
ghost use Rattle.std.specs.Prelude.{◌≡◌, ◌++◌, ◌≤◌, IfOk, OnOk, count_by, length};
ghost use Rattle.wy_expect.specs.Beside.{beside_text, is_feed, line_at, line_front, line_len, line_rest, parting_text, same_len, told_line};

use std::alloc::{AllocError, Global};

const LINE_FEED: u8 = b'\n';

pub(crate) fn put(out: &mut Vec<u8>, text: &str) -> Result<(), AllocError>
    ensures { OnOk result (out.new.items ≡ out.old.items ++ text.now) }
{
    out.extend_from_slice(text.as_bytes())
}

/// How much stands before the first line feed of a text.
fn line_len(text: &[u8]) -> usize
    ensures len { result ≡ line_len text.now }
    ensures within { result ≤ length text.now }
{
    text.iter().take_while(|b| **b != LINE_FEED).count()
}

/// What stands before the first line feed of a text.
fn line_rest(text: &[u8]) -> &[u8]
    ensures { result.now ≡ line_rest text.now }
{
    &text[..line_len(text)]
}

/// What stands behind the last line feed of a text.
fn line_front(text: &[u8]) -> &[u8]
    ensures { result.now ≡ line_front text.now }
{
    let mut start = text.len();
    while start > 0 && text[start - 1] != LINE_FEED {
        start -= 1;
    }
    &text[start..]
}

fn feeds(text: &[u8]) -> usize
    ensures count { result ≡ count_by is_feed text.now }
    ensures few { result ≤ length text.now }
{
    text.iter().filter(|b| **b == LINE_FEED).count()
}

/// How far two texts are the same.
fn same_len(expected: &[u8], found: &[u8]) -> usize
    ensures same { result ≡ same_len expected.now found.now }
    ensures in_expected { result ≤ length expected.now }
    ensures in_found { result ≤ length found.now }
{
    let mut n = 0;
    while n < expected.len() && n < found.len() && expected[n] == found[n] {
        n += 1;
    }
    n
}

/// Puts a line by what it has before a place and what stands from there on.
fn put_told_line(out: &mut Vec<u8>, front: &[u8], rest: &[u8]) -> Result<(), AllocError>
    ensures { OnOk result (out.new.items ≡ out.old.items ++ told_line front.now rest.now) }
{
    if front.is_empty() && rest.is_empty() {
        return put(out, "nothing");
    }
    put(out, "\"")?;
    out.extend_from_slice(front)?;
    out.extend_from_slice(line_rest(rest))?;
    put(out, "\"")
}

/// Puts the line of a text in which so many bytes end.
fn put_line_at(out: &mut Vec<u8>, n: usize, text: &[u8]) -> Result<(), AllocError>
    requires { n ≤ length text.now }
    ensures { OnOk result (out.new.items ≡ out.old.items ++ line_at n text.now) }
{
    put_told_line(out, line_front(&text[..n]), &text[n..])
}

/// The number of the line at which two texts part, and what stands there in both.
fn parting_text(
    alloc: Global,
    expected: &[u8],
    found: &[u8],
    n: usize,
) -> Result<Vec<u8>, AllocError>
    requires in_expected { n ≤ length expected.now }
    requires in_found { n ≤ length found.now }
    ensures { IfOk result (λ text. text.items ≡ parting_text expected.now found.now n) }
{
    let line = 1 + feeds(&expected[..n]);
    let mut out = format!(in alloc; "line {line} of the output is not as expected\n")?.into_bytes();
    put(&mut out, "expected: ")?;
    put_line_at(&mut out, n, expected)?;
    put(&mut out, "\nfound:    ")?;
    put_line_at(&mut out, n, found)?;
    put(&mut out, "\n")?;
    Ok(out)
}

#[tactic(auto, unfolding(crate::specs::Beside::beside_text))]
pub(crate) fn beside_text(
    alloc: Global,
    expected: &[u8],
    found: &[u8],
) -> Result<Vec<u8>, AllocError>
    ensures { IfOk result (λ text. text.items ≡ beside_text expected.now found.now) }
{
    parting_text(alloc, expected, found, same_len(expected, found))
}
