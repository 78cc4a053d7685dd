//! A certificate, read from its bytes: what is read is spelled so, each byte of it.

ghost use Rattle.std.specs.Prelude.{◌≡◌, ◌+◌, ◌^◌, ◌<◌, ◌≤◌, ◌++◌, ◌∷◌, ℕ, [], true, List, Some, IfOk, IfSome, length, option_map};
ghost use Rattle.std.specs.Fmt.{decimal};
ghost use Rattle.std.specs.List.{flat_map, list_all};
ghost use Rattle.wy_why.specs.declared.source.Role.{Role};
ghost use Rattle.wy_why.specs.declared.source.Source.{Source};
ghost use Rattle.wy_cert.specs.declared.certificate.Certificate.{Certificate};
ghost use Rattle.wy_cert.specs.declared.certificate.Listed.{Listed};
ghost use Rattle.wy_cert.specs.Spelling.{FitsLine, FitsSource, IsSealText, IsWritten, head_text, is_hex, letter_of, line_text, source_text, space, spelled};
ghost use Rattle.wy_cert.specs.Reading.{AddsLine, AddsSources, AreLines, EndsNumber, HasHead, IsHead, IsReadAs, after_byte, both_seen, head_seen, seen};

use crate::certificate::{Certificate, Listed};
use crate::error::ReadError;
use crate::number::number_at;
use crate::spell::{OPENING, letter};
use std::alloc::Global;
use wy_event::sequence::Sequence;
use wy_why::{Role, Source};

/// The digits of a seal.
const HEX_DIGITS: usize = 64;

/// What stands behind a byte, if it stands at the front.
fn behind(bytes: &[u8], byte: u8) -> Option<&[u8]>
    ensures { option_map (λ rest. rest.now) result ≡ after_byte byte bytes.now }
{
    match bytes.split_first() {
        Some((first, rest)) if *first == byte => Some(rest),
        _ => None,
    }
}

/// The role whose letter stands at the front, and what stands behind it.
fn role_at(bytes: &[u8]) -> Option<(Role, &[u8])>
    ensures found { IfSome result (λ x. bytes.now ≡ letter_of x.0 ∷ x.1.now) }
    ensures only { (role : Role) (rest : List ℕ) → bytes.now ≡ letter_of role ∷ rest
        → option_map seen result ≡ Some (role, rest) }
{
    if let Some(rest) = behind(bytes, letter(Role::Data)) {
        Some((Role::Data, rest))
    } else if let Some(rest) = behind(bytes, letter(Role::Choice)) {
        Some((Role::Choice, rest))
    } else {
        let rest = behind(bytes, letter(Role::Control))?;
        Some((Role::Control, rest))
    }
}

/// The source at the front, and what stands behind it.
fn source_at(bytes: &[u8]) -> Option<(Source, &[u8])>
    ensures found { IfSome result (λ x.
        (bytes.now ≡ source_text x.0 ++ x.1.now) × FitsSource x.0) }
    ensures only { (s : Source) (rest : List ℕ) → FitsSource s → EndsNumber rest
        → bytes.now ≡ source_text s ++ rest → option_map seen result ≡ Some (s, rest) }
{
    let rest = behind(bytes, b' ')?;
    let (role, rest) = role_at(rest)?;
    let rest = behind(rest, b':')?;
    let (event, rest) = number_at(rest)?;
    Some((Source { event, role }, rest))
}

/// Reads sources up to the end of their line, and leaves what stands behind it.
fn read_sources<'a>(sources: &mut Vec<Source>, bytes: &'a [u8]) -> Result<&'a [u8], ReadError>
    ensures found { IfOk result (λ rest. (more : List Source)
        × AddsSources sources.old.items sources.new.items bytes.now rest.now more) }
    ensures only { (rest : List ℕ) (new more : List Source)
        → AddsSources sources.old.items new bytes.now rest more
        → IsReadAs result (λ behind. (behind.now ≡ rest) × (sources.new.items ≡ new)) }
{
    let mut rest = bytes;
    while behind(rest, b' ').is_some() {
        let Some((source, more)) = source_at(rest) else {
            return Err(ReadError::NotRead);
        };
        sources.push(source)?;
        rest = more;
    }
    behind(rest, b'\n').ok_or(ReadError::NotRead)
}

/// Reads the line of an event that isn't below the least one. Its event, and what stands behind it.
fn read_line<'a>(
    alloc: Global,
    listed: &mut Vec<Listed>,
    least: u64,
    bytes: &'a [u8],
) -> Result<(u32, &'a [u8]), ReadError>
    ensures found { IfOk result (λ x. (l : Listed) × (x.0 ≡ l.event)
        × AddsLine listed.old.items listed.new.items least bytes.now x.1.now l) }
    ensures only { (rest : List ℕ) (new : List Listed) (l : Listed)
        → AddsLine listed.old.items new least bytes.now rest l
        → IsReadAs result (λ x. (x.0 ≡ l.event) × (x.1.now ≡ rest) × (listed.new.items ≡ new)) }
{
    let Some((event, rest)) = number_at(bytes) else {
        return Err(ReadError::NotRead);
    };
    if u64::from(event) < least {
        return Err(ReadError::NotRead);
    }
    let mut sources = Vec::new(alloc);
    let rest = read_sources(&mut sources, rest)?;
    listed.push(Listed {
        event,
        sources: Sequence::new(sources),
    })?;
    Ok((event, rest))
}

/// Reads so many lines, which are all that there is.
fn read_lines(alloc: Global, count: u32, bytes: &[u8]) -> Result<Vec<Listed>, ReadError>
    ensures found { IfOk result (λ listed. AreLines count bytes.now listed.items) }
    ensures only { (ls : List Listed) → AreLines count bytes.now ls
        → IsReadAs result (λ listed. listed.items ≡ ls) }
{
    let mut listed = Vec::new(alloc);
    let mut rest = bytes;
    let mut least = 0;
    'lines: for _ in 0..count {
        let (event, behind) = read_line(alloc, &mut listed, least, rest)?;
        least = u64::from(event) + 1;
        rest = behind;
    }
    if rest.is_empty() {
        Ok(listed)
    } else {
        Err(ReadError::NotRead)
    }
}

/// What the first line says, and what stands behind it.
#[derive(Clone, Copy)]
struct Head<'a> {
    hex: &'a [u8],
    event: u32,
    count: u32,
    rest: &'a [u8],
}

fn is_hex(byte: u8) -> bool
    ensures { result ≡ is_hex byte }
{
    matches!(byte, b'0'..=b'9' | b'a'..=b'f')
}

fn are_hex(bytes: &[u8]) -> bool
    ensures { result ≡ list_all is_hex bytes.now }
{
    bytes.iter().all(|byte| is_hex(*byte))
}

/// A seal's digits at the front, and what stands behind them.
fn hex_at(bytes: &[u8]) -> Option<(&[u8], &[u8])>
    ensures found { IfSome result (λ x. (bytes.now ≡ x.0.now ++ x.1.now)
        × IsSealText x.0.now) }
    ensures only { (hex rest : List ℕ) → IsSealText hex → bytes.now ≡ hex ++ rest
        → option_map both_seen result ≡ Some (hex, rest) }
{
    if bytes.len() < HEX_DIGITS {
        return None;
    }
    let (hex, rest) = bytes.split_at(HEX_DIGITS);
    if are_hex(hex) {
        Some((hex, rest))
    } else {
        None
    }
}

/// A number behind a space, and what stands behind it.
fn word_at(bytes: &[u8]) -> Option<(u32, &[u8])>
    ensures found { IfSome result (λ x.
        (bytes.now ≡ space ∷ (decimal x.0 ++ x.1.now)) × (x.0 < 2 ^ 32)) }
    ensures only { (n : ℕ) (rest : List ℕ) → n < 2 ^ 32 → EndsNumber rest
        → bytes.now ≡ space ∷ (decimal n ++ rest) → option_map seen result ≡ Some (n, rest) }
{
    number_at(behind(bytes, b' ')?)
}

fn head_at(bytes: &[u8]) -> Option<Head<'_>>
    ensures found { IfSome result (HasHead bytes.now) }
    ensures only { (hex : List ℕ) (event count : ℕ) (rest : List ℕ) → IsHead hex event count
        → bytes.now ≡ head_text hex event count ++ rest
        → option_map head_seen result ≡ Some (hex, event, count, rest) }
{
    let rest = bytes.strip_prefix(OPENING)?;
    let (hex, rest) = hex_at(rest)?;
    let (event, rest) = word_at(rest)?;
    let (count, rest) = word_at(rest)?;
    let rest = behind(rest, b'\n')?;
    Some(Head {
        hex,
        event,
        count,
        rest,
    })
}

/// The certificate that the bytes spell.
pub fn read(alloc: Global, bytes: &[u8]) -> Result<Certificate, ReadError>
    // What is read is spelled so.
    ensures found { IfOk result (λ c. IsWritten c × (bytes.now ≡ spelled c)) }
    // What is spelled so is read.
    ensures only { (c : Certificate) → IsWritten c → bytes.now ≡ spelled c
        → IsReadAs result (λ d. d ≡ c) }
{
    let Some(head) = head_at(bytes) else {
        return Err(ReadError::NotRead);
    };
    let listed = read_lines(alloc, head.count, head.rest)?;
    Ok(Certificate {
        hex: Sequence::new(Vec::from_slice(alloc, head.hex)?),
        event: head.event,
        listed: Sequence::new(listed),
    })
}
