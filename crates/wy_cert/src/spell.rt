//! A certificate's bytes, part by part.

ghost use Rattle.std.specs.Prelude.{◌≡◌, ◌++◌, IfOk, OnOk, string_bytes};
ghost use Rattle.std.specs.Fmt.{decimal};
ghost use Rattle.std.specs.List.{flat_map};
ghost use Rattle.hex.specs.Hex.{encode_lower};
ghost use Rattle.wy_cert.specs.Spelling.{IsSealText, head_text, letter_of, line_text, source_text};

use itoa::Buffer;
use std::alloc::{AllocError, Global};
use wy_why::{Role, Source};

/// What every certificate begins with: the format and its version.
pub(crate) const OPENING: &[u8; 10] = b"whycert 1 ";

/// Puts a number behind what is there.
fn put_decimal(out: &mut Vec<u8>, n: u32) -> Result<(), AllocError>
    ensures { OnOk result (out.new.items ≡ out.old.items ++ decimal n) }
{
    let mut buffer = Buffer::new();
    out.extend_from_slice(buffer.format(n).as_bytes())
}

/// The letter of a role.
pub(crate) fn letter(role: Role) -> u8
    ensures { result ≡ letter_of role }
{
    match role {
        Role::Data => b'd',
        Role::Choice => b'h',
        Role::Control => b'c',
    }
}

fn put_source(out: &mut Vec<u8>, source: Source) -> Result<(), AllocError>
    ensures { OnOk result (out.new.items ≡ out.old.items ++ source_text source) }
{
    out.extend_from_slice(&[b' ', letter(source.role), b':'])?;
    put_decimal(out, source.event)
}

fn put_sources(out: &mut Vec<u8>, sources: &[Source]) -> Result<(), AllocError>
    ensures { OnOk result (out.new.items ≡ out.old.items ++ flat_map source_text sources.now) }
{
    for source in sources {
        put_source(out, *source)?;
    }
    Ok(())
}

/// Puts the line of an event with its sources.
pub(crate) fn put_line(out: &mut Vec<u8>, event: u32, sources: &[Source]) -> Result<(), AllocError>
    ensures { OnOk result (out.new.items
        ≡ out.old.items ++ line_text (record { event = event; sources = sources.now })) }
{
    put_decimal(out, event)?;
    put_sources(out, sources)?;
    out.push(b'\n')?;
    Ok(())
}

/// A seal in hexadecimal digits.
fn hex_of(alloc: Global, seal: &[u8; 32]) -> Result<String, AllocError>
    ensures text { IfOk result (λ hex. string_bytes hex ≡ encode_lower seal.now) }
    ensures digits { IsSealText (encode_lower seal.now) }
{
    hex::encode(alloc, seal.as_slice())
}

/// The first line, for so many lines behind it.
pub(crate) fn head(
    alloc: Global,
    seal: &[u8; 32],
    event: u32,
    count: u32,
) -> Result<Vec<u8>, AllocError>
    ensures text { IfOk result (λ out.
        out.items ≡ head_text (encode_lower seal.now) event count) }
    ensures digits { OnOk result (IsSealText (encode_lower seal.now)) }
{
    let hex = hex_of(alloc, seal)?;
    let mut out = Vec::new(alloc);
    out.extend_from_slice(OPENING)?;
    out.extend_from_slice(hex.as_bytes())?;
    out.push(b' ')?;
    put_decimal(&mut out, event)?;
    out.push(b' ')?;
    put_decimal(&mut out, count)?;
    out.push(b'\n')?;
    Ok(out)
}
