//! A text as a page shows it: no byte of it is read as a part of a tag.
ghost use Rattle.std.specs.Prelude.{◌≡◌, ◌++◌, OnOk, option_map};
ghost use Rattle.wy_report.specs.Escapes.{entity_of, escaped, escaped_byte, shown_byte};

use std::alloc::AllocError;

/// The entity that stands for a byte, where one does.
fn entity_of(byte: u8) -> Option<&'static str>
    ensures { entity_of byte ≡ option_map (λ t. t.now) result }
{
    match byte {
        b'&' => Some("&amp;"),
        b'<' => Some("&lt;"),
        b'>' => Some("&gt;"),
        b'"' => Some("&quot;"),
        _ => None,
    }
}

/// A control is shown as a space, but for a tab.
fn shown_byte(byte: u8) -> u8
    ensures { result ≡ shown_byte byte }
{
    if byte < b' ' && byte != b'\t' {
        b' '
    } else {
        byte
    }
}

fn put_byte(out: &mut Vec<u8>, byte: u8) -> Result<(), AllocError>
    ensures { OnOk result (out.new.items ≡ out.old.items ++ escaped_byte byte) }
{
    match entity_of(byte) {
        Some(entity) => out.extend_from_slice(entity.as_bytes()),
        None => {
            out.push(shown_byte(byte))?;
            Ok(())
        }
    }
}

/// Puts a text, with an entity for each byte that a tag or an attribute could have.
#[tactic(auto, unfolding(crate::specs::Escapes::escaped))]
pub(crate) fn put_escaped(out: &mut Vec<u8>, text: &[u8]) -> Result<(), AllocError>
    ensures { OnOk result (out.new.items ≡ out.old.items ++ escaped text.now) }
{
    for byte in text {
        put_byte(out, *byte)?;
    }
    Ok(())
}
