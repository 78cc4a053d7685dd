//! Texts and chars between their quotes.

ghost use Rattle.std.specs.Prelude.{◌≡◌, ◌++◌, ◌<◌, IsTrue, OnOk};
ghost use Rattle.std.specs.List.{flat_map};
ghost use Rattle.wy_text.specs.Values.{escaped, hex_digit, is_plain, letter, quoted, shown};

use std::alloc::AllocError;

/// Puts a text between its quotes.
#[tactic(auto, unfolding(crate::specs::Values::quoted))]
pub(crate) fn put_quoted(text: &mut Vec<u8>, units: &[u16]) -> Result<(), AllocError>
    ensures { OnOk result (text.new.items ≡ text.old.items ++ quoted units.now) }
{
    text.push(b'"')?;
    put_units(text, units)?;
    text.push(b'"')?;
    Ok(())
}

/// Puts a char between its quotes.
#[tactic(auto, unfolding(crate::specs::Values::letter))]
pub(crate) fn put_letter(text: &mut Vec<u8>, unit: u16) -> Result<(), AllocError>
    ensures { OnOk result (text.new.items ≡ text.old.items ++ letter unit) }
{
    text.push(b'\'')?;
    put_unit(text, unit)?;
    text.push(b'\'')?;
    Ok(())
}

fn put_units(text: &mut Vec<u8>, units: &[u16]) -> Result<(), AllocError>
    ensures { OnOk result (text.new.items ≡ text.old.items ++ flat_map shown units.now) }
{
    for unit in units {
        put_unit(text, *unit)?;
    }
    Ok(())
}

#[tactic(auto, unfolding(crate::specs::Values::shown))]
fn put_unit(text: &mut Vec<u8>, unit: u16) -> Result<(), AllocError>
    ensures { OnOk result (text.new.items ≡ text.old.items ++ shown unit) }
{
    if is_plain(unit) {
        text.push(unit as u8)?;
        return Ok(());
    }
    put_escaped(text, unit)
}

#[tactic(auto, unfolding(crate::specs::Values::is_plain))]
fn is_plain(unit: u16) -> bool
    ensures plain { result ≡ is_plain unit }
    ensures byte { IsTrue result → unit < 256 }
{
    32 <= unit && unit <= 126 && unit != 34 && unit != 39 && unit != 92
}

#[tactic(auto, unfolding(crate::specs::Values::escaped))]
fn put_escaped(text: &mut Vec<u8>, unit: u16) -> Result<(), AllocError>
    ensures { OnOk result (text.new.items ≡ text.old.items ++ escaped unit) }
{
    text.push(b'\\')?;
    text.push(b'u')?;
    text.push(hex_digit(unit / 4096))?;
    text.push(hex_digit(unit / 256 % 16))?;
    text.push(hex_digit(unit / 16 % 16))?;
    text.push(hex_digit(unit % 16))?;
    Ok(())
}

/// A hexadecimal digit in lower case.
#[tactic(auto, unfolding(crate::specs::Values::hex_digit))]
fn hex_digit(digit: u16) -> u8
    requires { digit < 16 }
    ensures { result ≡ hex_digit digit }
{
    if digit < 10 {
        48 + digit as u8
    } else {
        87 + digit as u8
    }
}
