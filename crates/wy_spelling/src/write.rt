//! The parts of a frame, each put behind the bytes that stand already.

ghost use Rattle.std.specs.Prelude.{◌≡◌, ◌<◌, ◌^◌, ◌++◌, ◌∷◌, length, OnOk};
ghost use Rattle.std.specs.Int.{w16, w64, to_be_bytes};
ghost use Rattle.std.specs.List.{flat_map};
ghost use Rattle.wy_spelling.specs.Spelling.{arm_number, arm_tag, content_bytes, cover_bytes, number, slot_bytes, units_bytes, use_bytes, uses_bytes, value_bytes};

use std::alloc::AllocError;
use wy_event::record::{Cover, Kind, Slot, Use, Version};
use wy_value::Value;

pub fn put_number(out: &mut Vec<u8>, n: u32) -> Result<(), AllocError>
    ensures { OnOk result (out.new.items ≡ out.old.items ++ number n) }
{
    out.extend_from_slice(&n.to_be_bytes())
}

/// How many bytes, and the bytes.
pub fn put_bytes(out: &mut Vec<u8>, bytes: &[u8]) -> Result<(), AllocError>
    requires { length bytes.now < 2 ^ 32 }
    ensures { OnOk result (out.new.items
        ≡ out.old.items ++ (number (length bytes.now) ++ bytes.now)) }
{
    put_number(out, bytes.len() as u32)?;
    out.extend_from_slice(bytes)
}

/// A byte, and a number behind it.
pub fn put_tagged(out: &mut Vec<u8>, tag: u8, n: u32) -> Result<(), AllocError>
    ensures { OnOk result (out.new.items ≡ out.old.items ++ (tag ∷ number n)) }
{
    out.push(tag)?;
    put_number(out, n)
}

#[tactic(auto, unfolding(crate::specs::Spelling::slot_bytes))]
pub fn put_slot(out: &mut Vec<u8>, slot: Slot) -> Result<(), AllocError>
    ensures { OnOk result (out.new.items ≡ out.old.items ++ slot_bytes slot) }
{
    match slot {
        Slot::None => Ok(out.push(0)?),
        Slot::Local { frame, index } => {
            put_tagged(out, 1, frame)?;
            put_number(out, index)
        }
        Slot::Static { field } => put_tagged(out, 2, field),
        Slot::Field { object, field } => {
            put_tagged(out, 3, object)?;
            put_number(out, field)
        }
        Slot::Elem { array, index } => {
            put_tagged(out, 4, array)?;
            put_number(out, index)
        }
    }
}

fn put_short(out: &mut Vec<u8>, tag: u8, bits: u16) -> Result<(), AllocError>
    ensures { OnOk result (out.new.items ≡ out.old.items ++ (tag ∷ to_be_bytes w16 bits)) }
{
    out.push(tag)?;
    out.extend_from_slice(&bits.to_be_bytes())
}

fn put_long(out: &mut Vec<u8>, tag: u8, bits: u64) -> Result<(), AllocError>
    ensures { OnOk result (out.new.items ≡ out.old.items ++ (tag ∷ to_be_bytes w64 bits)) }
{
    out.push(tag)?;
    out.extend_from_slice(&bits.to_be_bytes())
}

fn put_arm(out: &mut Vec<u8>, version: Version, n: u32) -> Result<(), AllocError>
    ensures { OnOk result (out.new.items
        ≡ out.old.items ++ (arm_tag version ∷ arm_number version n)) }
{
    match version {
        Version::One => out.extend_from_slice(&[1, u8::from(n == 1)]),
        Version::Two => put_tagged(out, 12, n),
    }
}

#[tactic(auto, unfolding(crate::specs::Spelling::value_bytes))]
fn put_value(out: &mut Vec<u8>, version: Version, value: Value) -> Result<(), AllocError>
    ensures { OnOk result (out.new.items ≡ out.old.items ++ value_bytes version value) }
{
    match value {
        Value::None => Ok(out.push(0)?),
        Value::Bool(truth) => out.extend_from_slice(&[1, u8::from(truth)]),
        Value::Byte(n) => out.extend_from_slice(&[2, n.cast_unsigned()]),
        Value::Short(n) => put_short(out, 3, n.cast_unsigned()),
        Value::Char(unit) => put_short(out, 4, unit),
        Value::Int(n) => put_tagged(out, 5, n.cast_unsigned()),
        Value::Long(n) => put_long(out, 6, n.cast_unsigned()),
        Value::Null => Ok(out.push(7)?),
        Value::Object(n) => put_tagged(out, 8, n),
        Value::Text(n) => put_tagged(out, 9, n),
        Value::Fixed(n) => put_tagged(out, 10, n),
        Value::Arm(n) => put_arm(out, version, n),
    }
}

fn put_each_unit(out: &mut Vec<u8>, units: &[u16]) -> Result<(), AllocError>
    ensures { OnOk result (out.new.items ≡ out.old.items ++ flat_map (to_be_bytes w16) units.now) }
{
    for unit in units {
        out.extend_from_slice(&unit.to_be_bytes())?;
    }
    Ok(())
}

#[tactic(auto, using(crate::proofs::Lengths::units_are_few), unfolding(crate::specs::Spelling::units_bytes))]
fn put_units(out: &mut Vec<u8>, units: &[u16]) -> Result<(), AllocError>
    requires { length (units_bytes units.now) < 2 ^ 32 }
    ensures { OnOk result (out.new.items ≡ out.old.items ++ units_bytes units.now) }
{
    put_tagged(out, 11, units.len() as u32)?;
    put_each_unit(out, units)
}

/// The value of an event, or the units of one that is a Text.
pub fn put_content(
    out: &mut Vec<u8>,
    version: Version,
    kind: Kind,
    value: Value,
    units: &[u16],
) -> Result<(), AllocError>
    requires { length (content_bytes version kind value units.now) < 2 ^ 32 }
    ensures { OnOk result (out.new.items
        ≡ out.old.items ++ content_bytes version kind value units.now) }
{
    match kind {
        Kind::Text => put_units(out, units),
        _ => put_value(out, version, value),
    }
}

#[tactic(auto, unfolding(crate::specs::Spelling::use_bytes))]
fn put_use(out: &mut Vec<u8>, used: Use) -> Result<(), AllocError>
    ensures { OnOk result (out.new.items ≡ out.old.items ++ use_bytes used) }
{
    match used {
        Use::Place { slot, moment } => {
            out.push(1)?;
            put_slot(out, slot)?;
            put_number(out, moment)
        }
        Use::Value { event } => put_tagged(out, 2, event),
        Use::Choice { event } => put_tagged(out, 3, event),
    }
}

fn put_each_use(out: &mut Vec<u8>, uses: &[Use]) -> Result<(), AllocError>
    ensures { OnOk result (out.new.items ≡ out.old.items ++ flat_map use_bytes uses.now) }
{
    for used in uses {
        put_use(out, *used)?;
    }
    Ok(())
}

#[tactic(auto, using(crate::proofs::Lengths::uses_are_few), unfolding(crate::specs::Spelling::uses_bytes))]
pub fn put_uses(out: &mut Vec<u8>, uses: &[Use]) -> Result<(), AllocError>
    requires { length (uses_bytes uses.now) < 2 ^ 32 }
    ensures { OnOk result (out.new.items ≡ out.old.items ++ uses_bytes uses.now) }
{
    put_number(out, uses.len() as u32)?;
    put_each_use(out, uses)
}

#[tactic(auto, unfolding(crate::specs::Spelling::cover_bytes))]
fn put_cover(out: &mut Vec<u8>, cover: &Cover) -> Result<(), AllocError>
    ensures { OnOk result (out.new.items ≡ out.old.items ++ cover_bytes cover.now) }
{
    put_number(out, cover.begins)?;
    put_number(out, cover.ends)?;
    put_number(out, cover.first)?;
    put_number(out, cover.cause)
}

pub fn put_each_cover(out: &mut Vec<u8>, covers: &[Cover]) -> Result<(), AllocError>
    ensures { OnOk result (out.new.items ≡ out.old.items ++ flat_map cover_bytes covers.now) }
{
    for cover in covers {
        put_cover(out, cover)?;
    }
    Ok(())
}
