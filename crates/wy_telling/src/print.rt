//! The bytes that the prints of a trace wrote.

ghost use Rattle.std.specs.Prelude.{◌≡◌, ◌++◌, ◌<◌, List, Some, IfOk, OnOk, slice_get};
ghost use Rattle.wy_event.specs.Record.{Recorded};
ghost use Rattle.wy_kernel.specs.Parts.{program_of};
ghost use Rattle.wy_kernel.specs.Program.{fixed_text};
ghost use Rattle.wy_meaning.specs.Text.{line_end};
ghost use Rattle.wy_telling.specs.Printed.{AreLineEnds, is_among, printed, printed_by, printed_units};
ghost use Rattle.wy_value.specs.Encoding.{utf8_of};
ghost use Rattle.wy_value.specs.Numeral.{has_text, text_of};
ghost use Rattle.wy_view.specs.References.{ValueBelow};
ghost use Rattle.wy_view.specs.View.{KeepsCounts, Keeps};

use crate::look::{facts_at, put_text_at};
use std::alloc::{AllocError, Global};
use std::marker::Model;
use std::sync::ledger::Ledger;
use wy_event::record::Kind;
use wy_kernel::program::Program;
use wy_payload::ranges::newlines;
use wy_value::{Value, digits, to_utf8};
use wy_view::{EventView, Steps, ViewError};

/// The sites of a program's prints that end a line.
#[derive(Drop)]
pub struct LineEnds {
    sites: Vec<u32>,
}

impl Model for LineEnds {
    ghost use Rattle.std.specs.Prelude.{IsSorted, List, ℕ};
    ghost use Rattle.std.specs.Ordering.{nat_cmp};

    ghost Value = { List ℕ };

    ghost view = { λ l. l.sites.items };

    ghost invariant = { λ l. IsSorted nat_cmp l.sites.items };
}

impl LineEnds {
    /// Those of this program.
    pub fn of(alloc: Global, program: &Program) -> Result<LineEnds, AllocError>
        ensures { IfOk result (λ ends. AreLineEnds (program_of program.now) ends) }
    {
        let mut sites = newlines(alloc, program)?;
        sites.sort_unstable();
        Ok(LineEnds { sites })
    }

    fn has(&self, site: u32) -> bool
        ensures { result ≡ is_among self.now site }
    {
        self.sites.binary_search(&site).is_ok()
    }
}

/// The bytes of all prints, in order.
pub(crate) fn printed<V: EventView, L: Ledger>(
    alloc: Global,
    program: &Program,
    view: &mut V,
    steps: &mut Steps<L>,
) -> Result<Vec<u8>, ViewError>
    ensures bytes { (rs : List Recorded) → (V.tells view.old).records ≡ Some rs
        → IfOk result (λ bytes. bytes.items ≡ printed (program_of program.now) rs) }
    ensures keeps { Keeps (V.tells view.old) (V.tells view.new) }
    ensures answers { KeepsCounts result (V.tells view.old) (V.tells view.new) }
{
    let ends = LineEnds::of(alloc, program)?;
    let mut bytes = Vec::new(alloc);
    for n in 0..view.count() {
        put_printed(alloc, &mut bytes, program, &ends, view, n, steps)?;
    }
    Ok(bytes)
}

/// What event n printed, behind what was printed before.
pub fn put_printed<V: EventView, L: Ledger>(
    alloc: Global,
    bytes: &mut Vec<u8>,
    program: &Program,
    ends: &LineEnds,
    view: &mut V,
    n: u32,
    steps: &mut Steps<L>,
) -> Result<(), ViewError>
    requires there { n < (V.tells view.old).count }
    ensures bytes { (rs : List Recorded) (e : Recorded) → (V.tells view.old).records ≡ Some rs
        → slice_get rs n ≡ Some e → AreLineEnds (program_of program.now) ends.now
        → OnOk result (bytes.new.items
        ≡ bytes.old.items ++ printed_by (program_of program.now) rs e) }
    ensures keeps { Keeps (V.tells view.old) (V.tells view.new) }
    ensures answers { KeepsCounts result (V.tells view.old) (V.tells view.new) }
{
    let event = facts_at(view, n, steps)?;
    match event.kind {
        Kind::Print => {
            put_units(alloc, bytes, program, view, event.value, steps)?;
            put_end(bytes, ends.has(event.site))?;
            Ok(())
        }
        _ => Ok(()),
    }
}

#[tactic(auto, unfolding(wy_meaning::specs::Text::line_end))]
fn put_end(bytes: &mut Vec<u8>, ends_line: bool) -> Result<(), AllocError>
    ensures { OnOk result (bytes.new.items ≡ bytes.old.items ++ line_end ends_line) }
{
    if ends_line {
        bytes.push(b'\n')?;
    }
    Ok(())
}

/// Puts the bytes of a printed value.
#[tactic(auto, unfolding(crate::specs::Printed::printed_units))]
fn put_units<V: EventView, L: Ledger>(
    alloc: Global,
    bytes: &mut Vec<u8>,
    program: &Program,
    view: &mut V,
    value: Value,
    steps: &mut Steps<L>,
) -> Result<(), ViewError>
    requires there { ValueBelow (V.tells view.old).count value }
    ensures bytes { (rs : List Recorded) → (V.tells view.old).records ≡ Some rs
        → OnOk result (bytes.new.items
        ≡ bytes.old.items ++ utf8_of (printed_units (program_of program.now) rs value)) }
    ensures keeps { Keeps (V.tells view.old) (V.tells view.new) }
    ensures answers { KeepsCounts result (V.tells view.old) (V.tells view.new) }
{
    match value {
        Value::Text(number) => put_text_at(alloc, bytes, view, number, steps),
        Value::Fixed(number) => {
            put_utf8(alloc, bytes, fixed_text(program, number))?;
            Ok(())
        }
        _ => {
            let units = plain_units(alloc, value)?;
            put_utf8(alloc, bytes, &units)?;
            Ok(())
        }
    }
}

fn put_utf8(alloc: Global, bytes: &mut Vec<u8>, units: &[u16]) -> Result<(), AllocError>
    ensures { OnOk result (bytes.new.items ≡ bytes.old.items ++ utf8_of units.now) }
{
    let own = to_utf8(alloc, units)?;
    bytes.extend_from_slice(own.as_slice())
}

/// The units of a constant text, and none where the program hasn't it.
fn fixed_text(program: &Program, number: u32) -> &[u16]
    ensures { result.now ≡ fixed_text (program_of program.now) number }
{
    if number as usize >= program.fixed_texts.len() {
        return &[];
    }
    program.fixed_text(number)
}

/// The units of a number, a truth, a char or null, and none of another value.
fn plain_units(alloc: Global, value: Value) -> Result<Vec<u16>, AllocError>
    ensures { IfOk result (λ units. units.items ≡ text_of value) }
{
    if !is_plain(value) {
        return Ok(Vec::new(alloc));
    }
    digits(alloc, value)
}

fn is_plain(value: Value) -> bool
    ensures { result ≡ has_text value }
{
    !matches!(
        value,
        Value::None | Value::Object(_) | Value::Text(_) | Value::Fixed(_) | Value::Arm(_)
    )
}
