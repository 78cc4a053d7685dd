//! What can be asked about a trace, line by line, in the words that ask it.

ghost use Rattle.std.specs.Prelude.{◌≡◌, ◌++◌, ◌<◌, All, List, Some, IfOk, OnOk};
ghost use Rattle.std.specs.List.{flat_map};
ghost use Rattle.wy_ask.specs.Listing.{IsListedBelow};
ghost use Rattle.wy_ask.specs.Opened.{IsOpenedOf, StaysOpened};
ghost use Rattle.wy_event.specs.Record.{Recorded};
ghost use Rattle.wy_kernel.specs.Parts.{program_of};
ghost use Rattle.wy_telling.specs.Questions.{field_at, listed_line, piece_line, never_line, questions_text, slot_question, stored_line};
ghost use Rattle.wy_view.specs.View.{KeepsCounts, Keeps};

use std::alloc::{AllocError, Global};
use std::marker::Brand;
use std::sync::ledger::{Blank, Ledger};
use wy_ask::{Listed, Opened, questions};
use wy_event::record::Slot;
use wy_kernel::program::Program;
use wy_text::{put_event_line, put_field_name, put_value};
use wy_view::{EventView, Steps, ViewError};

/// What can be asked about a trace: a line for each.
pub fn questions_text<V: EventView>(
    alloc: Global,
    opened: &mut Opened<'_, V>,
) -> Result<Vec<u8>, ViewError>
    requires { IsOpenedOf (V.tells opened.old.view) opened.old }
    ensures lines { (rs : List Recorded) → (V.tells opened.old.view).records ≡ Some rs
        → IfOk result (λ text. text.items ≡ questions_text (program_of opened.old.program.now)
        opened.old.program.now.lines.items rs opened.old.coverage.now) }
    ensures stays { StaysOpened V.tells opened.old opened.new }
    ensures answers { KeepsCounts result (V.tells opened.old.view) (V.tells opened.new.view) }
{
    all_lines::<V, Brand>(alloc, opened, Blank::new(1))
}

/// The same, with a ledger for the steps, which nobody reads.
fn all_lines<V: EventView, L: Ledger>(
    alloc: Global,
    opened: &mut Opened<'_, V>,
    blank: Blank,
) -> Result<Vec<u8>, ViewError>
    requires opened { IsOpenedOf (V.tells opened.old.view) opened.old }
    requires name { blank.name ≡ L.name }
    requires parts { blank.parts ≡ L.parts }
    requires some { 0 < blank.parts }
    ensures lines { (rs : List Recorded) → (V.tells opened.old.view).records ≡ Some rs
        → IfOk result (λ text. text.items ≡ questions_text (program_of opened.old.program.now)
        opened.old.program.now.lines.items rs opened.old.coverage.now) }
    ensures stays { StaysOpened V.tells opened.old opened.new }
    ensures answers { KeepsCounts result (V.tells opened.old.view) (V.tells opened.new.view) }
{
    let mut steps = Steps::<L>::new(blank);
    let listed = questions(alloc, opened, &mut steps)?;
    let Opened { program, view, .. } = opened;
    listed_lines(alloc, program, view, listed.as_slice(), &mut steps)
}

fn listed_lines<V: EventView, L: Ledger>(
    alloc: Global,
    program: &Program,
    view: &mut V,
    listed: &[Listed],
    steps: &mut Steps<L>,
) -> Result<Vec<u8>, ViewError>
    requires below { All (IsListedBelow (V.tells view.old).count) listed.now }
    ensures lines { (rs : List Recorded) → (V.tells view.old).records ≡ Some rs
        → IfOk result (λ text. text.items ≡ flat_map (listed_line (program_of program.now)
        program.now.lines.items rs) listed.now) }
    ensures keeps { Keeps (V.tells view.old) (V.tells view.new) }
    ensures answers { KeepsCounts result (V.tells view.old) (V.tells view.new) }
{
    let mut text = Vec::new(alloc);
    for one in listed {
        put_listed(alloc, &mut text, program, view, one, steps)?;
    }
    Ok(text)
}

fn put_listed<V: EventView, L: Ledger>(
    alloc: Global,
    text: &mut Vec<u8>,
    program: &Program,
    view: &mut V,
    listed: &Listed,
    steps: &mut Steps<L>,
) -> Result<(), ViewError>
    requires below { IsListedBelow (V.tells view.old).count listed.now }
    ensures line { (rs : List Recorded) → (V.tells view.old).records ≡ Some rs
        → OnOk result (text.new.items ≡ text.old.items
        ++ listed_line (program_of program.now) program.now.lines.items rs listed.now) }
    ensures keeps { Keeps (V.tells view.old) (V.tells view.new) }
    ensures answers { KeepsCounts result (V.tells view.old) (V.tells view.new) }
{
    let line = listed_line(alloc, program, view, listed, steps)?;
    text.extend_from_slice(line.as_slice())?;
    Ok(())
}

/// The line of what can be asked.
#[tactic(auto, unfolding(crate::specs::Questions::listed_line))]
pub fn listed_line<V: EventView, L: Ledger>(
    alloc: Global,
    program: &Program,
    view: &mut V,
    listed: &Listed,
    steps: &mut Steps<L>,
) -> Result<Vec<u8>, ViewError>
    requires below { IsListedBelow (V.tells view.old).count listed.now }
    ensures line { (rs : List Recorded) → (V.tells view.old).records ≡ Some rs
        → IfOk result (λ line. line.items ≡ listed_line (program_of program.now)
        program.now.lines.items rs listed.now) }
    ensures keeps { Keeps (V.tells view.old) (V.tells view.new) }
    ensures answers { KeepsCounts result (V.tells view.old) (V.tells view.new) }
{
    match *listed {
        Listed::Printed { piece, event } => {
            let mut line = Vec::new(alloc);
            put_event_line(&mut line, program, view, event, false, steps)?;
            Ok(piece_line(alloc, piece, line.as_slice())?)
        }
        Listed::Stored {
            slot,
            moment,
            value,
        } => {
            let mut text = Vec::new(alloc);
            put_value(&mut text, program, view, value, steps)?;
            Ok(stored_line(alloc, program, slot, moment, text.as_slice())?)
        }
        Listed::Never { line, place } => Ok(never_line(alloc, line, place)?),
    }
}

#[tactic(auto, unfolding(crate::specs::Questions::piece_line))]
fn piece_line(alloc: Global, piece: u32, line: &[u8]) -> Result<Vec<u8>, AllocError>
    ensures { IfOk result (λ text. text.items ≡ piece_line piece line.now) }
{
    let mut text = format!(in alloc; "p{piece} ")?.into_bytes();
    text.extend_from_slice(line)?;
    Ok(text)
}

#[tactic(auto, unfolding(crate::specs::Questions::stored_line))]
fn stored_line(
    alloc: Global,
    program: &Program,
    slot: Slot,
    moment: u32,
    value: &[u8],
) -> Result<Vec<u8>, AllocError>
    ensures { IfOk result (λ text. text.items
        ≡ stored_line (slot_question (program_of program.now) slot moment) value.now) }
{
    let mut text = slot_question(alloc, program, slot, moment)?;
    text.extend_from_slice(" = ".as_bytes())?;
    text.extend_from_slice(value)?;
    text.push(b'\n')?;
    Ok(text)
}

/// The word that asks what a field holds at a moment.
#[tactic(auto, unfolding(crate::specs::Questions::slot_question))]
fn slot_question(
    alloc: Global,
    program: &Program,
    slot: Slot,
    moment: u32,
) -> Result<Vec<u8>, AllocError>
    ensures { IfOk result (λ word. word.items
        ≡ slot_question (program_of program.now) slot moment) }
{
    match slot {
        Slot::Static { field } => {
            let mut word = Vec::from_slice(alloc, "static:".as_bytes())?;
            let part = field_at(alloc, program, field, moment)?;
            word.extend_from_slice(part.as_slice())?;
            Ok(word)
        }
        Slot::Field { object, field } => {
            let mut word = format!(in alloc; "field:{object}:")?.into_bytes();
            let part = field_at(alloc, program, field, moment)?;
            word.extend_from_slice(part.as_slice())?;
            Ok(word)
        }
        _ => Ok(Vec::new(alloc)),
    }
}

#[tactic(auto, unfolding(crate::specs::Questions::field_at))]
fn field_at(
    alloc: Global,
    program: &Program,
    field: u32,
    moment: u32,
) -> Result<Vec<u8>, AllocError>
    ensures { IfOk result (λ text. text.items ≡ field_at (program_of program.now) field moment) }
{
    let mut text = Vec::new(alloc);
    put_field_name(&mut text, program, field)?;
    let at = format!(in alloc; "@{moment}")?;
    text.extend_from_slice(at.as_bytes())?;
    Ok(text)
}

#[tactic(auto, unfolding(crate::specs::Questions::never_line))]
fn never_line(alloc: Global, line: u32, place: u32) -> Result<Vec<u8>, AllocError>
    ensures { IfOk result (λ text. text.items ≡ never_line line place) }
{
    let text = format!(in alloc; "whynot {line}.{place}\n")?;
    Ok(text.into_bytes())
}
