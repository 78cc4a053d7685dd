//! The line of an event.

ghost use Rattle.std.specs.Prelude.{◌≡◌, ◌++◌, ◌+◌, ◌<◌, ◌≤◌, ℕ, Bool, List, Some, IfOk, OnOk, codes, length};
ghost use Rattle.wy_event.specs.Record.{Recorded};
ghost use Rattle.wy_kernel.specs.View.{present};
ghost use Rattle.wy_kernel.specs.Parts.{program_of};
ghost use Rattle.wy_kernel.specs.Program as parts;
ghost use Rattle.wy_text.specs.EventLines.{deed, equation, event_line, given, led, line_with, made_text, star, subject, verb, where_at};
ghost use Rattle.wy_text.specs.Names.{numbered};
ghost use Rattle.wy_text.specs.Places.{slot_text};
ghost use Rattle.wy_text.specs.Values.{value_text};
ghost use Rattle.wy_text.specs.EndLines.{line_of};
ghost use Rattle.wy_view.specs.References.{SlotBelow, ValueBelow};
ghost use Rattle.wy_view.specs.View.{KeepsCounts, Keeps};

use crate::name::{put_made_name, put_method_name, put_number};
use crate::slot::put_slot;
use crate::value::put_value;
use crate::{put_class_name, put_place};
use std::alloc::AllocError;
use std::sync::ledger::Ledger;
use wy_event::record::{Kind, Slot};
use wy_kernel::program::Program;
use wy_value::Value;
use wy_view::{EventView, Steps, ViewError};

/// What a line says of an event, without the texts of its place and its value.
#[derive(Clone, Copy)]
struct Facts {
    kind: Kind,
    site: u32,
    entity: u32,
    slot: Slot,
    value: Value,
}

/// Puts the line of an event, with a star where it is marked.
pub fn put_event_line<V: EventView, L: Ledger>(
    out: &mut Vec<u8>,
    program: &Program,
    view: &mut V,
    event: u32,
    marked: bool,
    steps: &mut Steps<L>,
) -> Result<(), ViewError>
    requires there { event < (V.tells view.old).count }
    ensures line { (rs : List Recorded) → (V.tells view.old).records ≡ Some rs
        → OnOk result (out.new.items ≡ out.old.items
        ++ event_line (program_of program.now) program.now.lines.items rs event marked) }
    ensures keeps { Keeps (V.tells view.old) (V.tells view.new) }
    ensures answers { KeepsCounts result (V.tells view.old) (V.tells view.new) }
    ensures steps { steps.new ≤ steps.old + 3 }
{
    let facts = facts_at(view, event, steps)?;
    put_front(out, program, event, facts.site)?;
    put_deed(out, program, view, facts, steps)?;
    put_end(out, marked)?;
    Ok(())
}

/// What the line of event n says.
fn facts_at<V: EventView, L: Ledger>(
    view: &mut V,
    n: u32,
    steps: &mut Steps<L>,
) -> Result<Facts, ViewError>
    requires there { n < (V.tells view.old).count }
    ensures line { (rs : List Recorded) → (V.tells view.old).records ≡ Some rs
        → IfOk result (λ f. (p : parts.Program) (lines : List ℕ) (marked : Bool)
        → line_with lines n f.site (deed p f.kind (present f.entity)
        (slot_text p rs f.slot) (value_text p rs f.value)) marked
        ≡ event_line p lines rs n marked) }
    ensures slot { IfOk result (λ f. SlotBelow (V.tells view.old).count f.slot) }
    ensures value { IfOk result (λ f. ValueBelow (V.tells view.old).count f.value) }
    ensures keeps { Keeps (V.tells view.old) (V.tells view.new) }
    ensures answers { KeepsCounts result (V.tells view.old) (V.tells view.new) }
    ensures step { steps.new ≡ steps.old + 1 }
{
    let event = view.event(n, steps)?;
    Ok(Facts {
        kind: event.kind,
        site: event.site,
        entity: event.entity,
        slot: event.slot,
        value: given(event.kind, n, event.value),
    })
}

/// A Text gives the text that it made.
#[tactic(auto, unfolding(crate::specs::EventLines::given))]
fn given(kind: Kind, n: u32, value: Value) -> Value
    ensures { result ≡ given kind n value }
{
    match kind {
        Kind::Text => Value::Text(n),
        _ => value,
    }
}

/// Puts what an event did.
#[tactic(auto, unfolding(crate::specs::EventLines::deed))]
fn put_deed<V: EventView, L: Ledger>(
    out: &mut Vec<u8>,
    program: &Program,
    view: &mut V,
    facts: Facts,
    steps: &mut Steps<L>,
) -> Result<(), ViewError>
    requires slot { SlotBelow (V.tells view.old).count facts.slot }
    requires value { ValueBelow (V.tells view.old).count facts.value }
    ensures deed { (rs : List Recorded) → (V.tells view.old).records ≡ Some rs
        → OnOk result (out.new.items ≡ out.old.items
        ++ deed (program_of program.now) facts.kind (present facts.entity)
        (slot_text (program_of program.now) rs facts.slot)
        (value_text (program_of program.now) rs facts.value)) }
    ensures keeps { Keeps (V.tells view.old) (V.tells view.new) }
    ensures answers { KeepsCounts result (V.tells view.old) (V.tells view.new) }
    ensures steps { steps.new ≤ steps.old + 2 }
{
    out.extend_from_slice(verb(facts.kind).as_bytes())?;
    let end = out.len();
    out.extend_from_slice(" ".as_bytes())?;
    put_subject(out, program, view, facts, steps)?;
    lead(out, end, " ");
    Ok(())
}

/// Takes away what leads to a text behind so many bytes, where no text came.
#[tactic(auto, using(crate::proofs::Leading::taken_away, crate::proofs::Leading::left_there))]
fn lead(out: &mut Vec<u8>, end: usize, before: &str)
    ensures { (front text : List ℕ) → length front ≡ end
        → out.old.items ≡ front ++ (before.now ++ text)
        → out.new.items ≡ front ++ led before.now text }
{
    if out.len().saturating_sub(end) == before.len() {
        out.truncate(end);
    }
}

#[tactic(auto, unfolding(crate::specs::EventLines::verb))]
fn verb(kind: Kind) -> &'static str
    ensures { result.now ≡ verb kind }
{
    match kind {
        Kind::Init => "init",
        Kind::New => "new",
        Kind::Call => "call",
        Kind::Bind => "bind",
        Kind::Set => "set",
        Kind::Test => "test",
        Kind::Text => "text",
        Kind::Read => "read",
        Kind::Print => "print",
        Kind::Return => "return",
        Kind::Jump => "jump",
        Kind::Throw => "throw",
        Kind::Catch => "catch",
    }
}

/// Puts what an event is about.
#[tactic(auto, unfolding(crate::specs::EventLines::subject))]
fn put_subject<V: EventView, L: Ledger>(
    out: &mut Vec<u8>,
    program: &Program,
    view: &mut V,
    facts: Facts,
    steps: &mut Steps<L>,
) -> Result<(), ViewError>
    requires slot { SlotBelow (V.tells view.old).count facts.slot }
    requires value { ValueBelow (V.tells view.old).count facts.value }
    ensures subject { (rs : List Recorded) → (V.tells view.old).records ≡ Some rs
        → OnOk result (out.new.items ≡ out.old.items
        ++ subject (program_of program.now) facts.kind (present facts.entity)
        (slot_text (program_of program.now) rs facts.slot)
        (value_text (program_of program.now) rs facts.value)) }
    ensures keeps { Keeps (V.tells view.old) (V.tells view.new) }
    ensures answers { KeepsCounts result (V.tells view.old) (V.tells view.new) }
    ensures steps { steps.new ≤ steps.old + 2 }
{
    match facts.kind {
        Kind::Init => {
            put_class_name(out, program, facts.entity)?;
            Ok(())
        }
        Kind::New => put_made(out, program, view, facts, steps),
        Kind::Call => {
            put_method_name(out, program, facts.entity)?;
            Ok(())
        }
        Kind::Bind => put_equation(out, program, view, facts, steps),
        Kind::Set => put_equation(out, program, view, facts, steps),
        Kind::Catch => put_equation(out, program, view, facts, steps),
        _ => put_value(out, program, view, facts.value, steps),
    }
}

/// Puts the type that a New made, and an array's length.
#[tactic(auto, unfolding(crate::specs::EventLines::made_text))]
fn put_made<V: EventView, L: Ledger>(
    out: &mut Vec<u8>,
    program: &Program,
    view: &mut V,
    facts: Facts,
    steps: &mut Steps<L>,
) -> Result<(), ViewError>
    requires value { ValueBelow (V.tells view.old).count facts.value }
    ensures made { (rs : List Recorded) → (V.tells view.old).records ≡ Some rs
        → OnOk result (out.new.items ≡ out.old.items
        ++ made_text (program_of program.now) (present facts.entity)
        (value_text (program_of program.now) rs facts.value)) }
    ensures keeps { Keeps (V.tells view.old) (V.tells view.new) }
    ensures answers { KeepsCounts result (V.tells view.old) (V.tells view.new) }
    ensures steps { steps.new ≤ steps.old + 2 }
{
    put_made_name(out, program, facts.entity)?;
    let end = out.len();
    out.extend_from_slice(" length ".as_bytes())?;
    put_value(out, program, view, facts.value, steps)?;
    lead(out, end, " length ");
    Ok(())
}

/// Puts a place and the value that it got.
#[tactic(auto, unfolding(crate::specs::EventLines::equation))]
fn put_equation<V: EventView, L: Ledger>(
    out: &mut Vec<u8>,
    program: &Program,
    view: &mut V,
    facts: Facts,
    steps: &mut Steps<L>,
) -> Result<(), ViewError>
    requires slot { SlotBelow (V.tells view.old).count facts.slot }
    requires value { ValueBelow (V.tells view.old).count facts.value }
    ensures equation { (rs : List Recorded) → (V.tells view.old).records ≡ Some rs
        → OnOk result (out.new.items ≡ out.old.items
        ++ equation (slot_text (program_of program.now) rs facts.slot)
        (value_text (program_of program.now) rs facts.value)) }
    ensures keeps { Keeps (V.tells view.old) (V.tells view.new) }
    ensures answers { KeepsCounts result (V.tells view.old) (V.tells view.new) }
    ensures steps { steps.new ≤ steps.old + 2 }
{
    put_slot(out, program, view, facts.slot, steps)?;
    out.extend_from_slice(" = ".as_bytes())?;
    put_value(out, program, view, facts.value, steps)?;
    Ok(())
}

/// Puts the number of an event, and where it is in the text.
#[tactic(auto, unfolding(crate::specs::EventLines::where_at))]
fn put_front(out: &mut Vec<u8>, program: &Program, event: u32, site: u32) -> Result<(), AllocError>
    ensures { OnOk result (out.new.items ≡ out.old.items ++ (numbered event
        ++ (codes " " ++ (where_at program.now.lines.items site ++ codes " ")))) }
{
    put_number(out, event)?;
    out.push(b' ')?;
    put_place(out, program, site)?;
    out.push(b' ')?;
    Ok(())
}

/// Ends a line.
fn put_end(out: &mut Vec<u8>, marked: bool) -> Result<(), AllocError>
    ensures { OnOk result (out.new.items ≡ out.old.items ++ line_of (star marked)) }
{
    out.extend_from_slice(star(marked).as_bytes())?;
    out.push(b'\n')?;
    Ok(())
}

#[tactic(auto, unfolding(crate::specs::EventLines::star))]
fn star(marked: bool) -> &'static str
    ensures { result.now ≡ star marked }
{
    if marked { " *" } else { "" }
}
