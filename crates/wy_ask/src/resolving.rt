//! The event that a question asks about.

ghost use Rattle.std.specs.Prelude.{◌≡◌, ◌+◌, ◌<◌, ◌≤◌, ◌^◌, ℕ, List, IfOk, IfSome, Some, None, if◌then◌else◌, length, nat_lt, slice_get};
ghost use Rattle.wy_kernel.specs.Parts.{program_of};
ghost use Rattle.wy_event.specs.Record.{Recorded};
ghost use Rattle.wy_event.specs.declared.record.Slot.TheVariants as Slot;
ghost use Rattle.wy_index.specs.Found.{prints_in};
ghost use Rattle.wy_index.specs.Halving.{IsHalvings};
ghost use Rattle.wy_index.specs.Index.{IsIndexOf, owners_of};
ghost use Rattle.wy_ask.specs.Asked.{IsOf, Resolves, element_place, event_of, field_place, holder, number_in, static_place, stored};
ghost use Rattle.wy_ask.specs.Opened.{IsOpenedOf};
ghost use Rattle.wy_ask.specs.Questions.{asked};

use crate::field::{field_number, has_fields_of};
use crate::opened::Opened;
use crate::question::{AskError, Question};
use std::sync::ledger::Ledger;
use wy_event::record::Slot;
use wy_index::{Index, Made};
use wy_kernel::code::is_array;
use wy_kernel::program::Program;
use wy_view::{EventView, Steps};

/// The event that a question asks about.
pub fn resolve<V: EventView, L: Ledger>(
    question: &Question,
    opened: &Opened<'_, V>,
    steps: &mut Steps<L>,
) -> Result<u32, AskError>
    requires { IsOpenedOf (V.tells opened.now.view) opened.now }
    ensures event { (rs : List Recorded) → (V.tells opened.now.view).records ≡ Some rs
        → Resolves result (event_of (program_of opened.now.program.now) rs (asked question.now))
        (number_in (asked question.now)) }
    ensures below { IfOk result (λ event. event < (V.tells opened.now.view).count) }
    ensures forward { steps.old ≤ steps.new }
    ensures steps { (l : ℕ) → IsHalvings (length opened.now.index.postings) l
        → steps.new ≤ steps.old + (l + 1) }
{
    let count = opened.view.count();
    resolve_in(question, opened.program, &opened.index, count, steps)
}

/// The same by an index, in a trace of so many events.
fn resolve_in<L: Ledger>(
    question: &Question,
    program: &Program,
    index: &Index,
    count: u32,
    steps: &mut Steps<L>,
) -> Result<u32, AskError>
    requires { length program.now.fields.items < 2 ^ 32 }
    ensures event { (rs : List Recorded) → IsOf (program_of program.now) index.now count rs
        → Resolves result (event_of (program_of program.now) rs (asked question.now))
        (number_in (asked question.now)) }
    ensures below { (rs : List Recorded) → IsOf (program_of program.now) index.now count rs
        → IfOk result (λ event. event < count) }
    ensures forward { steps.old ≤ steps.new }
    ensures steps { (l : ℕ) → IsHalvings (length index.now.postings) l
        → steps.new ≤ steps.old + (l + 1) }
{
    match question {
        Question::Print(piece) => print(index, *piece).ok_or(AskError::NoSuch(*piece)),
        Question::Event(number) => event(*number, count).ok_or(AskError::NoSuch(*number)),
        Question::Static {
            class,
            field,
            moment,
        } => {
            let place = static_place(program, class, field);
            stored(index, place, *moment, count, steps).ok_or(AskError::NoSuch(*moment))
        }
        Question::Field {
            object,
            class,
            field,
            moment,
        } => {
            let place = field_place(program, index, *object, class, field, *moment);
            stored(index, place, *moment, count, steps).ok_or(AskError::NoSuch(*moment))
        }
        Question::Elem {
            array,
            index: element,
            moment,
        } => {
            let place = element_place(index, *array, *element, *moment);
            stored(index, place, *moment, count, steps).ok_or(AskError::NoSuch(*moment))
        }
        Question::Local {
            frame,
            index: local,
            moment,
        } => {
            let place = local_place(*frame, *local);
            stored(index, place, *moment, count, steps).ok_or(AskError::NoSuch(*moment))
        }
    }
}

fn print(index: &Index, piece: u32) -> Option<u32>
    ensures print { (rs : List Recorded) → IsIndexOf index.now rs
        → result ≡ slice_get (prints_in rs) piece }
    ensures below { (rs : List Recorded) → IsIndexOf index.now rs
        → IfSome result (λ event. event < length rs) }
{
    index.prints().get(piece as usize).copied()
}

fn event(number: u32, count: u32) -> Option<u32>
    ensures event { result ≡ (if nat_lt number count then Some number else None) }
    ensures below { IfSome result (λ event. event < count) }
{
    if number < count { Some(number) } else { None }
}

/// The last write of a place below a moment.
fn stored<L: Ledger>(
    index: &Index,
    place: Option<Slot>,
    moment: u32,
    count: u32,
    steps: &mut Steps<L>,
) -> Option<u32>
    ensures write { (rs : List Recorded) → IsIndexOf index.now rs → length rs ≡ count
        → result ≡ stored (owners_of index.now) rs place moment }
    ensures below { IfSome result (λ event. event < count) }
    ensures forward { steps.old ≤ steps.new }
    ensures steps { (l : ℕ) → IsHalvings (length index.now.postings) l
        → steps.new ≤ steps.old + (l + 1) }
{
    if moment > count {
        return None;
    }
    match place {
        Some(slot) => index.last_write(slot, moment, steps),
        None => None,
    }
}

/// What an event below a moment made.
fn holder(index: &Index, number: u32, moment: u32) -> Option<Made>
    ensures { (rs : List Recorded) → IsIndexOf index.now rs → result ≡ holder rs number moment }
{
    if number < moment {
        index.made(number)
    } else {
        None
    }
}

fn static_place(program: &Program, class: &str, field: &str) -> Option<Slot>
    requires { length program.now.fields.items < 2 ^ 32 }
    ensures { result ≡ static_place (program_of program.now) class.now field.now }
{
    let field = field_number(program, true, class, field)?;
    Some(Slot::Static { field })
}

fn field_place(
    program: &Program,
    index: &Index,
    object: u32,
    class: &str,
    field: &str,
    moment: u32,
) -> Option<Slot>
    requires { length program.now.fields.items < 2 ^ 32 }
    ensures { (rs : List Recorded) → IsIndexOf index.now rs → result
        ≡ field_place (program_of program.now) rs object class.now field.now moment }
{
    let made = holder(index, object, moment)?;
    let field = field_number(program, false, class, field)?;
    if has_fields_of(program, made.entity, program.field(field).class) {
        Some(Slot::Field { object, field })
    } else {
        None
    }
}

fn element_place(index: &Index, array: u32, element: u32, moment: u32) -> Option<Slot>
    ensures { (rs : List Recorded) → IsIndexOf index.now rs
        → result ≡ element_place rs array element moment }
{
    let made = holder(index, array, moment)?;
    if is_array(made.entity) && element < made.length {
        Some(Slot::Elem {
            array,
            index: element,
        })
    } else {
        None
    }
}

fn local_place(frame: u32, index: u32) -> Option<Slot>
    ensures { result ≡ Some (Slot.Local frame index) }
{
    Some(Slot::Local { frame, index })
}
