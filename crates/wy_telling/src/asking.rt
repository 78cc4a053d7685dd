//! The event that a text asks about.

ghost use Rattle.std.specs.Prelude.{◌≡◌, ◌<◌, List, Some, IfOk, IfSome};
ghost use Rattle.wy_ask.specs.Asked.{event_of, number_in};
ghost use Rattle.wy_ask.specs.Opened.{IsOpenedOf};
ghost use Rattle.wy_ask.specs.Questions.{asked};
ghost use Rattle.wy_event.specs.Record.{Recorded};
ghost use Rattle.wy_kernel.specs.Parts.{program_of};
ghost use Rattle.wy_telling.specs.Untelling.{FindsAsked, HasCause};

use crate::untold::Untold;
use std::alloc::Global;
use std::marker::Brand;
use std::sync::ledger::{Blank, Ledger};
use wy_ask::{Opened, Question, read_question, resolve};
use wy_view::{EventView, Steps};

/// The event that a text asks about, over any view of a trace.
pub fn asked_event<V: EventView>(
    alloc: Global,
    opened: &Opened<'_, V>,
    text: &str,
) -> Result<u32, Untold>
    requires { IsOpenedOf (V.tells opened.now.view) opened.now }
    ensures found { (rs : List Recorded) → (V.tells opened.now.view).records ≡ Some rs
        → FindsAsked (program_of opened.now.program.now) rs text.now result }
    ensures cause { HasCause text.now result
        (V.tells opened.now.view) (V.tells opened.now.view) }
    ensures there { IfOk result (λ event. event < (V.tells opened.now.view).count) }
{
    let question = read_question(alloc, text)?;
    match resolved::<V, Brand>(opened, &question, Blank::new(1)) {
        Some(event) => Ok(event),
        None => Err(Untold::NoSuch(number_in(&question))),
    }
}

/// The event of a question, where it is there; with a ledger for the steps, which nobody reads.
fn resolved<V: EventView, L: Ledger>(
    opened: &Opened<'_, V>,
    question: &Question,
    blank: Blank,
) -> Option<u32>
    requires opened { IsOpenedOf (V.tells opened.now.view) opened.now }
    requires name { blank.name ≡ L.name }
    requires parts { blank.parts ≡ L.parts }
    requires some { 0 < blank.parts }
    ensures event { (rs : List Recorded) → (V.tells opened.now.view).records ≡ Some rs
        → result ≡ event_of (program_of opened.now.program.now) rs (asked question.now) }
    ensures there { IfSome result (λ event. event < (V.tells opened.now.view).count) }
{
    resolve(question, opened, &mut Steps::<L>::new(blank)).ok()
}

/// The number that a refusal of a question names.
fn number_in(question: &Question) -> u32
    ensures { result ≡ number_in (asked question.now) }
{
    match question {
        Question::Print(piece) => *piece,
        Question::Event(number) => *number,
        Question::Static { moment, .. } => *moment,
        Question::Field { moment, .. } => *moment,
        Question::Elem { moment, .. } => *moment,
        Question::Local { moment, .. } => *moment,
    }
}
