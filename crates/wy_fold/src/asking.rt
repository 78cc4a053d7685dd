//! The event that is asked about.
ghost use Rattle.std.specs.Prelude.{◌≡◌, ◌<◌, None, IfOk, length, map};
ghost use Rattle.wy_ask.specs.Asked.{Resolves, event_of, number_in};
ghost use Rattle.wy_ask.specs.Opened.{IsOpenedOf};
ghost use Rattle.wy_ask.specs.Questions.{asked};
ghost use Rattle.wy_event.specs.Record.{recorded};
ghost use Rattle.wy_fold.specs.Asked.{FindsAsked};
ghost use Rattle.wy_fold.specs.Stops.{StopsAt, stop_at};
ghost use Rattle.wy_kernel.specs.Parts.{program_of};
ghost use Rattle.wy_kernel.specs.View.{present};
ghost use Rattle.wy_view.specs.Whole.{whole};

use std::alloc::Global;
use std::marker::Brand;
use std::sync::ledger::{Blank, Ledger};
use wy_ask::{AskError, Opened, Question, read_question, resolve};
use wy_event::record::Tail;
use wy_kernel::types::NONE;
use wy_view::{MemoryView, Steps};

/// The event that a text asks about.
pub fn asked_event(
    alloc: Global,
    opened: &Opened<'_, MemoryView>,
    text: &str,
) -> Result<u32, AskError>
    requires { IsOpenedOf (whole opened.now.view.events.items None) opened.now }
    ensures found { FindsAsked (program_of opened.now.program.now)
        (map recorded opened.now.view.events.items) text.now result }
    ensures there { IfOk result (λ event. event < length opened.now.view.events.items) }
{
    let question = read_question(alloc, text)?;
    resolved::<Brand>(opened, &question, Blank::new(1))
}

/// The event that a question asks about, with a ledger for the steps, which nobody reads.
fn resolved<L: Ledger>(
    opened: &Opened<'_, MemoryView>,
    question: &Question,
    blank: Blank,
) -> Result<u32, AskError>
    requires opened { IsOpenedOf (whole opened.now.view.events.items None) opened.now }
    requires name { blank.name ≡ L.name }
    requires parts { blank.parts ≡ L.parts }
    requires some { 0 < blank.parts }
    ensures event { Resolves result (event_of (program_of opened.now.program.now)
        (map recorded opened.now.view.events.items) (asked question.now))
        (number_in (asked question.now)) }
    ensures there { IfOk result (λ event. event < length opened.now.view.events.items) }
{
    resolve(question, opened, &mut Steps::<L>::new(blank))
}

/// The Throw that ended a run, else the last of so many events.
#[tactic(auto, unfolding(wy_kernel::specs::View::present))]
fn stop_at(last: u32, count: u32) -> u32
    ensures { result ≡ stop_at (present last) count }
{
    if last == NONE {
        return count.saturating_sub(1);
    }
    last
}

/// The event at which a run of so many events stopped; None where it has none.
pub fn stop_event(tail: &Tail, count: u32) -> Option<u32>
    ensures { StopsAt tail.now.last count result }
{
    let event = stop_at(tail.last, count);
    if event < count { Some(event) } else { None }
}
