//! The first pass: which slots are asked about.

ghost use Rattle.std.specs.Prelude.{◌≡◌, ◌<◌, ◌≤◌, ℕ, [], All, List, Some, IfOk, OnOk, length, slice_get};
ghost use Rattle.wy_event.specs.Record.{Recorded};
ghost use Rattle.wy_view.specs.Counts.{RoseAtMost};
ghost use Rattle.wy_view.specs.View.{KeepsCounts, Keeps, ReadsOnce};
ghost use Rattle.wy_cert.specs.declared.certificate.Listed.{Listed};
ghost use Rattle.wy_check.specs.Asking.{AreAsked, AreLinesAsked, AsksMore, IsUseAsked, uses_at};
ghost use Rattle.wy_check.specs.History.{HasSeen};

use crate::history::History;
use std::alloc::{AllocError, Global};
use std::sync::ledger::Ledger;
use wy_cert::Listed;
use wy_event::record::Use;
use wy_view::{EventView, Steps, ViewError};

/// Asks about the slot of a use, if it is of one.
fn ask_use(alloc: Global, history: &mut History, used: Use) -> Result<(), AllocError>
    ensures asked { OnOk result (IsUseAsked history.new used) }
    ensures more { OnOk result (AsksMore history.old history.new) }
{
    match used {
        Use::Place { slot, .. } => history.ask(alloc, slot),
        Use::Value { .. } | Use::Choice { .. } => Ok(()),
    }
}

/// Asks about the slots of uses.
fn ask_uses(alloc: Global, history: &mut History, uses: &[Use]) -> Result<(), AllocError>
    ensures asked { OnOk result (AreAsked history.new uses.now) }
    ensures more { OnOk result (AsksMore history.old history.new) }
{
    for used in uses {
        ask_use(alloc, history, *used)?;
    }
    Ok(())
}

/// Asks about what an event used.
fn ask_event<V: EventView, L: Ledger>(
    alloc: Global,
    view: &mut V,
    history: &mut History,
    n: u32,
    steps: &mut Steps<L>,
) -> Result<(), ViewError>
    requires { n < (V.tells view.old).count }
    ensures asked { (rs : List Recorded) → (V.tells view.old).records ≡ Some rs
        → OnOk result (AreAsked history.new (uses_at rs n)) }
    ensures more { OnOk result (AsksMore history.old history.new) }
    ensures keeps { Keeps (V.tells view.old) (V.tells view.new) }
    ensures reads { ReadsOnce (V.tells view.old) (V.tells view.new) }
    ensures answers { KeepsCounts result (V.tells view.old) (V.tells view.new) }
    ensures forward { steps.old ≤ steps.new }
{
    let event = view.event(n, steps)?;
    ask_uses(alloc, history, event.uses.as_slice())?;
    Ok(())
}

/// Asks about what the events of some lines used: one look at each.
pub(crate) fn ask_lines<V: EventView, L: Ledger>(
    alloc: Global,
    view: &mut V,
    lines: &[Listed],
    steps: &mut Steps<L>,
) -> Result<History, ViewError>
    requires { All (λ (l : Listed). l.event < (V.tells view.old).count) lines.now }
    ensures asked { (rs : List Recorded) → (V.tells view.old).records ≡ Some rs
        → IfOk result (λ history. AreLinesAsked history rs lines.now) }
    ensures seen { IfOk result (λ history. HasSeen history []) }
    ensures keeps { Keeps (V.tells view.old) (V.tells view.new) }
    ensures reads { RoseAtMost (length lines.now)
        (V.tells view.old).reads (V.tells view.new).reads }
    ensures answers { KeepsCounts result (V.tells view.old) (V.tells view.new) }
    ensures forward { steps.old ≤ steps.new }
{
    let mut history = History::new(alloc);
    for line in lines {
        ask_event(alloc, view, &mut history, line.event, steps)?;
    }
    Ok(history)
}
