//! A view of a trace: its records by their numbers, one at a time.

ghost use Rattle.std.specs.Prelude.{◌≡◌, ◌+◌, ◌<◌, ◌^◌, IfOk, IfSome, length};
ghost use Rattle.wy_event.specs.Record.{recorded};
ghost use Rattle.wy_view.specs.References.{RefersBelow};

use crate::steps::Steps;
use std::alloc::AllocError;
use std::sync::ledger::Ledger;
use thiserror::Error;
use wy_event::record::Event;

/// Why a view gave no event.
#[derive(Clone, Copy, Debug, PartialEq, Eq, Error)]
pub enum ViewError {
    /// The trace could not be read.
    #[error("the trace could not be read")]
    ReadFault,
    /// There is no trace any more.
    #[error("the trace is gone")]
    Gone,
    /// A part of the trace isn't what it was: its digests then and now.
    #[error("block {block} of the trace has changed")]
    Changed {
        block: u32,
        kept: [u8; 32],
        found: [u8; 32],
    },
    #[error("out of memory")]
    NoMemory,
}

impl From<AllocError> for ViewError {
    ghost use Rattle.std.specs.Prelude.{◌≡◌};
    ghost use Rattle.wy_view.specs.declared.view.ViewError.TheVariants.{NoMemory};

    ghost from_gives = { λ _ error. error ≡ NoMemory };

    fn from(_error: AllocError) -> ViewError {
        ViewError::NoMemory
    }
}

/// The events of a trace. Each refers to earlier events alone, wherever it comes from.
pub trait EventView {
    ghost use Rattle.std.specs.Borrow.{sem};
    ghost use Rattle.std.specs.Prelude.{ℕ, Bool, is_ok};
    ghost use Rattle.wy_view.specs.View.{Told, Keeps, ReadsOnce, KeepsCounts, IsRecordOf, Rests};

    ghost tells: { Self → Told };

    /// What a look at event n leaves, by whether the event was given.
    ghost asked: { Self → ℕ → Bool → Self → Type 0 };

    /// How many events there are.
    fn count(&self) -> u32
        ensures count { result ≡ (tells self.now).count }
        ensures told { IfSome (tells self.now).records (λ rs. length rs ≡ (tells self.now).count) };

    /// Event n: one step.
    fn event<L: Ledger>(&mut self, n: u32, steps: &mut Steps<L>) -> Result<&Event, ViewError>
        requires { n < (tells self.old).count }
        ensures step { steps.new ≡ steps.old + 1 }
        ensures refers { IfOk result (λ event. RefersBelow n (recorded event.now)) }
        ensures record { IfOk result (λ event. IsRecordOf (tells self.old) n (recorded event.now)) }
        ensures* after { sem 𝓛 (Rests Self.row self.entry (λ now. Keeps (tells self.old) (tells now)
            × ReadsOnce (tells self.old) (tells now)
            × KeepsCounts result (tells self.old) (tells now)
            × asked self.old n (is_ok result) now)) };
}
