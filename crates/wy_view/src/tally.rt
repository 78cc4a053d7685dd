//! A trace that is held whole, and counts how often it was looked at.

ghost use Rattle.std.specs.Prelude.{◌<◌, ◌^◌, vec_len};
ghost use Rattle.wy_view.specs.References.{AllRefersBelow, AllRefersBelow-prop};

use crate::steps::Steps;
use crate::view::{EventView, ViewError};
use std::sync::ledger::Ledger;
use wy_event::record::Event;

/// Events in memory, with the number of those that were asked for. It refuses nothing and takes no memory.
#[derive(Drop)]
pub struct TallyView {
    pub events: Vec<Event>,
    pub reads: u64,
    pub ghost few: { vec_len events < 2 ^ 32 },
    pub ghost refer_below: { AllRefersBelow events.items } by { AllRefersBelow-prop events.items },
}

impl EventView for TallyView {
    ghost use Rattle.std.specs.Borrow.{sem};
    ghost use Rattle.std.specs.Prelude.{Some, None, length, ◌<◌, ◌≡◌, ◌+◌, IfOk, IsOk, ⊤};
    ghost use Rattle.wy_event.specs.Record.{recorded};
    ghost use Rattle.wy_view.specs.References.{RefersBelow};
    ghost use Rattle.wy_view.specs.View.{KeepsCounts, IsRecordOf, Keeps, ReadsOnce, Rests};
    ghost use Rattle.wy_view.specs.Whole.{whole};
    ghost use Rattle.wy_view.specs.contracts.tally.TallyView.{the_row};

    ghost tells = { λ v. whole v.events.items (Some v.reads) };

    ghost asked = { λ _ _ _ _. ⊤ };

    fn count(&self) -> u32 {
        self.events.len() as u32
    }

    fn event<L: Ledger>(&mut self, n: u32, steps: &mut Steps<L>) -> Result<&Event, ViewError>
        requires { n < length self.old.events.items }
        ensures ok { IsOk result }
        ensures step { steps.new ≡ steps.old + 1 }
        ensures refers { IfOk result (λ event. RefersBelow n (recorded event.now)) }
        ensures record { IfOk result (λ event.
            IsRecordOf (whole self.old.events.items (Some self.old.reads)) n (recorded event.now)) }
        ensures* after { sem 𝓛 (Rests the_row self.entry (λ now.
            let before = whole self.old.events.items (Some self.old.reads) in
            let after = whole now.events.items (Some now.reads) in
            Keeps before after × ReadsOnce before after × KeepsCounts result before after × ⊤)) }
    {
        steps.tick();
        self.reads = self.reads.saturating_add(1);
        Ok(&self.events[n as usize])
    }
}
