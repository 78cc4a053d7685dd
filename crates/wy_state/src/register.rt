//! Where the events of a state are entered as they are made.

ghost use Rattle.std.specs.Prelude.{◌≡◌, ◌++◌, ◌∷◌, [], ℕ, List, OnOk};
ghost use Rattle.wy_event.specs.Record.{Recorded, recorded};

use std::alloc::AllocError;
use wy_event::record::Event;

/// Keeps the events of a run as they are made, from one on.
pub trait Register {
    /// The number of the first event that it keeps, and those from that one on.
    ghost keeps: { Self → ℕ };

    ghost kept: { Self → List Recorded };

    /// Takes the next event.
    fn note(&mut self, event: &Event) -> Result<(), AllocError>
        ensures keeps { OnOk result (keeps self.new ≡ keeps self.old) }
        ensures kept { OnOk result (kept self.new ≡ kept self.old ++ recorded event.now ∷ []) };
}
