//! The events that a turn of the machine made, until they are handed on.

ghost use Rattle.std.specs.Prelude.{◌≡◌, [], map};
ghost use Rattle.wy_event.specs.Record.{recorded};

use std::alloc::{AllocError, Global};
use wy_event::record::Event;
use wy_record::keep;
use wy_state::register::Register;

/// The events that were made and not handed on yet, and how many were.
#[derive(Drop)]
pub struct Made {
    alloc: Global,
    pub events: Vec<Event>,
    pub handed: u32,
}

impl Register for Made {
    ghost keeps = { λ m. m.handed };

    ghost kept = { λ m. map recorded m.events.items };

    fn note(&mut self, event: &Event) -> Result<(), AllocError> {
        keep(self.alloc, &mut self.events, event)
    }
}

impl Made {
    pub fn new(alloc: Global) -> Made
        ensures events { result.events.items ≡ [] }
        ensures handed { result.handed ≡ 0 }
    {
        Made {
            alloc,
            events: Vec::new(alloc),
            handed: 0,
        }
    }

    /// All that were made are handed on: so many by now.
    pub fn forget(&mut self, handed: u32)
        ensures events { self.new.events.items ≡ [] }
        ensures handed { self.new.handed ≡ handed }
    {
        self.events.clear();
        self.handed = handed;
    }
}
