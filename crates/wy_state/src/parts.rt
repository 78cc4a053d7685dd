//! Why a part of a run is not done, and what an event says of itself.

ghost use Rattle.std.specs.Prelude.{◌≡◌, alloc_error};
ghost use Rattle.wy_state.specs.declared.parts.Halt.TheVariants.{Memory};

use std::alloc::{AllocError, AllocFailed};
use wy_event::record::{Kind, Slot};
use wy_heap::HeapError;
use wy_kernel::types::NONE;
use wy_value::Value;

/// What stops a run where it is; no `finally` runs.
#[derive(Clone, Copy, Debug, PartialEq, Eq)]
pub enum Limit {
    Steps,
    Events,
    Uses,
    Elements,
    Units,
    Output,
    Depth,
    Unassigned,
    FellOff,
    /// An initializer ended by this Throw.
    InitFailed { last: u32 },
}

/// Why a statement or an expression is left, with the event that says so (JLS 14.1).
#[derive(Clone, Copy, Debug, PartialEq, Eq)]
pub enum Reason {
    Jumped { target: u32, event: u32 },
    Returned { event: u32, value: Value },
    Threw { event: u32, value: Value },
}

/// Why what was begun isn't done: it is left early, the run stops, or memory is wanting.
#[derive(Drop)]
pub enum Halt {
    Left(Reason),
    Stopped(Limit),
    Memory,
}

impl From<AllocError> for Halt {
    ghost from_gives = { λ a e. e ≡ Memory };

    fn from(_: AllocError) -> Halt {
        Halt::Memory
    }
}

impl<T: Drop> From<AllocFailed<T>> for Halt {
    ghost from_gives = { λ a e. e ≡ Memory };

    fn from(_: AllocFailed<T>) -> Halt {
        Halt::Memory
    }
}

impl From<HeapError> for Halt {
    ghost from_gives = { λ a e. e ≡ Memory };

    fn from(_: HeapError) -> Halt {
        Halt::Memory
    }
}

/// A Throw among the events, by its number.
#[derive(Clone, Copy, Debug, PartialEq, Eq)]
pub struct Throw {
    pub event: u32,
    pub site: u32,
    pub value: Value,
}

/// What an event says of itself. Its units, where it is a Text, are given beside it.
#[derive(Clone, Copy)]
pub struct Draft {
    pub kind: Kind,
    pub site: u32,
    pub entity: u32,
    pub slot: Slot,
    pub value: Value,
}

impl Draft {
    ghost use Rattle.std.specs.Prelude.{◌≡◌, ◌≢◌, []};
    ghost use Rattle.wy_meaning.specs.World as words;
    ghost use Rattle.wy_state.specs.Seen.{draft_of};

    /// About a value alone.
    #[tactic(auto, unfolding(wy_meaning::specs::World::plain, wy_kernel::specs::View::present))]
    pub fn plain(kind: Kind, site: u32, value: Value) -> Draft
        ensures draft { draft_of result [] ≡ words.plain kind site value }
        ensures value { result.value ≡ value }
    {
        Draft {
            kind,
            site,
            entity: NONE,
            slot: Slot::None,
            value,
        }
    }

    /// About a slot that gets a value.
    #[tactic(auto, unfolding(wy_meaning::specs::World::into, wy_kernel::specs::View::present))]
    pub fn into_slot(kind: Kind, site: u32, slot: Slot, value: Value) -> Draft
        ensures draft { draft_of result [] ≡ words.into kind site slot value }
        ensures value { result.value ≡ value }
        ensures slot { result.slot ≡ slot }
    {
        Draft {
            kind,
            site,
            entity: NONE,
            slot,
            value,
        }
    }
}
