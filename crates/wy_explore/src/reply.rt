//! What a line is answered, with events by their numbers.

use wy_travel::State;
use wy_value::Value;
use wy_why::Source;
use wy_whynot::Item;

/// The answer to a line.
#[derive(Drop)]
pub enum Reply {
    /// The event that is looked at now, or none.
    At(Option<u32>),
    /// All that this event comes from: `Explorer::answer` has it.
    Answer(u32),
    /// What the event that is looked at comes from directly.
    From(Vec<Source>),
    /// What kept a statement from running.
    Items(Vec<Item>),
    /// The frames just before the event that is looked at, with what their locals held.
    Frames(State),
    /// What a text was worth just before the event that is looked at.
    Shown(Value),
    NoSuch,
    NothingToUndo,
    /// The session is over.
    End,
}
