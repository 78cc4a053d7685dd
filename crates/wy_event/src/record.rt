//! An event, what it stands on, and what is kept of a whole run.

use crate::sequence::Sequence;
use wy_value::Value;

/// What an event is.
#[derive(Clone, Copy, Debug, PartialEq, Eq)]
pub enum Kind {
    Init,
    New,
    Call,
    Bind,
    Set,
    Test,
    Text,
    Read,
    Print,
    Return,
    Jump,
    Throw,
    Catch,
}

/// What holds a value: a local of a frame, a static field, a field of an object or an element of an array.
/// Frames, objects and arrays are the events that made them.
#[derive(Clone, Copy, Debug, PartialEq, Eq)]
pub enum Slot {
    None,
    Local { frame: u32, index: u32 },
    Static { field: u32 },
    Field { object: u32, field: u32 },
    Elem { array: u32, index: u32 },
}

/// What an event used: a slot as it was when so many events stood, the value of an event, or an event as a choice.
#[derive(Clone, Copy, Debug, PartialEq, Eq)]
pub enum Use {
    Place { slot: Slot, moment: u32 },
    Value { event: u32 },
    Choice { event: u32 },
}

/// An event, whose number is its place among the events of its run, from 0. NONE stands for a number that is absent.
#[derive(Drop)]
pub struct Event {
    pub kind: Kind,
    /// The token at which it stands, by its number in the source text; in library method m it is 2^31 + m.
    pub site: u32,
    /// The Call or Init of the body that ran; a Call and an Init stand in that which made them, and NONE outside all bodies.
    pub frame: u32,
    /// Its control parent, the greatest event that was active; NONE where none was.
    pub control: u32,
    /// What it is of, by the kind: the method of a Call, the class of an Init, the type code of a New; NONE for other kinds.
    pub entity: u32,
    /// What it stored to; None for kinds that store nothing.
    pub slot: Slot,
    /// The value that it stored, tested, made or gave; None where there is none, and for a Text.
    pub value: Value,
    /// The UTF-16 units of a Text; empty for every other kind.
    pub units: Sequence<u16>,
    pub uses: Sequence<Use>,
}

/// What is known of a statement. A moment is how many events there were.
#[derive(Clone, Copy, Debug, PartialEq, Eq)]
pub struct Cover {
    /// How often it began.
    pub begins: u32,
    /// How often it ended normally.
    pub ends: u32,
    /// The moment of its first begin; NONE where it never began.
    pub first: u32,
    /// The Jump, Return or Throw that last left it; GOING_ON where the end of the run found it going on, NONE where nothing left it.
    pub cause: u32,
}

/// The cause of a statement that the end of its run found going on.
pub const GOING_ON: u32 = 4294967294;

/// A cover for each statement, by its number.
#[derive(Drop)]
pub struct Coverage {
    pub statements: Sequence<Cover>,
}

/// How a run ended.
#[derive(Drop)]
pub struct Tail {
    pub coverage: Coverage,
    /// The number of the stop, 0 to 11: 0 where main returned, 1 where it ended by a throw, then the limits and faults in their order.
    pub stop: u8,
    /// The Throw that ended the run; NONE where none did.
    pub last: u32,
    /// The steps that it took, the events that it had, and the uses of all of them.
    pub steps: u32,
    pub events: u32,
    pub uses: u32,
    /// The length of its output, in bytes.
    pub output: u32,
}

/// The class of the object of the Throw that ended a run, and the site of that Throw; both are NONE where there is none.
#[derive(Clone, Copy, Debug, PartialEq, Eq)]
pub struct Thrown {
    pub class: u32,
    pub site: u32,
}

pub type Bytes = Sequence<u8>;

/// The version of the bytes of a trace. They differ in how the arm of a Test is spelled, and in the bytes that name the format.
#[derive(Clone, Copy, Debug, PartialEq, Eq)]
pub enum Version {
    /// An arm is spelled as the boolean that the test gave.
    One,
    /// An arm is spelled as a number.
    Two,
}

/// What a run was given: its step budget, its input and the text of its program.
#[derive(Drop)]
pub struct Head {
    pub steps: u32,
    pub input: Bytes,
    pub source: Bytes,
}

/// A run as it is kept.
#[derive(Drop)]
pub struct Trace {
    pub head: Head,
    pub events: Sequence<Event>,
    pub tail: Tail,
}
