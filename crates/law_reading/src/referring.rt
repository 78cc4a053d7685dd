//! What the events of a trace refer to that was read of bytes: they refer below themselves, and there are few.
//! The functions do nothing: their contracts are the laws.

ghost use Rattle.law_reading.specs.Referring.{DecodedEventsReferBelow, FewEventsAreDecoded, ReadEventsReferBelow};

/// Each event that is read refers to events before it, and to moments up to its own.
pub fn decoded_events_refer_below()
    ensures { DecodedEventsReferBelow }
{}

/// No more events are read than a trace has room for.
pub fn few_events_are_decoded()
    ensures { FewEventsAreDecoded }
{}

/// What is true of all events that are read is true of those that were read so far.
pub fn read_events_refer_below()
    ensures { ReadEventsReferBelow }
{}
