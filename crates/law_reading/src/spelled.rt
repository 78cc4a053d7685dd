//! What is read of a trace is spelled so, byte for byte.
//! The functions do nothing: their contracts are the laws.

ghost use Rattle.law_reading.specs.Spelled.{CoveragesAreSpelled, EventsAreSpelled, HeadsAreShort, HeadsAreSpelled, PrefixesAreCut, RecordedEndsAreReadBack, RecordedEndsAreTold, RecordedEventsAreTold, RecordedHeadsAreReadBack, RecordedTracesAreReadBack, SlotsAreSpelled, TailsAreSpelled, TracesAreSpelled};

/// A head that bytes are read to begin with is spelled there, with the magic before it and nothing between.
pub fn heads_are_spelled()
    ensures { HeadsAreSpelled }
{}

/// A coverage that a payload is read as is spelled by it.
pub fn coverages_are_spelled()
    ensures { CoveragesAreSpelled }
{}

/// The end of a run that a payload is read as is spelled by it.
pub fn tails_are_spelled()
    ensures { TailsAreSpelled }
{}

/// A slot that bytes are read to begin with is spelled there.
pub fn slots_are_spelled()
    ensures { SlotsAreSpelled }
{}

/// A whole event that a payload is read as is spelled by it.
pub fn events_are_spelled()
    ensures { EventsAreSpelled }
{}

/// Bytes that are read as a trace are its one spelling.
pub fn traces_are_spelled()
    ensures { TracesAreSpelled }
{}

/// A trace that is cut anywhere is read as cut there: of n bytes fewer than all, nothing is wrong but that they end.
pub fn prefixes_are_cut()
    ensures { PrefixesAreCut }
{}

/// The source of a head that bytes are read to begin with is within its limit.
pub fn heads_are_short()
    ensures { HeadsAreShort }
{}

/// The events of a run's own trace are read back from it, so far as bytes tell them.
pub fn recorded_traces_are_read_back()
    ensures told { RecordedEventsAreTold }
    ensures whole { RecordedTracesAreReadBack }
{}

/// The head of a run's own trace is read back from it.
pub fn recorded_heads_are_read_back()
    ensures { RecordedHeadsAreReadBack }
{}

/// The coverage and the end of a run's own trace are read back from it, by their bytes and, as their numbers fit these, whole.
pub fn recorded_ends_are_read_back()
    ensures told { RecordedEndsAreTold }
    ensures whole { RecordedEndsAreReadBack }
{}
