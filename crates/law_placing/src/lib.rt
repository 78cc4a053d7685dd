//! Where the events of a trace stand that is read: their frames stand one behind another behind the head, and the place of
//! each is behind its own frame; and their bytes tell all of them. And what end a trace has that is read, and its seal. The functions do nothing: their contracts are the laws.
#![tactic(auto)]

ghost use Rattle.law_placing.specs.Ended.{ReadEndsStand, ReadTracesEndSealed};
ghost use Rattle.law_placing.specs.Placed.{ReadEventsArePlaced, ReadEventsAreTold};

use law_reading::recorded_traces_are_read_back;

/// Of the bytes behind a head, so far as they are read, the frames of the events come first, and others behind them. The
/// place of an event is as far behind the one before it as its frame is long.
pub fn read_events_are_placed()
    ensures { ReadEventsArePlaced }
{}

/// The bytes of a trace tell all of each event that is read of it.
pub fn read_events_are_told()
    ensures { ReadEventsAreTold }
{
    recorded_traces_are_read_back();
}

/// The end of a trace that is read has a cover for each statement of the program, a stop that there is, and where a throw
/// stopped the run, one of the events.
pub fn read_ends_stand()
    ensures { ReadEndsStand }
{}

/// The last thirty-two bytes of a trace that is read whole are its seal.
pub fn read_traces_end_sealed()
    ensures { ReadTracesEndSealed }
{}
