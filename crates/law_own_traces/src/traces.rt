//! The trace of a run keeps every rule of a reader: it is read, and never refused. The functions do nothing: their contracts are the
//! laws.

ghost use Rattle.wy_kernel.specs.Parts.{program_of};
ghost use Rattle.wy_kernel.specs.declared.program.Program.{Program};
ghost use Rattle.law_own_traces.specs.Own.{OfFittingPrograms, OwnBytesTellEvents, OwnEventsAreTold, OwnTracesAreNotRefused, OwnTracesAreRead, OwnTracesAreShort, OwnTracesKeepRules};

use law_in_range::runs_are_in_range;
use law_reading::{traces_within_rules_are_not_refused, traces_within_rules_are_read};
use law_shaped::references_point_below;

/// Of a program that fits its types, keeps the library and fits its text, the head, the records and the end of each run, as they are
/// kept in memory, keep every rule of a reader: each number is in its range, each reference is to a record of its kind, and the end
/// counts the events, their uses and what they printed.
pub fn own_traces_keep_rules()
    ensures { OfFittingPrograms OwnTracesKeepRules }
{
    references_point_below();
    runs_are_in_range();
}

/// The bytes of either version tell all events of such a run: no test of it has more than two arms, and nothing but a test has one.
pub fn own_events_are_told()
    ensures events { OfFittingPrograms OwnEventsAreTold }
    ensures bytes { OfFittingPrograms OwnBytesTellEvents }
{
    references_point_below();
    runs_are_in_range();
}

/// The bytes of such a run, where its program has no more statements than a text can have, are at most 1,073,741,824: 44 an event, 14 a
/// use, two a unit of its texts, 16 a statement, its input and its source, and 97, each of them within its own limit.
pub fn own_traces_are_short()
    ensures { OfFittingPrograms OwnTracesAreShort }
{
    references_point_below();
    runs_are_in_range();
}

/// So the bytes of such a run, within the limit of a trace, are read as a trace with this head, this end, and these events so far as
/// bytes tell them, and where a reader answers no trace, memory ran out.
pub fn own_traces_are_read()
    ensures read { OfFittingPrograms OwnTracesAreRead }
    ensures not_refused { OfFittingPrograms OwnTracesAreNotRefused }
{
    own_traces_keep_rules();
    traces_within_rules_are_read();
    traces_within_rules_are_not_refused();
}
