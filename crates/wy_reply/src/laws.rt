//! What is answered over the trace of a run, by the run itself. The function does nothing: its contract is the law.

ghost use Rattle.wy_reply.specs.ByRun.{TellingsAreByRuns};

use law_carried::{backward_is_forward, carrying_changes_nothing};
use law_reading::{
    recorded_ends_are_read_back, recorded_heads_are_read_back, recorded_traces_are_read_back,
};
use law_shaped::references_point_below;

/// What is told of a trace that bytes are read as is so by each run of the program whose trace these bytes are: a why tells what
/// the run carried, an affects to what it carried the event, a whynot what it reached and did not cross. The head of the
/// bytes has the source of that run.
pub fn tellings_are_by_runs()
    ensures { TellingsAreByRuns }
{
    recorded_traces_are_read_back();
    recorded_heads_are_read_back();
    recorded_ends_are_read_back();
    references_point_below();
    carrying_changes_nothing();
    backward_is_forward();
}
