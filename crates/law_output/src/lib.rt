//! What `output` tells of the trace of a run is what the run wrote, and how it ended. The function does nothing: its contract is the law.
#![tactic(auto)]

ghost use Rattle.law_output.specs.Written.{PrintsAreOutput, TellsRun};
ghost use Rattle.law_own_traces.specs.Own.{OfFittingPrograms};

use law_in_range::runs_are_in_range;
use law_shaped::references_point_below;

/// Of a program that fits its types, keeps the library and fits its text, the prints of each run, as its records tell them, are the bytes
/// that the run wrote. Where the text has at most 1,048,576 tokens, what `output` tells of the records and of the end is the output in
/// whole lines and the line of the stop: the text that `run` writes.
pub fn output_is_what_the_run_wrote()
    ensures prints { OfFittingPrograms PrintsAreOutput }
    ensures text { OfFittingPrograms TellsRun }
{
    references_point_below();
    runs_are_in_range();
}
