//! A run, and its trace.

ghost use Rattle.std.specs.Prelude.{◌≡◌, ◌<◌, ◌^◌, ◌++◌, IfErr, IfOk, OnOk, length, map, true};
ghost use Rattle.std.specs.List.{concat};
ghost use Rattle.wy_event.specs.Record.{recorded};
ghost use Rattle.wy_fitting.specs.Fits.{AllFit};
ghost use Rattle.wy_kernel.specs.Parts.{program_of};
ghost use Rattle.wy_machine.specs.Ended.{IsEndOf, IsTailOf};
ghost use Rattle.wy_meaning.specs.Run as meaning;
ghost use Rattle.wy_record.specs.Recorders.{CountsAs, FaultsAs};
ghost use Rattle.wy_record.specs.declared.recorder.Phase.TheVariants.{Done, Ready};
ghost use Rattle.wy_machine.specs.Differences.{DiffersAsFirst};
ghost use Rattle.wy_machine.specs.Traces.{BeginTrace, IsLeft, closed};
ghost use Rattle.wy_steps.specs.Sets.{nothing};

use crate::ended::Ended;
use crate::whole::run;
use std::alloc::Global;
use wy_event::record::{Event, Head};
use wy_kernel::program::Program;
use wy_record::{RecordError, Recorder};

/// Runs a program with the input and the steps of a head, and hands the head, each event in order
/// and the end to a recorder, which is done then; the expected events are for one that compares.
/// Each event is handed on as the run goes, and none is kept. Where a call is refused, the recorder
/// has failed, and where memory is wanting for the run, it goes on recording; each mirror has a
/// prefix of the trace then.
pub fn record<R: Recorder>(
    alloc: Global,
    program: &Program,
    name: &str,
    head: &Head,
    expected: Vec<Event>,
    recorder: &mut R,
) -> Result<Ended, RecordError>
    requires sound { R.Sound recorder.old }
    requires ready { R.phase recorder.old ≡ Ready }
    requires few { length expected.items < 2 ^ 32 }
    ensures sound { R.Sound recorder.new }
    ensures ended { IfOk result (λ e.
        IsEndOf (program_of program.now) head.now.input head.now.steps e) }
    ensures mirrors { IfOk result (λ e. R.mirrors recorder.new ≡ closed (R.closing e.tail)
        (R.opening head.now ++ concat (map R.frame
        (meaning.events nothing (program_of program.now) head.now.input head.now.steps)))
        (R.mirrors recorder.old)) }
    ensures fits { IfOk result (λ e. AllFit
        (meaning.events nothing (program_of program.now) head.now.input head.now.steps)) }
    ensures begun { IfErr result (λ e. BeginTrace R.closing
        (IsTailOf (program_of program.now) head.now.input head.now.steps)
        (R.opening head.now ++ concat (map R.frame
        (meaning.events nothing (program_of program.now) head.now.input head.now.steps)))
        (R.mirrors recorder.old) (R.mirrors recorder.new)) }
    ensures phase { OnOk result (R.phase recorder.new ≡ Done) }
    ensures left { IfErr result (λ e. IsLeft e (R.phase recorder.new)) }
    ensures faults { FaultsAs result (R.faults recorder.old) (R.faults recorder.new) }
    ensures counts { CountsAs result (R.counts recorder.old) (R.counts recorder.new) }
    ensures as_expected { R.compares ≡ true → OnOk result (map recorded expected.items
        ≡ meaning.events nothing (program_of program.now) head.now.input head.now.steps) }
    ensures differs { DiffersAsFirst result R.compares (map recorded expected.items)
        (meaning.events nothing (program_of program.now) head.now.input head.now.steps) }
{
    recorder.start(name, head, expected)?;
    let ended = run(alloc, program, head.input.as_slice(), head.steps, recorder)?;
    recorder.finish(&ended.tail)?;
    Ok(ended)
}
