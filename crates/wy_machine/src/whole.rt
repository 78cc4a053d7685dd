//! The run of a program.

ghost use Rattle.std.specs.Prelude.{◌≡◌, [], true, List, map, IfErr, IfOk, OnOk};
ghost use Rattle.std.specs.List.{concat};
ghost use Rattle.wy_event.specs.Record.{Recorded, recorded};
ghost use Rattle.wy_fitting.specs.Fits.{AllFit};
ghost use Rattle.wy_kernel.specs.Parts.{program_of};
ghost use Rattle.wy_machine.specs.Differences.{DiffersAsFirst};
ghost use Rattle.wy_machine.specs.Ended.{IsEndOf, events_of};
ghost use Rattle.wy_machine.specs.Going.{ComesTo, GoesOn, signal_after};
ghost use Rattle.wy_machine.specs.Handed.{seen};
ghost use Rattle.wy_machine.specs.Refusals.{as_told, phase_after};
ghost use Rattle.wy_machine.specs.Shown.{HasTaken, IsRecorded, Shown, TakesOn, TakesRun, shown};
ghost use Rattle.wy_meaning.specs.Run.{events};
ghost use Rattle.wy_operands.specs.Values.{Values};
ghost use Rattle.wy_record.specs.Recorders.{CountsAs, FaultsAs, HavePrefix};
ghost use Rattle.wy_record.specs.declared.recorder.Phase.TheVariants.{Recording};
ghost use Rattle.wy_steps.specs.Sets.{nothing};
ghost use Rattle.wy_steps.specs.State.{Outcome};

use crate::ended::Ended;
use crate::finish::finish;
use crate::made::Made;
use crate::refusal::RunError;
use crate::start::start;
use std::alloc::Global;
use wy_calls::Dispatcher;
use wy_event::record::Event;
use wy_fitting::events_fit;
use wy_kernel::program::Program;
use wy_record::{RecordError, Recorder};
use wy_state::parts::Halt;
use wy_work::machine::Machine;
use wy_work::turn::Signal;

/// Runs a program with an input for so many steps at most. The recorder is one that records, with
/// no event yet: each event is handed to it behind the turn that made it. Where it refuses one, the
/// run ends there. It is not told the head or the end.
pub fn run<R: Recorder>(
    alloc: Global,
    program: &Program,
    input: &[u8],
    steps: u32,
    recorder: &mut R,
) -> Result<Ended, RunError>
    requires sound { R.Sound recorder.old }
    requires recording { R.phase recorder.old ≡ Recording }
    requires position { R.compares ≡ true → R.position recorder.old ≡ 0 }
    ensures sound { R.Sound recorder.new }
    ensures recorded { IfOk result (λ e. IsRecorded R.keeps R.compares R.frame
        (program_of program.now) input.now steps
        (shown R.phase R.kept R.expected R.position R.faults R.counts R.mirrors recorder.old) e
        (shown R.phase R.kept R.expected R.position R.faults R.counts R.mirrors recorder.new)) }
    ensures begun { IfErr result (λ e. HavePrefix
        (concat (map R.frame (events nothing (program_of program.now) input.now steps)))
        (R.mirrors recorder.old) (R.mirrors recorder.new)) }
    ensures phase { R.phase recorder.new ≡ phase_after result }
    ensures expected { R.expected recorder.new ≡ R.expected recorder.old }
    ensures faults { FaultsAs (as_told result) (R.faults recorder.old) (R.faults recorder.new) }
    ensures counts { CountsAs (as_told result) (R.counts recorder.old) (R.counts recorder.new) }
    ensures differs { DiffersAsFirst (as_told result) R.compares (R.expected recorder.old)
        (events nothing (program_of program.now) input.now steps) }
    ensures fits { OnOk result (AllFit (events nothing (program_of program.now) input.now steps)) }
{
    run_with(alloc, program, input, steps, recorder)
}

/// Runs a program from its start to its end: the recorder takes its events.
fn run_with<R: Recorder>(
    alloc: Global,
    program: &Program,
    input: &[u8],
    steps: u32,
    recorder: &mut R,
) -> Result<Ended, RunError>
    requires sound { R.Sound recorder.old }
    requires recording { R.phase recorder.old ≡ Recording }
    requires position { R.compares ≡ true → R.position recorder.old ≡ 0 }
    ensures sound { R.Sound recorder.new }
    ensures ended { IfOk result (λ e. IsEndOf (program_of program.now) input.now steps e) }
    ensures takes { TakesRun R.keeps R.compares R.frame
        (events nothing (program_of program.now) input.now steps)
        (shown R.phase R.kept R.expected R.position R.faults R.counts R.mirrors recorder.old)
        result
        (shown R.phase R.kept R.expected R.position R.faults R.counts R.mirrors recorder.new) }
    ensures fits { OnOk result (AllFit (events nothing (program_of program.now) input.now steps)) }
{
    let on = Dispatcher::new(alloc, program)?;
    let mut machine = start(alloc, program, input, steps, Made::new(alloc))?;
    let signal = go_on(&on, &mut machine, recorder)?;
    let ended = finish(machine.state, program.statements, steps, signal)?;
    Ok(ended)
}

/// Turns the machine until nothing is left to do. What a turn made is handed on behind it.
fn go_on<'a, R: Recorder>(
    on: &Dispatcher<'a>,
    machine: &mut Machine<'a, Made>,
    recorder: &mut R,
) -> Result<Signal, RunError>
    requires first { (seen machine.old).state.keeps ≡ 0 }
    requires none { (seen machine.old).state.kept ≡ [] }
    requires sound { R.Sound recorder.old }
    requires recording { R.phase recorder.old ≡ Recording }
    requires position { R.compares ≡ true → R.position recorder.old ≡ 0 }
    ensures sound { R.Sound recorder.new }
    ensures goes { GoesOn (program_of on.now.program.now)
        (seen machine.old) result (seen machine.new) }
    ensures takes { (o : Outcome nothing Values)
        → ComesTo (program_of on.now.program.now) (seen machine.old) o
        → TakesRun R.keeps R.compares R.frame (events_of o)
        (shown R.phase R.kept R.expected R.position R.faults R.counts R.mirrors recorder.old)
        result
        (shown R.phase R.kept R.expected R.position R.faults R.counts R.mirrors recorder.new) }
    ensures fits { (o : Outcome nothing Values)
        → ComesTo (program_of on.now.program.now) (seen machine.old) o
        → OnOk result (AllFit (events_of o)) }
{
    let mut signal = Signal::Going;
    for _ in 0..u64::MAX {
        let Some(task) = machine.work.pop() else {
            return Ok(signal);
        };
        signal = signal_of(machine.turn(on, task, signal))?;
        let made = machine.state.register.events.as_slice();
        events_fit(made);
        note_all(recorder, made)?;
        let handed = machine.state.events;
        machine.state.register.forget(handed);
    }
    Err(RunError::NoMemory)
}

/// How what was done so far ended, by how a turn did.
fn signal_of(turned: Result<(), Halt>) -> Result<Signal, RunError>
    ensures { result ≡ signal_after turned }
{
    match turned {
        Ok(()) => Ok(Signal::Going),
        Err(Halt::Left(why)) => Ok(Signal::Left(why)),
        Err(Halt::Stopped(why)) => Ok(Signal::Stopped(why)),
        Err(Halt::Memory) => Err(RunError::NoMemory),
    }
}

/// Hands events to a recorder, in order.
fn note_all<R: Recorder>(recorder: &mut R, events: &[Event]) -> Result<(), RecordError>
    requires sound { R.Sound recorder.old }
    requires recording { R.phase recorder.old ≡ Recording }
    ensures sound { R.Sound recorder.new }
    ensures recording { OnOk result (R.phase recorder.new ≡ Recording) }
    ensures takes { (first : Shown) (before : List Recorded)
        → HasTaken R.keeps R.compares R.frame first (shown R.phase R.kept R.expected
        R.position R.faults R.counts R.mirrors recorder.old) before
        → TakesOn R.keeps R.compares R.frame first before (map recorded events.now) result
        (shown R.phase R.kept R.expected R.position R.faults R.counts R.mirrors
        recorder.new) }
{
    for event in events {
        recorder.note(event)?;
    }
    Ok(())
}
