//! How a run ended, and what is kept of it.

ghost use Rattle.std.specs.Prelude.{◌≡◌, IfOk};
ghost use Rattle.wy_kernel.specs.View.{present};
ghost use Rattle.wy_kernel.specs.Program as kernel;
ghost use Rattle.wy_machine.specs.Ended.{IsEndFor};
ghost use Rattle.wy_machine.specs.Going.{last_at, stop_at};
ghost use Rattle.wy_meaning.specs.Run as meaning;
ghost use Rattle.wy_operands.specs.Values.{Values};
ghost use Rattle.wy_state.specs.Agrees.{Comes, shape};
ghost use Rattle.wy_state.specs.Seen.{stop_of};
ghost use Rattle.wy_steps.specs.Sets.{nothing};
ghost use Rattle.wy_steps.specs.State.{Outcome};
ghost use Rattle.wy_work.specs.Tasks.{outcome_at};

use crate::ended::Ended;
use crate::thrown::thrown;
use std::alloc::AllocError;
use wy_event::record::{Coverage, Tail};
use wy_event::sequence::Sequence;
use wy_kernel::types::NONE;
use wy_state::parts::{Limit, Reason};
use wy_state::register::Register;
use wy_state::state::State;
use wy_work::turn::Signal;

/// What is kept of a run that left this state.
pub fn finish<'a, R: Register + Drop>(
    state: State<'a, R>,
    statements: u32,
    steps: u32,
    signal: Signal,
) -> Result<Ended, AllocError>
    ensures { (p : kernel.Program) (vs : Values) (o : Outcome nothing Values)
        → Comes p (shape R.keeps R.kept state.entry) (outcome_at signal vs) o
        → p.statements ≡ statements → IfOk result (λ ended. IsEndFor p steps o ended) }
{
    if state.covers.len() != statements as usize {
        return Err(AllocError);
    }
    let Ok(output) = u32::try_from(state.output.len()) else {
        return Err(AllocError);
    };
    let last = last_of(signal);
    let thrown = thrown(&state, last)?;
    let tail = Tail {
        coverage: Coverage {
            statements: Sequence::new(state.covers),
        },
        stop: stop_number(signal),
        last: number_of(last)?,
        steps: steps.saturating_sub(state.left),
        events: state.events,
        uses: state.uses,
        output,
    };
    Ok(Ended {
        output: state.output,
        tail,
        thrown,
    })
}

/// A number, or NONE.
#[tactic(auto, unfolding(wy_kernel::specs::View::present))]
fn number_of(number: Option<u32>) -> Result<u32, AllocError>
    ensures { IfOk result (λ n. present n ≡ number) }
{
    match number {
        Some(NONE) => Err(AllocError),
        Some(number) => Ok(number),
        None => Ok(NONE),
    }
}

/// The Throw that ended the run.
fn last_of(signal: Signal) -> Option<u32>
    ensures { result ≡ last_at signal }
{
    match signal {
        Signal::Left(Reason::Threw { event, .. }) => Some(event),
        Signal::Stopped(Limit::InitFailed { last }) => Some(last),
        _ => None,
    }
}

/// How a run ended, by its number: 0 where main returned, 1 where it threw, and from 2 on what stopped it.
fn stop_number(signal: Signal) -> u8
    ensures { result ≡ stop_at signal }
{
    match signal {
        Signal::Going => 0,
        Signal::Left(_) => 1,
        Signal::Stopped(why) => limit_number(why),
    }
}

#[tactic(auto, unfolding(wy_meaning::specs::Run::stop_number))]
fn limit_number(why: Limit) -> u8
    ensures { result ≡ meaning.stop_number (stop_of why) }
{
    match why {
        Limit::Steps => 2,
        Limit::Events => 3,
        Limit::Uses => 4,
        Limit::Elements => 5,
        Limit::Units => 6,
        Limit::Output => 7,
        Limit::Depth => 8,
        Limit::Unassigned => 9,
        Limit::FellOff => 10,
        Limit::InitFailed { .. } => 11,
    }
}
