//! The line of each stop.
ghost use Rattle.std.specs.Prelude.{◌≡◌, IfOk};
ghost use Rattle.wy_kernel.specs.View.{present};
ghost use Rattle.wy_kernel.specs.Parts.{program_of};
ghost use Rattle.wy_text.specs.EndLines.{plain_line as plain_line_of, stop_line as line_of_stop, uncaught_line as line_of_uncaught};

use crate::class::put_class_name;
use crate::place::put_place;
use std::alloc::{AllocError, Global};
use wy_event::record::Thrown;
use wy_kernel::program::Program;

/// The stop of a run that an object ended.
const UNCAUGHT: u8 = 1;

/// How a run ended, by the number of its stop and what it threw last.
#[tactic(auto, unfolding(crate::specs::EndLines::stop_line))]
pub fn stop_line(
    alloc: Global,
    program: &Program,
    stop: u8,
    thrown: &Thrown,
) -> Result<Vec<u8>, AllocError>
    ensures { IfOk result (λ line.
        line.items ≡ line_of_stop (program_of program.now) program.now.lines.items
        stop (present thrown.now.class) (present thrown.now.site)) }
{
    if stop == UNCAUGHT {
        return uncaught_line(alloc, program, thrown);
    }
    Vec::from_slice(alloc, plain_line(stop).as_bytes())
}

#[tactic(auto, unfolding(crate::specs::EndLines::uncaught_line))]
fn uncaught_line(alloc: Global, program: &Program, thrown: &Thrown) -> Result<Vec<u8>, AllocError>
    ensures { IfOk result (λ line.
        line.items ≡ line_of_uncaught (program_of program.now) program.now.lines.items
        (present thrown.now.class) (present thrown.now.site)) }
{
    let mut line = Vec::from_slice(alloc, "-- uncaught ".as_bytes())?;
    put_class_name(&mut line, program, thrown.class)?;
    line.extend_from_slice(", ".as_bytes())?;
    put_place(&mut line, program, thrown.site)?;
    line.push(b'\n')?;
    Ok(line)
}

#[tactic(auto, unfolding(crate::specs::EndLines::plain_line, crate::specs::EndLines::plain_lines))]
fn plain_line(stop: u8) -> &'static str
    ensures { result.now ≡ plain_line_of stop }
{
    match stop {
        0 => "-- finished\n",
        2 => "-- step limit\n",
        3 => "-- event limit\n",
        4 => "-- use limit\n",
        5 => "-- element limit\n",
        6 => "-- text limit\n",
        7 => "-- output limit\n",
        8 => "-- depth limit\n",
        9 => "-- unassigned local\n",
        10 => "-- fell off\n",
        11 => "-- initializer failed\n",
        _ => "",
    }
}
