//! Of how many events the answer to the last print is.

ghost use Rattle.std.specs.Prelude.{◌≡◌, ◌<◌, ◌^◌, IfOk, length, map};
ghost use Rattle.wy_event.specs.Record.{recorded};
ghost use Rattle.wy_kernel.specs.Parts.{program_of};
ghost use Rattle.wy_reply.specs.RunSizes.{answer_size, data_size};
ghost use Rattle.wy_view.specs.References.{AllRefersBelow};

use std::alloc::{AllocError, Global};
use std::sync::ledger::{Blank, Ledger};
use wy_event::record::Event;
use wy_index::Index;
use wy_kernel::program::Program;
use wy_telling::want_of_memory;
use wy_view::{MemoryView, Steps};
use wy_why::why;

/// The number of events that the last print of these comes from, in all and by data, with a ledger for the steps,
/// which nobody reads.
pub(crate) fn answer_sizes<L: Ledger>(
    alloc: Global,
    program: &Program,
    events: Vec<Event>,
    blank: Blank,
) -> Result<(usize, usize), AllocError>
    requires few { length events.items < 2 ^ 32 }
    requires refer_below { AllRefersBelow events.items }
    requires name { blank.name ≡ L.name }
    requires parts { blank.parts ≡ L.parts }
    requires some { 0 < blank.parts }
    ensures answer { IfOk result (λ sizes.
        sizes.0 ≡ answer_size (program_of program.now) (map recorded events.items)) }
    ensures data { IfOk result (λ sizes.
        sizes.1 ≡ data_size (program_of program.now) (map recorded events.items)) }
{
    let mut steps = Steps::<L>::new(blank);
    let mut view = MemoryView { events };
    let index = match Index::build(alloc, &mut view, program, &mut steps) {
        Ok(index) => index,
        Err(error) => return Err(want_of_memory(error)),
    };
    let Some(event) = index.prints().last().copied() else {
        return Ok((0, 0));
    };
    match why(alloc, &mut view, &index, event, &mut steps) {
        Ok(answer) => Ok((answer.all.len(), answer.flow.len())),
        Err(error) => Err(want_of_memory(error)),
    }
}
