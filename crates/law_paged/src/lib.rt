//! What is answered through the pages of a trace on a shelf is what is answered where the same records stand in memory. Nothing
//! calls the public function: its contract is the law.
#![tactic(auto)]

ghost use Rattle.std.specs.Prelude.{◌≡◌, ◌<◌, IfErr, IfOk, List, Some, length, map};
ghost use Rattle.wy_event.specs.Record.{Recorded, recorded};
ghost use Rattle.wy_event.specs.Sources.{closure, data_closure};
ghost use Rattle.wy_kernel.specs.Parts.{program_of};
ghost use Rattle.wy_kernel.specs.Program.{field};
ghost use Rattle.wy_page.specs.Paged.{records_told};
ghost use Rattle.wy_view.specs.Counts.{Rose};
ghost use Rattle.wy_view.specs.View.{KeepsCounts, Keeps};
ghost use Rattle.wy_view.specs.declared.view.ViewError.TheVariants.{NoMemory};
ghost use Rattle.wy_why.specs.Answer.{up_to};

use std::alloc::Global;
use std::sync::ledger::Ledger;
use wy_index::Index;
use wy_kernel::program::Program;
use wy_outside::shelf::Shelf;
use wy_page::{PagedView, Pages};
use wy_view::{EventView, MemoryView, Steps, ViewError};
use wy_why::{Answer, why};

/// All that an event comes from, by an index of the view.
fn why_in<V: EventView, L: Ledger>(
    alloc: Global,
    program: &Program,
    view: &mut V,
    event: u32,
    steps: &mut Steps<L>,
) -> Result<Answer, ViewError>
    requires { event < (V.tells view.old).count }
    ensures all { (rs : List Recorded) → (V.tells view.old).records ≡ Some rs
        → IfOk result (λ answer. answer.all.items
        ≡ up_to event (closure (λ f. (field (program_of program.now) f).class) rs event)) }
    ensures flow { (rs : List Recorded) → (V.tells view.old).records ≡ Some rs
        → IfOk result (λ answer. answer.flow.items
        ≡ up_to event (data_closure (λ f. (field (program_of program.now) f).class) rs event)) }
    ensures keeps { Keeps (V.tells view.old) (V.tells view.new) }
    ensures answers { KeepsCounts result (V.tells view.old) (V.tells view.new) }
{
    let index = Index::build(alloc, view, program, steps)?;
    why(alloc, view, &index, event, steps)
}

/// Why of an event, through the pages of a trace on a shelf that tells its files, and through the same records in memory: each is refused
/// for want of memory alone where the shelf did not fail, and where both are answered, it is one answer.
pub fn why_is_the_same_by_pages<S: Shelf, L: Ledger>(
    alloc: Global,
    program: &Program,
    paged: &mut PagedView<'_, S, Pages>,
    memory: &mut MemoryView,
    event: u32,
    steps: &mut Steps<L>,
) -> (Result<Answer, ViewError>, Result<Answer, ViewError>)
    requires told { records_told paged.old.pages (S.held paged.old.shelf.now)
        ≡ Some (map recorded memory.old.events.items) }
    requires there { event < length memory.old.events.items }
    ensures same { IfOk result.0 (λ x. IfOk result.1 (λ y.
        (x.all.items ≡ y.all.items) × (x.flow.items ≡ y.flow.items))) }
    ensures by_pages { ¬ Rose (S.faults paged.old.shelf.now) (S.faults paged.new.shelf.now)
        → IfErr result.0 (λ e. e ≡ NoMemory) }
    ensures in_memory { IfErr result.1 (λ e. e ≡ NoMemory) }
{
    let _count = paged.count();
    let by_pages = why_in(alloc, program, paged, event, steps);
    let in_memory = why_in(alloc, program, memory, event, steps);
    (by_pages, in_memory)
}
