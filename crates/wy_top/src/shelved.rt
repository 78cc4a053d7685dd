//! The opening of a trace that stays on its shelf: its front is read first.
ghost use Rattle.std.specs.Prelude.{◌≡◌, ◌≤◌, [], ℕ, IfOk, Ok, length};
ghost use Rattle.wy_frames.specs.Heads.{head_of};
ghost use Rattle.law_reading.specs.Spelled.{AreBytes};
ghost use Rattle.wy_kernel.specs.Limits.{trace_limit};
ghost use Rattle.wy_page.specs.Noted.{HaveFound};
ghost use Rattle.wy_top.specs.Openings.{TellsRefusal};
ghost use Rattle.wy_top.specs.Paging.{AreNoted, BeginsFile, OpensPages};
ghost use Rattle.wy_top.specs.Replies.{at_shelf};

use crate::answer::answer_to_lack;
use crate::files::read_front;
use crate::trace::answer_to_error;
use law_reading::{heads_are_short, traces_are_spelled};
use std::alloc::{AllocError, Global};
use wy_event::record::{Head, Tail, Version};
use wy_fitting::end_fits;
use wy_frames::read_head;
use wy_index::build::Findings;
use wy_outside::shelf::Shelf;
use wy_page::{PageError, Pages, fronts_begin_traces};
use wy_program::{TypedProgram, program_of_source};
use wy_reply::{Answer, Refusal, answer_to_trace_error};
use wy_view::ViewError;

/// What is kept of a trace that stays on its shelf, with its end and the typed program of its head; or what is answered where there
/// is no such trace.
#[derive(Drop)]
pub enum Shelved {
    Open {
        typed: TypedProgram,
        pages: Pages,
        tail: Tail,
    },
    Refused(Answer),
    /// The head can't be read from the front. What is wrong with the trace first, its bytes say.
    Headless,
}

/// The answer where a view of the trace of a name refused.
pub(crate) fn answer_to_refusal(
    alloc: Global,
    name: &str,
    error: ViewError,
) -> Result<Answer, AllocError>
    ensures { IfOk result (λ answer. TellsRefusal name.now error answer) }
{
    match error {
        ViewError::ReadFault => Answer::refused(alloc, Refusal::FaultShelf),
        ViewError::Gone => Answer::refused(alloc, Refusal::Absent { name }),
        ViewError::Changed { block, .. } => Answer::refused(alloc, Refusal::Changed { block }),
        ViewError::NoMemory => Err(AllocError),
    }
}

fn are_bytes(bytes: &[u8])
    ensures { AreBytes bytes.now }
{}

/// The trace of a name that begins with these bytes, from which this head is read in this version.
fn open_by_head<S: Shelf>(
    alloc: Global,
    shelf: &mut S,
    name: &str,
    front: &[u8],
    head: &Head,
    version: Version,
    found: &mut Option<Findings>,
) -> Result<Shelved, AllocError>
    requires nothing { HaveFound found.old [] }
    requires front { BeginsFile (S.held shelf.old) name.now front.now }
    requires short { length front.now ≤ trace_limit }
    requires head { (end : ℕ) × (head_of front.now ≡ Ok (head.now, end, version)) }
    ensures opens { IfOk result (OpensPages (S.held shelf.old) name.now
        (at_shelf (S.faults shelf.old) (S.misses shelf.old) (S.fulls shelf.old))
        (at_shelf (S.faults shelf.new) (S.misses shelf.new) (S.fulls shelf.new))) }
    ensures found { IfOk result (AreNoted found.new (S.held shelf.old)) }
    ensures files_stay { S.held shelf.new ≡ S.held shelf.old }
{
    traces_are_spelled();
    heads_are_short();
    fronts_begin_traces();
    are_bytes(front);
    let typed = match program_of_source(alloc, head.source.as_slice()) {
        Ok(typed) => typed,
        Err(error) => return Ok(Shelved::Refused(answer_to_error(alloc, error)?)),
    };
    match Pages::open(alloc, shelf, name, head, version, &typed.program, found) {
        Ok((pages, tail)) => {
            end_fits(&tail);
            Ok(Shelved::Open { typed, pages, tail })
        }
        Err(PageError::Trace(error)) => Ok(Shelved::Refused(answer_to_trace_error(alloc, error)?)),
        Err(PageError::View(error)) => {
            Ok(Shelved::Refused(answer_to_refusal(alloc, name, error)?))
        }
    }
}

/// The trace of a name: its front, its head, the program of that, and the pages are read in this order. Where findings are wanted,
/// each event is noted in them.
pub(crate) fn open_pages<S: Shelf>(
    alloc: Global,
    shelf: &mut S,
    name: &str,
    found: &mut Option<Findings>,
) -> Result<Shelved, AllocError>
    requires nothing { HaveFound found.old [] }
    ensures opens { IfOk result (OpensPages (S.held shelf.old) name.now
        (at_shelf (S.faults shelf.old) (S.misses shelf.old) (S.fulls shelf.old))
        (at_shelf (S.faults shelf.new) (S.misses shelf.new) (S.fulls shelf.new))) }
    ensures found { IfOk result (AreNoted found.new (S.held shelf.old)) }
    ensures files_stay { S.held shelf.new ≡ S.held shelf.old }
{
    let front = match read_front(alloc, shelf, name) {
        Ok(front) => front,
        Err(error) => return Ok(Shelved::Refused(answer_to_lack(alloc, error)?)),
    };
    let front = front.as_slice();
    match read_head(alloc, front) {
        Ok((head, _, version)) => open_by_head(alloc, shelf, name, front, &head, version, found),
        Err(_) => Ok(Shelved::Headless),
    }
}
