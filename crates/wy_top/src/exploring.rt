//! A session over the trace of a name.
ghost use Rattle.std.specs.Prelude.{◌≡◌, ◌<◌, ◌^◌, IfSome, None, Some, length, map};
ghost use Rattle.wy_page.specs.Noted.{HasNoted};
ghost use Rattle.wy_page.specs.Paged.{IsOfShelf, records_told};
ghost use Rattle.wy_event.specs.Record.{recorded};
ghost use Rattle.wy_reply.specs.Opening.{IsViewable};
ghost use Rattle.wy_reply.specs.Tellings.{covers_of};
ghost use Rattle.wy_session.specs.Closings.{TakesManyFor};
ghost use Rattle.wy_top.specs.Openings.{ClosedOver, CountsBy, EndsBy, Explores, ReadsOver, keys_at, output_at, scene_told};
ghost use Rattle.wy_top.specs.Replies.{ShelfCounts, at_shelf};

use crate::delivery::deliver;
use crate::opening::{Opening, open_trace};
use crate::shelved::{Shelved, answer_to_refusal, open_pages};
use std::alloc::Global;
use wy_event::record::{Cover, Trace};
use wy_index::build::Findings;
use wy_kernel::program::Program;
use wy_outside::shelf::Shelf;
use wy_outside::sink::Sink;
use wy_outside::source::Source;
use wy_page::{PagedView, Pages};
use wy_reply::Status;
use wy_session::{Ending, explore};
use wy_view::{MemoryView, ViewError};

/// Writes why a view of the trace of a name refused, behind what was written.
fn refuse<O: Sink>(alloc: Global, name: &str, error: ViewError, out: &mut O) -> Status
    ensures { EndsBy name.now (Ending.View error) result
        (output_at (O.written out.old) (O.faults out.old))
        (output_at (O.written out.new) (O.faults out.new)) }
{
    match answer_to_refusal(alloc, name, error) {
        Ok(answer) => deliver(out, &answer),
        Err(_) => Status::NoMemory,
    }
}

/// How the command ends with a session over the trace of a name.
fn end<O: Sink>(alloc: Global, name: &str, ending: Ending, out: &mut O) -> Status
    ensures { EndsBy name.now ending result
        (output_at (O.written out.old) (O.faults out.old))
        (output_at (O.written out.new) (O.faults out.new)) }
{
    match ending {
        Ending::Done => Status::Done,
        Ending::LongLine | Ending::LongInput => Status::TooLong,
        Ending::KeysFailed | Ending::OutFailed => Status::Fault,
        Ending::View(error) => refuse(alloc, name, error, out),
        Ending::NoMemory => Status::NoMemory,
    }
}

/// A session through a view of what is kept of a trace on a shelf.
fn explore_pages<S: Shelf, K: Source, O: Sink>(
    alloc: Global,
    shelf: &mut S,
    program: &Program,
    pages: Pages,
    found: Option<Findings>,
    covers: &[Cover],
    keys: &mut K,
    out: &mut O,
) -> Ending
    requires fields { length program.now.fields.items < 2 ^ 32 }
    requires fits { IsOfShelf pages (S.held shelf.old) }
    requires found { IfSome found (HasNoted pages (S.held shelf.old)) }
    ensures closed { ClosedOver (scene_told program.now covers.now
        (records_told pages (S.held shelf.old)))
        (keys_at (K.left keys.old) (K.faults keys.old) (K.taken keys.old))
        (keys_at (K.left keys.new) (K.faults keys.new) (K.taken keys.new))
        (output_at (O.written out.old) (O.faults out.old))
        (output_at (O.written out.new) (O.faults out.new)) result }
    ensures read_out { ReadsOver (scene_told program.now covers.now
        (records_told pages (S.held shelf.old))) (K.left keys.old) (K.left keys.new) result }
    ensures taken { TakesManyFor result (K.taken keys.old) (K.taken keys.new) }
    ensures counts { CountsBy (records_told pages (S.held shelf.old) ≡ None) result
        (at_shelf (S.faults shelf.old) (S.misses shelf.old) (S.fulls shelf.old))
        (at_shelf (S.faults shelf.new) (S.misses shelf.new) (S.fulls shelf.new)) }
    ensures files_stay { S.held shelf.new ≡ S.held shelf.old }
{
    let view = PagedView::over(shelf, pages);
    let mut ending = None;
    let view = explore(alloc, program, covers, view, found, keys, out, &mut ending);
    view.close();
    ending.unwrap()
}

/// A session over a trace that was read whole.
fn explore_whole<K: Source, O: Sink>(
    alloc: Global,
    program: &Program,
    trace: Trace,
    keys: &mut K,
    out: &mut O,
) -> Ending
    requires fields { length program.now.fields.items < 2 ^ 32 }
    requires viewable { IsViewable trace }
    ensures closed { ClosedOver (scene_told program.now (covers_of trace)
        (Some (map recorded trace.events)))
        (keys_at (K.left keys.old) (K.faults keys.old) (K.taken keys.old))
        (keys_at (K.left keys.new) (K.faults keys.new) (K.taken keys.new))
        (output_at (O.written out.old) (O.faults out.old))
        (output_at (O.written out.new) (O.faults out.new)) result }
    ensures read_out { ReadsOver (scene_told program.now (covers_of trace)
        (Some (map recorded trace.events))) (K.left keys.old) (K.left keys.new) result }
    ensures taken { TakesManyFor result (K.taken keys.old) (K.taken keys.new) }
    ensures counts { (before : ShelfCounts) → CountsBy ⊥ result before before }
{
    let Trace { events, tail, .. } = trace;
    let covers = tail.coverage.statements.as_slice();
    let view = MemoryView {
        events: events.into_vec(),
    };
    let mut ending = None;
    explore(alloc, program, covers, view, None, keys, out, &mut ending);
    ending.unwrap()
}

/// The same as `explore_trace`, for a trace that is read whole: its head can't be read from its front.
fn explore_by_reading<S: Shelf, K: Source, O: Sink>(
    alloc: Global,
    name: &str,
    shelf: &mut S,
    keys: &mut K,
    out: &mut O,
) -> Status
    ensures explores { Explores (S.held shelf.old) name.now
        (at_shelf (S.faults shelf.old) (S.misses shelf.old) (S.fulls shelf.old))
        (at_shelf (S.faults shelf.new) (S.misses shelf.new) (S.fulls shelf.new))
        (keys_at (K.left keys.old) (K.faults keys.old) (K.taken keys.old))
        (keys_at (K.left keys.new) (K.faults keys.new) (K.taken keys.new))
        (output_at (O.written out.old) (O.faults out.old))
        (output_at (O.written out.new) (O.faults out.new)) result }
    ensures files_stay { S.held shelf.new ≡ S.held shelf.old }
{
    match open_trace(alloc, shelf, name) {
        Ok(Opening::Open { typed, trace }) => {
            let ending = explore_whole(alloc, &typed.program, trace, keys, out);
            end(alloc, name, ending, out)
        }
        Ok(Opening::Refused(answer)) => deliver(out, &answer),
        Err(_) => Status::NoMemory,
    }
}

/// Answers the lines of the keys over the trace of a name, each before more is read, or says why that
/// trace can't be opened. It stays on its shelf, but where its head can't be read.
pub fn explore_trace<S: Shelf, K: Source, O: Sink>(
    alloc: Global,
    name: &str,
    shelf: &mut S,
    keys: &mut K,
    out: &mut O,
) -> Status
    ensures explores { Explores (S.held shelf.old) name.now
        (at_shelf (S.faults shelf.old) (S.misses shelf.old) (S.fulls shelf.old))
        (at_shelf (S.faults shelf.new) (S.misses shelf.new) (S.fulls shelf.new))
        (keys_at (K.left keys.old) (K.faults keys.old) (K.taken keys.old))
        (keys_at (K.left keys.new) (K.faults keys.new) (K.taken keys.new))
        (output_at (O.written out.old) (O.faults out.old))
        (output_at (O.written out.new) (O.faults out.new)) result }
    ensures files_stay { S.held shelf.new ≡ S.held shelf.old }
{
    let mut found = Some(Findings::new(alloc));
    match open_pages(alloc, shelf, name, &mut found) {
        Ok(Shelved::Open { typed, pages, tail }) => {
            let covers = tail.coverage.statements.as_slice();
            let ending = explore_pages(
                alloc,
                shelf,
                &typed.program,
                pages,
                found,
                covers,
                keys,
                out,
            );
            end(alloc, name, ending, out)
        }
        Ok(Shelved::Refused(answer)) => deliver(out, &answer),
        Ok(Shelved::Headless) => explore_by_reading(alloc, name, shelf, keys, out),
        Err(_) => Status::NoMemory,
    }
}
