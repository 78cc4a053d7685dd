//! A session over a view of a trace.
ghost use Rattle.std.specs.Prelude.{◌≡◌, ◌++◌, ◌<◌, ◌^◌, false, List, Some, All, IfOk, IfSome, IsSome, OnOk, length, map};
ghost use Rattle.wy_event.specs.Record.{Recorded};
ghost use Rattle.wy_view.specs.View.{KeepsCounts, Keeps};
ghost use Rattle.wy_kernel.specs.Parts.{program_of};
ghost use Rattle.wy_index.specs.Findings.{IsFoundIn};
ghost use Rattle.wy_ask.specs.Opened.{IsOpenedOf, StaysOpened};
ghost use Rattle.wy_explore.specs.Explorer.{AllAnswered, AllWithin, IsReplyWithin, reply_of};
ghost use Rattle.wy_session.specs.Desk.{IsAsked, IsSceneIn, IsSceneOf};
ghost use Rattle.wy_telling.specs.Items.{items_text};
ghost use Rattle.wy_whynot.specs.Evidence.{evidence_in};
ghost use Rattle.wy_text.specs.EventLines.{event_line};
ghost use Rattle.wy_session.specs.Scene.{Scene, lines_of, reply_text, sources_text};
ghost use Rattle.wy_session.specs.Closings.{Closed, ReadsOut, TakesManyFor, failures};
ghost use Rattle.wy_session.specs.Views.{CountsFor};

use crate::ending::Ending;
use crate::frames::{frame_lines, value_line};
use crate::respond::Respond;
use crate::session::talk;
use std::alloc::{AllocError, Global};
use std::marker::Brand;
use std::sync::ledger::{Blank, Ledger};
use wy_ask::Opened;
use wy_event::record::Cover;
use wy_explore::{Explorer, Reply};
use wy_index::Index;
use wy_index::build::Findings;
use wy_kernel::program::Program;
use wy_outside::sink::Sink;
use wy_outside::source::Source;
use wy_static::Links;
use wy_static::links::links;
use wy_telling::{answer_lines, put_items};
use wy_text::{put_event_line, put_source_line};
use wy_view::{EventView, Steps, ViewError};
use wy_why::Source as From;
use wy_whynot::Item;

/// The line of an event.
fn event_line<V: EventView, L: Ledger>(
    alloc: Global,
    program: &Program,
    view: &mut V,
    event: u32,
    steps: &mut Steps<L>,
) -> Result<Vec<u8>, ViewError>
    requires there { event < (V.tells view.old).count }
    ensures line { (rs : List Recorded) → (V.tells view.old).records ≡ Some rs
        → IfOk result (λ line. line.items
        ≡ event_line (program_of program.now) program.now.lines.items rs event false) }
    ensures keeps { Keeps (V.tells view.old) (V.tells view.new) }
    ensures answers { KeepsCounts result (V.tells view.old) (V.tells view.new) }
{
    let mut line = Vec::new(alloc);
    put_event_line(&mut line, program, view, event, false, steps)?;
    Ok(line)
}

/// Puts a line for each source behind a text.
fn put_sources<V: EventView, L: Ledger>(
    out: &mut Vec<u8>,
    program: &Program,
    view: &mut V,
    sources: &[From],
    steps: &mut Steps<L>,
) -> Result<(), ViewError>
    requires { All (λ s. s.event < (V.tells view.old).count) sources.now }
    ensures lines { (rs : List Recorded) → (V.tells view.old).records ≡ Some rs
        → OnOk result (out.new.items ≡ out.old.items ++ lines_of (program_of program.now)
        program.now.lines.items rs sources.now) }
    ensures keeps { Keeps (V.tells view.old) (V.tells view.new) }
    ensures answers { KeepsCounts result (V.tells view.old) (V.tells view.new) }
{
    for source in sources {
        put_source_line(out, program, view, source, steps)?;
    }
    Ok(())
}

/// The lines of what an event comes from directly, or that there is nothing.
#[tactic(auto, unfolding(crate::specs::Scene::sources_text, crate::specs::Scene::none_line))]
fn source_lines<V: EventView, L: Ledger>(
    alloc: Global,
    program: &Program,
    view: &mut V,
    sources: &[From],
    steps: &mut Steps<L>,
) -> Result<Vec<u8>, ViewError>
    requires { All (λ s. s.event < (V.tells view.old).count) sources.now }
    ensures lines { (rs : List Recorded) → (V.tells view.old).records ≡ Some rs
        → IfOk result (λ text. text.items ≡ sources_text (program_of program.now)
        program.now.lines.items rs sources.now) }
    ensures keeps { Keeps (V.tells view.old) (V.tells view.new) }
    ensures answers { KeepsCounts result (V.tells view.old) (V.tells view.new) }
{
    if sources.is_empty() {
        return Ok(Vec::from_slice(alloc, "none\n".as_bytes())?);
    }
    let mut lines = Vec::new(alloc);
    put_sources(&mut lines, program, view, sources, steps)?;
    Ok(lines)
}

/// The lines of the links that kept a statement from running.
fn item_lines(alloc: Global, program: &Program, items: &[Item]) -> Result<Vec<u8>, AllocError>
    ensures { IfOk result (λ text. text.items ≡ items_text (program_of program.now)
        program.now.lines.items (map evidence_in items.now)) }
{
    let mut lines = Vec::new(alloc);
    put_items(alloc, &mut lines, program, items)?;
    Ok(lines)
}

/// The lines of a reply. The end of a session has none.
#[tactic(auto, unfolding(crate::specs::Scene::reply_text, crate::specs::Scene::none_line))]
fn reply_lines<V: EventView, L: Ledger>(
    alloc: Global,
    opened: &mut Opened<'_, V>,
    explorer: &Explorer,
    reply: &Reply,
    steps: &mut Steps<L>,
) -> Result<Vec<u8>, ViewError>
    requires opened { IsOpenedOf (V.tells opened.old.view) opened.old }
    requires reply { IsReplyWithin (V.tells opened.old.view).count reply.now }
    requires explorer { AllWithin (V.tells opened.old.view).count explorer.now }
    ensures text { (x : Scene) → IsSceneIn (V.tells opened.old.view) opened.old x
        → AllAnswered x.program x.records explorer.now → IsAsked explorer.now reply.now
        → IfOk result (λ text. text.items ≡ reply_text x (reply_of reply.now)) }
    ensures stays { StaysOpened V.tells opened.old opened.new }
    ensures answers { KeepsCounts result (V.tells opened.old.view) (V.tells opened.new.view) }
{
    let Opened { program, view, .. } = opened;
    match reply {
        Reply::At(Some(event)) => event_line(alloc, program, view, *event, steps),
        Reply::At(None) => Ok(Vec::from_slice(alloc, "none\n".as_bytes())?),
        Reply::Answer(_) => match explorer.answer() {
            Some(answered) => answer_lines(alloc, program, view, &answered.answer, steps),
            None => Ok(Vec::new(alloc)),
        },
        Reply::From(sources) => source_lines(alloc, program, view, sources.as_slice(), steps),
        Reply::Items(items) => Ok(item_lines(alloc, program, items.as_slice())?),
        Reply::Frames(state) => {
            frame_lines(alloc, program, view, state.frames.as_slice(), steps)
        }
        Reply::Shown(value) => value_line(alloc, program, view, *value, steps),
        Reply::NoSuch => Ok(Vec::from_slice(alloc, "no such\n".as_bytes())?),
        Reply::NothingToUndo => Ok(Vec::from_slice(alloc, "nothing to undo\n".as_bytes())?),
        Reply::End => Ok(Vec::new(alloc)),
    }
}

/// An explorer with the trace that it looks at.
#[derive(Drop)]
struct Desk<'a, V, L: Ledger> {
    opened: Opened<'a, V>,
    links: Links,
    steps: Steps<L>,
    explorer: Explorer,
}

impl<'a, V: EventView, L: Ledger> Respond for Desk<'a, V, L> {
    ghost use Rattle.wy_session.specs.Desk.{IsDesk, IsReady};

    ghost ready = { λ d. IsReady (V.tells d.opened.view) d.opened d.links d.explorer };

    ghost tells = { λ d. V.tells d.opened.view };

    ghost stands = { λ d x s. IsDesk (V.tells d.opened.view) d.opened d.explorer x s };

    fn reply(&mut self, alloc: Global, line: &[u8]) -> Result<Option<Vec<u8>>, ViewError> {
        let Desk {
            opened,
            links,
            steps,
            explorer,
        } = self;
        let reply = explorer.apply(alloc, line, opened, links, steps)?;
        if let Reply::End = reply {
            return Ok(None);
        }
        Ok(Some(reply_lines(alloc, opened, explorer, &reply, steps)?))
    }
}

/// Answers the lines of an input over a trace of a program, each before more is read, through a view of its events and with what
/// the trace tells of the statements. The view is given back alone, so that who lent it something has that back, and how the
/// session ended is left beside it. What was found in the events before may be given: then they are not looked at once more.
pub fn explore<V: EventView, K: Source, O: Sink>(
    alloc: Global,
    program: &Program,
    coverage: &[Cover],
    view: V,
    found: Option<Findings>,
    keys: &mut K,
    out: &mut O,
    ending: &mut Option<Ending>,
) -> V
    requires fields { length program.now.fields.items < 2 ^ 32 }
    requires found { IfSome found (IsFoundIn (V.tells view)) }
    ensures ended { IsSome ending.new }
    ensures closed { IfSome ending.new
        (Closed (IsSceneOf program.now coverage.now (V.tells view)) (K.left keys.old)
        (failures (K.faults keys.old) (K.faults keys.new) (O.faults out.old) (O.faults out.new))
        (O.written out.old) (O.written out.new)) }
    ensures read_out { IfSome ending.new
        (ReadsOut (IsSceneOf program.now coverage.now (V.tells view)) (K.left keys.old)
        (K.left keys.new)) }
    ensures taken { IfSome ending.new
        (λ e. TakesManyFor e (K.taken keys.old) (K.taken keys.new)) }
    ensures keeps { Keeps (V.tells view) (V.tells result) }
    ensures counts { IfSome ending.new (λ e. CountsFor e (V.tells view) (V.tells result)) }
{
    let blank = Blank::new(1);
    let (view, ended) = explore_indexed::<V, K, O, Brand>(
        alloc, program, coverage, view, found, keys, out, blank,
    );
    *ending = Some(ended);
    view
}

/// The same, with a ledger for the steps, which nobody reads.
fn explore_indexed<V: EventView, K: Source, O: Sink, L: Ledger>(
    alloc: Global,
    program: &Program,
    coverage: &[Cover],
    view: V,
    found: Option<Findings>,
    keys: &mut K,
    out: &mut O,
    blank: Blank,
) -> (V, Ending)
    requires fields { length program.now.fields.items < 2 ^ 32 }
    requires found { IfSome found (IsFoundIn (V.tells view)) }
    requires name { blank.name ≡ L.name }
    requires parts { blank.parts ≡ L.parts }
    requires some { 0 < blank.parts }
    ensures closed { Closed (IsSceneOf program.now coverage.now (V.tells view)) (K.left keys.old)
        (failures (K.faults keys.old) (K.faults keys.new) (O.faults out.old) (O.faults out.new))
        (O.written out.old) (O.written out.new) result.1 }
    ensures read_out { ReadsOut (IsSceneOf program.now coverage.now (V.tells view))
        (K.left keys.old) (K.left keys.new) result.1 }
    ensures taken { TakesManyFor result.1 (K.taken keys.old) (K.taken keys.new) }
    ensures keeps { Keeps (V.tells view) (V.tells result.0) }
    ensures counts { CountsFor result.1 (V.tells view) (V.tells result.0) }
{
    let mut view = view;
    let mut steps = Steps::<L>::new(blank);
    let index = match Index::of(alloc, found, &mut view, program, &mut steps) {
        Ok(index) => index,
        Err(error) => return (view, Ending::from(error)),
    };
    let opened = Opened {
        program,
        coverage,
        index,
        view,
    };
    explore_opened(alloc, opened, keys, out, steps)
}

/// The same, over a trace that is opened.
fn explore_opened<V: EventView, K: Source, O: Sink, L: Ledger>(
    alloc: Global,
    opened: Opened<'_, V>,
    keys: &mut K,
    out: &mut O,
    steps: Steps<L>,
) -> (V, Ending)
    requires { IsOpenedOf (V.tells opened.view) opened }
    ensures closed { Closed (IsSceneIn (V.tells opened.entry.view) opened.entry) (K.left keys.old)
        (failures (K.faults keys.old) (K.faults keys.new) (O.faults out.old) (O.faults out.new))
        (O.written out.old) (O.written out.new) result.1 }
    ensures read_out { ReadsOut (IsSceneIn (V.tells opened.entry.view) opened.entry)
        (K.left keys.old) (K.left keys.new) result.1 }
    ensures taken { TakesManyFor result.1 (K.taken keys.old) (K.taken keys.new) }
    ensures keeps { Keeps (V.tells opened.entry.view) (V.tells result.0) }
    ensures counts { CountsFor result.1 (V.tells opened.entry.view) (V.tells result.0) }
{
    let Ok(links) = links(alloc, opened.program) else {
        let Opened { view, .. } = opened;
        return (view, Ending::NoMemory);
    };
    let Ok(explorer) = Explorer::open(alloc) else {
        let Opened { view, .. } = opened;
        return (view, Ending::NoMemory);
    };
    let mut desk = Desk {
        opened,
        links,
        steps,
        explorer,
    };
    let ending = talk(alloc, keys, &mut desk, out);
    let Desk { opened, .. } = desk;
    let Opened { view, .. } = opened;
    (view, ending)
}
