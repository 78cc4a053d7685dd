//! The second pass: each event once, with what its line says weighed against its sources.

ghost use Rattle.std.specs.Prelude.{◌≡◌, ◌<◌, ◌≤◌, ◌||◌, ◌↔◌, [], ℕ, suc, List, Some, IfOk, OnOk, IsTrue, Contains, length, map, nat_eq, option_map, option_to_list, slice_get};
ghost use Rattle.std.specs.List.{list_all};
ghost use Rattle.std.specs.List.Sorted.{IsStrictlySortedBy};
ghost use Rattle.wy_event.specs.Record.{Recorded, recorded};
ghost use Rattle.wy_event.specs.Sources as records;
ghost use Rattle.wy_event.specs.Sources.{Owners};
ghost use Rattle.wy_kernel.specs.Parts.{program_of};
ghost use Rattle.wy_view.specs.Counts.{RoseAtMost};
ghost use Rattle.wy_view.specs.View.{KeepsCounts, Keeps, ReadsOnce};
ghost use Rattle.wy_why.specs.declared.source.Source.{Source};
ghost use Rattle.wy_why.specs.Answer.{Rises};
ghost use Rattle.wy_why.specs.Sources.{source_cmp, source_of};
ghost use Rattle.wy_cert.specs.declared.certificate.Listed.{Listed};
ghost use Rattle.wy_cert.specs.Spelling.{events};
ghost use Rattle.wy_check.specs.Asking.{AreAsked, AreLinesAsked, IsUseAsked};
ghost use Rattle.wy_check.specs.History.{HasSeen};
ghost use Rattle.wy_check.specs.Weighing.{AreMarked, HasNoLine, IsAsSaid, IsRead, IsWeighed, IsWeighedNext};
ghost use Rattle.wy_check.specs.Marks.{mark_of};
ghost use Rattle.wy_check.specs.Writes.{owners};

use crate::history::History;
use crate::marks::{is_marked, mark_lines, mark_sources};
use std::alloc::{AllocError, Global};
use std::sync::ledger::Ledger;
use wy_cert::Listed;
use wy_event::record::{Event, Use};
use wy_kernel::program::Program;
use wy_view::{EventView, Steps, ViewError};
use wy_why::source::{keep, parent, put_in_order};
use wy_why::{Role, Source};

/// What a use comes from, if it is there.
fn source_by(history: &History, program: &Program, used: Use) -> Option<Source>
    ensures { (rs : List Recorded) → HasSeen history.now rs → IsUseAsked history.now used
        → option_to_list (option_map source_of result)
        ≡ records.use_source (owners (program_of program.now)) rs used }
{
    match used {
        Use::Place { slot, moment } => match history.last_write(program, slot, moment) {
            Some(event) => Some(Source {
                event,
                role: Role::Data,
            }),
            None => None,
        },
        Use::Value { event } => Some(Source {
            event,
            role: Role::Data,
        }),
        Use::Choice { event } => Some(Source {
            event,
            role: Role::Choice,
        }),
    }
}

/// What an event comes from, by event and then by role, each once.
fn sources_of(
    alloc: Global,
    history: &History,
    program: &Program,
    event: &Event,
) -> Result<Vec<Source>, AllocError>
    ensures exact { (rs : List Recorded) → HasSeen history.now rs
        → AreAsked history.now event.now.uses
        → IfOk result (λ found. (s : records.Source) → Contains (map source_of found.items) s
        ↔ Contains (records.event_sources (owners (program_of program.now)) rs
        (recorded event.now)) s) }
    ensures rises { IfOk result (λ found. IsStrictlySortedBy source_cmp found.items) }
{
    let mut found = Vec::new(alloc);
    let uses = event.uses.as_slice();
    for used in uses {
        keep(&mut found, source_by(history, program, *used))?;
    }
    keep(&mut found, parent(event))?;
    Ok(put_in_order(found))
}

fn are_same(a: &[Source], b: &[Source]) -> bool
    ensures { IsTrue result ↔ (a.now ≡ b.now) }
{
    a == b
}

fn are_marked(sources: &[Source], marks: &[bool]) -> bool
    ensures { result ≡ list_all (λ (s : Source). mark_of marks.now s.event) sources.now }
{
    sources.iter().all(|source| is_marked(marks, source.event))
}

/// Whether these are the sources that a line says, and all of them are listed.
fn is_as_said(found: &[Source], line: &Listed, listed: &[bool]) -> bool
    ensures { IsTrue result ↔ IsAsSaid found.now line.now listed.now }
{
    are_same(found, line.sources.as_slice()) && are_marked(found, listed)
}

/// A mark for each event below an end, on those that are listed.
fn listed_marks(alloc: Global, lines: &[Listed], end: u32) -> Result<Vec<bool>, AllocError>
    requires { Rises 0 end (events lines.now) }
    ensures { IfOk result (λ marks. AreMarked lines.now end marks.items) }
{
    let mut marks = vec![in alloc; false; end as usize]?;
    mark_lines(&mut marks, lines);
    Ok(marks)
}

/// What is known of the lines whose events were read: whether each is as it says, and which events they come from.
#[derive(Drop)]
pub(crate) struct Weighing {
    pub(crate) history: History,
    pub(crate) needed: Vec<bool>,
    pub(crate) sound: Vec<bool>,
}

impl Weighing {
    /// Weighs the line of an event, which is the next.
    fn weigh(
        &mut self,
        alloc: Global,
        program: &Program,
        listed: &[bool],
        line: &Listed,
        event: &Event,
    ) -> Result<(), AllocError>
        ensures weighed { (rs : List Recorded) (lines : List Listed) (end n : ℕ)
            → IsRead rs n (recorded event.now) → AreMarked lines end listed.now
            → IsWeighed (owners (program_of program.now)) rs lines end n self.old
            → slice_get lines (length self.old.sound.items) ≡ Some line.now → line.now.event ≡ n
            → OnOk result (IsWeighedNext (owners (program_of program.now)) rs lines end n
            self.old self.new) }
        ensures one { OnOk result
            (length self.new.sound.items ≡ suc (length self.old.sound.items)) }
    {
        let found = sources_of(alloc, &self.history, program, event)?;
        mark_sources(&mut self.needed, &found);
        self.sound.push(is_as_said(&found, line, listed))?;
        Ok(())
    }

    /// Weighs the line of an event, and keeps the event.
    fn weigh_and_keep(
        &mut self,
        alloc: Global,
        program: &Program,
        listed: &[bool],
        line: &Listed,
        n: u32,
        event: &Event,
    ) -> Result<(), AllocError>
        ensures weighed { (rs : List Recorded) (lines : List Listed) (end : ℕ)
            → IsRead rs n (recorded event.now) → AreMarked lines end listed.now
            → IsWeighed (owners (program_of program.now)) rs lines end n self.old
            → slice_get lines (length self.old.sound.items) ≡ Some line.now → line.now.event ≡ n
            → OnOk result
            (IsWeighed (owners (program_of program.now)) rs lines end (suc n) self.new) }
        ensures one { OnOk result
            (length self.new.sound.items ≡ suc (length self.old.sound.items)) }
    {
        self.weigh(alloc, program, listed, line, event)?;
        self.history.note(n, event)?;
        Ok(())
    }

    /// Keeps an event that has no line.
    fn pass_by(&mut self, n: u32, event: &Event) -> Result<(), AllocError>
        ensures passed { (owner : Owners) (rs : List Recorded) (lines : List Listed) (end : ℕ)
            → IsRead rs n (recorded event.now) → Rises 0 end (events lines)
            → IsWeighed owner rs lines end n self.old
            → HasNoLine lines (length self.old.sound.items) n
            → OnOk result (IsWeighed owner rs lines end (suc n) self.new) }
        ensures same { OnOk result (self.new.sound ≡ self.old.sound) }
    {
        self.history.note(n, event)?;
        Ok(())
    }

    /// Takes the next event: weighs its line if it is listed.
    fn take(
        &mut self,
        alloc: Global,
        program: &Program,
        lines: &[Listed],
        listed: &[bool],
        n: u32,
        event: &Event,
    ) -> Result<(), AllocError>
        ensures weighed { (rs : List Recorded) (end : ℕ) → IsRead rs n (recorded event.now)
            → AreMarked lines.now end listed.now
            → IsWeighed (owners (program_of program.now)) rs lines.now end n self.old
            → OnOk result
            (IsWeighed (owners (program_of program.now)) rs lines.now end (suc n) self.new) }
        ensures few { length self.old.sound.items ≤ length lines.now
            → OnOk result (length self.new.sound.items ≤ length lines.now) }
    {
        match lines.get(self.sound.len()) {
            Some(line) if line.event == n => {
                self.weigh_and_keep(alloc, program, listed, line, n, event)
            }
            _ => self.pass_by(n, event),
        }
    }
}

/// Reads the next event, and weighs its line if it is listed.
fn step<V: EventView, L: Ledger>(
    alloc: Global,
    view: &mut V,
    program: &Program,
    lines: &[Listed],
    listed: &[bool],
    weighing: &mut Weighing,
    n: u32,
    steps: &mut Steps<L>,
) -> Result<(), ViewError>
    requires { n < (V.tells view.old).count }
    ensures weighed { (rs : List Recorded) (end : ℕ) → (V.tells view.old).records ≡ Some rs
        → AreMarked lines.now end listed.now
        → IsWeighed (owners (program_of program.now)) rs lines.now end n weighing.old
        → OnOk result
        (IsWeighed (owners (program_of program.now)) rs lines.now end (suc n) weighing.new) }
    ensures few { length weighing.old.sound.items ≤ length lines.now
        → OnOk result (length weighing.new.sound.items ≤ length lines.now) }
    ensures keeps { Keeps (V.tells view.old) (V.tells view.new) }
    ensures reads { ReadsOnce (V.tells view.old) (V.tells view.new) }
    ensures answers { KeepsCounts result (V.tells view.old) (V.tells view.new) }
    ensures forward { steps.old ≤ steps.new }
{
    let event = view.event(n, steps)?;
    weighing.take(alloc, program, lines, listed, n, event)?;
    Ok(())
}

/// Reads each event below an end once, and weighs the lines, whose events rise below it.
pub(crate) fn weigh_lines<V: EventView, L: Ledger>(
    alloc: Global,
    view: &mut V,
    program: &Program,
    lines: &[Listed],
    history: History,
    end: u32,
    steps: &mut Steps<L>,
) -> Result<Weighing, ViewError>
    requires end { end ≤ (V.tells view.old).count }
    requires rises { Rises 0 end (events lines.now) }
    ensures weighed { (rs : List Recorded) → (V.tells view.old).records ≡ Some rs
        → HasSeen history [] → AreLinesAsked history rs lines.now
        → IfOk result (IsWeighed (owners (program_of program.now)) rs lines.now end end) }
    ensures few { IfOk result (λ weighing. length weighing.sound.items ≤ length lines.now) }
    ensures keeps { Keeps (V.tells view.old) (V.tells view.new) }
    ensures reads { RoseAtMost end (V.tells view.old).reads (V.tells view.new).reads }
    ensures answers { KeepsCounts result (V.tells view.old) (V.tells view.new) }
    ensures forward { steps.old ≤ steps.new }
{
    let listed = listed_marks(alloc, lines, end)?;
    let mut weighing = Weighing {
        history,
        needed: vec![in alloc; false; end as usize]?,
        sound: Vec::new(alloc),
    };
    for n in 0..end {
        step(
            alloc,
            view,
            program,
            lines,
            &listed,
            &mut weighing,
            n,
            steps,
        )?;
    }
    Ok(weighing)
}
