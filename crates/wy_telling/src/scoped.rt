//! Why the guards around a statement were not passed in a call, line by line.

ghost use Rattle.std.specs.Prelude.{◌≡◌, ◌<◌, ◌++◌, IfOk, List, OnOk, Some, map, true};
ghost use Rattle.std.specs.List.{flat_map};
ghost use Rattle.wy_ask.specs.Opened.{IsOpenedOf, StaysOpened};
ghost use Rattle.wy_event.specs.Record.{Recorded};
ghost use Rattle.wy_kernel.specs.Parts.{program_of};
ghost use Rattle.wy_kernel.specs.Statements.{statements_of as all_statements};
ghost use Rattle.wy_scope.specs.Evidence.{evidence_in};
ghost use Rattle.wy_scope.specs.Laws.{is_call_at};
ghost use Rattle.wy_view.specs.View.{Keeps, KeepsCounts};
ghost use Rattle.wy_telling.specs.Caught.{AreClauses};
ghost use Rattle.wy_telling.specs.Scoped.{KeepsFaults, TellsNamedIn, TellsScope, arm_text_in, class_text_in, crossing, item_line_in, items_text_in, reason_in, tests_text_in};

use crate::caught::{Clause, clauses};
use crate::item::{last_from, put_call, put_catch, put_tested, put_text, truth};
use std::alloc::{AllocError, Global};
use std::marker::Brand;
use std::sync::ledger::{Blank, Ledger};
use wy_ask::{AskError, NamedStatement, Opened, statement};
use wy_event::record::Kind;
use wy_kernel::program::Program;
use wy_kernel::types::NONE;
use wy_scope::{ScopeError, ScopeItem, scoped};
use wy_static::links::links;
use wy_static::point::{LinkKind, Point};
use wy_text::{put_class_name, put_place};
use wy_view::{EventView, Steps, ViewError};
use wy_whynot::Made;

/// Why a word and a call have no answer.
#[derive(Clone, Copy, Debug, PartialEq, Eq)]
pub enum Unscoped {
    /// The word is no line and place.
    NotRead,
    /// The line has no such statement, or there is no such call.
    NoSuch(u32),
    /// The region of the statement was passed in the call, first by this event.
    Passed { line: u32, place: u32, event: u32 },
    /// The view of the trace refused, or memory ran out.
    View(ViewError),
}

impl From<AllocError> for Unscoped {
    ghost use Rattle.std.specs.Prelude.{◌≡◌};
    ghost use Rattle.wy_telling.specs.declared.scoped.Unscoped.TheVariants.{View};
    ghost use Rattle.wy_view.specs.declared.view.ViewError.TheVariants.{NoMemory};

    ghost from_gives = { λ _ error. error ≡ View NoMemory };

    fn from(_error: AllocError) -> Unscoped {
        Unscoped::View(ViewError::NoMemory)
    }
}

impl From<ViewError> for Unscoped {
    ghost use Rattle.std.specs.Prelude.{◌≡◌};
    ghost use Rattle.wy_telling.specs.declared.scoped.Unscoped.TheVariants.{View};

    ghost from_gives = { λ cause error. error ≡ View cause };

    fn from(error: ViewError) -> Unscoped {
        Unscoped::View(error)
    }
}

// ---- the lines

#[tactic(auto, unfolding(crate::specs::Scoped::tests_text_in))]
fn put_tests(out: &mut Vec<u8>, value: u32, tests: &[u32]) -> Result<(), AllocError>
    ensures { OnOk result (out.new.items ≡ out.old.items ++ tests_text_in value tests.now) }
{
    match tests.split_first() {
        Some((first, rest)) => {
            let last = last_from(*first, rest);
            put_tested(out, value, tests.len(), *first, last)
        }
        None => put_text(out, "no test there"),
    }
}

#[tactic(auto, unfolding(crate::specs::Scoped::arm_text_in))]
fn put_arm(out: &mut Vec<u8>, value: u32, tests: &[u32]) -> Result<(), AllocError>
    ensures { OnOk result (out.new.items ≡ out.old.items ++ arm_text_in value tests.now) }
{
    put_text(out, "arm ")?;
    put_text(out, truth(value))?;
    put_text(out, " not taken: ")?;
    put_tests(out, value, tests)
}

#[tactic(auto, unfolding(crate::specs::Scoped::class_text_in))]
fn put_uninitialized(out: &mut Vec<u8>, program: &Program, class: u32) -> Result<(), AllocError>
    ensures { OnOk result (out.new.items
        ≡ out.old.items ++ class_text_in (program_of program.now) class) }
{
    put_text(out, "class ")?;
    put_class_name(out, program, class)?;
    put_text(out, " not initialized in this call")
}

/// Puts that a region other than an arm was not come to.
#[tactic(auto, unfolding(crate::specs::Scoped::crossing))]
fn put_crossing(
    out: &mut Vec<u8>,
    program: &Program,
    clauses: &[Clause],
    to: Point,
    made: &[Made],
) -> Result<(), AllocError>
    ensures { AreClauses (all_statements (program_of program.now)) clauses.now
        → OnOk result (out.new.items
        ≡ out.old.items ++ crossing (program_of program.now) to made.now) }
{
    match to {
        Point::Entry(method) => put_call(out, program, method, made, NONE),
        Point::Init(class) => put_uninitialized(out, program, class),
        Point::Catch(site) => put_catch(out, program, clauses, site),
        Point::Start | Point::Statement(_) | Point::Arm { .. } => Ok(()),
    }
}

#[tactic(auto, unfolding(crate::specs::Scoped::reason_in))]
fn put_reason(
    out: &mut Vec<u8>,
    program: &Program,
    clauses: &[Clause],
    item: &ScopeItem,
) -> Result<(), AllocError>
    ensures { AreClauses (all_statements (program_of program.now)) clauses.now
        → OnOk result (out.new.items ≡ out.old.items
        ++ reason_in (program_of program.now) item.now.link.kind (evidence_in item.now)) }
{
    match item.link.kind {
        LinkKind::Arm(value) => put_arm(out, value, item.tests.as_slice()),
        LinkKind::Into | LinkKind::Next | LinkKind::Call | LinkKind::Catch => {
            put_crossing(out, program, clauses, item.link.to, item.made.as_slice())
        }
    }
}

#[tactic(auto, unfolding(crate::specs::Scoped::item_line_in))]
fn put_item(
    out: &mut Vec<u8>,
    program: &Program,
    clauses: &[Clause],
    item: &ScopeItem,
) -> Result<(), AllocError>
    ensures { AreClauses (all_statements (program_of program.now)) clauses.now
        → OnOk result (out.new.items ≡ out.old.items
        ++ item_line_in (program_of program.now) program.now.lines.items (evidence_in item.now)) }
{
    put_place(out, program, item.link.site)?;
    put_text(out, " ")?;
    put_reason(out, program, clauses, item)?;
    put_text(out, "\n")
}

fn put_each(
    out: &mut Vec<u8>,
    program: &Program,
    clauses: &[Clause],
    items: &[ScopeItem],
) -> Result<(), AllocError>
    ensures { AreClauses (all_statements (program_of program.now)) clauses.now
        → OnOk result (out.new.items ≡ out.old.items
        ++ flat_map (item_line_in (program_of program.now) program.now.lines.items)
        (map evidence_in items.now)) }
{
    for item in items {
        put_item(out, program, clauses, item)?;
    }
    Ok(())
}

/// A line an item, or that no call leads to the statement where there are none.
#[tactic(auto, unfolding(crate::specs::Scoped::items_text_in, crate::specs::Items::no_call_line))]
fn items_text(alloc: Global, program: &Program, items: &[ScopeItem]) -> Result<Vec<u8>, AllocError>
    ensures { IfOk result (λ text. text.items ≡ items_text_in (program_of program.now)
        program.now.lines.items (map evidence_in items.now)) }
{
    let mut text = Vec::new(alloc);
    if items.is_empty() {
        put_text(&mut text, "no call leads here\n")?;
        return Ok(text);
    }
    let clauses = clauses(alloc, program)?;
    put_each(&mut text, program, &clauses, items)?;
    Ok(text)
}

// ---- the answer

/// Whether an event is there, and is a Call.
#[tactic(auto, unfolding(wy_event::specs::Record::recorded))]
fn is_call<V: EventView, L: Ledger>(
    view: &mut V,
    number: u32,
    steps: &mut Steps<L>,
) -> Result<bool, ViewError>
    ensures call { (rs : List Recorded) → (V.tells view.old).records ≡ Some rs
        → IfOk result (λ is. is ≡ is_call_at rs number) }
    ensures there { IfOk result (λ is. is ≡ true → number < (V.tells view.old).count) }
    ensures keeps { Keeps (V.tells view.old) (V.tells view.new) }
    ensures answers { KeepsCounts result (V.tells view.old) (V.tells view.new) }
{
    if number >= view.count() {
        return Ok(false);
    }
    let event = view.event(number, steps)?;
    Ok(matches!(event.kind, Kind::Call) && event.entity != NONE)
}

/// Why the guards around a statement were not passed in a call: a line for each link that was reached and not crossed.
pub fn scope_text<V: EventView>(
    alloc: Global,
    opened: &mut Opened<'_, V>,
    word: &str,
    call: u32,
) -> Result<Vec<u8>, Unscoped>
    requires { IsOpenedOf (V.tells opened.old.view) opened.old }
    ensures told { (rs : List Recorded) → (V.tells opened.old.view).records ≡ Some rs
        → TellsScope (program_of opened.old.program.now)
        opened.old.program.now.lines.items rs word.now call result }
    ensures faults { KeepsFaults result (V.tells opened.old.view) (V.tells opened.new.view) }
    ensures stays { StaysOpened V.tells opened.old opened.new }
{
    match statement(alloc, opened.program, word) {
        Ok(named) => scope_lines::<V, Brand>(alloc, opened, named, call, Blank::new(1)),
        Err(AskError::BadQuestion) => Err(Unscoped::NotRead),
        Err(AskError::NoSuch(line)) => Err(Unscoped::NoSuch(line)),
        Err(AskError::NoMemory) => Err(Unscoped::View(ViewError::NoMemory)),
    }
}

/// The same of a statement, with a ledger for the steps, which nobody reads.
fn scope_lines<V: EventView, L: Ledger>(
    alloc: Global,
    opened: &mut Opened<'_, V>,
    named: NamedStatement,
    call: u32,
    blank: Blank,
) -> Result<Vec<u8>, Unscoped>
    requires opened { IsOpenedOf (V.tells opened.old.view) opened.old }
    requires name { blank.name ≡ L.name }
    requires parts { blank.parts ≡ L.parts }
    requires some { 0 < blank.parts }
    ensures told { (rs : List Recorded) → (V.tells opened.old.view).records ≡ Some rs
        → TellsNamedIn (program_of opened.old.program.now)
        opened.old.program.now.lines.items rs named call result }
    ensures faults { KeepsFaults result (V.tells opened.old.view) (V.tells opened.new.view) }
    ensures stays { StaysOpened V.tells opened.old opened.new }
{
    let mut steps = Steps::<L>::new(blank);
    if !is_call(&mut opened.view, call, &mut steps)? {
        return Err(Unscoped::NoSuch(call));
    }
    lines_in_call(alloc, opened, named, call, &mut steps)
}

/// The lines of a statement in an event that is a Call.
fn lines_in_call<V: EventView, L: Ledger>(
    alloc: Global,
    opened: &mut Opened<'_, V>,
    named: NamedStatement,
    call: u32,
    steps: &mut Steps<L>,
) -> Result<Vec<u8>, Unscoped>
    requires opened { IsOpenedOf (V.tells opened.old.view) opened.old }
    requires there { call < (V.tells opened.old.view).count }
    ensures told { (rs : List Recorded) → (V.tells opened.old.view).records ≡ Some rs
        → is_call_at rs call ≡ true → TellsNamedIn (program_of opened.old.program.now)
        opened.old.program.now.lines.items rs named call result }
    ensures faults { KeepsFaults result (V.tells opened.old.view) (V.tells opened.new.view) }
    ensures stays { StaysOpened V.tells opened.old opened.new }
{
    let links = links(alloc, opened.program)?;
    let found = scoped(
        alloc,
        opened.program,
        &links,
        &mut opened.view,
        &opened.index,
        call,
        named.number,
        steps,
    );
    match found {
        Ok(items) => Ok(items_text(alloc, opened.program, &items)?),
        Err(ScopeError::Passed { event }) => Err(Unscoped::Passed {
            line: named.line,
            place: named.place,
            event,
        }),
        Err(ScopeError::View(error)) => Err(Unscoped::View(error)),
        Err(ScopeError::NoMemory) => Err(Unscoped::View(ViewError::NoMemory)),
    }
}
