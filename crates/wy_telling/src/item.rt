//! The lines of items.

ghost use Rattle.std.specs.Prelude.{◌≡◌, ◌++◌, OnOk, codes, map};
ghost use Rattle.std.specs.Fmt.{decimal};
ghost use Rattle.std.specs.List.{flat_map};
ghost use Rattle.wy_telling.specs.Caught.{AreClauses};
ghost use Rattle.wy_telling.specs.Items.{arm_text, call_text, call_to, calls_text, catch_at, catch_text, cause_text, class_text};
ghost use Rattle.wy_telling.specs.Items.{item_line, items_text, last_from, more_made, no_call_text, one_made, other_truth};
ghost use Rattle.wy_telling.specs.Items.{reason, stopped_text, tested, tests_text, truth};
ghost use Rattle.wy_kernel.specs.Parts.{program_of};
ghost use Rattle.wy_kernel.specs.Statements.{statements_of as all_statements};
ghost use Rattle.wy_text.specs.EndLines.{name_of};
ghost use Rattle.wy_whynot.specs.Evidence.{evidence_in};

use crate::caught::{Clause, class_at, clauses};
use std::alloc::{AllocError, Global};
use wy_event::record::GOING_ON;
use wy_kernel::program::Program;
use wy_kernel::types::NONE;
use wy_static::point::{LinkKind, Point};
use wy_text::{put_class_name, put_count, put_decimal, put_full_name, put_method_name, put_place};
use wy_whynot::{Item, Made};

pub(crate) fn put_text(out: &mut Vec<u8>, text: &str) -> Result<(), AllocError>
    ensures { OnOk result (out.new.items ≡ out.old.items ++ text.now) }
{
    out.extend_from_slice(text.as_bytes())
}

/// Puts a text, and a number behind it.
fn put_numbered(out: &mut Vec<u8>, text: &str, number: u32) -> Result<(), AllocError>
    ensures { OnOk result (out.new.items ≡ out.old.items ++ (text.now ++ decimal number)) }
{
    put_text(out, text)?;
    put_decimal(out, number)
}

#[tactic(auto, unfolding(crate::specs::Items::cause_text))]
fn put_cause(out: &mut Vec<u8>, cause: u32) -> Result<(), AllocError>
    ensures { OnOk result (out.new.items ≡ out.old.items ++ cause_text cause) }
{
    if cause < GOING_ON {
        put_numbered(out, "left by #", cause)
    } else {
        put_text(out, "run ended")
    }
}

pub(crate) fn truth(value: u32) -> &'static str
    ensures { result.now ≡ truth value }
{
    if value == 1 { "true" } else { "false" }
}

fn other_truth(value: u32) -> &'static str
    ensures { result.now ≡ other_truth value }
{
    if value == 1 { "false" } else { "true" }
}

#[tactic(auto, unfolding(crate::specs::Items::tested))]
pub(crate) fn put_tested(
    out: &mut Vec<u8>,
    value: u32,
    count: usize,
    first: u32,
    last: u32,
) -> Result<(), AllocError>
    ensures { OnOk result (out.new.items ≡ out.old.items ++ tested value count first last) }
{
    put_count(out, count)?;
    put_text(out, " tested ")?;
    put_text(out, other_truth(value))?;
    put_span(out, first, last)
}

/// Puts the first number of some and the last.
fn put_span(out: &mut Vec<u8>, first: u32, last: u32) -> Result<(), AllocError>
    ensures { OnOk result (out.new.items ≡ out.old.items
        ++ (codes ", first #" ++ (decimal first ++ (codes ", last #" ++ decimal last)))) }
{
    put_numbered(out, ", first #", first)?;
    put_numbered(out, ", last #", last)
}

/// The last number of some.
pub(crate) fn last_from(first: u32, rest: &[u32]) -> u32
    ensures { result ≡ last_from first rest.now }
{
    let mut last = first;
    for number in rest {
        last = *number;
    }
    last
}

#[tactic(auto, unfolding(crate::specs::Items::tests_text))]
fn put_tests(out: &mut Vec<u8>, value: u32, tests: &[u32], cause: u32) -> Result<(), AllocError>
    ensures { OnOk result (out.new.items ≡ out.old.items ++ tests_text value tests.now cause) }
{
    match tests.split_first() {
        Some((first, rest)) => {
            let last = last_from(*first, rest);
            put_tested(out, value, tests.len(), *first, last)
        }
        None => put_cause(out, cause),
    }
}

#[tactic(auto, unfolding(crate::specs::Items::arm_text))]
fn put_arm(out: &mut Vec<u8>, value: u32, tests: &[u32], cause: u32) -> Result<(), AllocError>
    ensures { OnOk result (out.new.items ≡ out.old.items ++ arm_text value tests.now cause) }
{
    put_text(out, "arm ")?;
    put_text(out, truth(value))?;
    put_text(out, " not taken: ")?;
    put_tests(out, value, tests, cause)
}

#[tactic(auto, unfolding(crate::specs::Items::one_made))]
fn put_made(out: &mut Vec<u8>, program: &Program, made: Made) -> Result<(), AllocError>
    ensures { OnOk result
        (out.new.items ≡ out.old.items ++ one_made (program_of program.now) made) }
{
    put_method_name(out, program, made.method)?;
    put_numbered(out, " at #", made.event)
}

#[tactic(auto, unfolding(crate::specs::Items::more_made))]
fn put_more(out: &mut Vec<u8>, program: &Program, made: &[Made]) -> Result<(), AllocError>
    ensures { OnOk result (out.new.items
        ≡ out.old.items ++ more_made (program_of program.now) made.now) }
{
    for one in made {
        put_text(out, ", ")?;
        put_made(out, program, *one)?;
    }
    Ok(())
}

#[tactic(auto, unfolding(crate::specs::Items::no_call_text))]
fn put_no_call(out: &mut Vec<u8>, cause: u32) -> Result<(), AllocError>
    ensures { OnOk result (out.new.items ≡ out.old.items ++ no_call_text cause) }
{
    if cause == NONE {
        put_text(out, "no call there")
    } else {
        put_cause(out, cause)
    }
}

#[tactic(auto, unfolding(crate::specs::Items::calls_text))]
fn put_calls(
    out: &mut Vec<u8>,
    program: &Program,
    made: &[Made],
    cause: u32,
) -> Result<(), AllocError>
    ensures { OnOk result (out.new.items
        ≡ out.old.items ++ calls_text (program_of program.now) made.now cause) }
{
    match made.split_first() {
        Some((first, rest)) => {
            put_made(out, program, *first)?;
            put_more(out, program, rest)
        }
        None => put_no_call(out, cause),
    }
}

#[tactic(auto, unfolding(crate::specs::Items::call_text))]
pub(crate) fn put_call(
    out: &mut Vec<u8>,
    program: &Program,
    method: u32,
    made: &[Made],
    cause: u32,
) -> Result<(), AllocError>
    ensures { OnOk result (out.new.items
        ≡ out.old.items ++ call_text (program_of program.now) method made.now cause) }
{
    put_text(out, "call ")?;
    put_method_name(out, program, method)?;
    put_text(out, " not made: ")?;
    put_calls(out, program, made, cause)
}

#[tactic(auto, unfolding(crate::specs::Items::class_text))]
fn put_uninitialized(
    out: &mut Vec<u8>,
    program: &Program,
    class: u32,
    cause: u32,
) -> Result<(), AllocError>
    ensures { OnOk result (out.new.items
        ≡ out.old.items ++ class_text (program_of program.now) class cause) }
{
    put_text(out, "class ")?;
    put_class_name(out, program, class)?;
    put_text(out, " not initialized: ")?;
    put_cause(out, cause)
}

#[tactic(auto, unfolding(crate::specs::Items::stopped_text))]
fn put_stopped(out: &mut Vec<u8>, cause: u32) -> Result<(), AllocError>
    ensures { OnOk result (out.new.items ≡ out.old.items ++ stopped_text cause) }
{
    put_text(out, "did not go on: ")?;
    put_cause(out, cause)
}

#[tactic(auto, unfolding(crate::specs::Items::call_to))]
fn put_call_to(
    out: &mut Vec<u8>,
    program: &Program,
    to: Point,
    made: &[Made],
    cause: u32,
) -> Result<(), AllocError>
    ensures { OnOk result (out.new.items
        ≡ out.old.items ++ call_to (program_of program.now) to made.now cause) }
{
    match to {
        Point::Entry(method) => put_call(out, program, method, made, cause),
        Point::Init(class) => put_uninitialized(out, program, class, cause),
        _ => put_stopped(out, cause),
    }
}

#[tactic(auto, unfolding(wy_text::specs::EndLines::name_of))]
fn put_caught(out: &mut Vec<u8>, program: &Program, class: Option<u32>) -> Result<(), AllocError>
    ensures { OnOk result (out.new.items
        ≡ out.old.items ++ name_of (program_of program.now) class) }
{
    match class {
        Some(class) => put_full_name(out, program, class),
        None => Ok(()),
    }
}

#[tactic(auto, unfolding(crate::specs::Items::catch_text))]
pub(crate) fn put_catch(
    out: &mut Vec<u8>,
    program: &Program,
    clauses: &[Clause],
    site: u32,
) -> Result<(), AllocError>
    ensures { AreClauses (all_statements (program_of program.now)) clauses.now
        → OnOk result (out.new.items ≡ out.old.items ++ catch_text (program_of program.now) site) }
{
    let class = class_at(clauses, site);
    put_text(out, "catch ")?;
    put_caught(out, program, class)?;
    put_text(out, " not reached")
}

#[tactic(auto, unfolding(crate::specs::Items::catch_at))]
fn put_catch_at(
    out: &mut Vec<u8>,
    program: &Program,
    clauses: &[Clause],
    to: Point,
    cause: u32,
) -> Result<(), AllocError>
    ensures { AreClauses (all_statements (program_of program.now)) clauses.now
        → OnOk result (out.new.items
        ≡ out.old.items ++ catch_at (program_of program.now) to cause) }
{
    match to {
        Point::Catch(site) => put_catch(out, program, clauses, site),
        _ => put_stopped(out, cause),
    }
}

#[tactic(auto, unfolding(crate::specs::Items::reason))]
fn put_reason(
    out: &mut Vec<u8>,
    program: &Program,
    clauses: &[Clause],
    item: &Item,
) -> Result<(), AllocError>
    ensures { AreClauses (all_statements (program_of program.now)) clauses.now
        → OnOk result (out.new.items ≡ out.old.items
        ++ reason (program_of program.now) item.now.link.kind (evidence_in item.now)) }
{
    match item.link.kind {
        LinkKind::Arm(value) => put_arm(out, value, item.tests.as_slice(), item.cause),
        LinkKind::Call => {
            put_call_to(out, program, item.link.to, item.made.as_slice(), item.cause)
        }
        LinkKind::Catch => put_catch_at(out, program, clauses, item.link.to, item.cause),
        LinkKind::Into | LinkKind::Next => put_stopped(out, item.cause),
    }
}

#[tactic(auto, unfolding(crate::specs::Items::item_line))]
fn put_item(
    out: &mut Vec<u8>,
    program: &Program,
    clauses: &[Clause],
    item: &Item,
) -> Result<(), AllocError>
    ensures { AreClauses (all_statements (program_of program.now)) clauses.now
        → OnOk result (out.new.items ≡ out.old.items
        ++ item_line (program_of program.now) program.now.lines.items (evidence_in item.now)) }
{
    put_place(out, program, item.link.site)?;
    put_text(out, " ")?;
    put_reason(out, program, clauses, item)?;
    put_text(out, "\n")
}

fn put_each(
    out: &mut Vec<u8>,
    program: &Program,
    clauses: &[Clause],
    items: &[Item],
) -> Result<(), AllocError>
    ensures { AreClauses (all_statements (program_of program.now)) clauses.now
        → OnOk result (out.new.items ≡ out.old.items
        ++ flat_map (item_line (program_of program.now) program.now.lines.items)
        (map evidence_in items.now)) }
{
    for item in items {
        put_item(out, program, clauses, item)?;
    }
    Ok(())
}

/// Puts a line an item behind a text, or that no call leads to the statement where there are none.
#[tactic(auto, unfolding(crate::specs::Items::items_text, crate::specs::Items::no_call_line))]
pub fn put_items(
    alloc: Global,
    out: &mut Vec<u8>,
    program: &Program,
    items: &[Item],
) -> Result<(), AllocError>
    ensures { OnOk result (out.new.items ≡ out.old.items
        ++ items_text (program_of program.now) program.now.lines.items
        (map evidence_in items.now)) }
{
    if items.is_empty() {
        return put_text(out, "no call leads here\n");
    }
    let clauses = clauses(alloc, program)?;
    put_each(out, program, &clauses, items)
}
