//! What is written of two runs.
ghost use Rattle.std.specs.Prelude.{◌≡◌, ◌<◌, ◌++◌, ◌^◌, ℕ, List, Some, IfOk, OnOk, length, map};
ghost use Rattle.wy_compare.specs.Compared.{ArePartings, IsDiff, agreeing_text, ends_alike, no_parting_line, parted_text};
ghost use Rattle.wy_compare.specs.Compared.{parting_word, places_text, values_text};
ghost use Rattle.wy_event.specs.Record.{Recorded, recorded};
ghost use Rattle.wy_kernel.specs.Parts.{program_of};
ghost use Rattle.wy_view.specs.View.{Keeps};

use crate::line::{put, put_next, put_part, put_question};
use crate::look::Look;
use crate::parting::first_part;
use std::alloc::{AllocError, Global};
use std::marker::Brand;
use std::sync::ledger::{Blank, Ledger};
use wy_event::record::{Event, Tail};
use wy_kernel::program::Program;
use wy_view::{EventView, MemoryView, Steps, ViewError};

/// The first places at which the values and the paths of two runs part.
#[derive(Clone, Copy, Debug, PartialEq, Eq)]
struct Partings {
    values: Option<u32>,
    paths: Option<u32>,
}

fn parted_at(good: &[Event], bad: &[Event]) -> Partings
    requires { length good.now < 2 ^ 32 }
    ensures { ArePartings (map recorded good.now) (map recorded bad.now) result }
{
    Partings {
        values: first_part(Look::Values, good, bad),
        paths: first_part(Look::Path, good, bad),
    }
}

/// Whether two runs stopped alike, after as many steps.
pub fn ends_alike(good: &Tail, bad: &Tail) -> bool
    ensures { result ≡ ends_alike good.now bad.now }
{
    good.stop == bad.stop && good.last == bad.last && good.steps == bad.steps
}

/// Where two runs of a program part, what each has there, and what to ask next of the second one, whose trace has this name.
pub fn diff_text(
    alloc: Global,
    program: &Program,
    good: &mut MemoryView,
    bad: &mut MemoryView,
    alike: bool,
    name: &str,
) -> Result<Vec<u8>, AllocError>
    ensures { IfOk result (λ text. IsDiff (program_of program.now) program.now.lines.items
        (map recorded good.old.events.items) (map recorded bad.old.events.items)
        alike name.now text.items) }
{
    let found = parted_at(good.events.as_slice(), bad.events.as_slice());
    match diff_by::<Brand>(
        alloc,
        program,
        good,
        bad,
        found,
        alike,
        name.as_bytes(),
        Blank::new(1),
    ) {
        Ok(text) => Ok(text),
        Err(_) => Err(AllocError),
    }
}

/// The same, with a ledger for the steps, which nobody reads. Events in memory refuse for want of memory alone.
fn diff_by<L: Ledger>(
    alloc: Global,
    program: &Program,
    good: &mut MemoryView,
    bad: &mut MemoryView,
    partings: Partings,
    alike: bool,
    name: &[u8],
    blank: Blank,
) -> Result<Vec<u8>, ViewError>
    requires name { blank.name ≡ L.name }
    requires parts { blank.parts ≡ L.parts }
    requires some { 0 < blank.parts }
    ensures { IfOk result (λ text. text.items ≡ parted_text (program_of program.now)
        program.now.lines.items (map recorded good.old.events.items)
        (map recorded bad.old.events.items) alike name.now partings.values partings.paths) }
{
    let mut steps = Steps::<L>::new(blank);
    let mut out = Vec::new(alloc);
    put_partings(
        &mut out, program, good, bad, partings, alike, name, &mut steps,
    )?;
    Ok(out)
}

/// Puts where two runs part.
#[tactic(auto, unfolding(crate::specs::Compared::parted_text))]
fn put_partings<V: EventView, L: Ledger>(
    out: &mut Vec<u8>,
    program: &Program,
    good: &mut V,
    bad: &mut V,
    partings: Partings,
    alike: bool,
    name: &[u8],
    steps: &mut Steps<L>,
) -> Result<(), ViewError>
    ensures { (rs qs : List Recorded) → (V.tells good.old).records ≡ Some rs
        → (V.tells bad.old).records ≡ Some qs
        → OnOk result (out.new.items ≡ out.old.items ++ parted_text (program_of program.now)
        program.now.lines.items rs qs alike name.now partings.values partings.paths) }
{
    let Some(values) = partings.values else {
        put(out, no_parting_line(alike))?;
        return Ok(());
    };
    let Some(paths) = partings.paths else {
        return put_agreeing(out, program, good, bad, name, values, steps);
    };
    put_places(out, program, good, bad, name, values, paths, steps)
}

fn no_parting_line(alike: bool) -> &'static str
    ensures { result.now ≡ no_parting_line alike }
{
    if alike {
        "equal\n"
    } else {
        "equal but for the end\n"
    }
}

/// Puts where the values of two runs part that go one path.
fn put_agreeing<V: EventView, L: Ledger>(
    out: &mut Vec<u8>,
    program: &Program,
    good: &mut V,
    bad: &mut V,
    name: &[u8],
    values: u32,
    steps: &mut Steps<L>,
) -> Result<(), ViewError>
    ensures { (rs qs : List Recorded) → (V.tells good.old).records ≡ Some rs
        → (V.tells bad.old).records ≡ Some qs
        → OnOk result (out.new.items ≡ out.old.items ++ agreeing_text (program_of program.now)
        program.now.lines.items rs qs name.now values) }
{
    put_part(out, program, good, bad, "values", values, steps)?;
    put(out, "paths agree\n")?;
    put_question(out, "affects", name, values)?;
    Ok(())
}

/// Puts where the values of two runs part, and where their paths do.
fn put_places<V: EventView, L: Ledger>(
    out: &mut Vec<u8>,
    program: &Program,
    good: &mut V,
    bad: &mut V,
    name: &[u8],
    values: u32,
    paths: u32,
    steps: &mut Steps<L>,
) -> Result<(), ViewError>
    ensures { (rs qs : List Recorded) → (V.tells good.old).records ≡ Some rs
        → (V.tells bad.old).records ≡ Some qs
        → OnOk result (out.new.items ≡ out.old.items ++ places_text (program_of program.now)
        program.now.lines.items rs qs name.now values paths) }
{
    put_values(out, program, good, bad, values, paths, steps)?;
    let word = parting_word(values, paths);
    put_part(out, program, good, bad, word, paths, steps)?;
    let is_there = paths < bad.count();
    put_next(out, name, paths, is_there)?;
    Ok(())
}

/// What parts at the place at which the paths do.
fn parting_word(values: u32, paths: u32) -> &'static str
    ensures { result.now ≡ parting_word values paths }
{
    if values < paths {
        "paths"
    } else {
        "values and paths"
    }
}

/// Puts where the values part, unless it is where the paths do.
fn put_values<V: EventView, L: Ledger>(
    out: &mut Vec<u8>,
    program: &Program,
    good: &mut V,
    bad: &mut V,
    values: u32,
    paths: u32,
    steps: &mut Steps<L>,
) -> Result<(), ViewError>
    ensures text { (rs qs : List Recorded) → (V.tells good.old).records ≡ Some rs
        → (V.tells bad.old).records ≡ Some qs
        → OnOk result (out.new.items ≡ out.old.items ++ values_text (program_of program.now)
        program.now.lines.items rs qs values paths) }
    ensures good { Keeps (V.tells good.old) (V.tells good.new) }
    ensures bad { Keeps (V.tells bad.old) (V.tells bad.new) }
{
    if values >= paths {
        return Ok(());
    }
    put_part(out, program, good, bad, "values", values, steps)
}
