//! Marks of events, by their numbers.

ghost use Rattle.std.specs.Prelude.{◌≡◌, ◌<◌, ◌||◌, ℕ, length, nat_eq, slice_get};
ghost use Rattle.std.specs.List.{list_any};
ghost use Rattle.wy_why.specs.declared.source.Source.{Source};
ghost use Rattle.wy_cert.specs.declared.certificate.Listed.{Listed};
ghost use Rattle.wy_check.specs.Marks.{mark_of};

use wy_cert::Listed;
use wy_why::Source;

pub(crate) fn is_marked(marks: &[bool], event: u32) -> bool
    ensures { result ≡ mark_of marks.now event }
{
    marks.get(event as usize).copied().unwrap_or(false)
}

/// The mark at a place, if there is one.
pub(crate) fn mark_at(marks: &[bool], place: usize) -> Option<bool>
    ensures { result ≡ slice_get marks.now place }
{
    marks.get(place).copied()
}

/// Marks an event, if there is a mark for it.
pub(crate) fn mark(marks: &mut [bool], event: u32)
    ensures { (j : ℕ) → j < length marks.old
        → mark_of marks.new j ≡ (mark_of marks.old j || nat_eq j event) }
{
    let i = event as usize;
    if i < marks.len() {
        marks[i] = true;
    }
}

/// Marks the events of sources.
pub(crate) fn mark_sources(marks: &mut [bool], sources: &[Source])
    ensures { (j : ℕ) → j < length marks.old → mark_of marks.new j
        ≡ (mark_of marks.old j || list_any (λ (s : Source). nat_eq j s.event) sources.now) }
{
    for source in sources {
        mark(marks, source.event);
    }
}

/// Marks the events of lines.
pub(crate) fn mark_lines(marks: &mut [bool], lines: &[Listed])
    ensures { (j : ℕ) → j < length marks.old → mark_of marks.new j
        ≡ (mark_of marks.old j || list_any (λ (l : Listed). nat_eq j l.event) lines.now) }
{
    for line in lines {
        mark(marks, line.event);
    }
}
