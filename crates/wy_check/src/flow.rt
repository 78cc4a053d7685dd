//! What the event that is asked about comes from by data, by the lines of a certificate that is whole.

ghost use Rattle.std.specs.Prelude.{◌≡◌, ◌<◌, ◌&&◌, ◌||◌, ℕ, suc, IfOk, List, filter, length, nat_eq};
ghost use Rattle.wy_event.specs.Record.{Recorded};
ghost use Rattle.wy_event.specs.Sources.{Owners, data_closure};
ghost use Rattle.wy_why.specs.Answer.{up_to};
ghost use Rattle.wy_cert.specs.declared.certificate.Certificate.{Certificate};
ghost use Rattle.wy_cert.specs.declared.certificate.Listed.{Listed};
ghost use Rattle.wy_cert.specs.Spelling.{events};
ghost use Rattle.wy_check.specs.Data.{has_data, is_by_data};
ghost use Rattle.wy_check.specs.Faults.{IsWhole};
ghost use Rattle.wy_check.specs.Marks.{AreUnmarked, mark_of};

use crate::marks::{is_marked, mark};
use std::alloc::{AllocError, Global};
use wy_cert::{Certificate, Listed};
use wy_why::{Role, Source};

fn is_by_data(role: Role) -> bool
    ensures { result ≡ is_by_data role }
{
    matches!(role, Role::Data)
}

/// Marks the event of a source by data.
fn mark_source(marks: &mut [bool], source: Source)
    ensures { (j : ℕ) → j < length marks.old → mark_of marks.new j
        ≡ (mark_of marks.old j || (is_by_data source.role && nat_eq j source.event)) }
{
    if is_by_data(source.role) {
        mark(marks, source.event);
    }
}

/// Marks the events of the sources by data.
fn mark_data(marks: &mut [bool], sources: &[Source])
    ensures { (j : ℕ) → j < length marks.old
        → mark_of marks.new j ≡ (mark_of marks.old j || has_data sources.now j) }
{
    for source in sources {
        mark_source(marks, *source);
    }
}

/// Marks what the line of a marked event has by data.
fn mark_line(marks: &mut [bool], line: &Listed)
    ensures { (j : ℕ) → j < length marks.old → mark_of marks.new j ≡ (mark_of marks.old j
        || (mark_of marks.old line.now.event && has_data line.now.sources j)) }
{
    if is_marked(marks, line.event) {
        mark_data(marks, line.sources.as_slice());
    }
}

/// Marks an event, and what it comes from by data, from the last line to the first; none is marked before.
fn mark_flow(marks: &mut [bool], lines: &[Listed], event: u32)
    ensures { (owner : Owners) (rs : List Recorded) (c : Certificate) → c.listed ≡ lines.now
        → c.event ≡ event → length marks.old ≡ suc event → AreUnmarked marks.old
        → IsWhole owner rs c
        → (j : ℕ) → mark_of marks.new j ≡ data_closure owner rs event j }
{
    mark(marks, event);
    let mut next = lines.len();
    while next > 0 {
        next -= 1;
        mark_line(marks, &lines[next]);
    }
}

/// The marks of what an event comes from by data.
fn data_marks(alloc: Global, lines: &[Listed], event: u32) -> Result<Vec<bool>, AllocError>
    ensures { (owner : Owners) (rs : List Recorded) (c : Certificate) → c.listed ≡ lines.now
        → c.event ≡ event → IsWhole owner rs c
        → IfOk result (λ marks. (j : ℕ) → mark_of marks.items j ≡ data_closure owner rs event j) }
{
    let mut marks = vec![in alloc; false; event as usize + 1]?;
    mark_flow(&mut marks, lines, event);
    Ok(marks)
}

/// The events that are marked.
fn marked_events(alloc: Global, lines: &[Listed], marks: &[bool]) -> Result<Vec<u32>, AllocError>
    ensures { IfOk result (λ flow. flow.items
        ≡ events (filter (λ (l : Listed). mark_of marks.now l.event) lines.now)) }
{
    lines
        .iter()
        .filter(|line| is_marked(marks, line.event))
        .map(|line| line.event)
        .collect(alloc)
}

/// What the event that is asked about comes from by data.
pub(crate) fn data_of(alloc: Global, certificate: &Certificate) -> Result<Vec<u32>, AllocError>
    ensures { (owner : Owners) (rs : List Recorded) → IsWhole owner rs certificate.now
        → IfOk result (λ flow. flow.items
        ≡ up_to certificate.now.event (data_closure owner rs certificate.now.event)) }
{
    let lines = certificate.listed.as_slice();
    let marks = data_marks(alloc, lines, certificate.event)?;
    marked_events(alloc, lines, &marks)
}

/// All that it comes from.
pub(crate) fn all_of(alloc: Global, certificate: &Certificate) -> Result<Vec<u32>, AllocError>
    ensures { IfOk result (λ all. all.items ≡ events certificate.now.listed) }
{
    certificate
        .listed
        .as_slice()
        .iter()
        .map(|line| line.event)
        .collect(alloc)
}
