//! The active entries, and the statements whose ends they may wait for.

ghost use Rattle.std.specs.Prelude.{◌≡◌, ◌≤◌, reverse, length, take, true, false};
ghost use Rattle.std.specs.List.{All, filter};
ghost use Rattle.wy_calls.specs.Layout.{ends_with, is_innermost, mark_in, outlasts, without, Ascends, IsAtMost, IsBelow, IsNext, IsUnder, MayBegin, Rises, Sits};

use crate::parts::{Begun, Entry, Reach};
use wy_kernel::types::NONE;

/// The mark of a statement that has begun. Those of older frames are not looked at.
pub fn mark_of(begun: &[Begun], frame: u32, statement: u32) -> Option<u32>
    requires { Rises (reverse begun.now) }
    ensures { result ≡ mark_in (reverse begun.now) frame statement }
{
    let mut begun = begun;
    while let Some((innermost, around)) = begun.split_last() {
        if innermost.frame == frame && innermost.statement == statement {
            return Some(innermost.mark);
        }
        if innermost.frame < frame {
            return None;
        }
        begun = around;
    }
    None
}

/// Whether a statement may begin: it hasn't begun, and none of a newer frame has.
pub fn may_begin(begun: &[Begun], frame: u32, statement: u32) -> bool
    requires { Rises (reverse begun.now) }
    ensures { result ≡ true → MayBegin (reverse begun.now) frame statement }
{
    !is_above(begun, frame) && mark_of(begun, frame, statement).is_none()
}

fn is_above(begun: &[Begun], frame: u32) -> bool
    ensures { result ≡ false → IsAtMost (reverse begun.now) frame }
{
    match begun.last() {
        Some(innermost) => innermost.frame > frame,
        None => false,
    }
}

/// Whether a statement is the innermost that has begun.
pub fn is_innermost(begun: &[Begun], frame: u32, statement: u32) -> bool
    ensures { result ≡ is_innermost (reverse begun.now) frame statement }
{
    match begun.last() {
        Some(innermost) => innermost.frame == frame && innermost.statement == statement,
        None => false,
    }
}

/// Takes a statement away where it is the innermost that has begun.
pub fn close(begun: &mut Vec<Begun>, frame: u32, statement: u32)
    ensures { reverse begun.new.items ≡ without (reverse begun.old.items) frame statement }
{
    if is_innermost(begun, frame, statement) {
        begun.pop();
    }
}

/// Whether an event is above those of all entries.
pub fn is_next(entries: &[Entry], event: u32) -> bool
    requires { Ascends entries.now }
    ensures { result ≡ true → IsNext entries.now event }
{
    match entries.last() {
        Some(newest) => newest.number < event && event < NONE,
        None => event < NONE,
    }
}

/// The mark of a statement that begins: the events of all entries are below it.
pub fn next_mark(entries: &[Entry]) -> u32 {
    match entries.last() {
        Some(newest) => newest.number + 1,
        None => 0,
    }
}

/// How many entries are of events below a mark. It looks at the others alone.
fn count_below(entries: &[Entry], mark: u32) -> usize
    requires { Ascends entries.now }
    ensures inside { result ≤ length entries.now }
    ensures below { All (λ e. IsBelow e mark) (take result entries.now) }
{
    let mut entries = entries;
    while let Some((newest, older)) = entries.split_last() {
        if newest.number < mark {
            return entries.len();
        }
        entries = older;
    }
    0
}

/// So many entries, from the oldest on, outlast a statement: those of events below its mark, and all where it hasn't begun.
pub fn outlasting(begun: &[Begun], entries: &[Entry], frame: u32, statement: u32) -> usize
    requires rises { Rises (reverse begun.now) }
    requires ascends { Ascends entries.now }
    requires sits { All (λ e. Sits (reverse begun.now) e.number e.reach) entries.now }
    ensures inside { result ≤ length entries.now }
    ensures outlast { All (λ e. outlasts frame statement e ≡ true) (take result entries.now) }
{
    match mark_of(begun, frame, statement) {
        Some(mark) => count_below(entries, mark),
        None => entries.len(),
    }
}

/// Whether the newest scope has more entries than these.
pub fn is_sealed(scopes: &[usize], entries: usize) -> bool
    ensures { result ≡ false → IsUnder (reverse scopes.now) entries }
{
    match scopes.last() {
        Some(mark) => *mark > entries,
        None => false,
    }
}

fn ends_with(reach: Reach, frame: u32, statement: u32) -> bool
    ensures { result ≡ ends_with frame statement reach }
{
    match reach {
        Reach::Around => false,
        Reach::Through {
            frame: of,
            statement: to,
        } => frame == of && statement == to,
    }
}

/// Takes the entries away that end with a statement. It looks at those from a place on: all below it outlast the statement.
pub fn end(entries: &mut Vec<Entry>, from: usize, frame: u32, statement: u32)
    requires inside { from ≤ length entries.old.items }
    requires below { filter (outlasts frame statement) (take from entries.old.items)
        ≡ take from entries.old.items }
    ensures { entries.new.items ≡ filter (outlasts frame statement) entries.old.items }
{
    let mut kept = from;
    for at in from..entries.len() {
        let entry = entries[at];
        if !ends_with(entry.reach, frame, statement) {
            entries[kept] = entry;
            kept += 1;
        }
    }
    entries.truncate(kept);
}
