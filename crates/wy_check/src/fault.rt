//! The event that is told of a certificate that isn't good.

ghost use Rattle.std.specs.Prelude.{◌≡◌, ◌<◌, ◌≤◌, ◌↔◌, IfNone, IsTrue, List, MatchOption, Some, length, slice_get};
ghost use Rattle.wy_event.specs.Record.{Recorded};
ghost use Rattle.wy_event.specs.Sources.{Owners};
ghost use Rattle.wy_cert.specs.declared.certificate.Certificate.{Certificate};
ghost use Rattle.wy_cert.specs.Goodness.{AllSound, IsFault, IsSound};
ghost use Rattle.wy_check.specs.Faults.{IsFirstFault, IsWeighedWhole, IsWhole};

use crate::marks::{is_marked, mark_at};
use crate::weighing::Weighing;
use wy_cert::{Certificate, Listed};

/// Whether the line at a place is as it ought to be; there is no event for those that were not weighed.
fn is_sound(weighing: &Weighing, place: usize, line: &Listed, asked: u32) -> bool
    ensures sound { (owner : Owners) (rs : List Recorded) (c : Certificate)
        → IsWeighedWhole owner rs c weighing.now → asked ≡ c.event
        → slice_get c.listed place ≡ Some line.now
        → IsTrue result ↔ IsSound owner rs c line.now }
    ensures there { IsTrue result → place < length weighing.now.sound.items }
{
    match mark_at(&weighing.sound, place) {
        Some(told) => told && (line.event == asked || is_marked(&weighing.needed, line.event)),
        None => false,
    }
}

/// The first line that isn't as it ought to be.
fn first_fault(weighing: &Weighing, lines: &[Listed], asked: u32) -> Option<u32>
    ensures first { (owner : Owners) (rs : List Recorded) (c : Certificate)
        → IsWeighedWhole owner rs c weighing.now → asked ≡ c.event → c.listed ≡ lines.now
        → MatchOption result (AllSound owner rs c) (IsFirstFault owner rs c) }
    ensures none { IfNone result (length lines.now ≤ length weighing.now.sound.items) }
{
    for (place, line) in lines.iter().enumerate() {
        if !is_sound(weighing, place, line, asked) {
            return Some(line.event);
        }
    }
    None
}

/// The least event whose line isn't as it ought to be; what is asked about where each is and it isn't the last.
pub(crate) fn fault(weighing: &Weighing, certificate: &Certificate) -> Option<u32>
    ensures fault { (owner : Owners) (rs : List Recorded)
        → IsWeighedWhole owner rs certificate.now weighing.now
        → MatchOption result (IsWhole owner rs certificate.now)
        (IsFault owner rs certificate.now) }
    ensures none { IfNone result
        (length certificate.now.listed ≤ length weighing.now.sound.items) }
{
    let asked = certificate.event;
    let lines = certificate.listed.as_slice();
    match first_fault(weighing, lines, asked) {
        Some(event) => Some(event),
        None => match lines.last() {
            Some(line) if line.event == asked => None,
            _ => Some(asked),
        },
    }
}
