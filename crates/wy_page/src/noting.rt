//! What is found in the events of a trace while it is opened, so that they need not be read again for it.

ghost use Rattle.std.specs.Prelude.{◌≡◌, ◌+◌, ◌<◌, ◌^◌, ◌++◌, ℕ, List, OnOk, Some, length, map, slice_get};
ghost use Rattle.wy_event.specs.Record.{Recorded, recorded};
ghost use Rattle.wy_frames.specs.declared.stage.ReadEvent.{ReadEvent};
ghost use Rattle.wy_frames.specs.Progress.{event_in};
ghost use Rattle.wy_index.specs.Findings.{HasFound};
ghost use Rattle.wy_page.specs.Noted.{HaveFound};
ghost use Rattle.wy_view.specs.References.{RefersBelow};

use std::alloc::{AllocError, Global};
use wy_frames::ReadEvent;
use wy_index::build::Findings;

/// Notes the events of frames that were read, from number `first` on.
fn note_each(
    alloc: Global,
    found: &mut Findings,
    first: u32,
    placed: &[ReadEvent],
) -> Result<(), AllocError>
    requires few { first + length placed.now < 2 ^ 32 }
    requires refer { (i : ℕ) (x : ReadEvent) → slice_get placed.now i ≡ Some x
        → RefersBelow (first + i) (recorded x.event) }
    ensures { (rs : List Recorded) → HasFound found.old rs → length rs ≡ first
        → OnOk result (HasFound found.new (rs ++ map recorded (map event_in placed.now))) }
{
    let mut n = first;
    for one in placed {
        found.note(alloc, n, &one.event)?;
        n += 1;
    }
    Ok(())
}

/// The same where findings are wanted, and else nothing.
pub(crate) fn note_all(
    alloc: Global,
    found: &mut Option<Findings>,
    first: u32,
    placed: &[ReadEvent],
) -> Result<(), AllocError>
    requires few { first + length placed.now < 2 ^ 32 }
    requires refer { (i : ℕ) (x : ReadEvent) → slice_get placed.now i ≡ Some x
        → RefersBelow (first + i) (recorded x.event) }
    ensures { (rs : List Recorded) → HaveFound found.old rs → length rs ≡ first
        → OnOk result (HaveFound found.new (rs ++ map recorded (map event_in placed.now))) }
{
    match found {
        Some(found) => note_each(alloc, found, first, placed),
        None => Ok(()),
    }
}
