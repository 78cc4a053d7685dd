//! The line of a source: how an event comes from another, and that event's line.

ghost use Rattle.std.specs.Prelude.{◌≡◌, ◌++◌, ◌+◌, ◌<◌, ◌≤◌, ℕ, List, Some, OnOk, codes};
ghost use Rattle.wy_event.specs.Record.{Recorded};
ghost use Rattle.wy_kernel.specs.Parts.{program_of};
ghost use Rattle.wy_text.specs.Sources.{role_word, source_line};
ghost use Rattle.wy_view.specs.View.{KeepsCounts, Keeps};
ghost use Rattle.wy_why.specs.Sources.{role_of, source_of};

use crate::event::put_event_line;
use std::sync::ledger::Ledger;
use wy_kernel::program::Program;
use wy_view::{EventView, Steps, ViewError};
use wy_why::{Role, Source};

/// Puts the line of a source of an event.
pub fn put_source_line<V: EventView, L: Ledger>(
    out: &mut Vec<u8>,
    program: &Program,
    view: &mut V,
    source: &Source,
    steps: &mut Steps<L>,
) -> Result<(), ViewError>
    requires there { source.now.event < (V.tells view.old).count }
    ensures line { (rs : List Recorded) → (V.tells view.old).records ≡ Some rs
        → OnOk result (out.new.items ≡ out.old.items ++ source_line
        (program_of program.now) program.now.lines.items rs (source_of source.now)) }
    ensures keeps { Keeps (V.tells view.old) (V.tells view.new) }
    ensures answers { KeepsCounts result (V.tells view.old) (V.tells view.new) }
    ensures steps { steps.new ≤ steps.old + 3 }
{
    out.extend_from_slice(role_word(source.role).as_bytes())?;
    out.extend_from_slice(" ".as_bytes())?;
    put_event_line(out, program, view, source.event, false, steps)?;
    Ok(())
}

#[tactic(auto, unfolding(crate::specs::Sources::role_word))]
fn role_word(role: Role) -> &'static str
    ensures { result.now ≡ role_word (role_of role) }
{
    match role {
        Role::Data => "data",
        Role::Choice => "choice",
        Role::Control => "control",
    }
}
