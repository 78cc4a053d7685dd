//! What can be asked about a trace.

ghost use Rattle.std.specs.Prelude.{◌≡◌, ◌+◌, ◌++◌, ◌∷◌, ◌<◌, ◌≤◌, ◌^◌, ℕ, [], All, List, Some, IfOk, OnOk, length};
ghost use Rattle.wy_event.specs.Record.{Recorded};
ghost use Rattle.wy_index.specs.Index.{IsIndexOf};
ghost use Rattle.wy_kernel.specs.Parts.{program_of};
ghost use Rattle.wy_view.specs.View.{KeepsCounts, IsRecordOf, Keeps};
ghost use Rattle.wy_ask.specs.Held.{HasStored, HoldsBelow};
ghost use Rattle.wy_ask.specs.Listing.{IsListedBelow, field_sets, listing, never, printed};
ghost use Rattle.wy_ask.specs.Opened.{IsOpenedOf, StaysOpened};

use crate::never::{PlacedStatement, unbegun_in};
use crate::opened::Opened;
use crate::stored::Stores;
use std::alloc::{AllocError, Global};
use std::sync::ledger::Ledger;
use wy_event::record::{Cover, Slot};
use wy_index::Index;
use wy_kernel::program::Program;
use wy_value::Value;
use wy_view::{EventView, Steps, ViewError};

/// What a question can be put about: a print, with its event; a field that was stored in, with its last value; or
/// why a statement never began, by its line and its place in it.
#[derive(Clone, Copy, Debug, PartialEq, Eq)]
pub enum Listed {
    Printed {
        piece: u32,
        event: u32,
    },
    Stored {
        slot: Slot,
        moment: u32,
        value: Value,
    },
    Never {
        line: u32,
        place: u32,
    },
}

/// What can be asked about a trace: each print; each field that a Set wrote, in the order of their first Sets; and
/// each askable statement that never began, by their sites.
pub fn questions<V: EventView, L: Ledger>(
    alloc: Global,
    opened: &mut Opened<'_, V>,
    steps: &mut Steps<L>,
) -> Result<Vec<Listed>, ViewError>
    requires { IsOpenedOf (V.tells opened.old.view) opened.old }
    ensures listed { (rs : List Recorded) → (V.tells opened.old.view).records ≡ Some rs
        → IfOk result (λ listed. listed.items ≡ listing (program_of opened.old.program.now)
        opened.old.program.now.lines.items rs opened.old.coverage.now) }
    ensures stays { StaysOpened V.tells opened.old opened.new }
    ensures answers { KeepsCounts result (V.tells opened.old.view) (V.tells opened.new.view) }
    ensures steps { steps.new ≤ steps.old + (V.tells opened.old.view).count }
    ensures below { IfOk result (λ listed.
        All (IsListedBelow (V.tells opened.old.view).count) listed.items) }
{
    let stores = stores_in(alloc, &mut opened.view, steps)?;
    let count = opened.view.count();
    Ok(all_listed(
        alloc,
        opened.program,
        &opened.index,
        &stores,
        count,
        opened.coverage,
    )?)
}

/// What is listed of the prints, of what was stored, and of the statements that never began.
fn all_listed(
    alloc: Global,
    program: &Program,
    index: &Index,
    stores: &Stores,
    count: u32,
    coverage: &[Cover],
) -> Result<Vec<Listed>, AllocError>
    requires index { (rs : List Recorded) × IsIndexOf index.now rs × (length rs ≡ count) }
    ensures listed { (rs : List Recorded) → IsIndexOf index.now rs → length rs ≡ count
        → HasStored stores.now (field_sets rs)
        → IfOk result (λ listed. listed.items ≡ listing (program_of program.now)
        program.now.lines.items rs coverage.now) }
    ensures below { HoldsBelow count stores.now
        → IfOk result (λ listed. All (IsListedBelow count) listed.items) }
{
    let mut listed = Vec::new(alloc);
    put_prints(&mut listed, index.prints())?;
    stores.put(&mut listed, count)?;
    let unbegun = unbegun_in(alloc, program, coverage)?;
    put_unbegun(&mut listed, unbegun.as_slice())?;
    Ok(listed)
}

fn put_prints(listed: &mut Vec<Listed>, prints: &[u32]) -> Result<(), AllocError>
    requires { length prints.now < 2 ^ 32 }
    ensures listed { OnOk result (listed.new.items ≡ listed.old.items ++ printed prints.now) }
{
    let mut piece = 0;
    for event in prints {
        listed.push(Listed::Printed {
            piece,
            event: *event,
        })?;
        piece += 1;
    }
    Ok(())
}

fn put_unbegun(listed: &mut Vec<Listed>, unbegun: &[PlacedStatement]) -> Result<(), AllocError>
    ensures { OnOk result (listed.new.items ≡ listed.old.items ++ never unbegun.now) }
{
    for s in unbegun {
        listed.push(Listed::Never {
            line: s.statement.line,
            place: s.place,
        })?;
    }
    Ok(())
}

/// Takes the next event.
fn look<V: EventView, L: Ledger>(
    stores: &mut Stores,
    view: &mut V,
    n: u32,
    steps: &mut Steps<L>,
) -> Result<(), ViewError>
    requires there { n < (V.tells view.old).count }
    ensures stored { (sets : List Recorded) → HasStored stores.old sets → OnOk result
        ((r : Recorded) × HasStored stores.new (sets ++ field_sets (r ∷ []))
        × IsRecordOf (V.tells view.old) n r) }
    ensures below { HoldsBelow (V.tells view.old).count stores.old
        → OnOk result (HoldsBelow (V.tells view.old).count stores.new) }
    ensures keeps { Keeps (V.tells view.old) (V.tells view.new) }
    ensures answers { KeepsCounts result (V.tells view.old) (V.tells view.new) }
    ensures step { steps.new ≡ steps.old + 1 }
{
    let event = view.event(n, steps)?;
    stores.note(event)?;
    Ok(())
}

/// What the Sets of a trace stored in fields.
fn stores_in<V: EventView, L: Ledger>(
    alloc: Global,
    view: &mut V,
    steps: &mut Steps<L>,
) -> Result<Stores, ViewError>
    ensures stored { (rs : List Recorded) → (V.tells view.old).records ≡ Some rs
        → IfOk result (λ stores. HasStored stores (field_sets rs)) }
    ensures below { IfOk result (λ stores. HoldsBelow (V.tells view.old).count stores) }
    ensures keeps { Keeps (V.tells view.old) (V.tells view.new) }
    ensures answers { KeepsCounts result (V.tells view.old) (V.tells view.new) }
    ensures steps { steps.new ≤ steps.old + (V.tells view.old).count }
{
    let mut stores = Stores::new(alloc);
    for n in 0..view.count() {
        look(&mut stores, view, n, steps)?;
    }
    Ok(stores)
}
