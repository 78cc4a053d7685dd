//! One way up the events of a trace, from the one that is asked about to the newest.

ghost use Rattle.std.specs.Prelude.{◌≡◌, ◌<◌, ◌≤◌, ◌++◌, ◌∷◌, [], ℕ, suc, true, false, OnOk, length};
ghost use Rattle.wy_affects.specs.Given.{listed};
ghost use Rattle.wy_affects.specs.Pass.{IsUp};
ghost use Rattle.wy_index.specs.Finds.{IsRecent};
ghost use Rattle.wy_index.specs.Index.{IsIndexOfView};
ghost use Rattle.wy_view.specs.View.{KeepsCounts, Keeps, ReadsOnce, Told};

use crate::given::given_to;
use std::alloc::AllocError;
use std::sync::ledger::Ledger;
use wy_index::{Index, Recent};
use wy_view::{EventView, Steps, ViewError};
use wy_why::Mark;

/// The marks of the events that were gone through, and those of them that are marked behind the first; and what look-ups found
/// last.
#[derive(Drop)]
pub(crate) struct Pass {
    pub(crate) marks: Vec<Mark>,
    pub(crate) all: Vec<u32>,
    pub(crate) flow: Vec<u32>,
    pub(crate) recent: Recent,
}

impl Pass {
    /// Takes the next event with its mark.
    fn take(&mut self, k: u32, mark: Mark) -> Result<(), AllocError>
        ensures all { OnOk result
            (self.new.all.items ≡ self.old.all.items ++ listed true mark k) }
        ensures flow { OnOk result
            (self.new.flow.items ≡ self.old.flow.items ++ listed false mark k) }
        ensures marks { OnOk result (self.new.marks.items ≡ self.old.marks.items ++ mark ∷ []) }
        ensures recent { self.new.recent ≡ self.old.recent }
    {
        match mark {
            Mark::Out => {}
            Mark::In => self.all.push(k)?,
            Mark::Flow => {
                self.all.push(k)?;
                self.flow.push(k)?;
            }
        }
        self.marks.push(mark)?;
        Ok(())
    }
}

/// Goes on to the next event above.
pub(crate) fn step<V: EventView, L: Ledger>(
    view: &mut V,
    index: &Index,
    pass: &mut Pass,
    k: u32,
    steps: &mut Steps<L>,
) -> Result<(), ViewError>
    requires there { k < (V.tells view.old).count }
    requires room { k ≤ length pass.old.marks.items }
    requires index { IsIndexOfView index.now (V.tells view.old) }
    requires recent { IsRecent index.now.postings pass.old.recent }
    ensures recent { IsRecent index.now.postings pass.new.recent }
    ensures up { (start : Told) (e : ℕ) → e < k → IsUp index.now start (V.tells view.old) e k pass.old
        → OnOk result (IsUp index.now start (V.tells view.new) e (suc k) pass.new) }
    ensures keeps { Keeps (V.tells view.old) (V.tells view.new) }
    ensures reads { ReadsOnce (V.tells view.old) (V.tells view.new) }
    ensures answers { KeepsCounts result (V.tells view.old) (V.tells view.new) }
    ensures forward { steps.old ≤ steps.new }
{
    let event = view.event(k, steps)?;
    let mark = given_to(index, &mut pass.recent, &pass.marks, event, steps);
    pass.take(k, mark)?;
    Ok(())
}
