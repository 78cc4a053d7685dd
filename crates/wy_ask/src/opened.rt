//! A trace that is opened once, for all that is asked about it.

ghost use Rattle.std.specs.Prelude.{◌≡◌, ◌<◌, ◌^◌, IfOk, length};
ghost use Rattle.wy_view.specs.View.{Keeps};
ghost use Rattle.wy_ask.specs.Opened.{IsOpenedOf};

use std::alloc::Global;
use std::marker::Brand;
use std::sync::ledger::{Blank, Ledger};
use wy_event::record::Cover;
use wy_index::Index;
use wy_kernel::program::Program;
use wy_view::{EventView, Steps, ViewError};

/// A program, what a trace of it tells of its statements, a view of its events, and the index of these.
#[derive(Drop)]
pub struct Opened<'a, V> {
    pub program: &'a Program,
    pub coverage: &'a [Cover],
    pub index: Index,
    pub view: V,
}

impl<'a, V: EventView + Drop> Opened<'a, V> {
    /// Looks at each event of a view, and keeps it with their index.
    pub fn open(
        alloc: Global,
        program: &'a Program,
        coverage: &'a [Cover],
        view: V,
    ) -> Result<Opened<'a, V>, ViewError>
        requires { length program.now.fields.items < 2 ^ 32 }
        ensures opened { IfOk result (λ o. IsOpenedOf (V.tells o.view) o) }
        ensures program { IfOk result (λ o. o.program ≡ program.entry) }
        ensures coverage { IfOk result (λ o. o.coverage ≡ coverage.entry) }
        ensures keeps { IfOk result (λ o. Keeps (V.tells view) (V.tells o.view)) }
    {
        Opened::indexed::<Brand>(alloc, program, coverage, view, Blank::new(1))
    }

    /// The same, with a ledger for the steps, which nobody reads.
    fn indexed<L: Ledger>(
        alloc: Global,
        program: &'a Program,
        coverage: &'a [Cover],
        mut view: V,
        blank: Blank,
    ) -> Result<Opened<'a, V>, ViewError>
        requires fields { length program.now.fields.items < 2 ^ 32 }
        requires name { blank.name ≡ L.name }
        requires parts { blank.parts ≡ L.parts }
        requires some { 0 < blank.parts }
        ensures opened { IfOk result (λ o. IsOpenedOf (V.tells o.view) o) }
        ensures program { IfOk result (λ o. o.program ≡ program.entry) }
        ensures coverage { IfOk result (λ o. o.coverage ≡ coverage.entry) }
        ensures keeps { IfOk result (λ o. Keeps (V.tells view) (V.tells o.view)) }
    {
        let index = Index::build(alloc, &mut view, program, &mut Steps::<L>::new(blank))?;
        Ok(Opened {
            program,
            coverage,
            index,
            view,
        })
    }
}
