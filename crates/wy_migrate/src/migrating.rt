//! A trace goes from a view to a recorder, event by event: no more than one is looked at at a time.

ghost use Rattle.std.specs.Prelude.{◌≡◌, ◌<◌, ◌++◌, List, Some, IfErr, OnOk, map, slice_get};
ghost use Rattle.std.specs.List.{concat};
ghost use Rattle.wy_event.specs.Record.{Recorded};
ghost use Rattle.wy_machine.specs.Traces.{BeginTrace, closed};
ghost use Rattle.wy_migrate.specs.Migrated.{DiffersWhere, Takes, of_recorder, of_view, phase_after};
ghost use Rattle.wy_record.specs.Recorders.{CountsAs, FaultsAs};
ghost use Rattle.wy_record.specs.declared.recorder.Phase.TheVariants.{Done, Ready, Recording};
ghost use Rattle.wy_view.specs.View.{Keeps, KeepsCounts};

use crate::error::MigrationError;
use std::alloc::Global;
use std::marker::Brand;
use std::sync::ledger::{Blank, Ledger};
use wy_event::record::{Head, Tail};
use wy_record::Recorder;
use wy_view::{EventView, Steps};

/// Hands the next event on.
fn hand_on<V: EventView, R: Recorder, L: Ledger>(
    view: &mut V,
    n: u32,
    recorder: &mut R,
    steps: &mut Steps<L>,
) -> Result<(), MigrationError>
    requires there { n < (V.tells view.old).count }
    requires sound { R.Sound recorder.old }
    requires recording { R.phase recorder.old ≡ Recording }
    ensures sound { R.Sound recorder.new }
    ensures phase { R.phase recorder.new ≡ phase_after Recording result }
    ensures takes { (rs : List Recorded) (r : Recorded) → (V.tells view.old).records ≡ Some rs
        → slice_get rs n ≡ Some r
        → Takes result (R.frame r) (R.mirrors recorder.old) (R.mirrors recorder.new) }
    ensures keeps { Keeps (V.tells view.old) (V.tells view.new) }
    ensures answers { KeepsCounts (of_view result) (V.tells view.old) (V.tells view.new) }
    ensures faults { FaultsAs (of_recorder result) (R.faults recorder.old) (R.faults recorder.new) }
    ensures counts { CountsAs (of_recorder result) (R.counts recorder.old) (R.counts recorder.new) }
    ensures differs { DiffersWhere result R.compares }
{
    let event = view.event(n, steps)?;
    recorder.note(event)?;
    Ok(())
}

/// Hands all events on, in order.
fn hand_all_on<V: EventView, R: Recorder, L: Ledger>(
    view: &mut V,
    recorder: &mut R,
    blank: Blank,
) -> Result<(), MigrationError>
    requires name { blank.name ≡ L.name }
    requires parts { blank.parts ≡ L.parts }
    requires some { 0 < blank.parts }
    requires sound { R.Sound recorder.old }
    requires recording { R.phase recorder.old ≡ Recording }
    ensures sound { R.Sound recorder.new }
    ensures phase { R.phase recorder.new ≡ phase_after Recording result }
    ensures takes { (rs : List Recorded) → (V.tells view.old).records ≡ Some rs
        → Takes result (concat (map R.frame rs))
        (R.mirrors recorder.old) (R.mirrors recorder.new) }
    ensures keeps { Keeps (V.tells view.old) (V.tells view.new) }
    ensures answers { KeepsCounts (of_view result) (V.tells view.old) (V.tells view.new) }
    ensures faults { FaultsAs (of_recorder result) (R.faults recorder.old) (R.faults recorder.new) }
    ensures counts { CountsAs (of_recorder result) (R.counts recorder.old) (R.counts recorder.new) }
    ensures differs { DiffersWhere result R.compares }
{
    let mut steps = Steps::<L>::new(blank);
    for n in 0..view.count() {
        hand_on(view, n, recorder, &mut steps)?;
    }
    Ok(())
}

/// Hands the head, each event of a view in order, and the end to a recorder, which is done then. Each mirror has the trace
/// as the recorder spells it, or, where a call is refused or an event is not given, a prefix of that.
pub fn migrate<V: EventView, R: Recorder>(
    alloc: Global,
    name: &str,
    head: &Head,
    view: &mut V,
    tail: &Tail,
    recorder: &mut R,
) -> Result<(), MigrationError>
    requires sound { R.Sound recorder.old }
    requires ready { R.phase recorder.old ≡ Ready }
    ensures sound { R.Sound recorder.new }
    ensures mirrors { (rs : List Recorded) → (V.tells view.old).records ≡ Some rs
        → OnOk result (R.mirrors recorder.new ≡ closed (R.closing tail.now)
        (R.opening head.now ++ concat (map R.frame rs)) (R.mirrors recorder.old)) }
    ensures begun { (rs : List Recorded) → (V.tells view.old).records ≡ Some rs
        → IfErr result (λ e. BeginTrace R.closing (λ end. end ≡ tail.now)
        (R.opening head.now ++ concat (map R.frame rs))
        (R.mirrors recorder.old) (R.mirrors recorder.new)) }
    ensures phase { R.phase recorder.new ≡ phase_after Done result }
    ensures keeps { Keeps (V.tells view.old) (V.tells view.new) }
    ensures answers { KeepsCounts (of_view result) (V.tells view.old) (V.tells view.new) }
    ensures faults { FaultsAs (of_recorder result) (R.faults recorder.old) (R.faults recorder.new) }
    ensures counts { CountsAs (of_recorder result) (R.counts recorder.old) (R.counts recorder.new) }
    ensures differs { DiffersWhere result R.compares }
{
    recorder.start(name, head, Vec::new(alloc))?;
    hand_all_on::<V, R, Brand>(view, recorder, Blank::new(1))?;
    recorder.finish(tail)?;
    Ok(())
}
