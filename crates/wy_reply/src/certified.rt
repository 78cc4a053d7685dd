//! Certificates over a trace: that of an event that is asked about, and the verdict on one that is given.
ghost use Rattle.std.specs.Prelude.{◌≡◌, ◌<◌, List, Some, IfOk, map};
ghost use Rattle.wy_ask.specs.Opened.{IsOpenedOf};
ghost use Rattle.wy_cert.specs.Goodness.{Certifies};
ghost use Rattle.wy_check.specs.Checks.{Judges};
ghost use Rattle.wy_check.specs.Writes.{owners};
ghost use Rattle.wy_event.specs.Record.{Recorded, recorded};
ghost use Rattle.wy_kernel.specs.Parts.{program_of};
ghost use Rattle.wy_reply.specs.Certificates.{Certified, WantsMemory};
ghost use Rattle.wy_telling.specs.Untelling.{HasCause};
ghost use Rattle.wy_view.specs.View.{Keeps, KeepsCounts};

use std::alloc::Global;
use std::marker::Brand;
use std::sync::ledger::{Blank, Ledger};
use wy_ask::Opened;
use wy_cert::certify;
use wy_check::{CertError, check};
use wy_kernel::program::Program;
use wy_telling::{Untold, asked_event};
use wy_view::{EventView, MemoryView, Steps, ViewError};
use wy_why::Answer;

/// The certificate of what the event comes from that a question asks about, over the trace with this seal.
pub(crate) fn certificate_text<V: EventView>(
    alloc: Global,
    opened: &mut Opened<'_, V>,
    seal: &[u8; 32],
    question: &str,
) -> Result<Vec<u8>, Untold>
    requires { IsOpenedOf (V.tells opened.old.view) opened.old }
    ensures told { (rs : List Recorded) → (V.tells opened.old.view).records ≡ Some rs
        → Certified (program_of opened.old.program.now) opened.old.program.now.lines.items
        rs seal.now question.now result }
    ensures cause { HasCause question.now result
        (V.tells opened.old.view) (V.tells opened.new.view) }
    ensures keeps { Keeps (V.tells opened.old.view) (V.tells opened.new.view) }
{
    let event = asked_event(alloc, opened, question)?;
    Ok(certificate_of::<V, Brand>(alloc, opened, seal, event, Blank::new(1))?)
}

/// The certificate of an event, with a ledger for the steps, which nobody reads.
fn certificate_of<V: EventView, L: Ledger>(
    alloc: Global,
    opened: &mut Opened<'_, V>,
    seal: &[u8; 32],
    event: u32,
    blank: Blank,
) -> Result<Vec<u8>, ViewError>
    requires opened { IsOpenedOf (V.tells opened.old.view) opened.old }
    requires there { event < (V.tells opened.old.view).count }
    requires name { blank.name ≡ L.name }
    requires parts { blank.parts ≡ L.parts }
    requires some { 0 < blank.parts }
    ensures certificate { (rs : List Recorded) → (V.tells opened.old.view).records ≡ Some rs
        → IfOk result (λ bytes. Certifies (owners (program_of opened.old.program.now))
        rs seal.now event bytes.items) }
    ensures keeps { Keeps (V.tells opened.old.view) (V.tells opened.new.view) }
    ensures answers { KeepsCounts result (V.tells opened.old.view) (V.tells opened.new.view) }
{
    let mut steps = Steps::<L>::new(blank);
    let view = &mut opened.view;
    certify(alloc, view, &opened.index, seal, event, &mut steps)
}

/// What is said of the bytes of a certificate, over the trace with this seal.
pub(crate) fn verdict_on(
    alloc: Global,
    view: MemoryView,
    program: &Program,
    seal: &[u8; 32],
    bytes: &[u8],
) -> Result<Answer, CertError>
    ensures judges { Judges (owners (program_of program.now))
        (Some (map recorded view.events.items)) seal.now bytes.now result }
    ensures memory { WantsMemory result }
{
    verdict_with::<Brand>(alloc, view, program, seal, bytes, Blank::new(1))
}

/// The same, with a ledger for the steps, which nobody reads.
fn verdict_with<L: Ledger>(
    alloc: Global,
    view: MemoryView,
    program: &Program,
    seal: &[u8; 32],
    bytes: &[u8],
    blank: Blank,
) -> Result<Answer, CertError>
    requires name { blank.name ≡ L.name }
    requires parts { blank.parts ≡ L.parts }
    requires some { 0 < blank.parts }
    ensures judges { Judges (owners (program_of program.now))
        (Some (map recorded view.events.items)) seal.now bytes.now result }
    ensures memory { WantsMemory result }
{
    let mut view = view;
    check(
        alloc,
        &mut view,
        program,
        seal,
        bytes,
        &mut Steps::<L>::new(blank),
    )
}
