//! The check.

ghost use Rattle.std.specs.Prelude.{◌≡◌, ◌*◌, ◌^◌, ◌<◌, ◌≤◌, ◌↔◌, ℕ, All, IfOk, IsTrue, List, Some, length};
ghost use Rattle.hex.specs.Hex.{encode_lower};
ghost use Rattle.wy_event.specs.Record.{Recorded};
ghost use Rattle.wy_event.specs.Sources.{Owners};
ghost use Rattle.wy_kernel.specs.Parts.{program_of};
ghost use Rattle.wy_view.specs.Counts.{RoseAtMost};
ghost use Rattle.wy_view.specs.View.{Keeps, KeepsCounts};
ghost use Rattle.wy_why.specs.Answer.{Rises};
ghost use Rattle.wy_cert.specs.declared.certificate.Certificate.{Certificate};
ghost use Rattle.wy_cert.specs.declared.certificate.Listed.{Listed};
ghost use Rattle.wy_cert.specs.Goodness.{IsGood};
ghost use Rattle.wy_cert.specs.Spelling.{events};
ghost use Rattle.wy_check.specs.Checks.{IsAccepted, IsAnswer, IsSpelled, Judges, KeepsView};
ghost use Rattle.wy_check.specs.Faults.{IsWeighedWhole, IsWhole, SplitsAt};
ghost use Rattle.wy_check.specs.Writes.{owners};

use crate::asking::ask_lines;
use crate::error::CertError;
use crate::fault::fault;
use crate::flow::{all_of, data_of};
use crate::weighing::{Weighing, weigh_lines};
use std::alloc::{AllocError, Global};
use std::sync::ledger::Ledger;
use wy_cert::{Certificate, Listed, read};
use wy_kernel::program::Program;
use wy_view::{EventView, Steps, ViewError};
use wy_why::Answer;

/// The lines whose events are below a count, where events rise.
fn lines_below(lines: &[Listed], count: u32) -> &[Listed]
    ensures { (high : ℕ) → Rises 0 high (events lines.now) → SplitsAt count lines.now result.now }
{
    let there = lines.partition_point(|line| line.event < count);
    &lines[..there]
}

/// How many events there are up to that of the last line.
fn end_of(lines: &[Listed]) -> u32
    requires { All (λ (l : Listed). l.event < 4294967295) lines.now }
    ensures rises { (high : ℕ) → Rises 0 high (events lines.now) → Rises 0 result (events lines.now) }
    ensures within { (n : ℕ) → All (λ (l : Listed). l.event < n) lines.now → result ≤ n }
{
    match lines.last() {
        Some(line) => line.event + 1,
        None => 0,
    }
}

/// Whether a certificate is of the trace with a seal.
fn is_of(alloc: Global, certificate: &Certificate, seal: &[u8; 32]) -> Result<bool, AllocError>
    ensures { IfOk result (λ is. IsTrue is ↔ (certificate.now.hex ≡ encode_lower seal.now)) }
{
    let hex = hex::encode(alloc, seal.as_slice())?;
    Ok(certificate.hex.as_slice() == hex.as_bytes())
}

/// Both passes over the lines whose events are there.
fn weighed<V: EventView, L: Ledger>(
    alloc: Global,
    view: &mut V,
    program: &Program,
    certificate: &Certificate,
    steps: &mut Steps<L>,
) -> Result<Weighing, ViewError>
    requires { Rises 0 (2 ^ 32) (events certificate.now.listed) }
    ensures whole { (rs : List Recorded) → (V.tells view.old).records ≡ Some rs
        → IfOk result (IsWeighedWhole (owners (program_of program.now)) rs certificate.now) }
    ensures below { IfOk result (λ weighing.
        length certificate.now.listed ≤ length weighing.sound.items
        → Rises 0 (V.tells view.old).count (events certificate.now.listed)) }
    ensures keeps { Keeps (V.tells view.old) (V.tells view.new) }
    ensures reads { RoseAtMost (2 * (V.tells view.old).count)
        (V.tells view.old).reads (V.tells view.new).reads }
    ensures answers { KeepsCounts result (V.tells view.old) (V.tells view.new) }
    ensures forward { steps.old ≤ steps.new }
{
    let lines = lines_below(certificate.listed.as_slice(), view.count());
    let history = ask_lines(alloc, view, lines, steps)?;
    weigh_lines(alloc, view, program, lines, history, end_of(lines), steps)
}

/// The answer that a certificate gives whose lines are as they ought to be.
fn answer_of(alloc: Global, certificate: &Certificate) -> Result<Answer, AllocError>
    ensures listed { IfOk result (λ answer.
        answer.all.items ≡ events certificate.now.listed) }
    ensures answer { (owner : Owners) (rs : List Recorded) → IsWhole owner rs certificate.now
        → IfOk result (IsAnswer owner rs certificate.now.event) }
{
    let all = all_of(alloc, certificate)?;
    let flow = data_of(alloc, certificate)?;
    Ok(Answer { all, flow })
}

/// The answer that a certificate gives, where it is good for the trace of the program with this seal.
pub fn check<V: EventView, L: Ledger>(
    alloc: Global,
    view: &mut V,
    program: &Program,
    seal: &[u8; 32],
    bytes: &[u8],
    steps: &mut Steps<L>,
) -> Result<Answer, CertError>
    ensures judges { Judges (owners (program_of program.now)) (V.tells view.old).records
        seal.now bytes.now result }
    // What is good is accepted, as what `certify` writes is.
    ensures accepts { (rs : List Recorded) → (V.tells view.old).records ≡ Some rs
        → (c : Certificate) → IsSpelled c bytes.now
        → IsGood (owners (program_of program.now)) rs seal.now c → IsAccepted result }
    ensures rises { IfOk result (λ answer. Rises 0 (V.tells view.old).count answer.all.items) }
    ensures keeps { Keeps (V.tells view.old) (V.tells view.new) }
    ensures reads { RoseAtMost (2 * (V.tells view.old).count)
        (V.tells view.old).reads (V.tells view.new).reads }
    ensures answers { KeepsView result (V.tells view.old) (V.tells view.new) }
    ensures forward { steps.old ≤ steps.new }
{
    let certificate = read(alloc, bytes)?;
    let same_trace = is_of(alloc, &certificate, seal)?;
    if !same_trace {
        return Err(CertError::OtherTrace);
    }
    let weighing = weighed(alloc, view, program, &certificate, steps)?;
    match fault(&weighing, &certificate) {
        Some(event) => Err(CertError::BadEvent(event)),
        None => Ok(answer_of(alloc, &certificate)?),
    }
}
