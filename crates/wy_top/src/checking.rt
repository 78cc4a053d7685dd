//! What is answered to a certificate.
ghost use Rattle.std.specs.Prelude.{◌≡◌, ◌≤◌, ◌<◌, ◌^◌, ℕ, IfOk, length};
ghost use Rattle.wy_kernel.specs.Limits.{trace_limit};
ghost use Rattle.wy_reply.specs.Opening.{IsDecoded, IsViewable};
ghost use Rattle.wy_reply.specs.Tellings.{DueUnder};
ghost use Rattle.wy_top.specs.Answers.{counts};
ghost use Rattle.wy_top.specs.Due.{DueForBytes, DueForTrace, WithCertificate};
ghost use Rattle.wy_top.specs.Replies.{AnswersBy, HasCause, at_shelf};

use crate::answer::answer_to_lack;
use crate::files::{read_certificate, read_trace};
use crate::opening::{Opening, open_bytes};
use std::alloc::{AllocError, Global};
use wy_event::record::Trace;
use wy_kernel::program::Program;
use wy_outside::shelf::Shelf;
use wy_reply::{Answer, Wanted, answer_to_trace};

/// The answer to the certificate of a name over the trace of another, which is read first.
pub(crate) fn answer_to_check<S: Shelf>(
    alloc: Global,
    shelf: &mut S,
    trace: &str,
    certificate: &str,
) -> Result<Answer, AllocError>
    ensures due { (n : ℕ) → IfOk result (λ answer.
        AnswersBy (λ files. WithCertificate files certificate.now (DueForTrace files trace.now))
        (S.held shelf.old) (counts (S.faults shelf.old) n) (counts (S.faults shelf.new) n) answer) }
    ensures causes { IfOk result (λ answer. HasCause
        (at_shelf (S.faults shelf.old) (S.misses shelf.old) (S.fulls shelf.old))
        (at_shelf (S.faults shelf.new) (S.misses shelf.new) (S.fulls shelf.new)) answer) }
    ensures files_stay { S.held shelf.new ≡ S.held shelf.old }
{
    match read_trace(alloc, shelf, trace) {
        Ok(bytes) => check_over(alloc, shelf, bytes.as_slice(), certificate),
        Err(error) => answer_to_lack(alloc, error),
    }
}

/// The same over the bytes of a trace.
fn check_over<S: Shelf>(
    alloc: Global,
    shelf: &mut S,
    bytes: &[u8],
    certificate: &str,
) -> Result<Answer, AllocError>
    requires { length bytes.now ≤ trace_limit }
    ensures due { (n : ℕ) → IfOk result (λ answer.
        AnswersBy (λ files. WithCertificate files certificate.now (DueForBytes bytes.now))
        (S.held shelf.old) (counts (S.faults shelf.old) n) (counts (S.faults shelf.new) n) answer) }
    ensures causes { IfOk result (λ answer. HasCause
        (at_shelf (S.faults shelf.old) (S.misses shelf.old) (S.fulls shelf.old))
        (at_shelf (S.faults shelf.new) (S.misses shelf.new) (S.fulls shelf.new)) answer) }
    ensures files_stay { S.held shelf.new ≡ S.held shelf.old }
{
    match open_bytes(alloc, bytes)? {
        Opening::Open { typed, trace } => {
            check_under(alloc, shelf, &typed.program, trace, bytes, certificate)
        }
        Opening::Refused(answer) => Ok(answer),
    }
}

/// The same over a trace that was decoded from these bytes.
fn check_under<S: Shelf>(
    alloc: Global,
    shelf: &mut S,
    program: &Program,
    trace: Trace,
    bytes: &[u8],
    certificate: &str,
) -> Result<Answer, AllocError>
    requires viewable { IsViewable trace }
    requires few_fields { length program.now.fields.items < 2 ^ 32 }
    requires decoded { IsDecoded program.now bytes.now trace }
    ensures due { (n : ℕ) → IfOk result (λ answer.
        AnswersBy (λ files. WithCertificate files certificate.now (DueUnder program.now bytes.now))
        (S.held shelf.old) (counts (S.faults shelf.old) n) (counts (S.faults shelf.new) n) answer) }
    ensures causes { IfOk result (λ answer. HasCause
        (at_shelf (S.faults shelf.old) (S.misses shelf.old) (S.fulls shelf.old))
        (at_shelf (S.faults shelf.new) (S.misses shelf.new) (S.fulls shelf.new)) answer) }
    ensures files_stay { S.held shelf.new ≡ S.held shelf.old }
{
    match read_certificate(alloc, shelf, certificate) {
        Ok(given) => {
            let wanted = Wanted::Check {
                certificate: given.as_slice(),
            };
            answer_to_trace(alloc, program, trace, bytes, wanted)
        }
        Err(error) => answer_to_lack(alloc, error),
    }
}
