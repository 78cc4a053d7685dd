//! What a call answers, before any byte of it is written.
ghost use Rattle.std.specs.Prelude.{◌≡◌, IfOk};
ghost use Rattle.wy_reply.specs.Refused.{IsDoneOrRefused};

use crate::lines::{Refusal, refusal_line};
use crate::status::Status;
use std::alloc::{AllocError, Global};

/// A status and the text that is written with it: where the command did not do what it says, one line, which says why.
#[derive(Drop)]
pub struct Answer {
    pub status: Status,
    pub text: Vec<u8>,
    pub ghost line: { ∥ IsDoneOrRefused status text.items ∥₁ },
}

impl Answer {
    ghost use Rattle.wy_reply.specs.Refusals.{refusal_status, refusal_text};

    /// The answer of a command that did what it says.
    pub fn done(text: Vec<u8>) -> Answer
        ensures status { result.status ≡ Status.Done }
        ensures text { result.text.items ≡ text.items }
    {
        Answer {
            status: Status::Done,
            text,
        }
    }

    pub fn refused(alloc: Global, refusal: Refusal<'_>) -> Result<Answer, AllocError>
        ensures { IfOk result (λ answer. (answer.status ≡ refusal_status refusal.entry)
            × (answer.text.items ≡ refusal_text refusal.entry)) }
    {
        let text = refusal_line(alloc, refusal)?;
        Ok(Answer {
            status: refusal.status(),
            text,
        })
    }
}
