//! What is answered from the bytes of a trace.
ghost use Rattle.std.specs.Prelude.{◌≡◌, ◌≤◌, IfOk, false, length};
ghost use Rattle.wy_reply.specs.declared.status.Status.TheVariants.{Done};
ghost use Rattle.wy_top.specs.Call.{AnswersRun};
ghost use Rattle.wy_reply.specs.Statuses.{code_of, is_of_files};
ghost use Rattle.wy_reply.specs.Tellings.{wanted_of};
ghost use Rattle.wy_top.specs.Due.{DueForBytes};
ghost use Rattle.wy_kernel.specs.Limits.{trace_limit};
ghost use Rattle.wy_top.specs.Replies.{RefusesTrace};

use crate::laws::{recorded_traces_tell_events, runs_of_texts};
use crate::opening::{Opening, open_bytes};
use law_reading::heads_are_short;
use std::alloc::{AllocError, Global};
use wy_elab_stmt::laws::a_text_has_one_program;
use wy_parser::laws::a_token_list_has_one_tree;
use wy_program::SourceError;
use wy_reply::{Answer, Refusal, Wanted, answer_to_trace};
use wy_tree::laws::{
    a_refused_text_has_no_tokens, a_text_has_one_token_list, tokens_stand_in_order,
};
use wy_whynot::laws::items_are_a_cut;

/// The answer to a trace whose source gives no program.
pub(crate) fn answer_to_error(alloc: Global, error: SourceError) -> Result<Answer, AllocError>
    ensures { IfOk result (λ answer. RefusesTrace error answer) }
{
    match error {
        SourceError::Refused(refusal) => Answer::refused(alloc, Refusal::TraceProgram(refusal)),
        SourceError::NoMemory => Err(AllocError),
    }
}

/// What a trace tells, or what is wrong with it first: its head, its program and the rest are read
/// in this order.
pub fn answer_to_bytes(
    alloc: Global,
    bytes: &[u8],
    wanted: Wanted<'_>,
) -> Result<Answer, AllocError>
    requires { length bytes.now ≤ trace_limit }
    ensures due { IfOk result (λ answer. DueForBytes bytes.now (wanted_of wanted.entry)
        (code_of answer.status) answer.text.items) }
    ensures settled { IfOk result (λ answer. is_of_files answer.status ≡ false) }
    ensures by_run { IfOk result (λ answer. answer.status ≡ Done
        → AnswersRun bytes.now (wanted_of wanted.entry) answer.text.items) }
{
    a_text_has_one_token_list();
    a_refused_text_has_no_tokens();
    a_token_list_has_one_tree();
    a_text_has_one_program();
    tokens_stand_in_order();
    items_are_a_cut();
    runs_of_texts();
    recorded_traces_tell_events();
    heads_are_short();
    match open_bytes(alloc, bytes)? {
        Opening::Open { typed, trace } => {
            answer_to_trace(alloc, &typed.program, trace, bytes, wanted)
        }
        Opening::Refused(answer) => Ok(answer),
    }
}
