//! What a request and the files give, before any byte of it is written.
ghost use Rattle.std.specs.Prelude.{◌≡◌, ◌<◌, ℕ, List, Option, IfOk, None, Some, option_map};
ghost use Rattle.wy_outside.specs.Shelf.{Files};
ghost use Rattle.wy_outside.specs.Counts.{Rose};
ghost use Rattle.wy_record.specs.declared.recorder.Phase.TheVariants.{Failed, Ready};
ghost use Rattle.wy_reply.specs.declared.status.Status.TheVariants.{Absent, Done, TooLong, Usage, Fault};
ghost use Rattle.wy_reply.specs.Tellings.{wanted_of};
ghost use Rattle.wy_top.specs.Answers.{HasFewMethods, IsAnswer, IsAsked, IsFault, counts};
ghost use Rattle.wy_top.specs.Call.{AnswersRunOf, Carries, Cuts, IsNoRecording, Traced, Traces};
ghost use Rattle.wy_top.specs.Reads.{Tells};
ghost use Rattle.wy_top.specs.Replies.{AnswersBy, HasCause, at_shelf};
ghost use Rattle.wy_top.specs.Due.{DueForRun, DueForTrace};
ghost use Rattle.wy_top.specs.Left.{FinishesProgram, FinishesRun, IsSettled, Leaves, LeavesAny, LeavesSome, LeftFor, StartsNone};
ghost use Rattle.wy_reply.specs.Recordings.{spelling};
ghost use Rattle.wy_reply.specs.Report.{report, recorded_report};
ghost use Rattle.wy_reply.specs.Statuses.{code_of};
ghost use Rattle.wy_words.specs.Views.{asked_of, request_of};

use crate::checking::answer_to_check;
use crate::files::{Contents, FileError, read_both, read_trace};
use crate::migrating::answer_to_migrate;
use crate::paged::answer_by_pages;
use crate::source::{record_source, run_generated, run_source};
use crate::trace::answer_to_bytes;
use std::alloc::{AllocError, Global};
use wy_outside::shelf::Shelf;
use wy_record::Recorder;
use wy_reply::{Answer, Inquiry, Refusal, Wanted};
use wy_words::laws::words_ask_one_command;
use wy_words::{Asked, Request};

/// The answer where a file was not read.
pub(crate) fn answer_to_lack(alloc: Global, error: FileError<'_>) -> Result<Answer, AllocError>
    ensures { IfOk result (λ answer. Tells error.entry answer) }
{
    match error {
        FileError::Absent { name } => Answer::refused(alloc, Refusal::Absent { name }),
        FileError::TooLong { name } => Answer::refused(alloc, Refusal::LongFile { name }),
        FileError::Fault => Answer::refused(alloc, Refusal::FaultShelf),
        FileError::NoMemory => Err(AllocError),
    }
}

/// The answer to a run of the files that are named.
fn answer_to_run<S: Shelf>(
    alloc: Global,
    shelf: &mut S,
    asked: Asked<'_>,
) -> Result<Answer, AllocError>
    ensures due { (n : ℕ)
        → IfOk result (λ answer. AnswersBy (λ files. DueForRun files (asked_of asked.entry)
        (λ input p lines. report p lines input asked.entry.steps)) (S.held shelf.old)
        (counts (S.faults shelf.old) n) (counts (S.faults shelf.new) n) answer) }
    ensures causes { IfOk result (λ answer. HasCause
        (at_shelf (S.faults shelf.old) (S.misses shelf.old) (S.fulls shelf.old))
        (at_shelf (S.faults shelf.new) (S.misses shelf.new) (S.fulls shelf.new)) answer) }
    ensures files_stay { S.held shelf.new ≡ S.held shelf.old }
{
    match read_both(alloc, shelf, asked.source, asked.input) {
        Ok(Contents { source, input }) => {
            run_source(alloc, source.as_slice(), input.as_slice(), asked.steps)
        }
        Err(error) => answer_to_lack(alloc, error),
    }
}

/// The same, and the recorder has the trace of the run, by this name.
fn answer_to_record<S: Shelf, R: Recorder>(
    alloc: Global,
    shelf: &mut S,
    asked: Asked<'_>,
    trace: &str,
    recorder: &mut R,
) -> Result<Answer, AllocError>
    requires sound { R.Sound recorder.old }
    requires ready { R.phase recorder.old ≡ Ready }
    ensures sound { R.Sound recorder.new }
    ensures due { IfOk result (λ answer. AnswersBy (λ files. DueForRun files (asked_of asked.entry)
        (λ input p lines. recorded_report p lines input asked.entry.steps)) (S.held shelf.old)
        (counts (S.faults shelf.old) (R.faults recorder.old))
        (counts (S.faults shelf.new) (R.faults recorder.new)) answer) }
    ensures traced { IfOk result (λ answer. answer.status ≡ Done → (files : Files)
        → S.held shelf.old ≡ Some files
        → Traced (spelling R.opening R.frame R.closing) files (asked_of asked.entry)
        (R.mirrors recorder.old) (R.mirrors recorder.new)) }
    ensures left { (files : Files) → S.held shelf.old ≡ Some files
        → LeftFor (spelling R.opening R.frame R.closing) files (asked_of asked.entry)
        (R.phase recorder.new) (R.mirrors recorder.old) (R.mirrors recorder.new) }
    ensures left_some { LeavesSome (spelling R.opening R.frame R.closing)
        (R.phase recorder.new) (R.mirrors recorder.old) (R.mirrors recorder.new) }
    ensures settled { IfOk result (λ answer.
        ¬ Rose (R.faults recorder.old) (R.faults recorder.new) → IsSettled (R.phase recorder.new)) }
    ensures finishes { IfOk result (λ answer. ¬ Rose (S.faults shelf.old) (S.faults shelf.new)
        → ¬ Rose (R.faults recorder.old) (R.faults recorder.new)
        → FinishesRun (asked_of asked.entry) (S.held shelf.old) (R.phase recorder.new)) }
    ensures unstarted { IfOk result (λ answer.
        StartsNone (code_of answer.status) → recorder.new ≡ recorder.old) }
    ensures failed { R.faults recorder.old < R.faults recorder.new
        → R.phase recorder.new ≡ Failed }
    ensures causes { IfOk result (λ answer. HasCause
        (at_shelf (S.faults shelf.old) (S.misses shelf.old) (S.fulls shelf.old))
        (at_shelf (S.faults shelf.new) (S.misses shelf.new) (S.fulls shelf.new)) answer) }
    ensures files_stay { S.held shelf.new ≡ S.held shelf.old }
{
    match read_both(alloc, shelf, asked.source, asked.input) {
        Ok(contents) => record_source(alloc, contents, asked.steps, trace, recorder),
        Err(error) => answer_to_lack(alloc, error),
    }
}

/// The answer from the trace of a name: what is told from its records is read by pages.
fn answer_from<S: Shelf>(
    alloc: Global,
    shelf: &mut S,
    trace: &str,
    wanted: Wanted<'_>,
) -> Result<Answer, AllocError>
    ensures due { (n : ℕ) → IfOk result (λ answer.
        AnswersBy (λ files. DueForTrace files trace.now (wanted_of wanted.entry))
        (S.held shelf.old) (counts (S.faults shelf.old) n) (counts (S.faults shelf.new) n) answer) }
    ensures by_run { IfOk result (λ answer. answer.status ≡ Done → AnswersRunOf
        (S.held shelf.old) trace.now (wanted_of wanted.entry) answer.text.items) }
    ensures causes { IfOk result (λ answer. HasCause
        (at_shelf (S.faults shelf.old) (S.misses shelf.old) (S.fulls shelf.old))
        (at_shelf (S.faults shelf.new) (S.misses shelf.new) (S.fulls shelf.new)) answer) }
    ensures files_stay { S.held shelf.new ≡ S.held shelf.old }
{
    match wanted {
        Wanted::Inquiry(inquiry) => answer_by_pages(alloc, shelf, trace, inquiry),
        Wanted::Audit | Wanted::Check { .. } => answer_by_reading(alloc, shelf, trace, wanted),
    }
}

/// The answer from the trace of a name, which is read whole.
pub(crate) fn answer_by_reading<S: Shelf>(
    alloc: Global,
    shelf: &mut S,
    trace: &str,
    wanted: Wanted<'_>,
) -> Result<Answer, AllocError>
    ensures due { (n : ℕ) → IfOk result (λ answer.
        AnswersBy (λ files. DueForTrace files trace.now (wanted_of wanted.entry))
        (S.held shelf.old) (counts (S.faults shelf.old) n) (counts (S.faults shelf.new) n) answer) }
    ensures by_run { IfOk result (λ answer. answer.status ≡ Done → AnswersRunOf
        (S.held shelf.old) trace.now (wanted_of wanted.entry) answer.text.items) }
    ensures causes { IfOk result (λ answer. HasCause
        (at_shelf (S.faults shelf.old) (S.misses shelf.old) (S.fulls shelf.old))
        (at_shelf (S.faults shelf.new) (S.misses shelf.new) (S.fulls shelf.new)) answer) }
    ensures files_stay { S.held shelf.new ≡ S.held shelf.old }
{
    match read_trace(alloc, shelf, trace) {
        Ok(bytes) => answer_to_bytes(alloc, bytes.as_slice(), wanted),
        Err(error) => answer_to_lack(alloc, error),
    }
}

/// What is answered to a request, and to words that are no command where there is none. The shelf is read at most twice, and not at all
/// where there is no request; the recorder is used where the request is to record or to migrate.
pub fn answer_to<S: Shelf, R: Recorder>(
    alloc: Global,
    request: Option<Request<'_>>,
    shelf: &mut S,
    recorder: &mut R,
) -> Result<Answer, AllocError>
    requires sound { R.Sound recorder.old }
    requires ready { R.phase recorder.old ≡ Ready }
    requires methods { HasFewMethods (option_map request_of request) }
    ensures sound { R.Sound recorder.new }
    ensures due { (words : List (List ℕ)) (keys : Option (List ℕ))
        → IsAsked words (option_map request_of request.entry)
        → IfOk result (λ answer. IsAnswer words (S.held shelf.old) keys
        (counts (S.faults shelf.old) (R.faults recorder.old))
        (counts (S.faults shelf.new) (R.faults recorder.new)) answer) }
    ensures traces { (words : List (List ℕ)) → IsAsked words (option_map request_of request.entry)
        → IfOk result (λ answer. answer.status ≡ Done
        → Traces (spelling R.opening R.frame R.closing) words
        (S.held shelf.old) (R.mirrors recorder.old) (R.mirrors recorder.new)) }
    ensures carried { (words : List (List ℕ)) → IsAsked words (option_map request_of request.entry)
        → IfOk result (λ answer. answer.status ≡ Done
        → Carries words (S.held shelf.old) answer.text.items) }
    ensures cut { (words : List (List ℕ)) → IsAsked words (option_map request_of request.entry)
        → IfOk result (λ answer. answer.status ≡ Done
        → Cuts words (S.held shelf.old) answer.text.items) }
    ensures absent { IfOk result (λ answer.
        answer.status ≡ Absent → Rose (S.misses shelf.old) (S.misses shelf.new)) }
    ensures too_long { IfOk result (λ answer.
        answer.status ≡ TooLong → Rose (S.fulls shelf.old) (S.fulls shelf.new)) }
    ensures usage { IfOk result (λ answer. answer.status ≡ Usage → request.entry ≡ None) }
    ensures fault { IfOk result (λ answer. answer.status ≡ Fault → IsFault
        (counts (S.faults shelf.old) (R.faults recorder.old))
        (counts (S.faults shelf.new) (R.faults recorder.new)) answer) }
    ensures files_stay { S.held shelf.new ≡ S.held shelf.old }
    ensures reads_nothing { request.entry ≡ None → S.gets shelf.new ≡ S.gets shelf.old }
    ensures records_nothing { IsNoRecording (option_map request_of request.entry)
        → recorder.new ≡ recorder.old }
    ensures left { (words : List (List ℕ)) → IsAsked words (option_map request_of request.entry)
        → Leaves (spelling R.opening R.frame R.closing) words (S.held shelf.old)
        (R.phase recorder.new) (R.mirrors recorder.old) (R.mirrors recorder.new) }
    ensures left_some { (words : List (List ℕ)) → IsAsked words (option_map request_of request.entry)
        → LeavesAny (spelling R.opening R.frame R.closing) words
        (R.phase recorder.new) (R.mirrors recorder.old) (R.mirrors recorder.new) }
    ensures settled { IfOk result (λ answer.
        ¬ Rose (R.faults recorder.old) (R.faults recorder.new) → IsSettled (R.phase recorder.new)) }
    ensures finishes { (words : List (List ℕ)) → IsAsked words (option_map request_of request.entry)
        → IfOk result (λ answer. ¬ Rose (S.faults shelf.old) (S.faults shelf.new)
        → ¬ Rose (R.faults recorder.old) (R.faults recorder.new)
        → FinishesProgram words (S.held shelf.old) (R.phase recorder.new)) }
    ensures unstarted { IfOk result (λ answer.
        StartsNone (code_of answer.status) → recorder.new ≡ recorder.old) }
    ensures failed { R.faults recorder.old < R.faults recorder.new
        → R.phase recorder.new ≡ Failed }
{
    words_ask_one_command();
    let Some(request) = request else {
        return Answer::refused(alloc, Refusal::Usage);
    };
    match request {
        Request::Run(asked) => answer_to_run(alloc, shelf, asked),
        Request::Record { asked, trace } => answer_to_record(alloc, shelf, asked, trace, recorder),
        Request::Output { trace } => {
            answer_from(alloc, shelf, trace, Wanted::Inquiry(Inquiry::Output))
        }
        Request::Why { trace, question } => {
            let inquiry = Inquiry::Why { question };
            answer_from(alloc, shelf, trace, Wanted::Inquiry(inquiry))
        }
        Request::Affects { trace, question } => {
            let inquiry = Inquiry::Affects { question };
            answer_from(alloc, shelf, trace, Wanted::Inquiry(inquiry))
        }
        Request::Certify { trace, question } => {
            let inquiry = Inquiry::Certify { question };
            answer_from(alloc, shelf, trace, Wanted::Inquiry(inquiry))
        }
        Request::Check { trace, certificate } => answer_to_check(alloc, shelf, trace, certificate),
        Request::Questions { trace } => {
            answer_from(alloc, shelf, trace, Wanted::Inquiry(Inquiry::Questions))
        }
        Request::WhyNot { trace, statement } => {
            let inquiry = Inquiry::WhyNot { statement };
            answer_from(alloc, shelf, trace, Wanted::Inquiry(inquiry))
        }
        Request::Scope {
            trace,
            statement,
            call,
        } => {
            let inquiry = Inquiry::Scope { statement, call };
            answer_from(alloc, shelf, trace, Wanted::Inquiry(inquiry))
        }
        Request::Audit { trace } => answer_from(alloc, shelf, trace, Wanted::Audit),
        Request::Migrate { trace, name } => answer_to_migrate(alloc, shelf, trace, name, recorder),
        Request::Gen { number } => run_generated(alloc, number),
    }
}
