//! What is told from a trace, over any view of it.
ghost use Rattle.std.specs.Prelude.{◌≡◌, ◌<◌, ◌^◌, ℕ, List, IfOk, IfSome, IsSome, Some, false, length, map};
ghost use Rattle.wy_ask.specs.Opened.{IsOpenedOf};
ghost use Rattle.wy_event.specs.declared.record.Trace.{Trace};
ghost use Rattle.wy_event.specs.Record.{recorded};
ghost use Rattle.wy_index.specs.Findings.{IsFoundIn};
ghost use Rattle.wy_reply.specs.Opening.{IsViewOf};
ghost use Rattle.wy_reply.specs.Statuses.{code_of, is_of_files};
ghost use Rattle.wy_reply.specs.Tellings.{DeniesAs, SaysAsTold, SaysScope, Tells, inquiry_of};
ghost use Rattle.wy_reply.specs.Tellings as wanted;
ghost use Rattle.wy_telling.specs.Scoped.{KeepsFaults};
ghost use Rattle.wy_telling.specs.Untelling.{HasCause};
ghost use Rattle.wy_view.specs.View.{Keeps, KeepsCounts, Told};

use crate::answer::Answer;
use crate::certified::certificate_text;
use crate::lines::Refusal;
use crate::telling::Inquiry;
use std::alloc::{AllocError, Global};
use std::marker::Brand;
use std::sync::ledger::{Blank, Ledger};
use wy_ask::Opened;
use wy_event::record::Tail;
use wy_index::Index;
use wy_index::build::Findings;
use wy_kernel::program::Program;
use wy_telling::{
    Unanswered, Unscoped, Untold, affects_text, output_text, questions_text, scope_text, why_text,
    whynot_text,
};
use wy_view::{EventView, Steps, ViewError};

/// The answer to a question: what is told of its event, or why nothing is.
fn answer_to_question(alloc: Global, told: Result<Vec<u8>, Untold>) -> Result<Answer, ViewError>
    ensures says { IfOk result (SaysAsTold told) }
    ensures settled { IfOk result (λ answer. is_of_files answer.status ≡ false) }
    ensures answers { (text : List ℕ) (old new : Told) → HasCause text told old new
        → KeepsCounts result old new }
{
    match told {
        Ok(text) => Ok(Answer::done(text)),
        Err(Untold::BadQuestion) => Ok(Answer::refused(alloc, Refusal::NotRead)?),
        Err(Untold::NoSuch(number)) => Ok(Answer::refused(alloc, Refusal::NoSuch { number })?),
        Err(Untold::View(error)) => Err(error),
    }
}

/// What the run of a trace wrote, by what is told of how it ended.
fn answer_to_output<V: EventView>(
    alloc: Global,
    program: &Program,
    tail: &Tail,
    view: &mut V,
) -> Result<Answer, ViewError>
    ensures due { (seal : List ℕ) (t : Trace)
        → (V.tells view.old).records ≡ Some (map recorded t.events)
        → tail.now ≡ t.tail → IfOk result (λ answer. Tells program.now seal t wanted.Output
        (code_of answer.status) answer.text.items) }
    ensures settled { IfOk result (λ answer. is_of_files answer.status ≡ false) }
    ensures keeps { Keeps (V.tells view.old) (V.tells view.new) }
    ensures answers { KeepsCounts result (V.tells view.old) (V.tells view.new) }
{
    Ok(Answer::done(output_text(alloc, program, view, tail)?))
}

fn answer_to_why<V: EventView>(
    alloc: Global,
    opened: &mut Opened<'_, V>,
    question: &str,
) -> Result<Answer, ViewError>
    requires { IsOpenedOf (V.tells opened.old.view) opened.old }
    ensures due { (seal : List ℕ) (t : Trace)
        → IsViewOf t (V.tells opened.old.view) opened.old.coverage.now
        → IfOk result (λ answer. Tells opened.old.program.now seal t (wanted.Why question.now)
        (code_of answer.status) answer.text.items) }
    ensures settled { IfOk result (λ answer. is_of_files answer.status ≡ false) }
    ensures keeps { Keeps (V.tells opened.old.view) (V.tells opened.new.view) }
    ensures answers { KeepsCounts result (V.tells opened.old.view) (V.tells opened.new.view) }
{
    let told = why_text(alloc, opened, question);
    answer_to_question(alloc, told)
}

fn answer_to_affects<V: EventView>(
    alloc: Global,
    opened: &mut Opened<'_, V>,
    question: &str,
) -> Result<Answer, ViewError>
    requires { IsOpenedOf (V.tells opened.old.view) opened.old }
    ensures due { (seal : List ℕ) (t : Trace)
        → IsViewOf t (V.tells opened.old.view) opened.old.coverage.now
        → IfOk result (λ answer. Tells opened.old.program.now seal t (wanted.Affects question.now)
        (code_of answer.status) answer.text.items) }
    ensures settled { IfOk result (λ answer. is_of_files answer.status ≡ false) }
    ensures keeps { Keeps (V.tells opened.old.view) (V.tells opened.new.view) }
    ensures answers { KeepsCounts result (V.tells opened.old.view) (V.tells opened.new.view) }
{
    let told = affects_text(alloc, opened, question);
    answer_to_question(alloc, told)
}

fn answer_to_certify<V: EventView>(
    alloc: Global,
    opened: &mut Opened<'_, V>,
    seal: &[u8; 32],
    question: &str,
) -> Result<Answer, ViewError>
    requires { IsOpenedOf (V.tells opened.old.view) opened.old }
    ensures due { (t : Trace) → IsViewOf t (V.tells opened.old.view) opened.old.coverage.now
        → IfOk result (λ answer. Tells opened.old.program.now seal.now t (wanted.Certify question.now)
        (code_of answer.status) answer.text.items) }
    ensures settled { IfOk result (λ answer. is_of_files answer.status ≡ false) }
    ensures keeps { Keeps (V.tells opened.old.view) (V.tells opened.new.view) }
    ensures answers { KeepsCounts result (V.tells opened.old.view) (V.tells opened.new.view) }
{
    let told = certificate_text(alloc, opened, seal, question);
    answer_to_question(alloc, told)
}

fn answer_to_questions<V: EventView>(
    alloc: Global,
    opened: &mut Opened<'_, V>,
) -> Result<Answer, ViewError>
    requires { IsOpenedOf (V.tells opened.old.view) opened.old }
    ensures due { (seal : List ℕ) (t : Trace)
        → IsViewOf t (V.tells opened.old.view) opened.old.coverage.now
        → IfOk result (λ answer. Tells opened.old.program.now seal t wanted.Questions
        (code_of answer.status) answer.text.items) }
    ensures settled { IfOk result (λ answer. is_of_files answer.status ≡ false) }
    ensures keeps { Keeps (V.tells opened.old.view) (V.tells opened.new.view) }
    ensures answers { KeepsCounts result (V.tells opened.old.view) (V.tells opened.new.view) }
{
    Ok(Answer::done(questions_text(alloc, opened)?))
}

fn answer_to_statement<V: EventView>(
    alloc: Global,
    opened: &Opened<'_, V>,
    statement: &str,
) -> Result<Answer, AllocError>
    requires { IsOpenedOf (V.tells opened.now.view) opened.now }
    ensures due { (seal : List ℕ) (t : Trace)
        → IsViewOf t (V.tells opened.now.view) opened.now.coverage.now
        → IfOk result (λ answer. Tells opened.now.program.now seal t (wanted.WhyNot statement.now)
        (code_of answer.status) answer.text.items) }
    ensures settled { IfOk result (λ answer. is_of_files answer.status ≡ false) }
{
    match whynot_text(alloc, opened, statement) {
        Ok(text) => Ok(Answer::done(text)),
        Err(error) => answer_to_unanswered(alloc, error),
    }
}

/// The answer to a word that names no statement, or one that ran.
fn answer_to_unanswered(alloc: Global, error: Unanswered) -> Result<Answer, AllocError>
    ensures { IfOk result (DeniesAs error) }
{
    match error {
        Unanswered::NotRead => Answer::refused(alloc, Refusal::NotRead),
        Unanswered::NoSuch(number) => Answer::refused(alloc, Refusal::NoSuch { number }),
        Unanswered::Ran {
            line,
            place,
            count,
            first,
        } => {
            let ran = Refusal::Ran {
                line,
                place,
                count,
                first,
            };
            Answer::refused(alloc, ran)
        }
        Unanswered::NoMemory => Err(AllocError),
    }
}

/// The answer to a statement and a call: why the guards around the statement were not passed in it, or why nothing is told.
fn answer_to_scope<V: EventView>(
    alloc: Global,
    opened: &mut Opened<'_, V>,
    statement: &str,
    call: u32,
) -> Result<Answer, ViewError>
    requires { IsOpenedOf (V.tells opened.old.view) opened.old }
    ensures due { (seal : List ℕ) (t : Trace)
        → IsViewOf t (V.tells opened.old.view) opened.old.coverage.now
        → IfOk result (λ answer. Tells opened.old.program.now seal t
        (wanted.Scope statement.now call) (code_of answer.status) answer.text.items) }
    ensures settled { IfOk result (λ answer. is_of_files answer.status ≡ false) }
    ensures keeps { Keeps (V.tells opened.old.view) (V.tells opened.new.view) }
    ensures answers { KeepsCounts result (V.tells opened.old.view) (V.tells opened.new.view) }
{
    let told = scope_text(alloc, opened, statement, call);
    answer_in_call(alloc, told)
}

/// What is told of a statement in a call, or why nothing is.
fn answer_in_call(alloc: Global, told: Result<Vec<u8>, Unscoped>) -> Result<Answer, ViewError>
    ensures says { IfOk result (SaysScope told) }
    ensures settled { IfOk result (λ answer. is_of_files answer.status ≡ false) }
    ensures answers { (old new : Told) → KeepsFaults told old new → KeepsCounts result old new }
{
    match told {
        Ok(text) => Ok(Answer::done(text)),
        Err(Unscoped::NotRead) => Ok(Answer::refused(alloc, Refusal::NotRead)?),
        Err(Unscoped::NoSuch(number)) => Ok(Answer::refused(alloc, Refusal::NoSuch { number })?),
        Err(Unscoped::Passed { line, place, event }) => {
            let passed = Refusal::Passed { line, place, event };
            Ok(Answer::refused(alloc, passed)?)
        }
        Err(Unscoped::View(error)) => Err(error),
    }
}

/// What is answered from a trace that is opened, with this end and this seal.
pub fn answer_to_opened<V: EventView>(
    alloc: Global,
    opened: &mut Opened<'_, V>,
    tail: &Tail,
    seal: &[u8; 32],
    inquiry: Inquiry<'_>,
) -> Result<Answer, ViewError>
    requires { IsOpenedOf (V.tells opened.old.view) opened.old }
    ensures due { (t : Trace) → IsViewOf t (V.tells opened.old.view) opened.old.coverage.now
        → tail.now ≡ t.tail
        → IfOk result (λ answer. Tells opened.old.program.now seal.now t (inquiry_of inquiry.entry)
        (code_of answer.status) answer.text.items) }
    ensures settled { IfOk result (λ answer. is_of_files answer.status ≡ false) }
    ensures keeps { Keeps (V.tells opened.old.view) (V.tells opened.new.view) }
    ensures answers { KeepsCounts result (V.tells opened.old.view) (V.tells opened.new.view) }
{
    match inquiry {
        Inquiry::Output => answer_to_output(alloc, opened.program, tail, &mut opened.view),
        Inquiry::Why { question } => answer_to_why(alloc, opened, question),
        Inquiry::Affects { question } => answer_to_affects(alloc, opened, question),
        Inquiry::Certify { question } => answer_to_certify(alloc, opened, seal, question),
        Inquiry::Questions => answer_to_questions(alloc, opened),
        Inquiry::WhyNot { statement } => Ok(answer_to_statement(alloc, opened, statement)?),
        Inquiry::Scope { statement, call } => answer_to_scope(alloc, opened, statement, call),
    }
}

/// What is answered from a trace of a program, through a view of its events, with what it tells of its end and its seal. The
/// view is given back alone, so that who lent it something has that back, and the answer is left beside it. An index comes of what
/// was found in the events before, where that is given, and else of one pass over them; for what the run wrote there is none.
pub fn answer_to_view<V: EventView>(
    alloc: Global,
    program: &Program,
    tail: &Tail,
    view: V,
    found: Option<Findings>,
    seal: &[u8; 32],
    inquiry: Inquiry<'_>,
    answer: &mut Option<Result<Answer, ViewError>>,
) -> V
    requires fields { length program.now.fields.items < 2 ^ 32 }
    requires found { IfSome found (IsFoundIn (V.tells view)) }
    ensures answered { IsSome answer.new }
    ensures due { (t : Trace) → (V.tells view).records ≡ Some (map recorded t.events)
        → tail.now ≡ t.tail
        → IfSome answer.new (λ r. IfOk r (λ given. Tells program.now seal.now t
        (inquiry_of inquiry.entry) (code_of given.status) given.text.items)) }
    ensures settled { IfSome answer.new (λ r.
        IfOk r (λ given. is_of_files given.status ≡ false)) }
    ensures keeps { Keeps (V.tells view) (V.tells result) }
    ensures answers { IfSome answer.new (λ r. KeepsCounts r (V.tells view) (V.tells result)) }
{
    if let Inquiry::Output = inquiry {
        let mut view = view;
        *answer = Some(answer_to_output(alloc, program, tail, &mut view));
        return view;
    }
    let blank = Blank::new(1);
    let (view, given) = answer_indexed::<V, Brand>(
        alloc, program, tail, view, found, seal, inquiry, blank,
    );
    *answer = Some(given);
    view
}

/// The same by an index, with a ledger for the steps, which nobody reads.
fn answer_indexed<V: EventView, L: Ledger>(
    alloc: Global,
    program: &Program,
    tail: &Tail,
    view: V,
    found: Option<Findings>,
    seal: &[u8; 32],
    inquiry: Inquiry<'_>,
    blank: Blank,
) -> (V, Result<Answer, ViewError>)
    requires fields { length program.now.fields.items < 2 ^ 32 }
    requires found { IfSome found (IsFoundIn (V.tells view)) }
    requires name { blank.name ≡ L.name }
    requires parts { blank.parts ≡ L.parts }
    requires some { 0 < blank.parts }
    ensures due { (t : Trace) → (V.tells view).records ≡ Some (map recorded t.events)
        → tail.now ≡ t.tail
        → IfOk result.1 (λ answer. Tells program.now seal.now t (inquiry_of inquiry.entry)
        (code_of answer.status) answer.text.items) }
    ensures settled { IfOk result.1 (λ answer. is_of_files answer.status ≡ false) }
    ensures keeps { Keeps (V.tells view) (V.tells result.0) }
    ensures answers { KeepsCounts result.1 (V.tells view) (V.tells result.0) }
{
    let mut view = view;
    let mut steps = Steps::<L>::new(blank);
    let index = match Index::of(alloc, found, &mut view, program, &mut steps) {
        Ok(index) => index,
        Err(error) => return (view, Err(error)),
    };
    let coverage = tail.coverage.statements.as_slice();
    let mut opened = Opened {
        program,
        coverage,
        index,
        view,
    };
    let answer = answer_to_opened(alloc, &mut opened, tail, seal, inquiry);
    let Opened { view, .. } = opened;
    (view, answer)
}
