//! What is told from a trace that stays on its shelf.
ghost use Rattle.std.specs.Prelude.{◌≡◌, ◌<◌, ◌^◌, [], IfOk, IfSome, None, Some, false, length};
ghost use Rattle.wy_outside.specs.Shelf.{Files};
ghost use Rattle.wy_page.specs.Noted.{HasNoted, HaveFound};
ghost use Rattle.wy_page.specs.Paged.{IsOfShelf, records_told};
ghost use Rattle.wy_reply.specs.declared.status.Status.TheVariants.{Done};
ghost use Rattle.wy_reply.specs.Statuses.{code_of, is_of_files};
ghost use Rattle.wy_reply.specs.Tellings.{Tells, inquiry_of};
ghost use Rattle.wy_event.specs.declared.record.Trace.{Trace};
ghost use Rattle.wy_top.specs.Call.{AnswersRunOf};
ghost use Rattle.wy_top.specs.Due.{DueForTrace};
ghost use Rattle.wy_top.specs.Paging.{AnswersFrom, ArePagesOf, DueInPages, LooksUp};
ghost use Rattle.wy_top.specs.Replies.{at_shelf};

use crate::answer::answer_by_reading;
use crate::laws::{recorded_traces_tell_events, runs_of_texts};
use crate::shelved::{Shelved, answer_to_refusal, open_pages};
use law_reading::heads_are_short;
use std::alloc::{AllocError, Global};
use wy_elab_stmt::laws::a_text_has_one_program;
use wy_event::record::Tail;
use wy_index::build::Findings;
use wy_kernel::program::Program;
use wy_outside::shelf::Shelf;
use wy_page::{PagedView, Pages};
use wy_parser::laws::a_token_list_has_one_tree;
use wy_reply::laws::tellings_are_by_runs;
use wy_reply::{Answer, Inquiry, Wanted, answer_to_view};
use wy_tree::laws::{
    a_refused_text_has_no_tokens, a_text_has_one_token_list, tokens_stand_in_order,
};
use wy_view::ViewError;
use wy_whynot::laws::items_are_a_cut;

/// What the events are noted in while a trace is opened: nothing where what the run wrote is asked for, which needs no index.
fn findings_for(alloc: Global, inquiry: Inquiry<'_>) -> Option<Findings>
    ensures { HaveFound result [] }
{
    match inquiry {
        Inquiry::Output => None,
        _ => Some(Findings::new(alloc)),
    }
}

/// What is told through a view of what is kept of a trace.
fn look_up<S: Shelf>(
    alloc: Global,
    shelf: &mut S,
    program: &Program,
    pages: Pages,
    found: Option<Findings>,
    tail: &Tail,
    inquiry: Inquiry<'_>,
) -> Result<Answer, ViewError>
    requires fields { length program.now.fields.items < 2 ^ 32 }
    requires fits { IsOfShelf pages (S.held shelf.old) }
    requires found { IfSome found (HasNoted pages (S.held shelf.old)) }
    ensures due { (t : Trace) (files : Files) → S.held shelf.old ≡ Some files
        → ArePagesOf t pages tail.now files
        → IfOk result (λ answer. Tells program.now pages.seal t (inquiry_of inquiry.entry)
        (code_of answer.status) answer.text.items) }
    ensures settled { IfOk result (λ answer. is_of_files answer.status ≡ false) }
    ensures looks { LooksUp (records_told pages (S.held shelf.old) ≡ None) result
        (at_shelf (S.faults shelf.old) (S.misses shelf.old) (S.fulls shelf.old))
        (at_shelf (S.faults shelf.new) (S.misses shelf.new) (S.fulls shelf.new)) }
    ensures files_stay { S.held shelf.new ≡ S.held shelf.old }
{
    let seal = *pages.seal();
    let view = PagedView::over(shelf, pages);
    let mut answer = None;
    let view = answer_to_view(
        alloc,
        program,
        tail,
        view,
        found,
        &seal,
        inquiry,
        &mut answer,
    );
    view.close();
    answer.unwrap()
}

/// The answer through a view of what is kept of the trace of a name.
fn answer_in<S: Shelf>(
    alloc: Global,
    shelf: &mut S,
    name: &str,
    program: &Program,
    pages: Pages,
    found: Option<Findings>,
    tail: &Tail,
    inquiry: Inquiry<'_>,
) -> Result<Answer, AllocError>
    requires fields { length program.now.fields.items < 2 ^ 32 }
    requires fits { IsOfShelf pages (S.held shelf.old) }
    requires found { IfSome found (HasNoted pages (S.held shelf.old)) }
    ensures answers { IfOk result (AnswersFrom
        (DueInPages program.now pages tail.now (inquiry_of inquiry.entry))
        (S.held shelf.old)
        (at_shelf (S.faults shelf.old) (S.misses shelf.old) (S.fulls shelf.old))
        (at_shelf (S.faults shelf.new) (S.misses shelf.new) (S.fulls shelf.new))) }
    ensures files_stay { S.held shelf.new ≡ S.held shelf.old }
{
    match look_up(alloc, shelf, program, pages, found, tail, inquiry) {
        Ok(answer) => Ok(answer),
        Err(error) => answer_to_refusal(alloc, name, error),
    }
}

/// The answer from the trace of a name, which stays on its shelf. A trace whose head can't be read is read whole, for what is wrong
/// with it first.
pub(crate) fn answer_by_pages<S: Shelf>(
    alloc: Global,
    shelf: &mut S,
    name: &str,
    inquiry: Inquiry<'_>,
) -> Result<Answer, AllocError>
    ensures answers { IfOk result (AnswersFrom
        (λ files. DueForTrace files name.now (inquiry_of inquiry.entry))
        (S.held shelf.old)
        (at_shelf (S.faults shelf.old) (S.misses shelf.old) (S.fulls shelf.old))
        (at_shelf (S.faults shelf.new) (S.misses shelf.new) (S.fulls shelf.new))) }
    ensures by_run { IfOk result (λ answer. answer.status ≡ Done → AnswersRunOf
        (S.held shelf.old) name.now (inquiry_of inquiry.entry) answer.text.items) }
    ensures files_stay { S.held shelf.new ≡ S.held shelf.old }
{
    a_text_has_one_token_list();
    a_refused_text_has_no_tokens();
    a_token_list_has_one_tree();
    a_text_has_one_program();
    tokens_stand_in_order();
    items_are_a_cut();
    runs_of_texts();
    recorded_traces_tell_events();
    heads_are_short();
    tellings_are_by_runs();
    let mut found = findings_for(alloc, inquiry);
    match open_pages(alloc, shelf, name, &mut found)? {
        Shelved::Open { typed, pages, tail } => answer_in(
            alloc,
            shelf,
            name,
            &typed.program,
            pages,
            found,
            &tail,
            inquiry,
        ),
        Shelved::Refused(answer) => Ok(answer),
        Shelved::Headless => answer_by_reading(alloc, shelf, name, Wanted::Inquiry(inquiry)),
    }
}
