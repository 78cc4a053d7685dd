//! What holds of the definitions that the program's contract cites. Each law is the contract of a
//! function that does nothing.
ghost use Rattle.std.specs.Prelude.{◌≡◌, ◌⊎◌, ℕ, List, Option};
ghost use Rattle.wy_outside.specs.Shelf.{Files};
ghost use Rattle.law_frames.specs.Bodies.{FramesWereActive};
ghost use Rattle.law_held.specs.Last.{HeldWasLastHad, StoresHaveHeld};
ghost use Rattle.law_reached.specs.Laws.{CallsStandOnLinks, EachItemIsNeeded, ExecutedPointsAreReached};
ghost use Rattle.wy_steps.specs.Sets.{nothing};
ghost use Rattle.wy_top.specs.Causes.{ProgramsAreNotRefused};
ghost use Rattle.wy_top.specs.Due.{Due, AreSyntaxLines};
ghost use Rattle.wy_top.specs.OwnTraces.{RecordedOutputsAreReports, RecordedTracesAreNotRefused, RecordedTracesAreRead, RecordedTracesAreShort, RecordedTracesTellEvents};
ghost use Rattle.wy_top.specs.Sound.{SoundCallsSucceed};
ghost use Rattle.wy_top.specs.Texts.{OfTexts};
ghost use Rattle.law_typed_states.specs.Laws.{StatesAreTyped};

use law_frames::frames_are_the_bodies_that_were_active;
use law_held::held_is_what_the_store_last_had;
use law_output::output_is_what_the_run_wrote;
use law_own_traces::{
    own_events_are_told, own_traces_are_read, own_traces_are_short, programs_keep_the_library,
    trees_fit_their_texts, trees_have_few_statements,
};
use law_program_parts::trees_declare_few;
use law_reached::{
    calls_stand_on_links, each_item_is_needed, executed_points_are_reached, programs_stand_apart,
};
use law_reading::bytes_are_read_in_one_way;
use law_sites::no_two_choices_share_a_site;
use law_structure::{each_number_is_one_statement, tests_stand_apart};
use law_typed_states::states_are_typed;
use wy_check::laws::{one_certificate_is_made, one_verdict_is_due};
use wy_elab_stmt::laws::a_text_has_one_program;
use wy_machine::one_audit_is_due;
use wy_parser::laws::a_token_list_has_one_tree;
use wy_program::texts_are_programs;
use wy_session::laws::one_talk;
use wy_telling::laws::{one_answer_to_questions, one_answer_to_scope, one_answer_to_whynot};
use wy_tree::laws::{
    a_refused_text_has_no_tokens, a_text_has_one_token_list, tokens_stand_in_order,
};
use wy_words::laws::words_ask_one_command;

/// For the same words, files and keys at most one status is due, and at most one text, but that Syntax may name each token through
/// which no tree of the source goes, be it the source of a file or that of a trace.
pub fn one_answer_is_due()
    ensures { (words : List (List ℕ)) (held : Option Files) (keys : Option (List ℕ)) (s t : ℕ)
        (x y : List ℕ) → Due words held keys s x → Due words held keys t y
        → (s ≡ t) × ((x ≡ y) ⊎ AreSyntaxLines words held x y) }
{
    a_text_has_one_token_list();
    a_refused_text_has_no_tokens();
    a_token_list_has_one_tree();
    a_text_has_one_program();
    bytes_are_read_in_one_way();
    one_answer_to_questions();
    one_answer_to_whynot();
    one_answer_to_scope();
    one_audit_is_due();
    one_certificate_is_made();
    one_verdict_is_due();
    one_talk();
    words_ask_one_command();
}

/// Where the files are there and within their limits, the source is a program or the bytes are a sealed trace, and what is asked names
/// something, nothing is due but status 0; of an audit also 10, and of a check also 11.
pub fn sound_calls_succeed()
    ensures { SoundCallsSucceed }
{
    a_text_has_one_token_list();
    a_refused_text_has_no_tokens();
    a_token_list_has_one_tree();
    a_text_has_one_program();
    bytes_are_read_in_one_way();
    one_answer_to_questions();
    one_answer_to_whynot();
    one_answer_to_scope();
    one_audit_is_due();
    one_certificate_is_made();
    one_verdict_is_due();
    one_talk();
    words_ask_one_command();
}

/// A source that has a program is refused by no line.
pub fn programs_are_not_refused()
    ensures { ProgramsAreNotRefused }
{
    a_text_has_one_token_list();
    a_refused_text_has_no_tokens();
    a_token_list_has_one_tree();
    a_text_has_one_program();
}

/// In every run of the program of a text of at most 1,048,576 tokens states are typed, each executed point is reached by links that
/// were crossed, each item of why-not is needed, and each Call and Init stands on a link whose owner is executed. The frames at an event
/// are the bodies that were active as it was recorded. What the records give for a slot at a moment is what the store last had in it
/// before the moment, and what the store then has in it is nothing or that.
pub fn runs_of_texts()
    ensures typed { OfTexts (StatesAreTyped nothing) }
    ensures reached { OfTexts (ExecutedPointsAreReached nothing) }
    ensures needed { OfTexts (EachItemIsNeeded nothing) }
    ensures calls { OfTexts (CallsStandOnLinks nothing) }
    ensures frames { OfTexts FramesWereActive }
    ensures held { OfTexts (HeldWasLastHad nothing) }
    ensures stored { OfTexts (StoresHaveHeld nothing) }
{
    programs_keep_the_library();
    trees_fit_their_texts();
    texts_are_programs();
    trees_declare_few();
    each_number_is_one_statement();
    no_two_choices_share_a_site();
    tests_stand_apart();
    programs_stand_apart();
    states_are_typed();
    executed_points_are_reached();
    each_item_is_needed();
    calls_stand_on_links();
    frames_are_the_bodies_that_were_active();
    held_is_what_the_store_last_had();
}

/// The trace of a run of the program of each text, where source, input and steps are within their limits, is within that of a trace, so
/// no command says of it that it is too long. It is read as a trace with the head, the events and the end of the run; no reader refuses
/// it but for want of memory.
pub fn recorded_traces_are_read()
    ensures short { RecordedTracesAreShort }
    ensures read { RecordedTracesAreRead }
    ensures not_refused { RecordedTracesAreNotRefused }
{
    tokens_stand_in_order();
    texts_are_programs();
    trees_declare_few();
    programs_keep_the_library();
    trees_fit_their_texts();
    trees_have_few_statements();
    own_events_are_told();
    own_traces_are_short();
    own_traces_are_read();
}

/// What `output` tells of such a trace is what `run` writes: the output of the run in whole lines, and how it ended.
pub fn recorded_outputs_are_reports()
    ensures { RecordedOutputsAreReports }
{
    tokens_stand_in_order();
    texts_are_programs();
    trees_declare_few();
    programs_keep_the_library();
    trees_fit_their_texts();
    trees_have_few_statements();
    own_events_are_told();
    own_traces_are_short();
    own_traces_are_read();
    bytes_are_read_in_one_way();
    output_is_what_the_run_wrote();
}

/// The bytes of the trace of a run of the program of each text tell all events of the run, in either version.
pub fn recorded_traces_tell_events()
    ensures { RecordedTracesTellEvents }
{
    tokens_stand_in_order();
    texts_are_programs();
    trees_declare_few();
    programs_keep_the_library();
    trees_fit_their_texts();
    trees_have_few_statements();
    own_events_are_told();
}
