//! What holds of a trace that is written anew. Each law is the contract of a function that does nothing.
ghost use Rattle.wy_top.specs.Rewritten.{MigratedTracesTellTheSame, SealedTracesAreMigrated};

use law_migrated::migrated_traces_are_read;
use law_reading::bytes_are_read_in_one_way;
use wy_check::laws::{one_certificate_is_made, one_verdict_is_due};
use wy_elab_stmt::laws::a_text_has_one_program;
use wy_machine::one_audit_is_due;
use wy_parser::laws::a_token_list_has_one_tree;
use wy_session::laws::one_talk;
use wy_telling::laws::{one_answer_to_questions, one_answer_to_scope, one_answer_to_whynot};
use wy_tree::laws::{a_refused_text_has_no_tokens, a_text_has_one_token_list};

/// Where a file is the trace of a program, nothing is due of its migration but how many events it has.
pub fn sealed_traces_are_migrated()
    ensures { SealedTracesAreMigrated }
{
    a_text_has_one_token_list();
    a_refused_text_has_no_tokens();
    a_token_list_has_one_tree();
    a_text_has_one_program();
    bytes_are_read_in_one_way();
    one_answer_to_questions();
    one_answer_to_whynot();
    one_answer_to_scope();
    one_audit_is_due();
    one_certificate_is_made();
    one_verdict_is_due();
    one_talk();
}

/// A file that is a trace in either version, and one that is the same trace in version 2, tell the same: its output, its questions, its
/// answers to each why, affects, whynot and scope, its sessions and its audit. A certificate alone has the seal, which another version has
/// not.
pub fn migrated_traces_tell_the_same()
    ensures { MigratedTracesTellTheSame }
{
    a_text_has_one_token_list();
    a_refused_text_has_no_tokens();
    a_token_list_has_one_tree();
    a_text_has_one_program();
    bytes_are_read_in_one_way();
    migrated_traces_are_read();
}
