//! Laws of elaboration. Each function does nothing: its contract is the law.

ghost use Rattle.wy_elab_stmt.specs.Elaborates.{OneElaboration};

use law_judgement::one_judgement_stands;
use wy_members::laws::{one_constant_stands_for_a_field, one_refusal_is_due};

/// A text becomes at most one program, or breaks one rule at one token, and never both.
pub fn a_text_has_one_program()
    ensures { OneElaboration }
{
    one_refusal_is_due();
    one_constant_stands_for_a_field();
    one_judgement_stands();
}
