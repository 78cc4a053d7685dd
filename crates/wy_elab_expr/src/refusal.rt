//! Refusals.

ghost use Rattle.std.specs.Prelude.{◌≡◌};

use wy_constant::{Rule, TypeError};

/// The refusal of a rule that is broken at a token.
pub fn refused(rule: Rule, token: u32) -> TypeError
    ensures { result ≡ TypeError.Broken rule token }
{
    TypeError::Broken { rule, token }
}
