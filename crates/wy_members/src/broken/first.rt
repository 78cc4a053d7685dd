//! The first breach of those that were found.

ghost use Rattle.std.specs.Prelude.{◌≡◌};
ghost use Rattle.wy_members.specs.Earlier.{earlier};

use crate::broken::breach::Breach;
use wy_constant::Rule;

/// What was found, or the breach of a later rule where it stands before it.
pub fn earlier(found: Option<Breach>, rule: Rule, token: Option<u32>) -> Option<Breach>
    ensures { result ≡ earlier found rule token }
{
    match (found, token) {
        (found, None) => found,
        (None, Some(token)) => Some(Breach { rule, token }),
        (Some(found), Some(token)) => {
            if token < found.token {
                Some(Breach { rule, token })
            } else {
                Some(found)
            }
        }
    }
}
