//! What is asked of a number when nothing is known but how many events stand before.

ghost use Rattle.std.specs.Prelude.{◌≡◌};
ghost use Rattle.wy_payload.specs.Reading.{Gives, passed, passed_number};
ghost use Rattle.wy_payload.specs.Rules.{in_range};
ghost use Rattle.wy_frame_reading.specs.Fields.{optional_at};

use wy_kernel::types::NONE;
use wy_payload::fault::{DamageRule, Fault};
use wy_payload::field::u32_at;

/// The bytes behind a field, where it is in its range.
pub fn ranged(test: bool, rest: &[u8]) -> Result<&[u8], Fault>
    ensures { Gives (λ x. x.now) result (passed (in_range test) rest.now) }
{
    if test {
        Ok(rest)
    } else {
        Err(Fault::Broken(DamageRule::Range))
    }
}

fn kept(test: bool, n: u32, rest: &[u8]) -> Result<(u32, &[u8]), Fault>
    ensures { Gives (λ x. (x.0, x.1.now)) result (passed_number (in_range test) n rest.now) }
{
    let rest = ranged(test, rest)?;
    Ok((n, rest))
}

/// A number below a limit, or NONE.
#[tactic(auto, unfolding(crate::specs::Fields::optional_at))]
pub fn optional(limit: u32, bytes: &[u8]) -> Result<(u32, &[u8]), Fault>
    ensures { Gives (λ x. (x.0, x.1.now)) result (optional_at limit bytes.now) }
{
    let (n, rest) = u32_at(bytes)?;
    kept(n == NONE || n < limit, n, rest)
}
