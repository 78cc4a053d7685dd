//! What a run threw last, where that ended it.

ghost use Rattle.std.specs.Prelude.{◌≡◌, ℕ, IfOk, IfSome, slice_get, Some};
ghost use Rattle.wy_kernel.specs.Program as kernel;
ghost use Rattle.wy_meaning.specs.Kept.{kept_thrown};
ghost use Rattle.wy_machine.specs.Ended.{last_thrown};
ghost use Rattle.wy_state.specs.Agrees.{Agrees, shape};
ghost use Rattle.wy_steps.specs.Sets.{nothing};
ghost use Rattle.wy_steps.specs.State as run;

use std::alloc::AllocError;
use wy_event::record::Thrown;
use wy_kernel::code::{class_of_type, type_of_code};
use wy_kernel::types::NONE;
use wy_state::parts::Throw;
use wy_state::register::Register;
use wy_state::state::State;
use wy_value::Value;

/// The class of the object of a Throw and its site, and neither where there is no Throw.
pub fn thrown<'a, R: Register + Drop>(
    state: &State<'a, R>,
    last: Option<u32>,
) -> Result<Thrown, AllocError>
    ensures { (p : kernel.Program) (s : run.State nothing)
        → Agrees p (shape R.keeps R.kept state.now) s
        → IfOk result (λ t. kept_thrown t ≡ last_thrown s last) }
{
    let Some(last) = last else {
        return Ok(Thrown {
            class: NONE,
            site: NONE,
        });
    };
    let Some(throw) = find(state.throws.as_slice(), last) else {
        return Err(AllocError);
    };
    let Value::Object(number) = throw.value else {
        return Err(AllocError);
    };
    let Some(code) = state.heap.type_code(number) else {
        return Err(AllocError);
    };
    let class = class_of_type(type_of_code(code));
    if class == NONE || throw.site == NONE {
        return Err(AllocError);
    }
    Ok(Thrown {
        class,
        site: throw.site,
    })
}

/// The Throw that is this event.
fn find(throws: &[Throw], event: u32) -> Option<Throw>
    ensures { IfSome result
        (λ t. (t.event ≡ event) × ((i : ℕ) × (slice_get throws.now i ≡ Some t))) }
{
    for throw in throws {
        if throw.event == event {
            return Some(*throw);
        }
    }
    None
}
