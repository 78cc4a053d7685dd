//! The Binds of a body that begins (JLS 15.12.4.5).

ghost use Rattle.std.specs.Prelude.{◌≡◌, map};
ghost use Rattle.wy_kernel.specs.Program.{Program, local_site};
ghost use Rattle.wy_kernel.specs.View.{body_of};
ghost use Rattle.wy_meaning.specs.Call.{bind_all};
ghost use Rattle.wy_operation.specs.Around.{Keeps};
ghost use Rattle.wy_operation.specs.Binding.{binding};
ghost use Rattle.wy_operation.specs.Operands.{carried};
ghost use Rattle.wy_state.specs.Agrees.{shape, StepGives, itself};
ghost use Rattle.wy_state.specs.Seen.{made_of};

use crate::operand::Part;
use wy_event::record::{Kind, Slot};
use wy_kernel::form::Body;
use wy_state::parts::{Draft, Halt};
use wy_state::register::Register;
use wy_state::state::State;

/// Records a Bind for each value, in the frame of the call.
pub fn bind_all<R: Register>(
    state: &mut State<'_, R>,
    body: &Body,
    frame: u32,
    parts: &[Part<'_>],
) -> Result<(), Halt>
    ensures step { (p : Program) → StepGives p itself result (shape R.keeps R.kept state.old)
        (bind_all (body_of body.now) frame 0 (map carried parts.now))
        (shape R.keeps R.kept state.new) }
    ensures around { Keeps result state.old.calls state.new.calls }
{
    for (index, part) in parts.iter().enumerate() {
        let Ok(index) = u32::try_from(index) else {
            return Err(Halt::Memory);
        };
        bind(state, body, frame, index, *part)?;
    }
    Ok(())
}

/// Records the Bind of a local.
fn bind<R: Register>(
    state: &mut State<'_, R>,
    body: &Body,
    frame: u32,
    index: u32,
    part: Part<'_>,
) -> Result<u32, Halt>
    ensures step { (p : Program) → StepGives p made_of result (shape R.keeps R.kept state.old)
        (binding (body_of body.now) frame index (carried part.entry))
        (shape R.keeps R.kept state.new) }
    ensures around { Keeps result state.old.calls state.new.calls }
{
    let draft = Draft::into_slot(
        Kind::Bind,
        local_site(body, index),
        Slot::Local { frame, index },
        part.value,
    );
    state.note_write(draft, part.uses)
}

/// The site of a local's name.
#[tactic(auto, unfolding(wy_kernel::specs::Program::local_site))]
fn local_site(body: &Body, index: u32) -> u32
    ensures { result ≡ local_site (body_of body.now) index }
{
    match body.locals.get(index as usize) {
        Some(local) => local.site,
        None => 0,
    }
}
