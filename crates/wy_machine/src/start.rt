//! How a run begins: the class of main is initialized, and then main is called (JLS 12.1.3, 12.1.4).

ghost use Rattle.std.specs.Prelude.{◌≡◌, IfOk, [], replicate};
ghost use Rattle.wy_kernel.specs.Parts.{program_of};
ghost use Rattle.wy_machine.specs.Ended.{whole};
ghost use Rattle.wy_machine.specs.Start.{untouched};
ghost use Rattle.wy_meaning.specs.Run.{start};
ghost use Rattle.wy_state.specs.Agrees.{Agrees, Comes, shape};
ghost use Rattle.wy_work.specs.Tasks.{goes};
ghost use Rattle.wy_work.specs.Machines.{standing};

use std::alloc::{AllocError, Global};
use wy_calls::Calls;
use wy_event::record::Cover;
use wy_heap::Heap;
use wy_kernel::limit::DEPTH_LIMIT;
use wy_kernel::program::Program;
use wy_kernel::types::NONE;
use wy_operands::Operands;
use wy_state::register::Register;
use wy_state::state::State;
use wy_work::machine::Machine;
use wy_work::task::Step;

/// A machine that has all of a run before it.
pub fn start<'a, R: Register + Drop>(
    alloc: Global,
    program: &'a Program,
    input: &'a [u8],
    steps: u32,
    register: R,
) -> Result<Machine<'a, R>, AllocError>
    requires first { R.keeps register ≡ 0 }
    requires none { R.kept register ≡ [] }
    ensures first { IfOk result (λ m. R.keeps m.state.register ≡ 0) }
    ensures none { IfOk result (λ m. R.kept m.state.register ≡ []) }
    ensures comes { IfOk result (λ m. Comes (program_of program.now)
        (standing R.keeps R.kept m).state
        (goes (program_of program.now) (standing R.keeps R.kept m))
        (whole (program_of program.now) input.now steps)) }
{
    if program.main as usize >= program.methods.len() {
        return Err(AllocError);
    }
    let class = program.method(program.main).class;
    if class as usize >= program.classes.len() {
        return Err(AllocError);
    }
    let site = program.class(class).site;
    let mut machine = Machine {
        state: state(alloc, program, input, steps, register)?,
        depth: DEPTH_LIMIT as u32,
        work: Vec::new(alloc),
        stack: Operands::new(alloc),
        saved: Vec::new(alloc),
    };
    machine.push_step(Step::Main)?;
    machine.push_step(Step::Initialize { class, site })?;
    Ok(machine)
}

/// The state before the first step.
fn state<'a, R: Register + Drop>(
    alloc: Global,
    program: &'a Program,
    input: &'a [u8],
    steps: u32,
    register: R,
) -> Result<State<'a, R>, AllocError>
    requires first { R.keeps register ≡ 0 }
    requires none { R.kept register ≡ [] }
    ensures first { IfOk result (λ s. R.keeps s.register ≡ 0) }
    ensures none { IfOk result (λ s. R.kept s.register ≡ []) }
    ensures agrees { IfOk result
        (λ s. Agrees (program_of program.now) (shape R.keeps R.kept s) (start input.now steps)) }
{
    Ok(State {
        calls: Calls::new(alloc),
        heap: Heap::new(alloc, program)?,
        entered: 0,
        events: 0,
        uses: 0,
        left: steps,
        elements: 0,
        units: 0,
        output: Vec::new(alloc),
        input,
        covers: covers(alloc, program.statements)?,
        throws: Vec::new(alloc),
        register,
        spare: Vec::new(alloc),
        alloc,
    })
}

/// Of each statement, that it never began.
fn covers(alloc: Global, statements: u32) -> Result<Vec<Cover>, AllocError>
    ensures { IfOk result (λ cs. cs.items ≡ replicate statements untouched) }
{
    let untouched = Cover {
        begins: 0,
        ends: 0,
        first: NONE,
        cause: NONE,
    };
    vec![in alloc; untouched; statements as usize]
}
