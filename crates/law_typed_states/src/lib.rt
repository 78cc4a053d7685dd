//! States are typed: what a program that fits its types holds and finds when it runs.
#![tactic(auto)]

ghost use Rattle.wy_kernel.specs.Program.{Program};
ghost use Rattle.wy_steps.specs.Sets.{nothing, numbers};
ghost use Rattle.law_typed_states.specs.Laws.{StatesAreTyped, TestsAreExact};
ghost use Rattle.law_typed_states.specs.Typed.{KeepsLibrary};
ghost use Rattle.wy_typing.specs.Programs.{IsDeclared, IsProgram};

/// In every run of a program that fits its types and keeps the library, at its end and just before each event, each local, field
/// and element holds a value of its type: one of the primitive type, or null, or a reference whose run-time type is below the type
/// and is no abstract class. A local may have no value.
///
/// A body in such a state keeps it so: each of its expressions gives a value of each type that it has, and each of its statements
/// leads to such states alone, at whatever depth of calls. What leaves it by a throw is a Throwable, and what it gives back is of
/// the result of its method. So it is for every input and budget, and whatever the values of the run carry beside them.
///
/// To keep the library is to declare nothing in its classes but what it declares, and to have few enough classes for their codes.
/// That a number is in the range of its type is not said here; `wy_value` says it of the operations.
pub fn states_are_typed()
    ensures states { (p : Program) → IsProgram p → KeepsLibrary p → StatesAreTyped nothing p }
    ensures states_carrying { (p : Program) → IsProgram p → KeepsLibrary p
        → StatesAreTyped numbers p }
{}

/// In a program whose declarations name its own classes, begin with the library's, and have no class above itself, the two subtypings
/// are one: a run finds a class below another, and a reference of one run-time type below another type, exactly where the relation of
/// types has it below.
pub fn the_subtypings_of_a_run_and_of_types_are_one()
    ensures { (p : Program) → IsDeclared p → TestsAreExact p }
{}
