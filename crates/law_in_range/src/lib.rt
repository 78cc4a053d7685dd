//! Each record of a run is in the range of its program, and so are its output, its texts and its end. The function does nothing: its
//! contract is the law.
#![tactic(auto)]

ghost use Rattle.wy_kernel.specs.Program.{Program};
ghost use Rattle.wy_steps.specs.Sets.{nothing, numbers};
ghost use Rattle.wy_typing.specs.Programs.{IsProgram};
ghost use Rattle.law_typed_states.specs.Typed.{KeepsLibrary};
ghost use Rattle.law_in_range.specs.InRange.{FitsText, RunsAreInRange, Text};

/// In every run of a program that fits its types, keeps the library and fits its text, each record has a site of the text or of the
/// library, is of a class, a method or a type of the program, and writes and uses only locals of the body that its frame runs, static
/// fields, fields of objects in objects of a class, and elements of arrays. Its value is one of its kind: a Test has an arm, a Read a
/// byte or -1, a New of an array its length, what is thrown and caught is an object of a class, and what is printed is neither an object
/// nor a byte or a short. A text of the program is one that it has.
///
/// The output is what the prints write, in their order: the bytes of each value, and the end of the line of each `println`. The texts that
/// the run makes have at most 16,777,216 units in all. A run that ended by a throw has the Throw, and no other run has one.
///
/// To fit its text is to have the sites of its bodies at its tokens, no class below String and no jump out of a body, and to end lines
/// exactly where the text has `println`.
pub fn runs_are_in_range()
    ensures runs { (text : Text) (p : Program) → IsProgram p → KeepsLibrary p → FitsText text p
        → RunsAreInRange nothing text p }
    ensures runs_carrying { (text : Text) (p : Program) → IsProgram p → KeepsLibrary p
        → FitsText text p → RunsAreInRange numbers text p }
{}
