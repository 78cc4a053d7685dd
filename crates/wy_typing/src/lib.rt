//! When the forms of a program fit their types.
//! The function does nothing: its contract is a law of the definitions.
#![tactic(auto)]

ghost use Rattle.wy_typing.specs.Laws.{TypesAreKnown};

/// In a program whose declarations name its own classes and begin with the library's (`IsDeclared`), and with locals of its
/// types, the type of an expression names a class of the program, if it names one: so do the type that a call is made on,
/// those that are joined, and the one that is printed.
pub fn every_type_is_of_the_program()
    ensures { TypesAreKnown }
{}
