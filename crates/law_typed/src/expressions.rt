//! What an expression becomes has the type that it is found to have, and every number in it is that of a part of the program.
//! The function does nothing: its contract is the law.

ghost use Rattle.law_typed.specs.ExpressionsTyped.{ExpressionsAreTyped, InitialsFit};

/// The form of an expression that a text can say has the type that the expression is found to have, or some type where that
/// is void; and what a variable of a type of the program is given first, where a text can say it, may stand where that type
/// is wanted: in a scope whose variables are the locals of the body, by a judgement that the table settles, where the
/// constant texts of the forms are those of the program, in a table of a program whose methods fit (`Stands`).
pub fn what_is_elaborated_has_its_type()
    ensures expressions { ExpressionsAreTyped }
    ensures initials { InitialsFit }
{}
