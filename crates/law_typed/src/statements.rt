//! What the statements of a body become fits the types of the body, and every number in it is that of a part of the program.
//! The functions do nothing: their contracts are the laws.

ghost use Rattle.law_typed.specs.Bodies.{MethodsAreTyped, ConstructorsAreTyped, ImpliedConstructorsAreTyped};
ghost use Rattle.law_typed.specs.StatementsTyped.{BlocksAreTyped};

/// A block that is the whole of a body becomes a statement whose forms fit the types of the locals that the body then has
/// and what the body gives back, which is a type of values, if any (`OutcomeFits`): where the table is one, its methods fit,
/// the block says what a text can say, and its statements stand among the places (`Makes`, `BlockWritten`, `AreAmong`). The
/// local that it begins with, if any, is of a type of the program, and the constant texts of the forms are the program's.
pub fn what_a_block_becomes_fits_its_body()
    ensures { BlocksAreTyped }
{}

/// The body of a method or a constructor begins with the locals that its header says, gives back what the header says, and
/// its forms fit these types: in a class of the program, where the table is one, its methods fit, the body says what a text
/// can say, and its statements stand among the places (`Makes`, `BlockWritten`, `AreAmong`), and where the constant texts of
/// the forms are those of the program.
pub fn what_a_body_becomes_fits_its_header()
    ensures methods { MethodsAreTyped }
    ensures constructors { ConstructorsAreTyped }
    ensures implied { ImpliedConstructorsAreTyped }
{}
