//! What is accepted breaks no rule, so that each refusal is one that is due: what breaks a rule in one of the ways that are listed in words, be it
//! an expression, a statement, a body or a declaration, is refused. The functions do nothing: their contracts are the laws.

ghost use Rattle.law_refusals.specs.Laws.{AcceptedConstructorsAreUnbroken, AcceptedExpressionsAreUnbroken, AcceptedFieldsAreUnbroken, AcceptedImpliedAreUnbroken, AcceptedMethodsAreUnbroken, AcceptedProgramsAreUnbroken, AcceptedStatementsAreUnbroken, TablesKnowTheLibrary};

/// An expression that has a meaning in a scope breaks no rule on expressions there, and neither does a part of it. The table settles what is
/// below what and which method a call means, and it knows the library: Object is a class that isn't abstract, and no class is named as one
/// of the library whose static members are no rows.
pub fn accepted_expressions_are_unbroken()
    ensures { AcceptedExpressionsAreUnbroken }
{}

/// The table of each program whose declarations keep the rules knows the library.
pub fn tables_know_the_library()
    ensures { TablesKnowTheLibrary }
{}

/// Where a statement is accepted, nothing in it breaks a rule: neither the statement itself nor an expression or a statement in it. The table
/// is as above.
pub fn accepted_statements_are_unbroken()
    ensures { AcceptedStatementsAreUnbroken }
{}

/// Where the body of a method or a constructor, the constructor that a class doesn't declare, or the initializers of fields, are accepted,
/// nothing in them breaks a rule: no written result, no parameter, no call of a constructor, no initializer and no statement. The table is as
/// above; for the constructor that a class doesn't declare it need not know the library.
pub fn accepted_bodies_are_unbroken()
    ensures methods { AcceptedMethodsAreUnbroken }
    ensures constructors { AcceptedConstructorsAreUnbroken }
    ensures implied { AcceptedImpliedAreUnbroken }
    ensures fields { AcceptedFieldsAreUnbroken }
{}

/// Where a program is accepted, nothing in it breaks a rule: no declaration, nothing in a body, and it has a main. This is so of each
/// compilation unit, and of that of each tree.
pub fn accepted_programs_are_unbroken()
    ensures { AcceptedProgramsAreUnbroken }
{}
