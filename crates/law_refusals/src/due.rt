//! Each refusal is right: the rule that it names is broken at its token, by an expression, a statement, a body, a declaration or
//! the want of a main, in one of the ways that specs/Breaches.antt, specs/Missteps.antt, specs/Members.antt and specs/Units.antt list in
//! the words of the Java Language Specification. The functions do nothing: their contracts are the laws, and the last one is what
//! they are for.

ghost use Rattle.law_refusals.specs.Alike.{IsDenotedOnce, IsFoundOnce, IsRefusedAlways};
ghost use Rattle.law_refusals.specs.ExpressionLaws.{AssignmentsAreExact, BinaryIsExact, CastsAreExact, ChoicesAreExact, RefusalsAreDue, RulesAreEnough, UnaryIsExact, UpdatesAreExact};
ghost use Rattle.law_refusals.specs.Quiet.{QuietFormsBreakNothing};
ghost use Rattle.law_refusals.specs.BodyLaws.{BlockRefusalsAreDue, ConstructorRefusalsAreDue, FieldRefusalsAreDue, FieldsGivenNothingBreakNothing, ImpliedRefusalsAreDue, MethodRefusalsAreDue, StatementRefusalsAreDue, WrittenIsWhole};
ghost use Rattle.law_refusals.specs.ProgramLaws.{ProgramRefusalsAreDue, RefusalsOfTreesAreDue, UnbrokenProgramsAreAccepted, UnbrokenTreesAreAccepted};

use law_well_formed::nothing_is_missing;

/// Where an expression in which nothing is missing is refused, by what the table settles, an expression that stands in it breaks the rule at
/// the token. So one in which none breaks a rule is not refused.
pub fn refusals_are_due()
    ensures due { RefusalsAreDue }
    ensures enough { RulesAreEnough }
{}

/// The casts, assignments and operands that are allowed are exactly those that the elaboration lets through: of assignments and compound
/// assignments for values that aren't void, and of the latter without `==` and `!=`.
pub fn operands_are_exact()
    ensures casts { CastsAreExact }
    ensures assignments { AssignmentsAreExact }
    ensures unary { UnaryIsExact }
    ensures binary { BinaryIsExact }
    ensures updates { UpdatesAreExact }
    ensures choices { ChoicesAreExact }
{}

/// What an expression is found to be, which variable it denotes and whether it is refused does not depend on the texts of other expressions.
pub fn what_is_found_is_one()
    ensures found { IsFoundOnce }
    ensures denoted { IsDenotedOnce }
    ensures refused { IsRefusedAlways }
{}

/// Literals and parentheses break no rule themselves; neither does what is no expression, so that the laws above ask for wholes.
pub fn quiet_forms_break_nothing()
    ensures { QuietFormsBreakNothing }
{}

/// What is written with nothing missing has no part that is none.
pub fn written_is_whole()
    ensures { WrittenIsWhole }
{}

/// Where a statement or a block in which nothing is missing is refused, by what the table settles, something in it breaks the rule at the
/// token, in the scope in which it stands.
pub fn statement_refusals_are_due()
    ensures statements { StatementRefusalsAreDue }
    ensures blocks { BlockRefusalsAreDue }
{}

/// Where the body of a method or a constructor, or the initializers of fields, in which nothing is missing, or the constructor that a class
/// doesn't declare, are refused, by what the table settles, something in them breaks the rule at the token.
pub fn body_refusals_are_due()
    ensures methods { MethodRefusalsAreDue }
    ensures constructors { ConstructorRefusalsAreDue }
    ensures implied { ImpliedRefusalsAreDue }
    ensures fields { FieldRefusalsAreDue }
{}

/// Where no field of a declaration is given anything first, nothing in its initializers breaks a rule, also where the type of the fields names
/// no class: then the declaration alone does.
pub fn fields_given_nothing_break_nothing()
    ensures { FieldsGivenNothingBreakNothing }
{}

/// Where a program in whose abstract syntax nothing is missing is refused, something in it breaks the rule at the token. So one in which
/// nothing does is accepted.
pub fn program_refusals_are_due()
    ensures due { ProgramRefusalsAreDue }
    ensures accepted { UnbrokenProgramsAreAccepted }
{}

/// Where the program of a well-formed tree is refused, a declaration, a body or the want of a main breaks the named rule at the
/// named token; where nothing in it breaks a rule, it is accepted.
pub fn refusals_of_trees_are_due()
    ensures due { RefusalsOfTreesAreDue }
    ensures accepted { UnbrokenTreesAreAccepted }
{
    nothing_is_missing();
    program_refusals_are_due();
}
