//! What the bodies of a text become fits the types of the program.
//! The functions do nothing: their contracts are the laws.

ghost use Rattle.law_program_parts.specs.Classes.{ClassesAreTyped};
ghost use Rattle.law_program_parts.specs.Programs.{MethodsHaveBodies, ProgramsAreTyped, TablesHaveRows};
ghost use Rattle.law_program_parts.specs.Rows.{BodiesFitRows, BodiesAreTyped, NamesAgreeInTables};
ghost use Rattle.law_program_parts.specs.Shapes.{BodiesStand};

/// The bodies of a class's methods and constructors, those that it declares and the one that it doesn't, begin with the
/// locals that their headers say and give back what these say; its instance initializers and its initializer give nothing
/// back; and the forms of each body fit these types, where the class stands in the program (`Makes`, `ClassStands`), and
/// the constant texts of the forms are those of the program.
pub fn what_a_class_becomes_fits_its_types()
    ensures { ClassesAreTyped }
{}

/// The bodies of a class, no interface, whose bodies fit (`ClassFits`), stand side by side with its methods in the table:
/// each fits its method, and a method without a body is abstract, where names denote in the program what they do in the text
/// (`NamesAgree`) and what is written without a body is abstract (`MayLackBody`).
pub fn the_bodies_of_a_class_fit_its_methods()
    ensures { BodiesFitRows }
{}

/// The bodies of all classes and interfaces of a text stand side by side with their methods in the table, and each fits its
/// method, where `Makes`, `NamesAgree` and `AllStand` hold, and the constant texts of the forms are those of the program.
pub fn the_bodies_of_a_text_fit_its_methods()
    ensures { BodiesAreTyped }
{}

/// The bodies of a text have a place for each method of its table, in their order, and a method that isn't abstract has a
/// body, where interfaces have headers alone and what is written without a body is abstract (`AllKeep`).
pub fn each_method_that_is_not_abstract_has_a_body()
    ensures { BodiesStand }
{}

/// In the program that a text becomes each method that isn't abstract has a body, and each body, of the library or of the
/// text, fits its method; the initializers give nothing back. Bodies: where the table has the text's rows (`HasRows`), and
/// `AllKeep` holds. Types: where it has them, and `HasLibrary`, `Makes`, `NamesAgree` and `AllStand` hold.
pub fn what_a_text_becomes_fits_its_types()
    ensures bodies { MethodsHaveBodies }
    ensures types { ProgramsAreTyped }
{}

/// A name denotes in the table of a text what it denotes in the text, and the table has the text's methods behind those of
/// the library.
pub fn the_table_of_a_text_says_what_the_text_says()
    ensures names { NamesAgreeInTables }
    ensures rows { TablesHaveRows }
{}
