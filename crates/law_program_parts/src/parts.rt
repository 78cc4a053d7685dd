//! What stands in the program that a text becomes: which methods have bodies, the library's declarations before its own, a place for each
//! member and each body, few of each, its main, and a method to run for each that may be called. The functions do nothing: their
//! contracts are the laws.

ghost use Rattle.law_program_parts.specs.BodiesLaws.{MethodsOfTextsFit, MethodsOfTreesFit, MethodsOfTreesHaveBodies, NoneOfTheseIsAbstract, TheseHaveBodies, TreesKeep};
ghost use Rattle.law_program_parts.specs.DeclaredLaws.{BodiesHavePlaces, BodiesOfTreesHavePlaces, DeclarationsStand, InitializersHavePlaces, InterfacesHaveHeadersAlone, LibraryStands, ProgramsHaveLibrary};
ghost use Rattle.law_program_parts.specs.Mains.{MainsAreFound, MainsRunFirst, TreesHaveMain};
ghost use Rattle.law_program_parts.specs.MembersLaws.{TreesStand};
ghost use Rattle.law_program_parts.specs.TableLaws.{TreesDeclareFew, TreesHaveTables};
ghost use Rattle.law_program_parts.specs.FirstLaws.{MainsOfTreesStandAlone, TextsHaveMain};
ghost use Rattle.law_program_parts.specs.RunningLaws.{ClassesRunMethods};

use crate::{the_table_of_a_text_says_what_the_text_says, what_a_text_becomes_fits_its_types};
use law_well_formed::names_are_no_keywords;

/// In a well-formed tree that breaks no rule on declarations the interfaces have headers alone, and a method of a class that has no
/// body is abstract.
pub fn methods_without_bodies_are_abstract()
    ensures { TreesKeep }
{}

/// In the program that a well-formed tree becomes each method that isn't abstract has a body.
pub fn methods_of_programs_have_bodies()
    ensures { MethodsOfTreesHaveBodies }
{
    methods_without_bodies_are_abstract();
    the_table_of_a_text_says_what_the_text_says();
    what_a_text_becomes_fits_its_types();
}

/// In the program that a well-formed tree becomes no constructor, no instance initializers, no static method and no private one is
/// abstract: each has a body.
pub fn constructors_and_static_methods_have_bodies()
    ensures concrete { NoneOfTheseIsAbstract }
    ensures bodies { TheseHaveBodies }
{
    methods_of_programs_have_bodies();
    the_table_of_a_text_says_what_the_text_says();
}

/// In the program that a well-formed tree becomes, where no name of the tree is a keyword, the methods named `new` are the
/// constructors, instance initializers take no arguments, each method that isn't abstract has a body, and constructors,
/// initializers, static and private methods aren't abstract. So it is of every text.
pub fn methods_of_programs_fit()
    ensures trees { MethodsOfTreesFit }
    ensures texts { MethodsOfTextsFit }
{
    names_are_no_keywords();
    methods_of_programs_have_bodies();
    constructors_and_static_methods_have_bodies();
    the_table_of_a_text_says_what_the_text_says();
}

/// The classes, methods and fields of a program begin with those of the library and are of its own classes; no class is above
/// itself; parameters and fields have types of variables.
pub fn declarations_stand()
    ensures { DeclarationsStand }
{}

/// The bodies of a program begin with those of the library, and its statements include those of the library.
pub fn the_library_stands()
    ensures { LibraryStands }
{}

/// A program has a place for the initializer of each class, and, where no interface of its text has an instance initializer or an
/// instance field with a value, one for the body of each method.
pub fn each_class_and_each_method_has_a_place()
    ensures initializers { InitializersHavePlaces }
    ensures bodies { BodiesHavePlaces }
{}

/// An interface of a well-formed tree has headers of methods alone, so the program of a tree has a place for the body of each method.
pub fn each_method_of_a_tree_has_a_place()
    ensures interfaces { InterfacesHaveHeadersAlone }
    ensures bodies { BodiesOfTreesHavePlaces }
{}

/// A program whose text stands in it begins with the library's declarations and bodies, and has its text and its statements.
pub fn programs_have_the_library()
    ensures { ProgramsHaveLibrary }
{}

/// A text that becomes a program has a `public static void main(String[])` with a body, and the program's main is a method at the
/// token of its name.
pub fn the_main_is_written()
    ensures { MainsAreFound }
{}

/// In a text with at most 1,048,594 classes, the library's among them, the method that is written as main is static, takes one array of
/// texts and gives nothing.
pub fn mains_run_first()
    ensures { MainsRunFirst }
{}

/// The main of a well-formed tree's program is `static void` with one array of texts, and has a body, where nothing else has its name
/// at the token of a main and there are at most 1,048,594 classes, the library's among them.
pub fn trees_have_a_main()
    ensures { TreesHaveMain }
{
    methods_of_programs_have_bodies();
}

/// In a well-formed tree that says what a text can say and breaks no rule on declarations, and in a program with the classes and the
/// fields of its table, what the members of each class say is what a text can say, their statements and their initialized fields have
/// places among those of the tree, and each field is the first of its name in its class, of the type that it is written with; an
/// interface has headers of methods alone, and a method of a class that has no body is abstract.
pub fn members_stand()
    ensures { TreesStand }
{
    methods_without_bodies_are_abstract();
}

/// A well-formed tree of at most 1,048,576 tokens declares at most as many classes, methods and fields, those that a class implies
/// among them: with the library's at most 1,048,594 classes, 1,048,612 methods and 1,048,577 fields.
pub fn trees_declare_few()
    ensures { TreesDeclareFew }
{}

/// The table of a well-formed tree of at most 1,048,576 tokens that keeps the rules on declarations begins with the library's
/// declarations, names classes of its own alone, has a place for the constant of each field, has no class above itself, and has few
/// enough of each for its numbers.
pub fn trees_have_tables()
    ensures { TreesHaveTables }
{}

/// In a well-formed tree of at most 1,048,576 tokens nothing else has its name at the token of a main: no other method or constructor of
/// the text, none that a class implies, and none of the library.
pub fn mains_stand_alone()
    ensures { MainsOfTreesStandAlone }
{}

/// The main of the program of a well-formed tree of at most 1,048,576 tokens is `static void` with one array of texts, and has a body.
pub fn programs_have_a_main()
    ensures { TextsHaveMain }
{
    trees_declare_few();
    trees_have_a_main();
}

/// In the program that a text becomes a class that objects are made of runs, for each method that may be called on it, one with a body:
/// it takes what the called one takes, and gives what may stand for its result. This of programs of at most 1,048,594 classes, whose
/// types so have codes of their own, and whose methods fit (`MethodsFit`): each that isn't abstract has a body.
pub fn classes_run_methods()
    ensures { ClassesRunMethods }
{
    declarations_stand();
}
