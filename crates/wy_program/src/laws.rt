//! What holds of every program of a text, put together. The function does nothing: its contract is the law.

ghost use Rattle.wy_program.specs.Laws.{TextsArePrograms};

use law_program_parts::{
    classes_run_methods, declarations_stand, each_class_and_each_method_has_a_place,
    each_method_of_a_tree_has_a_place, members_stand, methods_of_programs_fit,
    programs_have_a_main, programs_have_the_library, the_table_of_a_text_says_what_the_text_says,
    trees_declare_few, trees_have_tables, what_a_text_becomes_fits_its_types,
};
use law_well_formed::texts_are_written;

/// What a text of at most 1,048,576 tokens becomes fits its types: its numbers are those of its parts, its forms have types, objects
/// are made of classes alone that are neither abstract nor interfaces, and main, each constructor that is called, the method of each
/// static or direct call, and each method that such an object runs have bodies.
pub fn texts_are_programs()
    ensures { TextsArePrograms }
{
    declarations_stand();
    each_class_and_each_method_has_a_place();
    each_method_of_a_tree_has_a_place();
    programs_have_the_library();
    programs_have_a_main();
    methods_of_programs_fit();
    classes_run_methods();
    members_stand();
    trees_declare_few();
    trees_have_tables();
    the_table_of_a_text_says_what_the_text_says();
    what_a_text_becomes_fits_its_types();
    texts_are_written();
}
