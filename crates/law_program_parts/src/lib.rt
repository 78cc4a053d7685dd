//! What stands in the program that a text becomes, and that it fits its types: which methods have bodies, the library's declarations
//! before its own, a place for each member and each body, few of each, its main, and a method to run for each that may be called.
//! The functions do nothing: their contracts are the laws.
#![tactic(auto)]

mod parts;
mod typed;

pub use parts::{
    classes_run_methods, constructors_and_static_methods_have_bodies, declarations_stand,
    each_class_and_each_method_has_a_place, each_method_of_a_tree_has_a_place, mains_run_first,
    mains_stand_alone, members_stand, methods_of_programs_fit, methods_of_programs_have_bodies,
    methods_without_bodies_are_abstract, programs_have_a_main, programs_have_the_library,
    the_library_stands, the_main_is_written, trees_declare_few, trees_have_a_main,
    trees_have_tables,
};
pub use typed::{
    each_method_that_is_not_abstract_has_a_body, the_bodies_of_a_class_fit_its_methods,
    the_bodies_of_a_text_fit_its_methods, the_table_of_a_text_says_what_the_text_says,
    what_a_class_becomes_fits_its_types, what_a_text_becomes_fits_its_types,
};
