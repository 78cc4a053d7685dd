//! No two of the forms `&&`, `||` and `?:` of a program have one site, so each of their arms is named by its site and what was chosen.
//! The function does nothing: its contract is the law.

ghost use Rattle.law_sites.specs.Choices.{TreesChooseApart};

/// In the program that a well-formed tree becomes no two of the forms `&&`, `||` and `?:` have one site. These are all such forms in the
/// methods, constructors and initializers of the text and of the library.
pub fn no_two_choices_share_a_site()
    ensures { TreesChooseApart }
{}
