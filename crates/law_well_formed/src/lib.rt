//! What the abstract syntax of a well-formed tree says is what a text can say: nothing is missing in it, no called name is a keyword, each array
//! that is made has a size or its elements, and no comparison is a compound assignment. The functions do nothing: their contracts are the laws.
#![tactic(auto)]

ghost use Rattle.law_well_formed.specs.Laws.{NamesAreNoKeywords, NothingIsMissing, TextsAreWritten, TreesAreWritten};

/// Nothing is missing in the abstract syntax of a well-formed tree.
pub fn nothing_is_missing()
    ensures { NothingIsMissing }
{}

/// The abstract syntax of a well-formed tree is what a text can say, where no name of the tree is a keyword.
pub fn trees_are_written()
    ensures { TreesAreWritten }
{}

/// No name of a text is a keyword.
pub fn names_are_no_keywords()
    ensures { NamesAreNoKeywords }
{}

/// The abstract syntax of a text's tree is what a text can say.
pub fn texts_are_written()
    ensures { TextsAreWritten }
{}
