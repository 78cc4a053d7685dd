//! The program of a text fits the text, and has few statements. The functions do nothing: their contracts are the laws.

ghost use Rattle.law_own_traces.specs.Laws.{TreesFitTheirTexts};
ghost use Rattle.law_own_traces.specs.Statements.{TreesHaveFewStatements};

use law_sites::sites_are_tokens;

/// The program of a well-formed tree fits its text: each of its sites is a token of the tree or a method of the library, no class
/// extends String, no jump leaves a body, and two prints of one site end lines both, or neither.
pub fn trees_fit_their_texts()
    ensures { TreesFitTheirTexts }
{
    sites_are_tokens();
}

/// The program of a well-formed tree of at most 1,048,576 tokens has at most 8,388,682 statements: eight a token, beside the 74 of the
/// library.
pub fn trees_have_few_statements()
    ensures { TreesHaveFewStatements }
{}
