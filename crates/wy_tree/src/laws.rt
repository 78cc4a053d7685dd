//! Laws of the tokens of a text. Each function does nothing: its contract is the law.

ghost use Rattle.wy_tree.specs.TokenLaws.{OneTokenList, TokensOrRefusal, OneRefusal, NotUtf8Alone, TokensInOrder, LinesAreCounted, FirstCharacter};

/// A text has at most one list of tokens.
pub fn a_text_has_one_token_list()
    ensures { OneTokenList }
{}

/// A text has not both tokens and a fault, and at most one fault.
pub fn a_refused_text_has_no_tokens()
    ensures tokens { TokensOrRefusal }
    ensures one { OneRefusal }
    ensures utf8 { NotUtf8Alone }
{}

/// A text's tokens stand one after another within it.
pub fn tokens_stand_in_order()
    ensures { TokensInOrder }
{}

/// A token's line is one more than the lines that end before it.
pub fn lines_are_counted()
    ensures { LinesAreCounted }
{}

/// The characters of a literal are those of its text in UTF-8.
pub fn a_literal_has_the_characters_of_its_text()
    ensures { FirstCharacter }
{}
