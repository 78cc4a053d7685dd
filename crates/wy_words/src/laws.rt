//! A law of the words. The function does nothing: its contract is the law.

ghost use Rattle.wy_words.specs.Words.{AskOneCommand};

/// Words ask one command at most.
pub fn words_ask_one_command()
    ensures { AskOneCommand }
{}
