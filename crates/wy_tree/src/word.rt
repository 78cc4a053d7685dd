//! The bytes of words, and the words that are no names (JLS 3.8, 3.9, 3.10.3, 3.10.7).

ghost use Rattle.std.specs.Prelude.{◌≡◌};
ghost use Rattle.std.specs.List.{list_any};
ghost use Rattle.std.specs.Str.{bytes_eq};
ghost use Rattle.wy_tree.specs.Bytes.{begins_word, goes_on_word, is_digit};
ghost use Rattle.wy_tree.specs.Words.{is_key};

/// The keywords, and `true`, `false` and `null`.
const KEYS: [&[u8]; 53] = [
    b"abstract",
    b"assert",
    b"boolean",
    b"break",
    b"byte",
    b"case",
    b"catch",
    b"char",
    b"class",
    b"const",
    b"continue",
    b"default",
    b"do",
    b"double",
    b"else",
    b"enum",
    b"extends",
    b"final",
    b"finally",
    b"float",
    b"for",
    b"goto",
    b"if",
    b"implements",
    b"import",
    b"instanceof",
    b"int",
    b"interface",
    b"long",
    b"native",
    b"new",
    b"package",
    b"private",
    b"protected",
    b"public",
    b"return",
    b"short",
    b"static",
    b"strictfp",
    b"super",
    b"switch",
    b"synchronized",
    b"this",
    b"throw",
    b"throws",
    b"transient",
    b"try",
    b"void",
    b"volatile",
    b"while",
    b"true",
    b"false",
    b"null",
];

pub fn is_digit(byte: u8) -> bool
    ensures { result ≡ is_digit byte }
{
    byte >= b'0' && byte <= b'9'
}

pub fn begins_word(byte: u8) -> bool
    ensures { result ≡ begins_word byte }
{
    (byte >= b'a' && byte <= b'z') || (byte >= b'A' && byte <= b'Z') || byte == b'_' || byte == b'$'
}

pub fn goes_on_word(byte: u8) -> bool
    ensures { result ≡ goes_on_word byte }
{
    begins_word(byte) || is_digit(byte)
}

/// Whether this is one of the words.
pub fn is_among(words: &[&[u8]], word: &[u8]) -> bool
    ensures { result ≡ list_any (λ x. bytes_eq x.now word.now) words.now }
{
    words.iter().any(|candidate| *candidate == word)
}

/// Whether a word is a keyword, `true`, `false` or `null`.
#[tactic(auto, unfolding(crate::specs::Words::is_key, crate::specs::Words::keys))]
pub fn is_key(word: &[u8]) -> bool
    ensures { result ≡ is_key word.now }
{
    is_among(&KEYS, word)
}
