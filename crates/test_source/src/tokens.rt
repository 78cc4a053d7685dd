//! Tokens of small texts, as the Java language says (SE 8, chapter 3), with their lines and places.
//! The bytes at which texts have none are rows of tools/checks.

use std::alloc::{AllocError, Global};
use std::test::Fail;
use wy_lexer::lex;
use wy_tree::line::line_of;
use wy_tree::token::Token;

static SIGNS: [&str; 50] = [
    "(", ")", "{", "}", "[", "]", ";", ",", ".", "...", "@", "::", "=", ">", "<", "!", "~", "?",
    ":", "->", "==", ">=", "<=", "!=", "&&", "||", "++", "--", "+", "-", "*", "/", "&", "|", "^",
    "%", "<<", ">>", ">>>", "+=", "-=", "*=", "/=", "&=", "|=", "^=", "%=", "<<=", ">>=", ">>>=",
];

static NUMBERS: [(&str, &str); 29] = [
    ("0", "0 decimal"),
    ("7", "7 decimal"),
    ("10", "10 decimal"),
    ("1_000", "1000 decimal"),
    ("1__2", "12 decimal"),
    ("2147483647", "2147483647 decimal"),
    ("2147483648", "2147483648 decimal"),
    ("0L", "0 long decimal"),
    ("0l", "0 long decimal"),
    ("9223372036854775807L", "9223372036854775807 long decimal"),
    ("9223372036854775808L", "9223372036854775808 long decimal"),
    ("00", "0"),
    ("017", "15"),
    ("0_7", "7"),
    ("0__7", "7"),
    ("037777777777", "4294967295"),
    ("01777777777777777777777L", "18446744073709551615 long"),
    ("0x0", "0"),
    ("0Xff", "255"),
    ("0xFF_ff", "65535"),
    ("0xffffffff", "4294967295"),
    ("0x000000000001", "1"),
    ("0xffffffffL", "4294967295 long"),
    ("0xffffffffffffffffl", "18446744073709551615 long"),
    ("0b0", "0"),
    ("0B101", "5"),
    ("0b1_0", "2"),
    ("0b11111111111111111111111111111111", "4294967295"),
    ("0b1L", "1 long"),
];

static TOKENS: [(&str, &str); 30] = [
    ("", ""),
    (
        "a _ $ a1 $_9 Class",
        "word a, word _, word $, word a1, word $_9, word Class",
    ),
    (
        "class true false null goto const",
        "key class, key true, key false, key null, key goto, key const",
    ),
    (
        "enum assert strictfp instanceof",
        "key enum, key assert, key strictfp, key instanceof",
    ),
    ("classes nulls", "word classes, word nulls"),
    ("...5", "sign ..., 5 decimal"),
    ("a.b", "word a, sign ., word b"),
    (">>>>=", "sign >>>, sign >="),
    ("+++", "sign ++, sign +"),
    ("a-->b", "word a, sign --, sign >, word b"),
    (":::", "sign ::, sign :"),
    ("....", "sign ..., sign ."),
    ("a/*b*/c", "word a, word c"),
    ("a/* /* */c", "word a, word c"),
    ("a/***/c/*/ */d", "word a, word c, word d"),
    ("a//b/*\nc", "word a, word c"),
    ("a//b\\\nc", "word a, word c"),
    ("a/*\\*/c", "word a, word c"),
    ("/*é*/a//é", "word a"),
    ("a//", "word a"),
    ("\"\"", "text []"),
    ("\"a//b\"", "text [97, 47, 47, 98]"),
    (
        "\"\\b\\t\\n\\f\\r\\\"\\'\\\\\"",
        "text [8, 9, 10, 12, 13, 34, 39, 92]",
    ),
    (
        "\"\\0\\7\\12\\377\\400\\18'\"",
        "text [0, 7, 10, 255, 32, 48, 1, 56, 39]",
    ),
    (
        "\"\\u0041\\uuu00e9\\uD83D\\\\u0041\"",
        "text [65, 233, 55357, 92, 117, 48, 48, 52, 49]",
    ),
    ("\"é€😀\"", "text [233, 8364, 55357, 56832]"),
    ("'a''\"''\\'''\\\\'", "char 97, char 34, char 39, char 92"),
    (
        "'é''€''\\uffff''\\377''\\0'",
        "char 233, char 8364, char 65535, char 255, char 0",
    ),
    ("' '\"\t\"", "char 32, text [9]"),
    ("a\u{c}\tb\r\nc", "word a, word b, word c"),
];

static LINES: [(&str, &str); 6] = [
    ("a\r\nb\rc\nd\n\re", "1 2 3 4 6 "),
    ("/*\r\n*/ a", "2 "),
    ("/*\n\r\r\n*/ a", "4 "),
    ("a//b\rc", "1 2 "),
    ("\r\n\r\na", "3 "),
    ("a \"\\n\" b", "1 1 1 "),
];

/// A token with its kind.
fn show(out: &mut String, token: &Token) -> Result<(), AllocError> {
    match token {
        Token::Word(text) => write!(out, "word {text}"),
        Token::Key(text) => write!(out, "key {text}"),
        Token::Int { value, decimal } => write!(out, "{value}{}", base(*decimal)),
        Token::Long { value, decimal } => write!(out, "{value} long{}", base(*decimal)),
        Token::Char(unit) => write!(out, "char {unit}"),
        Token::Text(units) => write!(out, "text {units:?}"),
        Token::Sign(text) => write!(out, "sign {text}"),
    }
}

fn base(is_decimal: bool) -> &'static str {
    if is_decimal { " decimal" } else { "" }
}

/// The tokens of a text, and their lines.
fn tokens_in(alloc: Global, text: &str) -> Result<(String, String), Fail> {
    let mut shown = String::new(alloc);
    let mut lines = String::new(alloc);
    if text.len() > 1000 {
        return Err(Fail::new("a long text"));
    }
    for spanned in lex(alloc, text.as_bytes())?.as_slice() {
        if !shown.is_empty() {
            shown.push_str(", ")?;
        }
        show(&mut shown, &spanned.token)?;
        write!(lines, "{} ", spanned.line)?;
    }
    Ok((shown, lines))
}

#[test]
fn texts_have_their_tokens(rt: HostRuntime) -> Result<(), Fail> {
    for (text, want) in NUMBERS.iter().chain(&TOKENS) {
        let (shown, _) = tokens_in(rt.alloc(), text)?;
        assert!(rt; shown.as_str() == *want, "{text}");
    }
    for sign in &SIGNS {
        let text = format!(in rt.alloc(); "a{sign}b")?;
        let want = format!(in rt.alloc(); "word a, sign {sign}, word b")?;
        let (shown, _) = tokens_in(rt.alloc(), text.as_str())?;
        assert!(rt; shown == want, "{sign}");
    }
    Ok(())
}

#[test]
fn a_line_ends_by_cr_lf_or_both(rt: HostRuntime) -> Result<(), Fail> {
    for (text, want) in &LINES {
        let (_, lines) = tokens_in(rt.alloc(), text)?;
        assert!(rt; lines.as_str() == *want, "{text}");
    }
    Ok(())
}

#[test]
fn a_token_has_its_place(rt: HostRuntime) -> Result<(), Fail> {
    let tokens = lex(rt.alloc(), "/*é*/\n ab".as_bytes())?;
    let [ab] = tokens.as_slice() else {
        return Err(Fail::new("one token"));
    };
    assert!(rt; (ab.start, ab.end, ab.line) == (8, 10, 2));
    assert!(rt; line_of(tokens.as_slice(), 7) == 2 && line_of(&[], 7) == 1);
    Ok(())
}
