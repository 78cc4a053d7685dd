//! Signs (JLS 3.11, 3.12).

ghost use Rattle.std.specs.Prelude.{◌≡◌};
ghost use Rattle.wy_tree.specs.Words.{is_sign};

use wy_tree::word::is_among;

const SIGNS: [&[u8]; 50] = [
    b"(", b")", b"{", b"}", b"[", b"]", b";", b",", b".", b"...", b"@", b"::", b"=", b">", b"<",
    b"!", b"~", b"?", b":", b"->", b"==", b">=", b"<=", b"!=", b"&&", b"||", b"++", b"--", b"+",
    b"-", b"*", b"/", b"&", b"|", b"^", b"%", b"<<", b">>", b">>>", b"+=", b"-=", b"*=", b"/=",
    b"&=", b"|=", b"^=", b"%=", b"<<=", b">>=", b">>>=",
];

/// Whether these bytes are a separator or an operator.
#[tactic(auto, unfolding(wy_tree::specs::Words::is_sign, wy_tree::specs::Words::signs))]
pub fn is_sign(bytes: &[u8]) -> bool
    ensures { result ≡ is_sign bytes.now }
{
    is_among(&SIGNS, bytes)
}
