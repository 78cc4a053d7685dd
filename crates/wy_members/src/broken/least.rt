//! Tokens that may be absent, and the lesser of two of them.

ghost use Rattle.std.specs.Prelude.{◌≡◌, if◌then◌else◌, Some, None};
ghost use Rattle.wy_members.specs.Least.{lesser};

pub fn lesser(a: Option<u32>, b: Option<u32>) -> Option<u32>
    ensures { result ≡ lesser a b }
{
    match (a, b) {
        (Some(a), Some(b)) => Some(a.min(b)),
        (Some(a), None) => Some(a),
        (None, b) => b,
    }
}

/// The token, where a test passed.
pub fn token_where(holds: bool, token: u32) -> Option<u32>
    ensures { result ≡ (if holds then Some token else None) }
{
    if holds { Some(token) } else { None }
}
