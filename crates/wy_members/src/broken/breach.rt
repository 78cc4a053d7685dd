//! A rule that is broken at a token, and the first of several.

use wy_constant::Rule;

/// A rule that a program breaks at a token.
#[derive(Clone, Copy, Debug, PartialEq, Eq)]
pub struct Breach {
    pub rule: Rule,
    pub token: u32,
}
