//! Points and links.

/// A point of a program.
#[derive(Clone, Copy, Debug, PartialEq, Eq)]
pub enum Point {
    Start,
    /// Where a method, a constructor or the instance initializers of a class begin.
    Entry(u32),
    /// Where the initialization of a class begins.
    Init(u32),
    Statement(u32),
    /// An arm of `?:`, `&&` or `||`, by the value of the test: 1 for true and 0 for false.
    Arm { site: u32, value: u32 },
    /// A clause of a `try`.
    Catch(u32),
}

/// How control goes along a link. An arm has the value of its test.
#[derive(Clone, Copy, Debug, PartialEq, Eq)]
pub enum LinkKind {
    Into,
    Next,
    Arm(u32),
    Call,
    Catch,
}

/// A link from a point to a point, with the token at which it is taken.
#[derive(Clone, Copy, Debug, PartialEq, Eq)]
pub struct Link {
    pub kind: LinkKind,
    pub from: Point,
    pub to: Point,
    pub site: u32,
}
