//! Ways: links that share all but their targets.

use crate::point::{LinkKind, Point};

/// A point at which links begin, with the site that they have where they have none of their own.
#[derive(Clone, Copy)]
pub struct Owner {
    pub point: Point,
    pub site: u32,
}

/// Where a way leads: to a point, or to each method that a call may run by the class of its receiver, which is below a class.
#[derive(Clone, Copy)]
pub enum Goal {
    Known(Point),
    Chosen { method: u32, class: u32 },
}

/// Links that share all but their targets.
#[derive(Clone, Copy)]
pub struct Way {
    pub kind: LinkKind,
    pub from: Point,
    pub goal: Goal,
    pub site: u32,
}

/// What decides a call: a class with those below it, Object alone, or nothing.
#[derive(Clone, Copy)]
pub enum Decides {
    Class(u32),
    Object,
    Nothing,
}
