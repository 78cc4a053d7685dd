//! What two items share where one is the same as the other.

use wy_kernel::types::Ty;

/// The class that declares an item, where one does; its name; and the types of its parameters, none where it has none.
#[derive(Clone, Copy, Debug, PartialEq, Eq, Hash)]
pub struct Key<'a> {
    pub class: Option<u32>,
    pub name: &'a str,
    pub params: &'a [Ty],
}
