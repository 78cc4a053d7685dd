//! Places, to which a value can be assigned (JLS 15.26).

use wy_kernel::form::Place;
use wy_kernel::types::Ty;

/// A place, its type, and whether it is a final variable with an initializer.
#[derive(Drop)]
pub struct Spot {
    pub place: Place,
    pub ty: Ty,
    pub is_fixed: bool,
}
