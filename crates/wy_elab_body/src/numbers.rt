//! The numbers of a program's statements, by their places: those of the library's bodies come first.

ghost use Rattle.std.specs.Prelude.{◌≡◌, ◌<◌, ℕ, IfOk, length};
ghost use Rattle.std.specs.List.Sorted.{IsNonDecreasingBy};
ghost use Rattle.wy_elab_body.specs.Places.{at, key_of, number_at, order_of};
ghost use Rattle.wy_elab_body.specs.declared.place.Role.{Role};

use crate::place::{Place, Role};
use std::alloc::AllocError;

/// How many statements the bodies of the library have: those of a text are numbered behind them.
pub const LIBRARY_STATEMENTS: u32 = 74;

/// The places of all statements, in order.
#[derive(Drop)]
pub struct Numbers {
    pub places: Vec<Place>,
    pub ghost in_order: { IsNonDecreasingBy key_of places.items },
    pub ghost few: { length places.items < 2147483648 },
}

#[tactic(auto, unfolding(crate::specs::Places::order_of))]
fn order_of(role: Role) -> u64
    ensures is { result ≡ order_of role }
    ensures few { result < 8 }
{
    match role {
        Role::InitializerBody => 0,
        Role::FieldsBody => 1,
        Role::ConstructorBody => 2,
        Role::SuperCall => 3,
        Role::FieldsCall => 4,
        Role::Written => 5,
    }
}

fn key_of(place: &Place) -> u64
    ensures { result ≡ key_of place.now }
{
    place.site as u64 * 8 + order_of(place.role)
}

/// The numbers of the statements at these places.
pub fn numbers_of(mut places: Vec<Place>) -> Result<Numbers, AllocError>
    ensures { IfOk result (λ n. (site : ℕ) (role : Role)
        → number_at n.places.items (at site role) ≡ number_at places.items (at site role)) }
{
    if places.len() >= 2147483648 {
        return Err(AllocError);
    }
    places.sort_unstable_by_key(|place| key_of(place));
    Ok(Numbers { places })
}

impl Numbers {
    /// The number of the statement at a place.
    pub fn number(&self, site: u32, role: Role) -> u32
        ensures { result ≡ number_at self.now.places.items (at site role) }
    {
        let key = key_of(&Place { site, role });
        LIBRARY_STATEMENTS + self.places.partition_point(|place| key_of(place) < key) as u32
    }
}
