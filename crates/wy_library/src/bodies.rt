//! The bodies of all methods of the library, by the numbers of the methods.

ghost use Rattle.std.specs.Prelude.{◌≡◌, ◌++◌, IfOk, OnOk, map, option_map};
ghost use Rattle.wy_kernel.specs.View.{body_of};
ghost use Rattle.wy_library.specs.Library as library;

use crate::constructors::put_constructors;
use crate::object::{object_equals, object_to_string};
use crate::throwable::{get_message, plain_throwable, throwable_to_string, throwable_with_message};
use std::alloc::{AllocError, Global};
use wy_kernel::form::Body;

const CLASSES: u32 = 18;

// The first class below Throwable.
const FIRST: u32 = 3;

// The superclasses of the classes below Throwable.
const SUPERCLASSES: [u32; 15] = [2, 2, 3, 5, 5, 5, 5, 9, 5, 5, 12, 12, 5, 5, 5];

/// The bodies of the library's 36 methods.
#[tactic(auto, unfolding(crate::specs::Library::library_bodies))]
pub fn library_bodies(alloc: Global) -> Result<Vec<Option<Body>>, AllocError>
    ensures { IfOk result (λ all. map (option_map body_of) all.items ≡ library.library_bodies) }
{
    let mut all = vec![in alloc;
        object_to_string(alloc)?,
        object_equals(alloc)?,
        plain_throwable(alloc)?,
        throwable_with_message(alloc)?,
        get_message(alloc)?,
        throwable_to_string(alloc)?,
    ]?;
    for (index, above) in SUPERCLASSES.iter().enumerate() {
        put_constructors(alloc, &mut all, FIRST + index as u32, *above)?;
    }
    Ok(all)
}

/// The initializers of the library's 18 classes: there are none.
#[tactic(auto, unfolding(crate::specs::Library::library_init_bodies))]
pub fn library_init_bodies(alloc: Global) -> Result<Vec<Option<Body>>, AllocError>
    ensures { IfOk result (λ all.
        map (option_map body_of) all.items ≡ library.library_init_bodies) }
{
    let mut all = Vec::new(alloc);
    for _class in 0..CLASSES {
        all.push(None)?;
    }
    Ok(all)
}
