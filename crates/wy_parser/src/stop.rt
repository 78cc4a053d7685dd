//! Why reading stops, and what came of an attempt to go on with a tree.

ghost use Rattle.std.specs.Prelude.{◌≡◌};

use crate::part::Sub;
use crate::symbol::Symbol;
use std::alloc::{AllocError, AllocFailed};

/// Why no tree came of the tokens.
#[derive(Debug, Drop)]
pub enum Stop {
    NoTree,
    Memory,
}

impl From<AllocError> for Stop {
    ghost use Rattle.wy_parser.specs.declared.stop.Stop.TheVariants.{Memory};

    ghost from_gives = { λ _ e. e ≡ Memory };

    fn from(_e: AllocError) -> Stop {
        Stop::Memory
    }
}

impl<T: Drop> From<AllocFailed<T>> for Stop {
    ghost use Rattle.wy_parser.specs.declared.stop.Stop.TheVariants.{Memory};

    ghost from_gives = { λ _ e. e ≡ Memory };

    fn from(_e: AllocFailed<T>) -> Stop {
        Stop::Memory
    }
}

/// What came of an attempt to put something around a tree.
#[derive(Drop)]
pub enum Growth<'a> {
    Stayed(Sub),
    Grew(Sub, &'a [Symbol]),
}
