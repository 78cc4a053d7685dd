//! The answer to why not, and why there is none.

use std::alloc::AllocError;
use thiserror::Error;
use wy_static::point::Link;

/// A method that was called, and the first event in which it was.
#[derive(Clone, Copy, Debug, PartialEq, Eq)]
pub struct Made {
    pub method: u32,
    pub event: u32,
}

/// A link that was reached and not crossed: the tests that went another way, the calls that were made
/// at its site, and the cause of its source's statement, as its cover has it.
#[derive(Drop)]
pub struct Item {
    pub link: Link,
    pub tests: Vec<u32>,
    pub made: Vec<Made>,
    pub cause: u32,
}

/// Why there is no answer.
#[derive(Clone, Copy, Debug, Drop, Error, PartialEq, Eq)]
pub enum WhynotError {
    /// The statement began so often, first at that moment.
    #[error("ran {count} times, first before #{first}")]
    Ran { count: u32, first: u32 },
    #[error("out of memory")]
    NoMemory,
}

impl From<AllocError> for WhynotError {
    ghost use Rattle.std.specs.Prelude.{◌≡◌};
    ghost use Rattle.wy_whynot.specs.declared.item.WhynotError.TheVariants.{NoMemory};

    ghost from_gives = { λ _ error. error ≡ NoMemory };

    fn from(_error: AllocError) -> WhynotError {
        WhynotError::NoMemory
    }
}
