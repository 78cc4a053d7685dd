//! The limits of a source, of a run and of a trace.

/// Bytes of a source.
pub const SOURCE_LIMIT: u32 = 1_048_576;

/// Bytes of an input.
pub const INPUT_LIMIT: u32 = 16_777_216;

/// Steps of a budget.
pub const STEPS_LIMIT: u32 = 50_000_000;

/// Events of a run.
pub const EVENT_LIMIT: u32 = 4_000_000;

/// Uses of all events of a run.
pub const USE_LIMIT: u32 = 32_000_000;

/// Elements of all arrays of a run.
pub const ELEMENT_LIMIT: u32 = 16_777_216;

/// Units of all texts that a run makes.
pub const UNIT_LIMIT: u32 = 16_777_216;

/// Bytes of an output.
pub const OUTPUT_LIMIT: usize = 16_777_216;

/// Calls and initializations that stand in one another.
pub const DEPTH_LIMIT: usize = 1_000;

/// Each index of an array is below.
pub const INDEX_LIMIT: u32 = 2_147_483_648;

/// Bytes of a trace.
pub const TRACE_LIMIT: u32 = 1_073_741_824;
