//! The operators on machine words of 32 and of 64 bits (JLS 15.15, 15.17 to 15.22). Division by zero is decided above.

pub mod int;
pub mod long;
