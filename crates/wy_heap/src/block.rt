//! What an event made, and where it lies.

/// Nothing, or an object, an array or a text: what it is, where its parts begin and how many they are.
#[derive(Clone, Copy)]
pub enum Block {
    Nothing,
    Object { class: u32, begin: u32, length: u32 },
    Array { code: u32, begin: u32, length: u32 },
    Text { begin: u32, length: u32 },
}
