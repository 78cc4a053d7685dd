//! What a watch text is worth at a moment of a trace: the value of an expression as the records have it, without a run.
//! Nothing here calls a method, makes an object or writes a slot.
#![tactic(auto)]

mod error;
mod field;
mod laws;
mod moment;
mod names;
mod operator;
mod sight;
mod text;
mod value;

pub use error::WatchError;
pub use laws::a_text_has_one_value;
pub use moment::watch;
pub use text::WATCH_LIMIT;
