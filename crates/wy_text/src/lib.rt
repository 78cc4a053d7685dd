//! The lines of events, of what an event comes from, of frames and of how a run ended, and what all lines have: numbers, and
//! the names of classes and places. A line looks up in the trace what its record refers to.
#![tactic(auto)]

mod class;
mod event;
mod frame;
mod line;
mod look;
mod name;
mod number;
mod place;
mod quote;
mod slot;
mod source;
mod value;

pub use class::{put_class_name, put_full_name};
pub use event::put_event_line;
pub use frame::{put_frame_line, put_local_line};
pub use line::stop_line;
pub use name::{put_field_name, put_method_name};
pub use number::{put_count, put_decimal, put_signed};
pub use place::put_place;
pub use source::put_source_line;
pub use value::put_value;
