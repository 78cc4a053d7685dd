//! What an index keeps of events, beside who wrote what.

ghost use Rattle.std.specs.Prelude.{◌≡◌, Some};
ghost use Rattle.wy_event.specs.Record.{recorded};
ghost use Rattle.wy_event.specs.Sources.{is_write};
ghost use Rattle.wy_index.specs.Found.{body_of, is_call, is_hit, is_init, is_print, length_of, made_by};

use wy_event::record::{Event, Kind};
use wy_kernel::types::NONE;
use wy_value::Value;

/// A test, call, initialization or catch: its event, its class or method, and the body that it happened in,
/// a method by its number or the initializer of a class by 2147483648 more than that of the class.
#[derive(Clone, Copy, Debug, PartialEq, Eq)]
pub struct Hit {
    pub event: u32,
    pub kind: Kind,
    pub entity: u32,
    pub caller: u32,
    pub value: Value,
}

/// What a New made: its type code, and the length of an array.
#[derive(Clone, Copy, Debug, PartialEq, Eq)]
pub struct Made {
    pub entity: u32,
    pub length: u32,
}

/// Initializers are numbered behind methods, from here on.
const FIRST_INITIALIZER: u32 = 2147483648;

fn length_of(value: Value) -> u32
    ensures { result ≡ length_of value }
{
    match value {
        Value::Int(length) if length >= 0 => length as u32,
        _ => 0,
    }
}

/// What an event made, if it is a New.
#[tactic(auto, using(crate::proofs::Numbers::number_of_present), unfolding(wy_event::specs::Record::recorded))]
pub(crate) fn made_by(event: &Event) -> Option<Made>
    ensures { result ≡ made_by (recorded event.now) }
{
    match event.kind {
        Kind::New => Some(Made {
            entity: event.entity,
            length: length_of(event.value),
        }),
        _ => None,
    }
}

/// The body that an event begins, and NONE where it begins none.
#[tactic(auto, using(crate::proofs::Numbers::number_of_present), unfolding(wy_event::specs::Record::recorded))]
pub(crate) fn body_of(event: &Event) -> u32
    ensures { result ≡ body_of (Some (recorded event.now)) }
{
    match event.kind {
        Kind::Call => event.entity,
        Kind::Init if event.entity < NONE - FIRST_INITIALIZER => FIRST_INITIALIZER + event.entity,
        _ => NONE,
    }
}

pub(crate) fn is_hit(kind: Kind) -> bool
    ensures { result ≡ is_hit kind }
{
    matches!(kind, Kind::Test | Kind::Call | Kind::Init | Kind::Catch)
}

pub(crate) fn is_print(kind: Kind) -> bool
    ensures { result ≡ is_print kind }
{
    matches!(kind, Kind::Print)
}

pub(crate) fn is_call(kind: Kind) -> bool
    ensures { result ≡ is_call kind }
{
    matches!(kind, Kind::Call)
}

pub(crate) fn is_init(kind: Kind) -> bool
    ensures { result ≡ is_init kind }
{
    matches!(kind, Kind::Init)
}

#[tactic(auto, unfolding(wy_event::specs::Sources::is_write))]
pub(crate) fn is_write(kind: Kind) -> bool
    ensures { result ≡ is_write kind }
{
    matches!(kind, Kind::Bind | Kind::Set | Kind::Catch)
}
