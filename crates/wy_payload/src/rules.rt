//! The rule that a number breaks, where it breaks one.

ghost use Rattle.std.specs.Prelude.{◌≡◌, slice_index};
ghost use Rattle.wy_payload.specs.Rules.{field_rule, in_range, is_code, local_rule, locals_in, optional_rule, reference_rule, site_rule, entity_rule};

use crate::fault::DamageRule;
use crate::known::{Known, Role, is_fit};
use crate::ranges::Ranges;
use wy_event::record::Kind;
use wy_kernel::code::{BRACKETS_UNIT, FIRST_CLASS_CODE, PRIMITIVES};
use wy_kernel::types::NONE;

/// The sites of the library: of each of its methods one.
const LIBRARY_SITES: u32 = 2147483648;

const LIBRARY_METHODS: u32 = 36;

pub fn range_rule(test: bool) -> Option<DamageRule>
    ensures { result ≡ in_range test }
{
    if test { None } else { Some(DamageRule::Range) }
}

/// Of a reference to an earlier event.
#[tactic(auto, unfolding(crate::specs::Rules::reference_rule))]
pub fn of_reference(role: Role, earlier: &[Known], n: u32) -> Option<DamageRule>
    ensures { result ≡ reference_rule role earlier.now n }
{
    match earlier.get(n as usize) {
        None => Some(DamageRule::Range),
        Some(known) if is_fit(role, *known) => None,
        Some(_) => Some(DamageRule::Kind),
    }
}

/// Of a reference that may be absent.
#[tactic(auto, unfolding(crate::specs::Rules::optional_rule))]
pub fn of_optional(role: Role, earlier: &[Known], n: u32) -> Option<DamageRule>
    ensures { result ≡ optional_rule role earlier.now n }
{
    if n == NONE {
        None
    } else {
        of_reference(role, earlier, n)
    }
}

#[tactic(auto, unfolding(crate::specs::Rules::site_rule))]
pub fn of_site(ranges: &Ranges, n: u32) -> Option<DamageRule>
    ensures { result ≡ site_rule ranges.now n }
{
    let is_token = (n as usize) < ranges.tokens;
    range_rule(is_token || (n >= LIBRARY_SITES && n < LIBRARY_SITES + LIBRARY_METHODS))
}

#[tactic(auto, unfolding(crate::specs::Rules::is_code))]
fn is_type_code(ranges: &Ranges, n: u32) -> bool
    ensures { result ≡ is_code ranges.now n }
{
    let base = n % BRACKETS_UNIT;
    (base < PRIMITIVES && n >= BRACKETS_UNIT)
        || (base >= FIRST_CLASS_CODE && ((base - FIRST_CLASS_CODE) as usize) < ranges.classes)
}

/// Of what an event is about: a class, a type, a method, or nothing.
#[tactic(auto, unfolding(crate::specs::Rules::entity_rule))]
pub fn of_entity(ranges: &Ranges, kind: Kind, n: u32) -> Option<DamageRule>
    ensures { result ≡ entity_rule ranges.now kind n }
{
    match kind {
        Kind::Init => range_rule((n as usize) < ranges.classes),
        Kind::New => range_rule(is_type_code(ranges, n)),
        Kind::Call => range_rule((n as usize) < ranges.methods),
        _ => range_rule(n == NONE),
    }
}

#[tactic(auto, unfolding(crate::specs::Rules::locals_in))]
fn locals_of_frame(ranges: &Ranges, frame: Option<Known>) -> usize
    ensures { result ≡ locals_in ranges.now frame }
{
    match frame {
        Some(Known::Init { class }) => at(ranges.class_locals.as_slice(), class),
        Some(Known::Call { method }) => at(ranges.method_locals.as_slice(), method),
        _ => 0,
    }
}

fn at(counts: &[usize], n: u32) -> usize
    ensures { result ≡ slice_index counts.now n }
{
    counts.get(n as usize).copied().unwrap_or(0)
}

/// Of the index of a local, by its frame.
pub fn of_local(ranges: &Ranges, earlier: &[Known], frame: u32, n: u32) -> Option<DamageRule>
    ensures { result ≡ local_rule ranges.now earlier.now frame n }
{
    range_rule((n as usize) < locals_of_frame(ranges, earlier.get(frame as usize).copied()))
}

/// Of a field that is static, or one of objects.
#[tactic(auto, unfolding(crate::specs::Rules::field_rule))]
pub fn of_field(ranges: &Ranges, wanted: bool, n: u32) -> Option<DamageRule>
    ensures { result ≡ field_rule ranges.now wanted n }
{
    match ranges.statics.as_slice().get(n as usize) {
        Some(found) => range_rule(*found == wanted),
        None => range_rule(false),
    }
}
