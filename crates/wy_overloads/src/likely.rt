//! The method that a call most likely means, by one look at each. Whether it does is tested elsewhere.

ghost use Rattle.std.specs.Prelude.{◌<◌, IfSome, length};
ghost use Rattle.wy_overloads.specs.LineageView.{lineage_of};

use crate::choice::applies;
use crate::lineage::Lineage;
use crate::member::{is_class, type_of_class};
use crate::signature::{are_below, are_same_types, is_same_type, is_substitutable};
use crate::subtyping::is_below;
use wy_kernel::types::{Method, Ty};

/// Of the methods that are applicable, one to which none is preferred that was looked at after it.
pub fn likely(lineage: &Lineage, ty: &Ty, name: &str, args: &[Ty]) -> Option<u32>
    ensures { IfSome result (λ k. k < length (lineage_of lineage.now).methods) }
{
    let mut best = None;
    let candidates = lineage.named(ty, name);
    for i in 0..candidates.len() {
        let k = candidates.at(i);
        if applies(lineage, ty, name, args, lineage.method(k)) {
            best = Some(preferred(lineage, best, k));
        }
    }
    best
}

fn preferred(lineage: &Lineage, best: Option<u32>, k: u32) -> u32
    requires best { IfSome best (λ j. j < length (lineage_of lineage.now).methods) }
    requires k { k < length (lineage_of lineage.now).methods }
    ensures { result < length (lineage_of lineage.now).methods }
{
    match best {
        Some(j) => preferred_of(lineage, j, k),
        None => k,
    }
}

fn preferred_of(lineage: &Lineage, j: u32, k: u32) -> u32
    requires j { j < length (lineage_of lineage.now).methods }
    requires k { k < length (lineage_of lineage.now).methods }
    ensures { result < length (lineage_of lineage.now).methods }
{
    if is_preferred(lineage, lineage.method(j), lineage.method(k)) {
        k
    } else {
        j
    }
}

// Whether a method is more specific than the best so far, or nearer to the type where they have the same parameter types.
fn is_preferred(lineage: &Lineage, best: &Method, m: &Method) -> bool {
    let params = m.params.as_slice();
    if are_same_types(params, best.params.as_slice()) {
        is_nearer(lineage, best, m)
    } else {
        are_below(lineage, params, best.params.as_slice())
    }
}

// A method of a class with a body comes before others, and of such that of the lower class; of others that with a lower result.
fn is_nearer(lineage: &Lineage, best: &Method, m: &Method) -> bool {
    if has_body(lineage, m) {
        !has_body(lineage, best)
            || is_below(lineage, &type_of_class(m.class), &type_of_class(best.class))
    } else {
        !has_body(lineage, best)
            && !is_same_type(&m.result, &best.result)
            && is_substitutable(lineage, &m.result, &best.result)
    }
}

fn has_body(lineage: &Lineage, m: &Method) -> bool {
    !m.is_abstract && is_class(lineage, m.class)
}
