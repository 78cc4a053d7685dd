//! Where two runs part.
ghost use Rattle.std.specs.Prelude.{◌<◌, ◌^◌, length, map};
ghost use Rattle.wy_compare.specs.Parting.{Parts};
ghost use Rattle.wy_event.specs.Record.{recorded};

use crate::look::{Look, is_same};
use wy_event::record::Event;

/// The first place at which two runs part by what is looked at; None where they don't.
pub fn first_part(look: Look, good: &[Event], bad: &[Event]) -> Option<u32>
    requires { length good.now < 2 ^ 32 }
    ensures { Parts look (map recorded good.now) (map recorded bad.now) result }
{
    let shared = good.len().min(bad.len());
    for n in 0..shared {
        if !is_same(look, &good[n], &bad[n]) {
            return Some(n as u32);
        }
    }
    if good.len() == bad.len() {
        None
    } else {
        Some(shared as u32)
    }
}
