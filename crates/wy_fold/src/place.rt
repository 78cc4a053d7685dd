//! The lines on which events stand.
ghost use Rattle.std.specs.Prelude.{◌≡◌, ◌≤◌, ℕ, List, EachIndex, MatchOption, length, map, slice_index};
ghost use Rattle.wy_event.specs.Record.{Recorded, recorded};
ghost use Rattle.wy_fold.specs.Places.{line_at, line_of_site};

use wy_event::record::Event;
use wy_kernel::program::Program;

/// The line of an event, from 1; 0 for one of the library.
#[tactic(auto, unfolding(crate::specs::Places::line_at, wy_event::specs::Record::recorded))]
pub(crate) fn line_at(program: &Program, records: &[Event], event: u32) -> u32
    ensures { result ≡ line_at program.now.lines.items (map recorded records.now) event }
{
    match records.get(event as usize) {
        Some(record) => line_of_site(program, record.site),
        None => 0,
    }
}

/// The line of a token of the source, from 1; 0 for a site of the library.
pub fn line_of_site(program: &Program, site: u32) -> u32
    ensures { result ≡ line_of_site program.now.lines.items site }
{
    program.lines.get(site as usize).copied().unwrap_or(0)
}

fn greatest(numbers: &[u32]) -> Option<u32>
    ensures { MatchOption result (length numbers.now ≡ 0)
        (λ m. EachIndex numbers.now (λ k. slice_index numbers.now k ≤ m)) }
{
    numbers.iter().copied().max()
}

/// No event stands on a greater line.
pub(crate) fn greatest_line(program: &Program) -> u32
    ensures { (rs : List Recorded) (n : ℕ) → line_at program.now.lines.items rs n ≤ result }
{
    greatest(program.lines.as_slice()).unwrap_or(0)
}
