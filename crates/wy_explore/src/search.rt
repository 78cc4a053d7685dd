//! Events in a rising answer.

ghost use Rattle.std.specs.Prelude.{MatchOption, ℕ};
ghost use Rattle.wy_why.specs.Answer.{Rises};
ghost use Rattle.wy_explore.specs.Session.{IsGreatestBelow, IsLeastAbove};

/// The greatest event below another.
pub fn greatest_below(events: &[u32], event: u32) -> Option<u32>
    requires { (high : ℕ) × Rises 0 high events.now }
    ensures { MatchOption result ((m : ℕ) → ¬ IsGreatestBelow events.now event m)
        (IsGreatestBelow events.now event) }
{
    let last = events
        .partition_point(|other| *other < event)
        .checked_sub(1)?;
    events.get(last).copied()
}

/// The least event above another.
pub fn least_above(events: &[u32], event: u32) -> Option<u32>
    requires { (high : ℕ) × Rises 0 high events.now }
    ensures { MatchOption result ((m : ℕ) → ¬ IsLeastAbove events.now event m)
        (IsLeastAbove events.now event) }
{
    let place = events.partition_point(|other| *other <= event);
    events.get(place).copied()
}
