//! The frames at an event of a run are the bodies that were active as it was recorded. The functions do nothing: their contracts are the
//! laws.
#![tactic(auto)]

ghost use Rattle.std.specs.Prelude.{◌≡◌, List, ℕ};
ghost use Rattle.wy_kernel.specs.Program.{Program};
ghost use Rattle.wy_meaning.specs.Run.{events};
ghost use Rattle.wy_steps.specs.Sets.{nothing};
ghost use Rattle.law_frames.specs.Bodies.{FramesWereActive};
ghost use Rattle.law_frames.specs.Joined.{ActiveAreRead, EntriesStayNamed, EventsShowEntries, joined};

/// In every run the frames at an event, as its records give them, are the Calls and Inits among the entries that were active as it was
/// recorded, the newest first. A run that carries how its sets are joined shows these entries; it records what the run records that
/// carries nothing.
pub fn frames_are_the_bodies_that_were_active()
    ensures frames { (p : Program) → FramesWereActive p }
    ensures events { (p : Program) (input : List ℕ) (budget : ℕ)
        → events joined p input budget ≡ events nothing p input budget }
{}

/// An event of such a run shows the entries that are active as it is recorded. Each of them has the set of its event, and the newest is
/// the event's control parent.
pub fn active_entries_are_read()
    ensures read { ActiveAreRead }
    ensures shown { (p : Program) → EventsShowEntries p }
    ensures named { (p : Program) → EntriesStayNamed p }
{}
