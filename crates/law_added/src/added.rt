//! A run goes on from its records.

ghost use Rattle.std.specs.Prelude.{List};
ghost use Rattle.wy_kernel.specs.Program.{Program};
ghost use Rattle.law_added.specs.Added.{AddsToRecords};

/// Whatever is left to do, and however what was done so far ended: its records begin those of the
/// whole.
pub fn records_are_only_added()
    ensures { (p : Program) → AddsToRecords p }
{}
