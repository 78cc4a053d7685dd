//! What all bodies of a program are made by.

ghost use Rattle.std.specs.Prelude.{◌≡◌};

use crate::numbers::Numbers;
use crate::place::Role;
use std::alloc::Global;
use wy_table::table::ClassTable;

/// The table of a program, and the numbers of its statements.
#[derive(Drop)]
pub struct Setting<'a> {
    pub alloc: Global,
    pub table: &'a ClassTable,
    pub numbers: Numbers,
}

impl Setting<'_> {
    ghost use Rattle.wy_elab_body.specs.Bodies.{number_of};
    ghost use Rattle.wy_elab_body.specs.Statements.{Setting as PlainSetting, number};
    ghost use Rattle.wy_elab_body.specs.Views.{IsSetting};

    /// The number of the statement that is written at a site.
    pub fn number(&self, site: u32) -> u32
        ensures { (w : PlainSetting) → IsSetting self.now w → result ≡ number w site }
    {
        self.numbers.number(site, Role::Written)
    }

    /// The number of a statement that a class or a constructor implies.
    pub fn number_of(&self, site: u32, role: Role) -> u32
        ensures { (w : PlainSetting) → IsSetting self.now w → result ≡ number_of w site role }
    {
        self.numbers.number(site, role)
    }
}
