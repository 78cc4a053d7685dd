//! The table of the command line: one level of commands, each with the same operands and options, and no help.
//! Which of them a command takes is told elsewhere.
ghost use Rattle.std.specs.Prelude.{◌≡◌, ◌∷◌, IfOk, [], false, map};
ghost use Rattle.clap.specs.Words.{app_of};
ghost use Rattle.clap.specs.declared.builder.command.Command.TheViews.{out-Command};
ghost use Rattle.wy_words.specs.Table.{Adds, files, operands, steps, sub};
ghost use Rattle.wy_words.specs.Table.{table as the_table, with_commands as commands_added};

use clap::{Arg, Command};
use std::alloc::{AllocError, Global};

pub const FIRST: &str = "first";

pub const SECOND: &str = "second";

pub const THIRD: &str = "third";

pub const INPUT: &str = "input";

pub const TRACE: &str = "trace";

pub const STEPS: &str = "steps";

static NAMES: [&str; 14] = [
    "run",
    "record",
    "output",
    "why",
    "whynot",
    "affects",
    "certify",
    "check",
    "scope",
    "questions",
    "explore",
    "audit",
    "migrate",
    "gen",
];

pub fn table<'a>(alloc: Global) -> Result<Command<'a>, AllocError>
    ensures { IfOk result (λ c. app_of c ≡ the_table) }
{
    let table = Command::new(alloc, "whyline")
        .no_binary_name(true)
        .disable_help_flag(true)
        .disable_help_subcommand(true);
    let table = with_commands(alloc, table, NAMES.as_slice())?;
    Ok(table)
}

fn with_commands<'a>(
    alloc: Global,
    table: Command<'a>,
    names: &[&'a str],
) -> Result<Command<'a>, AllocError>
    ensures { IfOk result (λ c.
        app_of c ≡ commands_added (app_of table.entry) (map (λ s. s.now) names.now)) }
{
    let mut table = table;
    for name in names {
        table = table.subcommand(arguments(alloc, name)?)?;
    }
    Ok(table)
}

/// A command of this name.
fn arguments<'a>(alloc: Global, name: &'a str) -> Result<Command<'a>, AllocError>
    ensures shape { IfOk result (λ c. (app_of c).top ≡ sub name.now) }
    ensures own { IfOk result (λ c. (out-Command c).has_globals ≡ false) }
{
    let command = Command::new(alloc, name);
    with_steps(alloc, with_files(alloc, with_operands(alloc, command)?)?)
}

fn with_operands<'a>(alloc: Global, command: Command<'a>) -> Result<Command<'a>, AllocError>
    ensures { IfOk result (λ c. Adds command.entry operands c) }
{
    let first = Arg::new(alloc, FIRST);
    let command = command.arg(first)?;
    let second = Arg::new(alloc, SECOND);
    let command = command.arg(second)?;
    let third = Arg::new(alloc, THIRD);
    command.arg(third)
}

fn with_files<'a>(alloc: Global, command: Command<'a>) -> Result<Command<'a>, AllocError>
    ensures { IfOk result (λ c. Adds command.entry files c) }
{
    let input = Arg::new(alloc, INPUT).short('i');
    let command = command.arg(input)?;
    let trace = Arg::new(alloc, TRACE).short('o');
    command.arg(trace)
}

fn with_steps<'a>(alloc: Global, command: Command<'a>) -> Result<Command<'a>, AllocError>
    ensures { IfOk result (λ c. Adds command.entry (steps ∷ []) c) }
{
    command.arg(Arg::new(alloc, STEPS).long("steps"))
}
