//! The table of the command line: one level of commands, each with the same operands and options. Which of them a command takes is
//! told elsewhere.
ghost use Rattle.std.specs.Prelude.{◌≡◌, ◌∷◌, [], IfOk, false};
ghost use Rattle.clap.specs.Words.{app_of};
ghost use Rattle.clap.specs.declared.builder.command.Command.TheViews.{out-Command};
ghost use Rattle.wy_lens.specs.Table.{Adds, flag_rule, operands, sub, table as the_table};

use clap::{Arg, ArgAction, Command};
use std::alloc::{AllocError, Global};

pub const FIRST: &str = "first";

pub const SECOND: &str = "second";

pub const STOP: &str = "stop";

pub const ALL: &str = "all";

pub const DATA: &str = "data";

pub fn table<'a>(alloc: Global) -> Result<Command<'a>, AllocError>
    ensures { IfOk result (λ c. app_of c ≡ the_table) }
{
    let table = Command::new(alloc, "whylens")
        .no_binary_name(true)
        .disable_help_subcommand(true)
        .version("1");
    let table = table.subcommand(arguments(alloc, "explain")?)?;
    let table = table.subcommand(arguments(alloc, "show")?)?;
    let table = table.subcommand(arguments(alloc, "slice")?)?;
    let table = table.subcommand(arguments(alloc, "report")?)?;
    let table = table.subcommand(arguments(alloc, "diff")?)?;
    let table = table.subcommand(arguments(alloc, "expect")?)?;
    table.subcommand(arguments(alloc, "events")?)
}

/// A command of this name.
fn arguments<'a>(alloc: Global, name: &'a str) -> Result<Command<'a>, AllocError>
    ensures shape { IfOk result (λ c. (app_of c).top ≡ sub name.now) }
    ensures own { IfOk result (λ c. (out-Command c).has_globals ≡ false) }
{
    let command = with_operands(alloc, Command::new(alloc, name))?;
    let stop = with_flag(alloc, command, STOP)?;
    let all = with_flag(alloc, stop, ALL)?;
    with_flag(alloc, all, DATA)
}

fn with_operands<'a>(alloc: Global, command: Command<'a>) -> Result<Command<'a>, AllocError>
    ensures { IfOk result (λ c. Adds command.entry operands c) }
{
    let first = Arg::new(alloc, FIRST);
    let command = command.arg(first)?;
    let second = Arg::new(alloc, SECOND);
    command.arg(second)
}

/// The same with an option of this name, without a value.
fn with_flag<'a>(
    alloc: Global,
    command: Command<'a>,
    name: &'a str,
) -> Result<Command<'a>, AllocError>
    ensures { IfOk result (λ c. Adds command.entry (flag_rule name.now ∷ []) c) }
{
    let flag = Arg::new(alloc, name).long(name).action(ArgAction::SetTrue);
    command.arg(flag)
}
