//! The program's subcommands for clap and its help, made from the table.
ghost use Rattle.std.specs.Prelude.{◌≡◌, IfOk, false, map};
ghost use Rattle.clap.specs.Words.{app_of, rule_of, shape_of};
ghost use Rattle.command_line.specs.Commands.{IsShaped, flag_rule, romtool_app, romtool_top};
ghost use Rattle.command_line.specs.Commands.{building_shapes, other_shapes, with_rules};
ghost use Rattle.command_line.specs.Commands.{with_shapes};
ghost use Rattle.command_line.specs.Table.{rule_named, shape_named};

use crate::table::{BUILDING, EXPLAIN, Kind, OTHERS, READING, Subcommand, Word};
use clap::{Arg, ArgAction, Command};
use std::alloc::{AllocError, Global};

/// The program's version.
pub const VERSION: &str = "2.0.0";

/// What the program does, for help.
const ABOUT: &str =
    "Builds, checks, lists and serves read-only images that are used in place: romfs and cramfs";

/// The text of help after the subcommands.
const AFTER: &str = "\
Without a subcommand, the program checks and lists its built-in example image.

Exit status: 0 done, 1 refused (a line says why), 2 usage, 3 a file, memory or a stream failed.
The man page romtool(1) has the details.";

/// Returns the argument for a row of the table.
fn argument<'a>(alloc: Global, word: Word<'a>) -> Arg<'a>
    ensures rule { rule_of result ≡ rule_named word.entry }
    ensures local { result.global ≡ false }
{
    let arg = Arg::new(alloc, word.name).help(word.help);
    match word.kind {
        Kind::Value => arg.required(true).value_name(word.shown),
        Kind::Few => arg.required(true).value_name(word.shown).num_args(1..=8),
        Kind::Several => arg
            .required(true)
            .value_name(word.shown)
            .num_args(1..=65535),
        Kind::Any => arg.value_name(word.shown).num_args(1..=65535),
        Kind::Option => arg.long(word.name).value_name(word.shown),
        Kind::Lettered(letter) => arg.long(word.name).value_name(word.shown).short(letter),
        Kind::Repeated => arg
            .long(word.name)
            .value_name(word.shown)
            .action(ArgAction::Append),
        Kind::Flag => arg.long(word.name).action(ArgAction::SetTrue),
    }
}

/// Adds arguments to a command, in their order.
fn with_arguments<'a>(
    alloc: Global,
    mut command: Command<'a>,
    words: &[Word<'a>],
) -> Result<Command<'a>, AllocError>
    ensures { IfOk result (λ c. app_of c
        ≡ with_rules (app_of command.entry) (map rule_named words.now)) }
{
    for word in words {
        command = command.arg(argument(alloc, *word))?;
    }
    Ok(command)
}

/// Returns a subcommand with its arguments, and the option to explain.
fn subcommand<'a>(alloc: Global, row: &Subcommand<'a>) -> Result<Command<'a>, AllocError>
    ensures { IfOk result (IsShaped (shape_named row.now)) }
{
    let command = Command::new(alloc, row.name)
        .about(row.about)
        .after_help(row.example);
    let command = with_arguments(alloc, command, row.words)?;
    command.arg(argument(alloc, EXPLAIN))
}

/// Adds subcommands to a command, in their order.
fn with_subcommands<'a>(
    alloc: Global,
    mut command: Command<'a>,
    rows: &[Subcommand<'a>],
) -> Result<Command<'a>, AllocError>
    ensures { IfOk result (λ c. app_of c
        ≡ with_shapes (app_of command.entry) (map shape_named rows.now)) }
{
    for row in rows {
        command = command.subcommand(subcommand(alloc, row)?)?;
    }
    Ok(command)
}

/// Returns the program without its subcommands.
fn top<'a>(alloc: Global) -> Result<Command<'a>, AllocError>
    ensures { IfOk result (λ c. app_of c ≡ romtool_top) }
{
    let command = Command::new(alloc, "romtool")
        .version(VERSION)
        .about(ABOUT)
        .after_help(AFTER);
    command.arg(argument(alloc, EXPLAIN))
}

/// Adds the subcommands that serve and build images.
fn with_building<'a>(alloc: Global, command: Command<'a>) -> Result<Command<'a>, AllocError>
    ensures { IfOk result (λ c. app_of c ≡ with_shapes (app_of command.entry) building_shapes) }
{
    with_subcommands(alloc, command, &BUILDING)
}

/// Adds the other subcommands.
fn with_others<'a>(alloc: Global, command: Command<'a>) -> Result<Command<'a>, AllocError>
    ensures { IfOk result (λ c. app_of c ≡ with_shapes (app_of command.entry) other_shapes) }
{
    with_subcommands(alloc, command, &OTHERS)
}

/// Returns the program with its subcommands.
pub fn command<'a>(alloc: Global) -> Result<Command<'a>, AllocError>
    ensures { IfOk result (λ c. app_of c ≡ romtool_app) }
{
    let reading = with_subcommands(alloc, top(alloc)?, &READING)?;
    with_others(alloc, with_building(alloc, reading)?)
}
