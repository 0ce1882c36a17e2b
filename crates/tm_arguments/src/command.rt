//! The command line, as `clap` reads it.

ghost use Rattle.std.specs.Prelude.{◌≡◌, IfOk, false, fold};
ghost use Rattle.clap.specs.Words.{app_of, rule_of};
ghost use Rattle.clap.specs.declared.builder.command.Command.TheViews.{out-Command as fields_of};
ghost use Rattle.tm_arguments.specs.CommandLine.{bare, tmx};
ghost use Rattle.tm_arguments.specs.code.Table.{app_for, rule_for, with_described};

use crate::table::{Argument, ArgumentForm, PAGES, SUBCOMMANDS, Subcommand, VERSION};
use clap::builder::ValueParser;
use clap::{Arg, ArgAction, Command};
use std::alloc::{AllocError, Global};

// `clap`'s argument for one of the table.
fn arg_of<'a>(alloc: Global, argument: &Argument) -> Arg<'a>
    ensures rule { rule_of result ≡ rule_for argument.now }
    ensures local { result.global ≡ false }
{
    let arg = Arg::new(alloc, argument.name)
        .help(argument.help)
        .required(argument.required);
    match argument.form {
        ArgumentForm::Bare(value) => arg.value_name(value),
        ArgumentForm::Text(value) => arg.long(argument.name).value_name(value),
        ArgumentForm::Number(least, most) => arg
            .long(argument.name)
            .value_name("N")
            .value_parser(ValueParser::signed(least, most)),
        ArgumentForm::Flag => arg.long(argument.name).action(ArgAction::SetTrue),
    }
}

// A subcommand.
fn command_of<'a>(alloc: Global, described: &Subcommand) -> Result<Command<'a>, AllocError>
    ensures app { IfOk result (λ c. app_of c ≡ app_for described.now) }
    ensures local { IfOk result (λ c. (fields_of c).has_globals ≡ false) }
{
    let mut command = Command::new(alloc, described.name)
        .about(described.about)
        .after_help(described.example);
    for argument in described.arguments {
        command = command.arg(arg_of(alloc, argument))?;
    }
    Ok(command)
}

// `tmx`, without its subcommands.
fn bare_command<'a>(alloc: Global) -> Result<Command<'a>, AllocError>
    ensures app { IfOk result (λ c. app_of c ≡ bare) }
    ensures local { IfOk result (λ c. (fields_of c).has_globals ≡ false) }
{
    Command::new(alloc, "tmx")
        .about("Reads recordings of TM transfer frames (CCSDS 132.0-B-3)")
        .version(VERSION)
        .after_help(PAGES)
        .no_binary_name(true)
        .disable_help_subcommand(true)
        .subcommand_required(true)
        .bin_name("tmx")
}

// A command with the subcommands of a table more.
fn with_subcommands<'a>(
    alloc: Global,
    begun: Command<'a>,
    table: &[Subcommand],
) -> Result<Command<'a>, AllocError>
    requires { (fields_of begun).has_globals ≡ false }
    ensures app { IfOk result (λ c. app_of c ≡ fold with_described (app_of begun.entry) table.now) }
    ensures local { IfOk result (λ c. (fields_of c).has_globals ≡ false) }
{
    let mut command = begun;
    for described in table {
        let subcommand = command_of(alloc, described)?;
        command = command.subcommand(subcommand)?;
    }
    Ok(command)
}

/// The whole command, for the arguments after the program's name.
pub fn tmx_command<'a>(alloc: Global) -> Result<Command<'a>, AllocError>
    ensures app { IfOk result (λ c. app_of c ≡ tmx) }
    ensures local { IfOk result (λ c. (fields_of c).has_globals ≡ false) }
{
    let begun = bare_command(alloc)?;
    with_subcommands(alloc, begun, &SUBCOMMANDS)
}
