//! The command line as `clap` is told of it.
ghost use Rattle.std.specs.Prelude.{◌≡◌, IfOk, false, map};
ghost use Rattle.clap.specs.Walk.{rule_of};
ghost use Rattle.clap.specs.Simple.{app_of, with_subcommand};
ghost use Rattle.clap.specs.declared.builder.command.Command.TheViews.{out-Command as fields_of};
ghost use Rattle.command_words.specs.Clap.{app_with, option_in, photon_app, rule_of_option, shape_with};

use crate::options::{BULK, DRILL, Form, JOIN, Opt, RESHARD, VERIFY, VERSION};
use clap::builder::ValueParser;
use clap::{Arg, Command};
use std::alloc::{AllocError, Global};

/// The argument of an option.
fn argument<'a>(alloc: Global, option: &Opt) -> Arg<'a>
    ensures rule { rule_of result ≡ rule_of_option (option_in option.now) }
    ensures own { result.global ≡ false }
{
    let argument = Arg::new(alloc, option.name)
        .long(option.name)
        .required(option.default.is_none())
        .help(option.help);
    match option.form {
        Form::Number(low, high) => argument.value_parser(ValueParser::unsigned(low, high)),
        Form::AnyText => argument,
        Form::SomeText => argument.value_parser(ValueParser::NonEmptyString),
    }
}

/// The command of that name with these options, and what the help says of it.
fn with_options<'a>(
    alloc: Global,
    name: &'a str,
    about: &'a str,
    options: &[Opt],
) -> Result<Command<'a>, AllocError>
    ensures shape { IfOk result (λ c. app_of c ≡ app_with name.now (map option_in options.now)) }
    ensures own { IfOk result (λ c. (fields_of c).has_globals ≡ false) }
{
    let mut command = Command::new(alloc, name).about(about);
    for option in options {
        command = command.arg(argument(alloc, option))?;
    }
    Ok(command)
}

/// The command line with one command more.
fn with<'a>(
    alloc: Global,
    line: Command<'a>,
    name: &'a str,
    about: &'a str,
    options: &[Opt],
) -> Result<Command<'a>, AllocError>
    ensures { IfOk result (λ c. app_of c ≡ with_subcommand (app_of line.entry) (shape_with name.now (map option_in options.now))) }
{
    line.subcommand(with_options(alloc, name, about, options)?)
}

/// The whole command line.
pub(crate) fn photon<'a>(alloc: Global) -> Result<Command<'a>, AllocError>
    ensures { IfOk result (λ c. app_of c ≡ photon_app) }
{
    let line = Command::new(alloc, "photon")
        .version(VERSION)
        .subcommand_required(true)
        .disable_help_subcommand(true);
    let line = with(
        alloc,
        line,
        "join",
        "Joins two logs over a state directory",
        &JOIN,
    )?;
    let line = with(
        alloc,
        line,
        "drill",
        "Joins two logs while planned faults strike",
        &DRILL,
    )?;
    let line = with(
        alloc,
        line,
        "verify",
        "Reports what a state directory keeps",
        &VERIFY,
    )?;
    let line = with(alloc, line, "bulk", "Drills over logs that it makes", &BULK)?;
    with(
        alloc,
        line,
        "reshard",
        "Adds a row to the table of shards",
        &RESHARD,
    )
}
