//! The command line as `clap` has it.
use crate::notes::NOTES;
use crate::options::{Parameter, ParameterForm, SUBCOMMANDS, Subcommand};
use clap::{Arg, ArgAction, Command, Error};
use std::alloc::{AllocError, Global};

/// What `--version` prints after the name.
const VERSION: &str = "1.0.0";

/// A parameter as `clap` has it.
fn make_arg<'a>(alloc: Global, parameter: &Parameter<'a>) -> Arg<'a> {
    let arg = Arg::new(alloc, parameter.id)
        .value_parser(parameter.values)
        .hide_possible_values(true)
        .default_values(parameter.default)
        .help(parameter.help);
    match parameter.form {
        ParameterForm::Word { required } => arg.required(required),
        ParameterForm::Option(value) => arg.long(parameter.id).value_name(value),
        ParameterForm::Flag => arg.long(parameter.id).action(ArgAction::SetTrue),
    }
}

/// Adds parameters to a list. The error, here and below, is want of memory.
fn add_args<'a>(
    alloc: Global,
    parameters: &[Parameter<'a>],
    args: &mut Vec<Arg<'a>>,
) -> Result<(), AllocError> {
    for parameter in parameters {
        args.push(make_arg(alloc, parameter))?;
    }
    Ok(())
}

/// A command as `clap` has it.
fn make_subcommand<'a>(
    alloc: Global,
    subcommand: &Subcommand<'a>,
) -> Result<Command<'a>, AllocError> {
    let mut args = Vec::new(alloc);
    add_args(alloc, subcommand.parameters, &mut args)?;
    Command::new(alloc, subcommand.name)
        .about(subcommand.about)
        .after_help(subcommand.notes)
        .next_line_help(subcommand.next_line_help)
        .args(args)
}

/// Adds a command to a list.
fn add_subcommand<'a>(
    alloc: Global,
    subcommand: &Subcommand<'a>,
    commands: &mut Vec<Command<'a>>,
) -> Result<(), AllocError> {
    let command = make_subcommand(alloc, subcommand)?;
    commands.push(command).map_err(AllocError::from)
}

/// Adds each of these commands to a list.
fn add_each<'a>(
    alloc: Global,
    subcommands: &[Subcommand<'a>],
    commands: &mut Vec<Command<'a>>,
) -> Result<(), AllocError> {
    for subcommand in subcommands {
        add_subcommand(alloc, subcommand, commands)?;
    }
    Ok(())
}

/// Adds each command to a list. The loop stands apart: over an array it would be proved once for
/// each element, and at each step with all that the constant holds.
fn add_subcommands<'a>(alloc: Global, commands: &mut Vec<Command<'a>>) -> Result<(), AllocError> {
    add_each(alloc, &SUBCOMMANDS, commands)
}

/// The whole command line.
pub fn make_command<'a>(alloc: Global) -> Result<Command<'a>, Error> {
    let mut commands = Vec::new(alloc);
    add_subcommands(alloc, &mut commands)?;
    let all = Command::new(alloc, "wmax")
        .about("Solves weighted partial MaxSAT, and certifies each optimum")
        .version(VERSION)
        .after_help(NOTES)
        .subcommand_required(true)
        .disable_help_subcommand(true);
    all.subcommands(commands).map_err(Error::from)
}
