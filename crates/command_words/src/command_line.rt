//! What `clap` is to read: the commands, with their arguments and help.

use crate::subcommands::{LongOption, Positional, SUBCOMMANDS, Subcommand};
use clap::{Arg, ArgAction, Command};
use std::alloc::{AllocError, Global};

/// The end of the help.
const EXIT_STATUSES: &str = "Exit status:
  0  the command has done its work
  1  the source has a fault, or a line of `load` is refused
  2  the command was called wrongly, or the volume has no such file
  3  the program did something wrong
  4  something was refused: a file of the host, the device, the volume,
     the image or memory
  5  the budget of steps was used up

Example:
  cobol check stock.cob
  cobol compile stock.cob STOCK.image
  cobol format SHOP 1024
  cobol run STOCK.image SHOP";

/// The commands.
pub fn command_line<'a>(alloc: Global) -> Result<Command<'a>, AllocError> {
    let subcommands = subcommand_lines(alloc, &SUBCOMMANDS)?;
    Command::new(alloc, "cobol")
        .about("Compiles COBOL-85 programs, and runs them over volumes of files")
        .after_help(EXIT_STATUSES)
        .version("0.1.0")
        .subcommand_required(true)
        .subcommands(subcommands)
}

fn subcommand_lines<'a>(
    alloc: Global,
    subcommands: &[Subcommand],
) -> Result<Vec<Command<'a>>, AllocError> {
    let mut lines = Vec::new(alloc);
    for subcommand in subcommands {
        lines.push(subcommand_line(alloc, subcommand)?)?;
    }
    Ok(lines)
}

fn subcommand_line<'a>(alloc: Global, subcommand: &Subcommand) -> Result<Command<'a>, AllocError> {
    let arguments = positionals(alloc, subcommand.arguments)?;
    let options = long_options(alloc, subcommand.options)?;
    Command::new(alloc, subcommand.name)
        .about(subcommand.about)
        .after_help(subcommand.after_help)
        .args(arguments)?
        .args(options)
}

fn positionals<'a>(alloc: Global, words: &[Positional]) -> Result<Vec<Arg<'a>>, AllocError> {
    let mut arguments = Vec::new(alloc);
    for word in words {
        let argument = Arg::new(alloc, word.name)
            .help(word.help)
            .required(true)
            .action(ArgAction::Set);
        arguments.push(argument)?;
    }
    Ok(arguments)
}

fn long_options<'a>(alloc: Global, options: &[LongOption]) -> Result<Vec<Arg<'a>>, AllocError> {
    let mut arguments = Vec::new(alloc);
    for option in options {
        arguments.push(long_option(alloc, option)?)?;
    }
    Ok(arguments)
}

/// An option with a value, or a flag.
fn long_option<'a>(alloc: Global, option: &LongOption) -> Result<Arg<'a>, AllocError> {
    let named = Arg::new(alloc, option.name)
        .long(option.name)
        .help(option.help);
    let argument = match option.value_name {
        Some(value_name) => named.value_name(value_name),
        None => named.action(ArgAction::SetTrue),
    };
    match option.conflicts_with {
        Some(other) => argument.conflicts_with(other),
        None => Ok(argument),
    }
}
