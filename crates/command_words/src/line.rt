//! Command lines that are not in normal form: the commands as `clap` sees them, and what it found, written in normal form.

ghost use Rattle.std.specs.Prelude.{◌≡◌, ◌++◌, false, map, IfOk};
ghost use Rattle.std.specs.Option.{option_map};
ghost use Rattle.std.specs.String.{string_bytes};
ghost use Rattle.clap.specs.Words.{app_of};
ghost use Rattle.clap.specs.Walk.{rule_of};
ghost use Rattle.clap.specs.Matches.{found_of, first_value};
ghost use Rattle.command_words.specs.Line.{argument, rule_for, app_for, table, line_in, normal_line, option_words};

use crate::rows::{Way, commands, options};
use clap::error::ErrorKind;
use clap::{Arg, ArgAction, ArgMatches, Command};
use std::alloc::{AllocError, Global};

/// The argument of a command.
fn argument<'a>(alloc: Global) -> Arg<'a>
    ensures rule { rule_of result ≡ argument }
    ensures local { result.global ≡ false }
{
    Arg::new(alloc, "argument").required(true)
}

/// An option.
fn option<'a>(alloc: Global, name: &'a str, way: Way) -> Arg<'a>
    ensures rule { rule_of result ≡ rule_for way name.now }
    ensures local { result.global ≡ false }
{
    let option = Arg::new(alloc, name).long(name);
    match way {
        Way::Needed => option.required(true),
        Way::Valued => option,
        Way::Alone => option.action(ArgAction::SetTrue),
    }
}

/// A command with its argument and its options.
fn command<'a>(alloc: Global, word: &'a str) -> Result<Command<'a>, AllocError>
    ensures { IfOk result (λ command. app_of command ≡ app_for word.now) }
{
    let mut command = Command::new(alloc, word).arg(argument(alloc))?;
    for (of, name, way) in options() {
        if *of == word {
            command = command.arg(option(alloc, name, *way))?;
        }
    }
    Ok(command)
}

/// The commands, each as a subcommand of one.
fn table<'a>(alloc: Global) -> Result<Command<'a>, AllocError>
    ensures { IfOk result (λ command. app_of command ≡ table) }
{
    let mut table = Command::new(alloc, "pico").no_binary_name(true);
    for word in commands() {
        table = table.subcommand(command(alloc, word)?)?;
    }
    Ok(table)
}

/// Appends an option, where it was given: its name and its value, or its name alone, where `clap` has `true` for it.
fn push_option(
    alloc: Global,
    name: &str,
    way: Way,
    value: Option<&str>,
    line: &mut Vec<String>,
) -> Result<(), AllocError>
    ensures { IfOk result (λ done. map string_bytes line.new.items ≡ map string_bytes line.old.items
        ++ option_words way name.now (option_map (λ text. text.now) value.entry)) }
{
    if let Some(text) = value {
        if way != Way::Alone || text == "true" {
            line.push(format!(in alloc; "--{name}")?)?;
        }
        if way != Way::Alone {
            line.push(String::from_str(alloc, text)?)?;
        }
    }
    Ok(())
}

/// The line of a command by its name and what was found.
fn written(
    alloc: Global,
    command: &str,
    found: &ArgMatches<'_>,
) -> Result<Option<Vec<String>>, AllocError>
    ensures { IfOk result (λ line. option_map (λ words. map string_bytes words.items) line
        ≡ normal_line command.now (first_value (found_of found.now))) }
{
    let Some(argument) = found.get_str("argument") else {
        return Ok(None);
    };
    let mut line = Vec::new(alloc);
    line.push(String::from_str(alloc, command)?)?;
    line.push(String::from_str(alloc, argument)?)?;
    for (of, name, way) in options() {
        if *of == command {
            push_option(alloc, name, *way, found.get_str(name), &mut line)?;
        }
    }
    Ok(Some(line))
}

/// The line that `clap` reads the words after the program's name as, in normal form: the command, its argument, pairs
/// `--name value`, and `--stats` and `--table` where they are given. None where `clap` refuses them, or there is no command among them.
///
/// # Errors
///
/// `AllocError` where memory runs out.
pub fn line_in(alloc: Global, words: &[String]) -> Result<Option<Vec<String>>, AllocError>
    ensures { IfOk result (λ found. option_map (λ line. map string_bytes line.items) found
        ≡ line_in (map string_bytes words.now)) }
{
    let command = table(alloc)?;
    match command.try_get_matches_from(words) {
        Ok(matches) => match matches.subcommand() {
            None => Ok(None),
            Some((name, found)) => written(alloc, name, found),
        },
        Err(error) => match error.kind() {
            ErrorKind::OutOfMemory => Err(AllocError),
            _ => Ok(None),
        },
    }
}
