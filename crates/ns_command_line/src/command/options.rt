//! Options, and a subcommand without its arguments.

ghost use Rattle.std.specs.Prelude.{◌≡◌, IfOk, Some, false, fold, map, true};
ghost use Rattle.clap.specs.Words.{app_of, new_app, rule_of, with_rule};
ghost use Rattle.clap.specs.declared.builder.action.ArgAction.TheVariants.{Append};
ghost use Rattle.clap.specs.declared.builder.command.Command.TheViews.{out-Command};
ghost use Rattle.ns_command_line.specs.Serve.{option_rule};

use clap::{Arg, ArgAction, Command};
use std::alloc::{AllocError, Global};

/// The name of an option, what stands for its value in the help, and the help.
pub type OptionWords<'a> = (&'a str, &'a str, &'a str);

/// An option, which may be left out.
pub fn option<'a>(alloc: Global, option: OptionWords<'a>) -> Arg<'a>
    ensures rule { rule_of result ≡ option_rule option.entry.0.now }
    ensures local { result.global ≡ false }
{
    let (name, value, help) = option;
    Arg::new(alloc, name)
        .long(name)
        .value_name(value)
        .help(help)
}

/// An option that has to be there.
pub fn required<'a>(alloc: Global, words: OptionWords<'a>) -> Arg<'a>
    ensures rule { rule_of result ≡ record (option_rule words.entry.0.now) { required = true } }
    ensures local { result.global ≡ false }
{
    option(alloc, words).required(true)
}

/// An option that may be given any number of times.
pub fn repeated<'a>(alloc: Global, words: OptionWords<'a>) -> Arg<'a>
    ensures rule { rule_of result
        ≡ record (option_rule words.entry.0.now) { action = Some Append } }
    ensures local { result.global ≡ false }
{
    option(alloc, words).action(ArgAction::Append)
}

/// A subcommand without its arguments.
pub fn bare<'a>(alloc: Global, name: &'a str, about: &'a str, after_help: &'a str) -> Command<'a>
    ensures shape { app_of result ≡ new_app name.entry.now }
    ensures local { (out-Command result).has_globals ≡ false }
{
    Command::new(alloc, name)
        .about(about)
        .after_help(after_help)
}

/// This subcommand with these options as well, which may be left out.
pub fn with_options<'a>(
    alloc: Global,
    command: Command<'a>,
    options: &[OptionWords<'a>],
) -> Result<Command<'a>, AllocError>
    ensures shape { IfOk result (λ more. app_of more ≡ fold with_rule (app_of command.entry)
        (map (λ words. option_rule words.0.now) options.entry.now)) }
    ensures local { IfOk result (λ more. (out-Command more).has_globals
        ≡ (out-Command command.entry).has_globals) }
{
    let mut more = command;
    for words in options {
        more = more.arg(option(alloc, *words))?;
    }
    Ok(more)
}
