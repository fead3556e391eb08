//! The values of arguments, and the error for a bad one.

ghost use Rattle.std.specs.Prelude.{◌≡◌, [], map, option_map, unwrap_or};
ghost use Rattle.clap.specs.Words.{subcommand_rows_of};
ghost use Rattle.ns_command_line.specs.Given.{all_given_for, given_for};
ghost use Rattle.ns_command_line.specs.Words.{IsRefusal};

use clap::error::ErrorKind;
use clap::{ArgMatches, Command, Error};

/// The value of this argument of this subcommand. None: it is not given.
pub fn given<'a>(matches: &ArgMatches<'a>, command: &str, id: &str) -> Option<&'a str>
    ensures { option_map (λ s. s.now) result
        ≡ given_for command.now id.now (subcommand_rows_of matches.now) }
{
    let matches = matches.subcommand_matches(command)?;
    matches.get_str(id)
}

/// All values of this argument of this subcommand, in order. None: it is not given.
pub fn all_given<'b, 'a>(
    matches: &'b ArgMatches<'a>,
    command: &str,
    id: &str,
) -> Option<&'b [&'a str]>
    ensures { unwrap_or (option_map (λ all. map (λ s. s.now) all.now) result) []
        ≡ all_given_for command.now id.now (subcommand_rows_of matches.now) }
{
    let matches = matches.subcommand_matches(command)?;
    matches.get_strs(id)
}

/// The error for words that are refused for this reason.
pub fn refused(command: &mut Command, reason: &str) -> Error
    ensures { IsRefusal result }
{
    match command.error(ErrorKind::ValueValidation, reason) {
        Ok(error) => error,
        Err(error) => Error::from(error),
    }
}
