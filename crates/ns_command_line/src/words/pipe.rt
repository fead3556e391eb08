//! The arguments of `pipe`.

ghost use Rattle.std.specs.Prelude.{◌≡◌, ℕ, List, IfOk, IfErr, option_map};
ghost use Rattle.clap.specs.Words.{kind_of, subcommand_rows_of};
ghost use Rattle.ns_api.specs.declared.following.Driven.{Driven};
ghost use Rattle.ns_pipe.specs.declared.printed.Printed.{Printed};
ghost use Rattle.ns_command_line.specs.Words.{IsPipe, IsRefusal, driven_by, printed_by};

use crate::words::value::{given, refused};
use clap::error::ErrorKind;
use clap::{ArgMatches, Command, Error};
use ns_api::Driven;
use ns_pipe::Printed;
use ns_types::name::Secret;
use std::alloc::Global;

pub const BAD_SECRET: &str = "the bootstrap secret has 1 to 64 printable bytes without a space";

const BAD_PRINT: &str = "what is printed is replies or log";

/// Whether a worker is driven, from the value of the flag.
fn driven(given: Option<&str>) -> Driven
    ensures { result ≡ driven_by (option_map (λ s. s.now) given.entry) }
{
    match given {
        Some(text) if text == "true" => Driven::Worker,
        _ => Driven::Nobody,
    }
}

/// What to print, from the value of the argument. None: the value is bad.
fn printed(given: Option<&str>) -> Option<Printed>
    ensures { result ≡ printed_by (option_map (λ s. s.now) given.entry) }
{
    match given {
        None => Some(Printed::Replies),
        Some(text) if text == "replies" => Some(Printed::Replies),
        Some(text) if text == "log" => Some(Printed::Log),
        Some(_) => None,
    }
}

/// The secret, whether a worker is driven, and what to print, from the arguments of `pipe`; or the fault in them.
pub fn pipe_given(
    alloc: Global,
    command: &mut Command,
    matches: &ArgMatches,
) -> Result<(Secret, Driven, Printed), Error>
    ensures gives { IfOk result (λ given.
        IsPipe (subcommand_rows_of matches.now) given.0 given.1 given.2) }
    ensures good { (secret : List ℕ) (driven : Driven) (printed : Printed)
        → IsPipe (subcommand_rows_of matches.now) secret driven printed
        → IfErr result (λ error. kind_of error ≡ ErrorKind.OutOfMemory) }
    ensures bad { IfErr result IsRefusal }
{
    let secret = given(matches, "pipe", "bootstrap").unwrap_or("");
    let Some(secret) = Secret::read(alloc, secret)? else {
        return Err(refused(command, BAD_SECRET));
    };
    let Some(printed) = printed(given(matches, "pipe", "print")) else {
        return Err(refused(command, BAD_PRINT));
    };
    Ok((secret, driven(given(matches, "pipe", "drive")), printed))
}
