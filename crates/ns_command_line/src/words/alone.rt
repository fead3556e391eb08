//! The arguments of `alone`.

ghost use Rattle.std.specs.Prelude.{◌≡◌, IfOk, IfErr, Some, codes};
ghost use Rattle.clap.specs.Words.{kind_of, subcommand_rows_of};
ghost use Rattle.ns_arguments.specs.Values.{names_by};
ghost use Rattle.ns_pipe.specs.declared.replay.replay.Replay.{Replay};
ghost use Rattle.ns_command_line.specs.Given.{all_given_for, given_for};
ghost use Rattle.ns_command_line.specs.Words.{IsAlone, IsRefusal};

use crate::words::value::{all_given, given, refused};
use clap::error::ErrorKind;
use clap::{ArgMatches, Command, Error};
use ns_arguments::{count, names};
use ns_pipe::replay::Replay;
use ns_types::name::{Name, NameKind};
use ns_types::rows::Rows;
use ns_types::text::Text;
use std::alloc::{AllocError, Global};

const BAD_NAMESPACE: &str = "the namespace has 1 to 128 letters, digits and hyphens";

const BAD_FROM: &str = "the count of entries is a decimal number below 2^64";

const BAD_POOL: &str = "a pool has 1 to 128 letters, digits, hyphens and underscores";

const BAD_QUOTA: &str = "a quota has 1 to 128 letters, digits, hyphens and underscores";

/// The names that are given for this argument. None: one of them is no name of this kind.
fn names_given(
    alloc: Global,
    matches: &ArgMatches,
    kind: NameKind,
    id: &str,
) -> Result<Option<Rows<Text>>, AllocError>
    ensures { IfOk result (λ names. names
        ≡ names_by kind (all_given_for (codes "alone") id.now (subcommand_rows_of matches.now))) }
{
    names(alloc, kind, all_given(matches, "alone", id).unwrap_or(&[]))
}

/// The replay that the arguments of `alone` ask for, in this namespace, or the fault in them.
pub fn alone_given(
    alloc: Global,
    command: &mut Command,
    matches: &ArgMatches,
    namespace: &str,
) -> Result<Replay, Error>
    requires given { given_for (codes "alone") (codes "namespace") (subcommand_rows_of matches.now)
        ≡ Some namespace.now }
    ensures gives { IfOk result (IsAlone (subcommand_rows_of matches.now)) }
    ensures good { (replay : Replay) → IsAlone (subcommand_rows_of matches.now) replay
        → IfErr result (λ error. kind_of error ≡ ErrorKind.OutOfMemory) }
    ensures bad { IfErr result IsRefusal }
{
    let Some(namespace) = Name::read(NameKind::Namespace, namespace) else {
        return Err(refused(command, BAD_NAMESPACE));
    };
    let Some(from) = count(given(matches, "alone", "from")) else {
        return Err(refused(command, BAD_FROM));
    };
    let Some(pools) = names_given(alloc, matches, NameKind::Pool, "pool")? else {
        return Err(refused(command, BAD_POOL));
    };
    let Some(quotas) = names_given(alloc, matches, NameKind::Quota, "quota")? else {
        return Err(refused(command, BAD_QUOTA));
    };
    Ok(Replay {
        namespace: Text::from_str(alloc, namespace.as_str())?,
        from,
        pools,
        quotas,
    })
}
