//! The words that the program takes, for `clap`.

mod options;
mod serve;

ghost use Rattle.std.specs.Prelude.{◌≡◌, IfOk, false};
ghost use Rattle.clap.specs.Words.{App, app_of, rule_of};
ghost use Rattle.clap.specs.declared.builder.command.Command.TheViews.{out-Command};
ghost use Rattle.ns_command_line.specs.Words.{alone_words, bare_words, drive_rule, namespace_rule};
ghost use Rattle.ns_command_line.specs.Words.{pipe_words, program_words, with_app};

use crate::command::options::{OptionWords, option, repeated, required};
use clap::{Arg, ArgAction, Command};
use std::alloc::{AllocError, Global};

const EXAMPLE: &str = "Example:
  nsd pipe --bootstrap root < examples/one-job.http";

const STATUSES: &str = "Exit statuses:
  0  pipe: served to the end; serve: served and settled; alone: same
  1  serve: mismatch; alone: differs, a premise fails, or not a run
  2  bad arguments; alone: or a bad log
  3  the input failed; pipe: or it ended inside a request; serve: no address or no connection
  4  the output failed
  5  out of memory; serve: or a thread could not be started";

const ALONE: &str = "\
Standard input is a log, as `serve` and `pipe --print log` print it. The first COUNT entries set up the
server; from there on the namespace's own steps are repeated by a server that holds no other.

--pool and --quota name the pools and quotas that the namespace has to itself. Its own steps are the
requests in the namespace or for its pools, with any token; what workers did for it; and requests of
administrators for its record (within these pools and quotas), its pools, its quotas, or for policies
and tokens.

Promised: a namespace that has these pools and quotas to itself gets the same replies alone.
What must hold, from COUNT on:
  no other namespace may use one of the pools or names one of the quotas
  the namespace is confined to these pools and names no other quota
  none of its jobs runs or waits in another pool
  no put of its record, pools or quotas is refused because a table of the server is full
Administrators may change its record, its quotas, its pools, policies and tokens meanwhile.
Not promised: how long a step takes, replies to steps that are not its own, anything once one fails.

Printed: place in the log, status and body of each repeated step, and at the end
  same                each reply is the one in the log
  differs at P        alone, the reply at place P is a different one
  premise fails at P  one of the conditions above does not hold before or after place P
  not a run at P      no server gives the reply that stands at place P
  bad log line L      line L is no line of a log; nothing else is printed

Exit statuses:
  0  same
  1  differs at P, premise fails at P or not a run at P
  2  bad arguments, or bad log line L
  3  the input failed
  4  the output failed
  5  out of memory";

const BOOTSTRAP: OptionWords = (
    "bootstrap",
    "SECRET",
    "The secret of the first management token: 1 to 64 printable bytes without a space",
);

const PRINT: OptionWords = (
    "print",
    "WHAT",
    "What standard output gets: `replies` or `log` (default: replies)",
);

const FROM: OptionWords = (
    "from",
    "COUNT",
    "Number of entries of the log that set up the server first (default: 0)",
);

const POOL: OptionWords = (
    "pool",
    "NAME",
    "A pool that the namespace has to itself; repeat it for each (default without --quota: \
     the pools that it may use after COUNT entries)",
);

const QUOTA: OptionWords = (
    "quota",
    "NAME",
    "A quota that it has to itself; repeat it for each (default without --pool: the one that \
     it names after COUNT entries)",
);

fn drive<'a>(alloc: Global) -> Arg<'a>
    ensures rule { rule_of result ≡ drive_rule }
    ensures local { result.global ≡ false }
{
    Arg::new(alloc, "drive")
        .long("drive")
        .action(ArgAction::SetTrue)
        .help(
            "After each request a worker places what is ready, has its plans applied, and finishes",
        )
}

fn namespace<'a>(alloc: Global) -> Arg<'a>
    ensures rule { rule_of result ≡ namespace_rule }
    ensures local { result.global ≡ false }
{
    Arg::new(alloc, "namespace")
        .value_name("NAMESPACE")
        .required(true)
        .help("The namespace: 1 to 128 letters, digits and hyphens")
}

fn pipe<'a>(alloc: Global) -> Result<Command<'a>, AllocError>
    ensures shape { IfOk result (λ command. app_of command ≡ pipe_words) }
    ensures local { IfOk result (λ command. (out-Command command).has_globals ≡ false) }
{
    let about =
        "Answers standard input as one HTTP/1.1 connection, with the replies on standard output";
    let args = vec![in alloc;
        required(alloc, BOOTSTRAP),
        drive(alloc),
        option(alloc, PRINT),
    ]?;
    options::bare(alloc, "pipe", about, EXAMPLE).args(args)
}

fn alone<'a>(alloc: Global) -> Result<Command<'a>, AllocError>
    ensures shape { IfOk result (λ command. app_of command ≡ alone_words) }
    ensures local { IfOk result (λ command. (out-Command command).has_globals ≡ false) }
{
    let about =
        "Replays a namespace's own steps of a log alone, and says whether each reply is the same";
    let args = vec![in alloc;
        namespace(alloc),
        option(alloc, FROM),
        repeated(alloc, POOL),
        repeated(alloc, QUOTA),
    ]?;
    options::bare(alloc, "alone", about, ALONE).args(args)
}

/// The program without its subcommands.
fn bare<'a>(alloc: Global) -> Command<'a>
    ensures { app_of result ≡ bare_words }
{
    options::bare(
        alloc,
        "nsd",
        "A scheduling server for many tenants",
        STATUSES,
    )
    .subcommand_required(true)
}

/// This program with this subcommand, if there was memory for it.
fn added<'a>(
    program: Command<'a>,
    subcommand: Result<Command<'a>, AllocError>,
) -> Result<Command<'a>, AllocError>
    ensures { IfOk result (λ more. (app : App)
        → IfOk subcommand.entry (λ s. (app_of s ≡ app) × ((out-Command s).has_globals ≡ false))
        → app_of more ≡ with_app (app_of program.entry) app) }
{
    match subcommand {
        Ok(subcommand) => program.subcommand(subcommand),
        Err(error) => {
            drop(program);
            Err(error)
        }
    }
}

/// The words that the program takes.
pub fn command<'a>(alloc: Global) -> Result<Command<'a>, AllocError>
    ensures { IfOk result (λ command. app_of command ≡ program_words) }
{
    let program = added(bare(alloc), pipe(alloc))?;
    let program = added(program, serve::serve(alloc))?;
    added(program, alone(alloc))
}
